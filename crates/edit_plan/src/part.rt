//! An Element at level 1 that an edit rewrites or removes.

ghost use Rattle.std.specs.Prelude.{◌≡◌, ◌≤◌, ◌^◌, true, length};
ghost use Rattle.std.specs.Option.{option_map_or};
ghost use Rattle.ebml_numbers.specs.Number.{is_id};

use mkv_io::Bytes;

/// Element of level 1 that is rewritten or removed: RFC 9559, section 5.1 (Segment Element).
#[derive(Drop)]
pub struct Part {
    pub id: u32,
    /// Offset of the old Element in the file, in bytes.
    pub place: u64,
    /// Length of the old Element in bytes, with the Voids that follow it directly; 0 if there is no old Element.
    pub room: u64,
    /// Number of Elements that are written, itself included.
    pub nodes: u64,
    /// Body of the new Element in the normal form, or None if it is removed.
    pub body: Option<Bytes>,
    ghost id_stands: { is_id id ≡ true },
    ghost short: { option_map_or (λ octets. length octets) body 0 ≤ 2 ^ 48 },
    ghost inside: { room ≤ 2 ^ 48 },
}
