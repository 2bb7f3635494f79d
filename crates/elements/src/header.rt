//! The header of an Element, parsed from bytes: its ID, its size, and the damage that it may have.

ghost use Rattle.std.specs.Prelude.{◌≡◌, ◌<◌, ◌≤◌, ◌+◌, ◌^◌, length, drop, nat_lt, IfOk};
ghost use Rattle.mkv_schema.specs.Element.{body_damage, cut_header, element_in, id_in, stated_end, with_size};
ghost use Rattle.mkv_schema.specs.Placed.{StandsAt, IsWhole};
ghost use Rattle.ebml_numbers.specs.Number.{size_at};
ghost use Rattle.elements.specs.Parent.{setting_of};

use crate::parent::Parent;
use ebml_numbers::{IdRead, NumFault, Size, read_id, read_size};
use mkv_io::{Damage, Kind};
use mkv_schema::Header;
use mkv_schema::ids::{CHAPTER_DISPLAY, CLUSTER, SEGMENT};

/// Parses the header of the Element at the start of `octets`, or returns its damage.
///
/// The bytes are at the offset `at` of a file of `total` bytes, and reach to `end`, the parent's end. The first
/// `MAX_ELEMENT_HEADER_LEN` of them are enough. `parent` decides what is valid. All readers of Elements call it.
pub fn read_header(
    octets: &[u8],
    parent: Parent,
    total: u64,
    at: u64,
    end: u64,
) -> Result<Header, Damage>
    requires { at ≤ 2 ^ 63 }
    ensures exact { result ≡ element_in (setting_of parent) octets.now total at end }
    ensures placed { at + length octets.now ≤ end → IfOk result (StandsAt at end) }
    ensures whole { IfOk result (IsWhole (setting_of parent) end) }
{
    first_header(octets, parent, total, at, end)
}

// Parses the header at the start of `octets`, or returns its damage. The bytes are at the offset `at` of a file of
// `total` bytes, and reach to the offset `end` of the parent's end. For `read_header`, when a reader parses a header.
#[tactic(auto, unfolding(mkv_schema::specs::Element::element_in))]
fn first_header(
    octets: &[u8],
    parent: Parent,
    total: u64,
    at: u64,
    end: u64,
) -> Result<Header, Damage>
    requires { at ≤ 2 ^ 63 }
    ensures { result ≡ element_in (setting_of parent) octets.now total at end }
{
    let id = match id_at(octets, parent) {
        Ok(id) => id,
        Err(NumFault::Bad) => return Err(damage(Kind::BadId, 0, at)),
        Err(NumFault::More(count)) => {
            return Err(cut_header(parent, total, 0, at, at + u64::from(count) + 1));
        }
    };
    let behind = at + u64::from(id.len);
    let size = match read_size(&octets[usize::from(id.len)..]) {
        Ok(size) => size,
        Err(NumFault::Bad) => return Err(damage(Kind::BadSize, id.id, at)),
        Err(NumFault::More(count)) => {
            return Err(cut_header(parent, total, id.id, at, behind + u64::from(count)));
        }
    };
    let header = Header {
        id: id.id,
        offset: at,
        body: behind + u64::from(size.len),
        size: size.size,
    };
    match body_damage(&header, parent, total, end) {
        None => Ok(header),
        Some(kind) => Err(damage_at(kind, &header)),
    }
}

// Reads the Element ID at the start of `octets`. ChapterDisplay's one-byte ID is valid only in a ChapterAtom. For
// `first_header`, when a reader parses a header.
fn id_at(octets: &[u8], parent: Parent) -> Result<IdRead, NumFault>
    ensures exact { result ≡ id_in (setting_of parent) octets.now }
    ensures inside { IfOk result (λ read. read.len ≤ length octets.now) }
{
    if parent.has_display() && octets.first() == Some(&(CHAPTER_DISPLAY as u8)) {
        return Ok(IdRead {
            id: CHAPTER_DISPLAY,
            len: 1,
        });
    }
    read_id(octets)
}

/// Returns damage of the kind `kind` at the Element `header`. Used by all readers that refuse an Element.
pub fn damage_at(kind: Kind, header: &Header) -> Damage
    ensures { result ≡ record { kind = kind; id = header.now.id; offset = header.now.offset } }
{
    damage(kind, header.id, header.offset)
}

/// Returns damage of the kind `kind` at an Element with the ID `id` and the offset `offset` in the file. Used by all
/// readers that refuse an Element.
pub fn damage(kind: Kind, id: u32, offset: u64) -> Damage
    ensures { result ≡ record { kind = kind; id = id; offset = offset } }
{
    Damage { kind, id, offset }
}

// Returns the damage of an Element with the ID `id` at the offset `at`, whose header ends at `end`, after its parent's
// end. The file has `total` bytes. For `first_header`, when a reader parses a header.
fn cut_header(parent: Parent, total: u64, id: u32, at: u64, end: u64) -> Damage
    ensures { result ≡ cut_header (setting_of parent) total id at end }
{
    if !parent.is_tree() && total < end {
        damage(Kind::Truncated, id, at)
    } else {
        damage(Kind::TooLong, id, at)
    }
}

// Returns the kind of damage of the data of `header`, if any. Its parent ends at the offset `end`, and the file has
// `total` bytes. For `first_header`, when a reader parses a header.
fn body_damage(header: &Header, parent: Parent, total: u64, end: u64) -> Option<Kind>
    requires { stated_end header.now < 2 ^ 64 }
    ensures { result ≡ body_damage (setting_of parent) total end header.now }
{
    let may_open = parent.may_open(header.id);
    let stated_end = match header.size {
        Size::Known(size) => header.body + size,
        Size::Unknown if !may_open => return Some(Kind::UnknownSize),
        Size::Unknown => header.body,
    };
    let is_open_kind = header.id == SEGMENT || header.id == CLUSTER;
    let ends_with_file = end == total;
    if !parent.is_tree() && total < stated_end && (!is_open_kind || (!may_open && ends_with_file)) {
        return Some(Kind::Truncated);
    }
    if end < stated_end && !(may_open && ends_with_file) {
        return Some(Kind::TooLong);
    }
    None
}
