//! Info with a place for a Duration: RFC 9559, section 5.1.2 (Info).

ghost use Rattle.std.specs.Prelude.{◌≡◌, ◌+◌, ◌^◌, ◌<◌, ◌≤◌, ◌++◌, length, flat_map, Some, OnOk, IfOk};
ghost use Rattle.std.specs.Option.{option_map};
ghost use Rattle.mkv_schema.specs.declared.ids.TheConstants.{INFO as INFO_ID};
ghost use Rattle.tree_format.specs.Node.{id_of};
ghost use Rattle.tree_format.specs.NormalForm.{longest, octets};
ghost use Rattle.output_model.specs.Document.{before_duration, duration_place, info_element, is_before_duration, lasting_if};
ghost use Rattle.output_model.specs.Duration.{duration_element};
ghost use Rattle.output_model.specs.Element.{octets_of};

use crate::area::put_void;
use crate::attached::put_children;
use crate::places::sized;
use crate::written::{put_header, put_tree};
use ebml_tree::Tree;
use mkv_io::Bytes;
use mkv_schema::ids::{INFO, NEXT_UUID, PREV_UUID, SEGMENT_UUID, TIMESTAMP_SCALE};
use output_model::{AREA, DURATION_LEN};
use std::alloc::AllocError;
use std::num::{f64_to_bits_with_nan, nearest_u64_to_f64};

// Checks whether the child `child` of an output's Info comes before its Duration: the TimestampScale, or an identifier
// of the Segment or of one beside it. Used by `first_behind`.
fn is_before_duration(child: &Tree) -> bool
    ensures { result ≡ is_before_duration child.now }
{
    matches!(
        child.id(),
        TIMESTAMP_SCALE | SEGMENT_UUID | PREV_UUID | NEXT_UUID
    )
}

// Returns the index at which a Duration comes among `children`, the children of an output's Info, counted from 0. It is
// their number if it comes last. `put_with_void` splits the children there.
fn duration_index(children: &[Tree]) -> usize
    ensures exact { result ≡ duration_place children.now }
    ensures inside { result ≤ length children.now }
{
    let found = children.iter().position(|child| !is_before_duration(child));
    found.unwrap_or(children.len())
}

// Returns the length in bytes of the trees `children` in their normal form, for the size of an Info. Fails as if memory
// ran out if a size can't express it. Used by `put_with_void`.
fn children_len(children: &[Tree]) -> Result<u64, AllocError>
    ensures exact { IfOk result (λ len. len ≡ length (flat_map octets children.now)) }
    ensures most { IfOk result (λ len. len ≤ longest) }
{
    let mut total = 0;
    for child in children {
        total = sized(total + child.written_len())?;
    }
    Ok(total)
}

// Appends the Info `info` to `out`, with a Void in the place of its Duration, which `finish` overwrites. Returns the
// number of bytes of `out` before the Void.
#[tactic(auto, unfolding(ebml_numbers::specs::Number::is_id))]
fn put_with_void(out: &mut Bytes, info: &Tree) -> Result<usize, AllocError>
    requires { id_of info.now ≡ INFO_ID }
    ensures octets { OnOk result (out.new ≡ out.old ++ octets_of (info_element info.now (Some 0))) }
    ensures place { IfOk result (λ place. place ≡ length (out.old ++ before_duration info.now)) }
    ensures most { IfOk result (λ place. place < 2 ^ 63) }
{
    let children = info.children();
    let (first, others) = children.split_at(duration_index(children));
    let len = sized(children_len(first)? + DURATION_LEN + children_len(others)?)?;
    put_header(out, INFO, len)?;
    put_children(out, first)?;
    let place = out.len();
    put_void(out, DURATION_LEN)?;
    put_children(out, others)?;
    Ok(place)
}

/// Appends the Info `info` of an output to `out`, which has the bytes after the area. If `duration` is set, a Void is
/// in the place of its Duration. Returns the offset of the Void in bytes from the start of the Segment's body, or None
/// without a Void.
pub(crate) fn put_info(
    out: &mut Bytes,
    info: &Tree,
    duration: bool,
) -> Result<Option<u64>, AllocError>
    requires { id_of info.now ≡ INFO_ID }
    ensures octets { OnOk result (out.new ≡ out.old ++ octets_of (info_element info.now (lasting_if duration))) }
    ensures place { IfOk result (λ place. place ≡ option_map (λ end. AREA + length (out.old ++ before_duration info.now)) (lasting_if duration)) }
{
    if duration {
        let place = put_with_void(out, info)?;
        return Ok(Some(AREA + place as u64));
    }
    put_tree(out, info)?;
    Ok(None)
}

/// Returns the Duration of an output that ends at the tick `end`, which is above 0: the ID, the size, and a float of
/// eight bytes. `finish` writes it over the Void in its place.
pub(crate) fn duration_octets(end: u64) -> [u8; DURATION_LEN as usize]
    requires { 1 ≤ end }
    ensures { result ≡ octets_of (duration_element end) }
{
    let mut octets = [0x44, 0x89, 0x88, 0, 0, 0, 0, 0, 0, 0, 0];
    let bits = f64_to_bits_with_nan(nearest_u64_to_f64(end));
    octets[3..].copy_from_slice(&bits.to_be_bytes());
    octets
}
