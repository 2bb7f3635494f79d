//! The new SeekHead, and the write of the Segment's new size.

ghost use Rattle.std.specs.Prelude.{◌≡◌, ◌≤◌, ◌^◌, ◌+◌, [], None, IfOk, IfSome, IsTrue, if◌then◌else◌, length, map, option_map, unwrap_or};
ghost use Rattle.std.specs.List.{list_any};
ghost use Rattle.std.specs.Option.{option_map_or};
ghost use Rattle.ebml_numbers.specs.Number.{is_id};
ghost use Rattle.mkv_schema.specs.declared.ids.TheConstants.{SEEK_HEAD as SEEK_HEAD_ID};
ghost use Rattle.output_model.specs.Element.{element, octets_of};
ghost use Rattle.element_reader.specs.Collected.{IsInFile};
ghost use Rattle.edit_changes.specs.Plan as spec;
ghost use Rattle.edit_changes.specs.Span as span;
ghost use Rattle.edit_plan.specs.Found.{found};
ghost use Rattle.edit_plan.specs.Shown.{shown};
ghost use Rattle.edit_plan.specs.Sought.{AreSought};
ghost use Rattle.edit_plan.specs.Made.{IsSeekHead, WritesSize, in_room};

use crate::appended::any_moves;
use crate::found::SeekHead;
use crate::new_seeks::seeks;
use crate::part::Part;
use crate::write::Write;
use ebml_numbers::{Size, put_id, put_size};
use ebml_tree::Tree;
use edit_changes::{fit, seek_head_body, size_width, span_of, whole};
use element_reader::{Header, Outline};
use mkv_io::{Bytes, LONGEST_FILE};
use mkv_schema::ids::SEGMENT;
use std::alloc::{AllocError, Global};

/// Returns the children of the old SeekHead `head`, or none if there is no SeekHead. `new_seek_head` copies some of
/// them.
fn old_seeks(head: &Option<SeekHead>) -> &[Tree]
    ensures { result.now ≡ option_map_or (λ s. s.seeks) (option_map found head.now) [] }
{
    match head {
        Some(head) => head.seeks.as_slice(),
        None => &[],
    }
}

/// Returns the body of the new SeekHead, for `prepared`: the Seeks for `ids` after `parts` are written, and the other
/// children of the old one, `head`. `outline` is the file's.
#[tactic(auto, using(crate::proofs::HeadLemmas::heads))]
pub fn new_seek_head(
    alloc: Global,
    ids: &[u32],
    outline: &Outline,
    parts: &[Part],
    head: &Option<SeekHead>,
) -> Result<Bytes, AllocError>
    requires { AreSought ids.now }
    ensures exact { IfOk result (λ body. IsSeekHead ids.now outline.now parts.now head.now body) }
    ensures short { IfOk result (λ body. length body ≤ 2 ^ 48) }
{
    let seeks = seeks(alloc, ids, outline, parts)?;
    let body = seek_head_body(alloc, ids, seeks.as_slice(), old_seeks(head))?;
    if body.len() as u64 > LONGEST_FILE {
        return Err(AllocError);
    }
    Ok(body)
}

/// Returns the room in bytes of the old SeekHead `head` in `outline`: its length and the Voids directly after it, or 0
/// if there is none. The new SeekHead must fit in it. `prepared` calls it.
pub fn room_of(outline: &Outline, head: &Option<SeekHead>) -> u64
    requires { IfSome head.now (λ s. IsInFile outline.now.total s.header) }
    ensures exact { result ≡ spec.room_of (option_map found head.now) outline.now.others }
    ensures most { result ≤ outline.now.total }
{
    match head {
        Some(head) => span_of(outline, &head.header),
        None => 0,
    }
}

/// Returns the offset in the file of the old SeekHead `head`, where `moving_writes` puts the new one, or 0 if there is
/// none.
pub fn place_of(head: &Option<SeekHead>) -> u64
    ensures { result ≡ spec.place_of (option_map found head.now) }
{
    match head {
        Some(head) => head.header.offset,
        None => 0,
    }
}

/// Returns bytes for the ID `id` and the body `body` of the new SeekHead that fill `room` bytes. An Element that is
/// longer is returned in its shortest form; the caller then refuses the edit.
pub fn fitted_or_whole(
    alloc: Global,
    id: u32,
    body: &[u8],
    room: u64,
) -> Result<Vec<u8>, AllocError>
    requires id { IsTrue (is_id id) }
    requires short { length body.now ≤ 2 ^ 48 }
    requires room { room ≤ 2 ^ 48 }
    ensures { IfOk result (λ octets. octets.items ≡ in_room (element id body.now) room) }
{
    match fit(alloc, id, body, room)? {
        Some(octets) => Ok(octets),
        None => whole(alloc, id, body),
    }
}

/// Returns the number of bytes that a write of the size of `segment` takes: its size field, or 0 if the size is
/// unknown. `size_added` calls it.
fn size_len(segment: &Header) -> u64
    ensures { result ≡ spec.size_length segment.now }
{
    match segment.size {
        Size::Known(_) => size_width(segment),
        Size::Unknown => 0,
    }
}

/// Returns the number of bytes that the edit writes for the Segment's size in `outline`: 0 unless one of `parts` is
/// appended to the file. `prepared` counts it in the length of all writes.
pub fn size_added(outline: &Outline, parts: &[Part]) -> u64
    ensures { result ≡ if list_any spec.moves (map shown parts.now) then spec.size_length outline.now.segment else 0 }
{
    if any_moves(parts) {
        return size_len(&outline.segment());
    }
    0
}

/// Returns the write of the size field of `segment`, which ends at the offset `end` after the edit, as a list of one;
/// none if its size is unknown. `assembled` puts it first.
#[tactic(auto, unfolding(ebml_numbers::specs::Number::is_id), using(crate::proofs::SizeLemmas::sizes))]
pub fn size_write(alloc: Global, segment: &Header, end: u64) -> Result<Vec<Write>, AllocError>
    requires end { end ≤ 2 ^ 50 }
    requires body { segment.now.body ≤ 2 ^ 48 }
    requires fits { spec.size_refusal segment.now end ≡ None }
    ensures { WritesSize segment.now end result }
{
    let mut writes = Vec::new(alloc);
    let Size::Known(_) = segment.size else {
        return Ok(writes);
    };
    let width = size_width(segment).min(8) as u8;
    let octets = put_size(end.saturating_sub(segment.body), width);
    writes.push(Write {
        at: segment.offset + u64::from(put_id(SEGMENT).len),
        octets: octets.as_slice().to_vec(alloc)?,
    })?;
    Ok(writes)
}
