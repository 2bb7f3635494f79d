//! Refusals of a move of Info or Tracks to the end of the file, if something there has no room.

ghost use Rattle.std.specs.Prelude.{◌≡◌, ◌≤◌, ◌<◌, ◌^◌, IfSome};
ghost use Rattle.mkv_schema.specs.Element.{stated_end};
ghost use Rattle.edit_changes.specs.Plan as plan;
ghost use Rattle.edit_changes.specs.Ends.{EndsFit};
ghost use Rattle.mkv_schema.specs.declared.ids.TheConstants.{SEGMENT as SEGMENT_ID};

use crate::refusal::{Refusal, Room};
use crate::span::number_of;
use ebml_numbers::{Size, put_id, size_width as least_width};
use element_reader::{Header, Outline};
use mkv_schema::ids::{CLUSTER, SEGMENT};

/// Returns the end offset that `header` states, unless it is `total`, the length of the file. A header of unknown size
/// states none. `wrong_end` does this for the Segment and its last Cluster.
fn other_end(total: u64, header: &Header) -> Option<u64>
    ensures { stated_end header.now < 2 ^ 64 → result ≡ plan.other_end total header.now }
{
    let Size::Known(octets) = header.size else {
        return None;
    };
    let end = header.body.saturating_add(octets);
    if end == total {
        return None;
    }
    Some(end)
}

/// Returns the end offset that `last`, the last Element at level 1, states, if it is a Cluster. It is None if the end
/// is `total`, the length of the file. `wrong_end` calls it.
fn cluster_end(total: u64, last: Option<Header>) -> Option<u64>
    ensures { IfSome last (λ h. stated_end h < 2 ^ 64) → result ≡ plan.cluster_end total last }
{
    let last = last?;
    if last.id != CLUSTER {
        return None;
    }
    other_end(total, &last)
}

/// Returns the first end offset that prevents appending to the file with this `outline`, if any, for `tail_refusal`. It
/// is the Segment's stated end, the last Cluster's, or the end of a Segment of unknown size, whichever isn't the file's
/// end.
fn wrong_end(outline: &Outline) -> Option<u64>
    ensures { EndsFit outline.now → result ≡ plan.wrong_end outline.now }
{
    let total = outline.total();
    if let Some(end) = other_end(total, &outline.segment()) {
        return Some(end);
    }
    if let Some(end) = cluster_end(total, outline.last()) {
        return Some(end);
    }
    if outline.end() == total {
        return None;
    }
    Some(outline.end())
}

/// Returns the refusal `Room::Tail` if nothing may be appended to the file with this outline. A plan asks for it if an
/// Element moves to the end of the file. Used by `end_refusal` of `edit_plan`.
pub fn tail_refusal(outline: &Outline) -> Option<Refusal>
    ensures { EndsFit outline.now → result ≡ plan.tail_refusal outline.now }
{
    let end = wrong_end(outline)?;
    Some(Refusal::NoRoom {
        why: Room::Tail,
        need: end,
        have: outline.total(),
    })
}

/// Returns the refusal `Room` of kind `why` if `need` is more than `have`, both in bytes. Used for the SeekHead and for
/// the Segment's size field. Used by `size_refusal`.
pub fn lacks(why: Room, need: u64, have: u64) -> Option<Refusal>
    ensures { result ≡ plan.lacks why need have }
{
    if have < need {
        return Some(Refusal::NoRoom { why, need, have });
    }
    None
}

/// Returns the refusal `Room::Twin` if the file with this `outline` has more than one Element with the ID `id` at level
/// 1. Such an Element can't move. Used for each part that moves, and for Cues by `reindex`.
pub fn twin_refusal(outline: &Outline, id: u32) -> Option<Refusal>
    ensures { result ≡ plan.twin_of outline.now.others id }
{
    let number = number_of(outline, id);
    if number > 1 {
        return Some(Refusal::NoRoom {
            why: Room::Twin,
            need: 1,
            have: number,
        });
    }
    None
}

/// Returns the number of bytes of the size field in the Segment's header `segment`. A plan that appends writes a new
/// size in it, or refuses if it is too short. Used by `width_of` and `size_refusal`.
#[tactic(auto, unfolding(ebml_numbers::specs::Number::is_id), using(crate::proofs::SpanLemmas::ids))]
pub fn size_width(segment: &Header) -> u64
    ensures { result ≡ plan.size_width segment.now }
{
    segment
        .body
        .saturating_sub(segment.offset)
        .saturating_sub(u64::from(put_id(SEGMENT).len))
}

/// Returns the refusal `Room::SegmentSize` if the size field of `segment`, which ends at the offset `end` after the
/// edit, has too few bytes for that. A plan that appends asks for it. A Segment of unknown size isn't refused. Used by
/// `growth_refusal` of `edit_plan`.
pub fn size_refusal(segment: &Header, end: u64) -> Option<Refusal>
    requires { end ≤ 2 ^ 50 }
    ensures { result ≡ plan.size_refusal segment.now end }
{
    let Size::Known(_) = segment.size else {
        return None;
    };
    let need = least_width(end.saturating_sub(segment.body));
    lacks(Room::SegmentSize, u64::from(need), size_width(segment))
}
