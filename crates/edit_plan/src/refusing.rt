//! Reasons to refuse the writes of an edit.

ghost use Rattle.std.specs.Prelude.{◌≡◌, ◌≤◌, ◌+◌, ◌^◌, None, if◌then◌else◌, map};
ghost use Rattle.edit_changes.specs.Plan as spec;
ghost use Rattle.edit_changes.specs.declared.refusal.TheConstants.{MAX_WRITTEN as MOST};
ghost use Rattle.edit_changes.specs.Ends.{EndsFit};
ghost use Rattle.edit_plan.specs.Moving.{refused};
ghost use Rattle.edit_plan.specs.Shown.{shown};
ghost use Rattle.edit_plan.specs.Made.{SizeFits, size_refused, tail_refused};

use crate::appended::{any_moves, duplicates, most_nodes};
use crate::part::Part;
use ebml_tree::MAX_NODES;
use edit_changes::{MAX_WRITTEN, Refusal, Room, lacks, size_refusal, tail_refusal};
use element_reader::Outline;

/// Returns the refusal if `length`, the bytes of all writes, is more than 16 MiB, or if one of `parts` has too many
/// Elements. Both kinds of plan ask for it first.
pub fn too_large(length: u64, parts: &[Part]) -> Option<Refusal>
    ensures exact { result ≡ spec.too_large length (map shown parts.now) }
    ensures small { result ≡ None → length ≤ MOST }
{
    let nodes = most_nodes(parts);
    if nodes > u64::from(MAX_NODES) || length > MAX_WRITTEN {
        return Some(Refusal::EditTooLarge { length, nodes });
    }
    None
}

/// Returns the refusal if one of `parts` is appended to the file, and the Segment or the last Cluster doesn't end with
/// the file; or None. `outline` is the file's. `moving_refusal` calls it.
fn end_refusal(outline: &Outline, parts: &[Part]) -> Option<Refusal>
    ensures { EndsFit outline.now → result ≡ tail_refused outline.now (map shown parts.now) }
{
    if any_moves(parts) {
        return tail_refusal(outline);
    }
    None
}

/// Returns the refusal if one of `parts` is appended to the file, and the Segment's size field is too short for `added`
/// bytes more; or None. `outline` is the file's. `moving_refusal` ends with it.
fn growth_refusal(outline: &Outline, parts: &[Part], added: u64) -> Option<Refusal>
    requires { outline.now.total + added ≤ 2 ^ 50 }
    ensures { result ≡ size_refused outline.now (map shown parts.now) added }
{
    if any_moves(parts) {
        return size_refusal(&outline.segment(), outline.total() + added);
    }
    None
}

/// Returns the first refusal of the writes of `parts`, in the order of the checks, for the file with this `outline`, or
/// None. `length` bytes are written in all, and `added` of them appended to the file. The new SeekHead has `need` bytes
/// in its shortest form, and the old one leaves `room`. `moving_writes` asks for it before it joins its writes.
pub fn moving_refusal(
    outline: &Outline,
    parts: &[Part],
    length: u64,
    added: u64,
    need: u64,
    room: u64,
) -> Option<Refusal>
    requires short { outline.now.total ≤ 2 ^ 48 }
    requires part { added ≤ length }
    ensures exact { EndsFit outline.now → result ≡ refused outline.now (map shown parts.now) length added need room }
    ensures small { result ≡ None → length ≤ MOST }
    ensures room { result ≡ None → need ≤ room }
    ensures size { result ≡ None → SizeFits outline.now (map shown parts.now) added }
{
    if let Some(refusal) = too_large(length, parts) {
        return Some(refusal);
    }
    if let Some(refusal) = end_refusal(outline, parts) {
        return Some(refusal);
    }
    if let Some(refusal) = duplicates(outline, parts) {
        return Some(refusal);
    }
    if let Some(refusal) = lacks(Room::SeekHead, need, room) {
        return Some(refusal);
    }
    growth_refusal(outline, parts, added)
}
