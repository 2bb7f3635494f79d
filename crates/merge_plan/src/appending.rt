//! Check whether the tracks of an appended input can continue the output tracks of the previous one: RFC 9559,
//! section 5.1.4 (Tracks Element).

ghost use Rattle.std.specs.Prelude.{◌≡◌, length, map};
ghost use Rattle.merge_inputs.specs.Input.{read_in};
ghost use Rattle.merge_plan.specs.Appending.{append_refusal, difference_at, differing, first_differing, lane_tracks};

use merge_inputs::{Input, TakenTrack};
use mkv_schema::ids::TRACK_ENTRY;
use track_records::differs;

/// Appended input whose tracks can't continue the output tracks of the input before it; the merge is refused.
#[derive(Clone, Copy, Debug, PartialEq, Eq)]
pub struct AppendDiffers {
    /// Index of the input, counted from 0.
    pub input: usize,
    /// ID of the first Element of a track that differs from its output track; TrackEntry if the numbers of tracks
    /// differ.
    pub id: u32,
}

// Compares the selected tracks of an appended input, `taken`, with the tracks that began the output tracks, `lanes`.
// Returns the ID of the first Element that differs, or None. Both lists have the same length. `differing` calls it
// after it has compared the lengths.
fn first_differing(lanes: &[TakenTrack], taken: &[TakenTrack]) -> Option<u32>
    requires { length lanes.now ≡ length taken.now }
    ensures { result ≡ first_differing lanes.now taken.now }
{
    for (k, lane) in lanes.iter().enumerate() {
        if let Some(id) = differs(&lane.track, &taken[k].track) {
            return Some(id);
        }
    }
    None
}

// Compares the selected tracks of an appended input, `taken`, with the tracks that began the output tracks, `lanes`.
// Returns the ID of the first Element that differs, TrackEntry if the lengths differ, or None. Used by `append_refusal`
// through `difference_at`.
fn differing(lanes: &[TakenTrack], taken: &[TakenTrack]) -> Option<u32>
    ensures { result ≡ differing lanes.now taken.now }
{
    if lanes.len() == taken.len() {
        first_differing(lanes, taken)
    } else {
        Some(TRACK_ENTRY)
    }
}

// Returns the ID of the first Element that keeps `input` from being appended, or None. `before` has the tracks that
// began the output tracks; an input that isn't appended is never compared. `append_refusal` calls it for each input.
fn difference_at(before: &[TakenTrack], input: &Input) -> Option<u32>
    ensures { result ≡ difference_at before.now (read_in input.now) }
{
    if input.shift.is_some() {
        differing(before, input.taken.as_slice())
    } else {
        None
    }
}

// Returns the tracks that the input after `input` is compared with, if it is appended: the ones that began the output
// tracks. An appended `input` leaves `before` as it is. `append_refusal` calls it after each input.
fn lane_tracks<'a>(before: &'a [TakenTrack], input: &'a Input) -> &'a [TakenTrack]
    ensures { result.now ≡ lane_tracks before.now (read_in input.now) }
{
    if input.shift.is_some() {
        before
    } else {
        input.taken.as_slice()
    }
}

/// Returns the first of `inputs` that is appended and whose tracks can't continue the output tracks of the previous
/// one, or None. Their number differs, or a track differs from its output track in its type, its codec with its private
/// data, its size, its sampling or the ContentEncodings that is kept. `merge` refuses the command because of it, before
/// it looks for append offsets.
pub fn append_refusal(inputs: &[Input]) -> Option<AppendDiffers>
    ensures { result ≡ append_refusal (map read_in inputs.now) }
{
    let mut before: &[TakenTrack] = &[];
    for (k, input) in inputs.iter().enumerate() {
        if let Some(id) = difference_at(before, input) {
            return Some(AppendDiffers { input: k, id });
        }
        before = lane_tracks(before, input);
    }
    None
}
