//! The selected tracks, and their TrackEntries in the output: RFC 9559, section 5.1.4 (Tracks Element).

ghost use Rattle.std.specs.Prelude.{◌≡◌, map, IfOk};
ghost use Rattle.std.specs.List.{All};
ghost use Rattle.track_records.specs.Entry.{IsWholeEntry};
ghost use Rattle.merge_inputs.specs.Input.{read_in};
ghost use Rattle.merge_inputs.specs.Taken.{IsTaken};
ghost use Rattle.merge_plan.specs.Records.{entries_of, entry_of, keys_from, tracks_begun, tracks_ordered, tracks_taken, uids_of};
ghost use Rattle.merge_plan.specs.Lent.{lent};

use crate::order::in_order;
use ebml_tree::Tree;
use merge_inputs::{Input, TakenTrack};
use mkv_io::List;
use record_changes::renumber;
use std::alloc::{AllocError, Global};
use track_records::{TrackChange, written};

/// Returns the tracks of `input` that begin output tracks: its selected tracks, or none if it is appended to another
/// input. The plan of a merge calls it for each input.
pub(crate) fn tracks_begun(input: &Input) -> &[TakenTrack]
    ensures { result.now ≡ tracks_begun (read_in input.now) }
{
    if input.shift.is_some() {
        &[]
    } else {
        input.taken.as_slice()
    }
}

/// Returns the tracks of `inputs` that begin output tracks, input after input. `plan_of` calls it to count them, and
/// `tracks_ordered` puts them in the order of the output.
pub(crate) fn tracks_taken(alloc: Global, inputs: &[Input]) -> Result<Vec<&TakenTrack>, AllocError>
    ensures { IfOk result (λ taken. lent taken.items ≡ tracks_taken (map read_in inputs.now)) }
{
    let mut taken = Vec::new(alloc);
    for input in inputs {
        for track in tracks_begun(input) {
            taken.push(track)?;
        }
    }
    Ok(taken)
}

/// Returns the keys of the tracks of `inputs` that begin output tracks, input after input: for each the index of its
/// input and its index in Tracks. The option `--track-order` names output tracks by them. Each list of output tracks is
/// put in order by them.
pub(crate) fn keys_of(alloc: Global, inputs: &[Input]) -> Result<Vec<(u64, u64)>, AllocError>
    ensures { IfOk result (λ keys. keys.items ≡ keys_from 0 (map read_in inputs.now)) }
{
    let mut keys = Vec::new(alloc);
    for (number, input) in inputs.iter().enumerate() {
        for track in tracks_begun(input) {
            keys.push((number as u64, track.id))?;
        }
    }
    Ok(keys)
}

/// Returns the tracks of `inputs` that begin output tracks, in the order of the output, which the pairs `order` give.
/// The output tracks are numbered from 1 in this order. `plan_of` calls it before it builds the TrackEntries.
pub(crate) fn tracks_ordered<'a>(
    alloc: Global,
    order: &[(u64, u64)],
    inputs: &'a [Input],
) -> Result<Vec<&'a TakenTrack>, AllocError>
    ensures { IfOk result (λ taken. lent taken.items ≡ tracks_ordered order.now (map read_in inputs.now)) }
{
    let keys = keys_of(alloc, inputs)?;
    let taken = tracks_taken(alloc, inputs)?;
    in_order(alloc, order, keys.as_slice(), taken)
}

/// Returns the TrackUIDs of the output tracks that the tracks `taken` begin: their own, or another if one occurs again.
/// `output_of` calls it for the TrackEntries, and for the Targets of Tags.
pub(crate) fn uids_of(alloc: Global, taken: &[&TakenTrack]) -> Result<List<u64>, AllocError>
    ensures { IfOk result (λ uids. uids ≡ uids_of (lent taken.now)) }
{
    let uids: Vec<u64> = taken.iter().map(|each| each.track.uid).collect(alloc)?;
    renumber(alloc, uids.as_slice())
}

/// Builds the output's TrackEntry of the selected track `taken`, with the TrackNumber `number`, the TrackUID `uid` and
/// the changes that the options ask for. `entries_of` calls it for each output track.
fn entry_of(alloc: Global, number: u64, uid: u64, taken: &TakenTrack) -> Result<Tree, AllocError>
    requires { IsTaken taken.now }
    ensures exact { IfOk result (λ entry. entry ≡ entry_of number uid taken.now) }
    ensures whole { IfOk result IsWholeEntry }
{
    let change = TrackChange {
        number,
        uid,
        name: taken.name.clone()?,
        language: taken.language.clone()?,
        language_tag: taken.language_tag.clone()?,
        flag_default: taken.flag_default,
        flag_forced: taken.flag_forced,
        flags: taken.flags,
    };
    written(alloc, &taken.track, &change)
}

/// Builds the output's TrackEntries of the selected tracks `taken`, with the TrackUIDs `uids` and TrackNumbers from 1,
/// for the Tracks that `output_of` builds.
pub(crate) fn entries_of(
    alloc: Global,
    taken: &[&TakenTrack],
    uids: &[u64],
) -> Result<List<Tree>, AllocError>
    requires taken { All IsTaken (lent taken.now) }
    requires uids { uids.now ≡ uids_of (lent taken.now) }
    ensures exact { IfOk result (λ entries. entries ≡ entries_of (lent taken.now)) }
    ensures whole { IfOk result (All IsWholeEntry) }
{
    let mut entries = List::new(alloc);
    for (k, each) in taken.iter().enumerate() {
        entries.push(entry_of(alloc, k as u64 + 1, uids[k], each)?)?;
    }
    Ok(entries)
}
