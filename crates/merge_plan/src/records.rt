//! Data of the inputs besides their tracks and blocks.

ghost use Rattle.std.specs.Prelude.{◌≡◌, length, map, IfOk};
ghost use Rattle.std.specs.List.{All};
ghost use Rattle.output_records.specs.Inputs.{IsInput};
ghost use Rattle.merge_inputs.specs.Input.{read_in};
ghost use Rattle.merge_plan.specs.Order.{in_order, picked};
ghost use Rattle.merge_plan.specs.Records.{is_begun_by, kept_in, lanes_with, owner_at, records_from, records_in, uid_of};
ghost use Rattle.merge_plan.specs.TakenTracks.{HasRecords};

use crate::order::in_order;
use ebml_tree::Tree;
use merge_inputs::Input;
use mkv_io::List;
use output_model::Attachment;
use output_records::InputRecords;
use std::alloc::{AllocError, Global};

// Returns a copy of the attached files `files` of an input, without their data, which stay in the inputs. `records_in`
// calls it.
fn copies(alloc: Global, files: &[Attachment]) -> Result<List<Attachment>, AllocError>
    ensures { IfOk result (λ copies. copies ≡ files.now) }
{
    let mut copies = List::new(alloc);
    for file in files {
        copies.push(Attachment {
            uid: file.uid,
            file: file.file,
            at: file.at,
            len: file.len,
            entry: file.entry.copy(alloc)?,
        })?;
    }
    Ok(copies)
}

// Returns a copy of `tree`, the Chapters or Tags of an input, or None if it is absent. `records_in` calls it.
fn copy_of(alloc: Global, tree: &Option<Tree>) -> Result<Option<Tree>, AllocError>
    ensures { IfOk result (λ copy. copy ≡ tree.now) }
{
    match tree {
        Some(tree) => Ok(Some(tree.copy(alloc)?)),
        None => Ok(None),
    }
}

/// Returns the records of `input` that are merged into the output's: attached files, Chapters and Tags. Its selected
/// tracks have the TrackUIDs `own`, in the order of their output tracks, which have the TrackUIDs `numbers`.
/// `records_of` calls it for each input.
fn records_in(
    alloc: Global,
    own: List<u64>,
    numbers: List<u64>,
    input: &Input,
) -> Result<InputRecords, AllocError>
    requires { HasRecords input.now }
    ensures exact { IfOk result (λ records. records ≡ records_in own numbers (kept_in input.now)) }
    ensures read { IfOk result IsInput }
{
    Ok(InputRecords {
        track_uids: own,
        output_uids: numbers,
        attachments: copies(alloc, input.attachments.as_slice())?,
        chapters: copy_of(alloc, &input.chapters)?,
        shift: input.shift,
        tags: copy_of(alloc, &input.tags)?,
        keep: input.keep,
    })
}

/// Returns the number of the input that begins the output tracks of `input`, which has the number `number`, counted from
/// 0. It is `before`, the one that begins the previous input's, if it is appended, and otherwise its own. `records_of`
/// calls it for each input.
fn owner_at(before: u64, number: usize, input: &Input) -> u64
    ensures { result ≡ owner_at before number (read_in input.now) }
{
    if input.shift.is_some() {
        before
    } else {
        number as u64
    }
}

/// Returns those of the keys `keys` of output tracks whose tracks are of the input number `owner`. `track_uids_at` calls
/// it.
fn keys_at(alloc: Global, owner: u64, keys: &[(u64, u64)]) -> Result<Vec<(u64, u64)>, AllocError>
    ensures { IfOk result (λ own. own.items ≡ picked (is_begun_by owner) keys.now keys.now) }
{
    let mut own = Vec::new(alloc);
    for key in keys {
        if key.0 == owner {
            own.push(*key)?;
        }
    }
    Ok(own)
}

/// Returns those of the TrackUIDs `numbers` of output tracks whose tracks are of the input number `owner`. `keys` has
/// the keys of the tracks that begin the output tracks, in the same order. `records_of` calls it for each input, in
/// order to redirect the Targets of its Tags.
fn uids_at(
    alloc: Global,
    owner: u64,
    keys: &[(u64, u64)],
    numbers: &[u64],
) -> Result<List<u64>, AllocError>
    requires { length numbers.now ≡ length keys.now }
    ensures { IfOk result (λ own. own ≡ picked (is_begun_by owner) keys.now numbers.now) }
{
    let mut own = List::new(alloc);
    for (k, key) in keys.iter().enumerate() {
        if key.0 != owner {
            continue;
        }
        own.push(numbers[k])?;
    }
    Ok(own)
}

/// Returns the TrackUIDs of the selected tracks of `input`, in the order of the output tracks that they begin or
/// continue. The input number `owner` begins these. `keys` has the keys of all output tracks, input after input, and
/// the pairs `order` give the order of the output. `records_of` calls it for each input.
fn track_uids_at(
    alloc: Global,
    order: &[(u64, u64)],
    keys: &[(u64, u64)],
    owner: u64,
    input: &Input,
) -> Result<List<u64>, AllocError>
    ensures { IfOk result (λ own. own ≡ in_order order.now (picked (is_begun_by owner) keys.now keys.now) (map uid_of input.now.taken)) }
{
    let uids: Vec<u64> = input
        .taken
        .as_slice()
        .iter()
        .map(|each| each.track.uid)
        .collect(alloc)?;
    let own = keys_at(alloc, owner, keys)?;
    let sorted = in_order(alloc, order, own.as_slice(), uids)?;
    Ok(List::from_vec(sorted))
}

/// Returns the records of all `inputs` that are merged into the output's, besides tracks and blocks, in the order of
/// `inputs`. `keys` has the keys of the tracks that begin output tracks, input after input. The pairs `order` give the
/// order of the output, in which the output tracks have the TrackUIDs `numbers`. `output_of` calls it before it joins
/// the records.
pub(crate) fn records_of(
    alloc: Global,
    order: &[(u64, u64)],
    keys: &[(u64, u64)],
    numbers: &[u64],
    inputs: &[Input],
) -> Result<List<InputRecords>, AllocError>
    requires records { All HasRecords inputs.now }
    requires numbers { length numbers.now ≡ length keys.now }
    ensures exact { IfOk result (λ records. records ≡ records_from (lanes_with order.now keys.now numbers.now) 0 0 (map kept_in inputs.now)) }
    ensures read { IfOk result (All IsInput) }
{
    let sorted = in_order(alloc, order, keys, Vec::from_slice(alloc, keys)?)?;
    let mut records = List::new(alloc);
    let mut owner: u64 = 0;
    for (number, input) in inputs.iter().enumerate() {
        owner = owner_at(owner, number, input);
        let own = track_uids_at(alloc, order, keys, owner, input)?;
        let output = uids_at(alloc, owner, sorted.as_slice(), numbers)?;
        records.push(records_in(alloc, own, output, input)?)?;
    }
    Ok(records)
}
