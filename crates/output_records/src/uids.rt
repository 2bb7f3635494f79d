//! Identifiers of an input's editions, chapters and attached files, and the output's identifiers for them

ghost use Rattle.std.specs.Prelude.{◌≡◌, ◌++◌, ℕ, nat_eq, zip, IfOk, OnOk};
ghost use Rattle.indexmap.specs.IndexMap.{get};
ghost use Rattle.output_records.specs.Attachments.{file_uids};
ghost use Rattle.output_records.specs.Inputs.{IsInput};
ghost use Rattle.output_records.specs.Tags.{number_of, uids_of, all_uids, IsMapFor};

use crate::inputs::InputRecords;
use indexmap::IndexMap;
use mkv_io::List;
use output_model::Attachment;
use record_changes::{UidMap, push_chapter_uids, push_edition_uids};
use std::alloc::{AllocError, Global};

/// Identifiers of editions, chapters and attached files, of an input or of the output, in the order of writing
#[derive(Drop)]
pub(crate) struct Uids {
    pub(crate) editions: List<u64>,
    pub(crate) chapters: List<u64>,
    pub(crate) attachments: List<u64>,
}

/// Appends the FileUIDs of the attached files `files` of an input to `uids`, before they are numbered anew. If memory
/// runs out, some may have been appended. Used by `file_numbers` and `uids_of`.
pub(crate) fn push_file_uids(files: &[Attachment], uids: &mut List<u64>) -> Result<(), AllocError>
    ensures { OnOk result (uids.new ≡ uids.old ++ file_uids files.now) }
{
    for file in files {
        uids.push(file.uid)?;
    }
    Ok(())
}

/// Returns the identifiers of the editions, chapters and attached files of `input`, as they are in the input. Used by
/// `joined_tags`.
pub(crate) fn uids_of(alloc: Global, input: &InputRecords) -> Result<Uids, AllocError>
    requires { IsInput input.now }
    ensures { IfOk result (λ uids. uids ≡ uids_of input.now) }
{
    let mut editions = List::new(alloc);
    let mut chapters = List::new(alloc);
    let mut attachments = List::new(alloc);
    if let Some(tree) = &input.chapters {
        push_edition_uids(tree, &mut editions)?;
        push_chapter_uids(tree, &mut chapters)?;
    }
    push_file_uids(input.attachments.as_slice(), &mut attachments)?;
    Ok(Uids {
        editions,
        chapters,
        attachments,
    })
}

// Returns pairs of an input's identifiers `source` and the output's identifiers for them, `numbers`. Used by
// `number_map`.
fn pairs_of(alloc: Global, source: &[u64], numbers: &[u64]) -> Result<Vec<(u64, u64)>, AllocError>
    ensures { IfOk result (λ pairs. pairs.items ≡ zip source.now numbers.now) }
{
    source
        .iter()
        .zip(numbers)
        .map(|(uid, number)| (*uid, *number))
        .collect(alloc)
}

// Returns a map from each of an input's identifiers `source` to the output's identifier for its first use, in
// `numbers`. The first use is inserted last, so that it replaces others. Used by `map_of`.
fn number_map(
    alloc: Global,
    source: &[u64],
    numbers: &[u64],
) -> Result<IndexMap<u64, u64>, AllocError>
    ensures { IfOk result (λ map. (uid : ℕ) → get nat_eq map uid ≡ number_of source.now numbers.now uid) }
{
    let mut pairs = pairs_of(alloc, source, numbers)?;
    pairs.reverse();
    pairs.into_iter().collect(alloc)
}

/// Returns the map from the identifiers `uids` of `input` to the output's, for the targets of its Tags. The lists
/// `editions`, `chapters` and `attachments` have the output's identifiers from this input onwards; the next inputs
/// follow. Used by `joined_tags`.
pub(crate) fn map_of(
    alloc: Global,
    input: &InputRecords,
    uids: &Uids,
    editions: &[u64],
    chapters: &[u64],
    attachments: &[u64],
) -> Result<UidMap, AllocError>
    requires { uids.now ≡ uids_of input.now }
    ensures { IfOk result (IsMapFor input.now (all_uids editions.now chapters.now attachments.now)) }
{
    Ok(UidMap {
        tracks: number_map(
            alloc,
            input.track_uids.as_slice(),
            input.output_uids.as_slice(),
        )?,
        editions: number_map(alloc, uids.editions.as_slice(), editions)?,
        chapters: number_map(alloc, uids.chapters.as_slice(), chapters)?,
        attachments: number_map(alloc, uids.attachments.as_slice(), attachments)?,
    })
}
