//! Tags of an output: RFC 9559, section 5.1.8 (Tags).

ghost use Rattle.std.specs.Prelude.{◌≡◌, All, drop, IfOk, OnOk};
ghost use Rattle.mkv_schema.specs.declared.ids.TheConstants.{TAGS as TAGS_ID};
ghost use Rattle.output_model.specs.Sound.{IsRecord};
ghost use Rattle.output_records.specs.Inputs.{IsInput};
ghost use Rattle.output_records.specs.Tags.{joined_tags, AddsTags};

use crate::inputs::InputRecords;
use crate::records::push_all;
use crate::uids::{Uids, map_of, uids_of};
use ebml_tree::{Tree, empty};
use mkv_schema::ids::TAGS;
use record_changes::{UidMap, merge_tags};
use std::alloc::{AllocError, Global};

// Appends the kept Tags of `input` to `joined`, the Tags of the output; `map` has the output's identifiers for their
// targets. Used by `joined_tags`.
fn push_tags(
    alloc: Global,
    input: &InputRecords,
    map: &UidMap,
    joined: &mut Tree,
) -> Result<(), AllocError>
    requires input { IsInput input.now }
    requires joined { IsRecord TAGS_ID joined.old }
    ensures exact { AddsTags input.now map.now joined.old joined.new result }
    ensures own { OnOk result (IsRecord TAGS_ID joined.new) }
{
    match &input.tags {
        Some(tags) => push_all(joined, merge_tags(alloc, tags, map, input.keep)?),
        None => Ok(()),
    }
}

// Returns the output's identifiers in `numbers` after the first `count`, which are an earlier input's. Used by
// `joined_tags`.
fn behind(numbers: &[u64], count: usize) -> &[u64]
    ensures { result.now ≡ drop count numbers.now }
{
    &numbers[count.min(numbers.len())..]
}

/// Returns one Tags with the kept Tags of all inputs. `numbers` has the output's identifiers for their editions,
/// chapters and attached files, which their targets get. Used by `merge_records`.
pub(crate) fn joined_tags(
    alloc: Global,
    inputs: &[InputRecords],
    numbers: &Uids,
) -> Result<Tree, AllocError>
    requires { All IsInput inputs.now }
    ensures exact { IfOk result (λ joined. joined ≡ joined_tags numbers.now inputs.now) }
    ensures own { IfOk result (IsRecord TAGS_ID) }
{
    let mut joined = empty(alloc, TAGS, 0)?;
    let mut editions = numbers.editions.as_slice();
    let mut chapters = numbers.chapters.as_slice();
    let mut attachments = numbers.attachments.as_slice();
    for input in inputs {
        let uids = uids_of(alloc, input)?;
        let map = map_of(alloc, input, &uids, editions, chapters, attachments)?;
        push_tags(alloc, input, &map, &mut joined)?;
        editions = behind(editions, uids.editions.len());
        chapters = behind(chapters, uids.chapters.len());
        attachments = behind(attachments, uids.attachments.len());
    }
    Ok(joined)
}
