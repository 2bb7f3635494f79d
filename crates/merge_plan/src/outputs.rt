//! The records of an output.

ghost use Rattle.std.specs.Prelude.{◌≡◌, map, IfOk};
ghost use Rattle.std.specs.List.{All};
ghost use Rattle.merge_inputs.specs.Input.{read_in};
ghost use Rattle.merge_plan.specs.Lent.{lent};
ghost use Rattle.merge_plan.specs.Planned.{AreRecordsOf, AreSound};
ghost use Rattle.merge_plan.specs.Records.{tracks_ordered};
ghost use Rattle.merge_plan.specs.TakenTracks.{HasRecords, HasTaken};

use crate::entries::{entries_of, keys_of, uids_of};
use crate::records::records_of;
use ebml_tree::Tree;
use merge_inputs::{Input, TakenTrack};
use mkv_io::List;
use output_model::Attachment;
use output_records::{MergedRecords, merge_records, tracks_of};
use std::alloc::{AllocError, Global};

/// Records around the Clusters of an output, except for its Info.
#[derive(Drop)]
pub(crate) struct OutputRecords {
    pub(crate) tracks: Tree,
    pub(crate) attachments: List<Attachment>,
    pub(crate) chapters: Option<Tree>,
    pub(crate) tags: Option<Tree>,
}

/// Builds the Tracks, attached files, Chapters and Tags of the output. The tracks `taken` of `inputs` begin the output
/// tracks, in the order that the pairs `order` give. `plan_of` calls it, through `records_for`, if the tracks aren't
/// refused.
pub(crate) fn output_of(
    alloc: Global,
    order: &[(u64, u64)],
    taken: &[&TakenTrack],
    inputs: &[Input],
) -> Result<OutputRecords, AllocError>
    requires taken { lent taken.now ≡ tracks_ordered order.now (map read_in inputs.now) }
    requires tracks { All HasTaken inputs.now }
    requires records { All HasRecords inputs.now }
    ensures exact { IfOk result (AreRecordsOf order.now inputs.now) }
    ensures sound { IfOk result (AreSound order.now inputs.now) }
{
    let uids = uids_of(alloc, taken)?;
    let numbers = uids.as_slice();
    let tracks = tracks_of(alloc, entries_of(alloc, taken, numbers)?)?;
    let keys = keys_of(alloc, inputs)?;
    let kept = records_of(alloc, order, keys.as_slice(), numbers, inputs)?;
    let MergedRecords {
        attachments,
        chapters,
        tags,
    } = merge_records(alloc, kept.as_slice())?;
    Ok(OutputRecords {
        tracks,
        attachments,
        chapters,
        tags,
    })
}
