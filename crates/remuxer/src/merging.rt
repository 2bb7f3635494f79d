//! Merge by its plan

ghost use Rattle.std.specs.Prelude.{◌≡◌, ◌||◌, is_some};
ghost use Rattle.mkv_io.specs.Ends.{HasRemuxCause};
ghost use Rattle.remux_plan.specs.Parts.{is_split, is_timed};
ghost use Rattle.remuxer.specs.Output.{KeepsUnwritten};
ghost use Rattle.remuxer.specs.Plan.{IsPlan, ReadsFew, SumsUp, WritesPlan};

use crate::parts::write_parts;
use crate::placed::PlacedBlocks;
use crate::planned::StartedLanes;
use crate::summary::summary_of;
use mkv_io::{Files, Reads, RemuxEnd};
use part_size::PartCuts;
use remux_plan::{MergePlan, OutputSpec, Summary};
use splitter::SplitSpec;
use std::alloc::Global;
use time_merge::Merge;

/// Checks whether the output of `merge` is cut into parts, at the times in `split` or by `size`, the size of a part in
/// bytes. If it is, `remux` gives each part a name of its own.
fn is_split(split: &SplitSpec, size: Option<u64>) -> bool
    ensures { result ≡ (is_timed split.now || is_some size) }
{
    match split {
        SplitSpec::Whole => size.is_some(),
        _ => true,
    }
}

/// Writes the outputs of the plan `plan` among `files`, each from first to last byte. Returns a summary of them and of
/// the inputs' damaged places. Blocks are written as they are read; at most one Cluster is in memory. `merge` calls it
/// when its plan is made.
///
/// After an error the first outputs are complete, and the next one may be incomplete. Nothing else was changed.
pub fn remux<F: Files>(alloc: Global, plan: MergePlan, files: &mut F) -> Result<Summary, RemuxEnd>
    requires { IsPlan F.Reads F.Files.own files.old plan }

    ensures output { WritesPlan F.Reads F.Files.own files.old files.new plan result }
    ensures summary { SumsUp F.Reads files.old plan result }

    // No file stays open, also after an error.
    ensures kept { KeepsUnwritten F.Reads F.Files.own (is_split plan) plan.output files.old files.new }
    ensures cause { HasRemuxCause F.Reads F.Files.own files.old files.new result }
    ensures octets { ReadsFew F.Reads files.old files.new plan }
{
    let MergePlan {
        output,
        split,
        size,
        limits,
        lanes,
        front,
        chapters,
        tags,
        uuids,
        link,
    } = plan;
    let StartedLanes {
        lanes,
        rules,
        drives,
        inputs,
    } = StartedLanes::start(alloc, lanes, limits.scale)?;
    let merge = Merge::start(alloc, lanes, files)?;
    let spec = OutputSpec {
        name: output,
        split: is_split(&split, size),
        limits,
        rules,
        front,
        chapters,
        tags,
        uuids,
        link,
    };
    let cuts = PartCuts::new(split, size, limits.scale);
    let mut blocks = PlacedBlocks {
        merge,
        cuts,
        drives,
        ahead: None,
        start: 0,
    };
    let written = write_parts(alloc, files, spec, &mut blocks)?;
    let summary = summary_of(alloc, written, inputs.as_slice(), &blocks.merge)?;
    Ok(summary)
}
