//! Whole outputs

ghost use Rattle.std.specs.Prelude.{◌≡◌, ◌*◌, ◌<◌, ◌^◌, [], ◌∷◌, IfOk, IfSome, OnOk};
ghost use Rattle.mkv_io.specs.Writing.{KeepsOthers};
ghost use Rattle.mkv_io.specs.Ends.{HasRemuxCause};
ghost use Rattle.mkv_schema.specs.declared.ids.TheConstants.{CHAPTERS};
ghost use Rattle.tree_format.specs.Node.{id_of};
ghost use Rattle.ebml_tree.specs.Building.{IsRead};
ghost use Rattle.remuxer.specs.Places.{IsEnd};
ghost use Rattle.remuxer.specs.Taking.{Goes, IsOver, WritesInto};
ghost use Rattle.remuxer.specs.Output.{CanFill, CanWrite, Fills, FindsWritten, WritesPart, chapters_cut, chapters_in, data_of};

use crate::counts::Counts;
use crate::durations::durations_for;
use crate::placed::PlacedBlocks;
use crate::run::add_rest;
use crate::writer::BlockWriter;
use cluster_writer::ClusterBuf;
use cues_seekhead::OutFile;
use ebml_tree::Tree;
use mkv_io::{Files, Reads, RemuxEnd as OutEnd};
use record_changes::cut;
use remux_plan::OutputSpec;
use std::alloc::{AllocError, Global};

/// Number of blocks of a written part, and its counts
#[derive(Clone, Copy)]
pub(crate) struct WrittenPart {
    pub(crate) blocks: u64,
    pub(crate) counts: Counts,
}

// Returns the Chapters of a part from the tick `start` to the tick `end`, both of the whole output; the last part has
// no `end`. Returns none unless the output is cut into parts. `fill` calls it once the part's end is known. Fails if
// memory runs out.
fn cut_chapters(
    alloc: Global,
    spec: &OutputSpec,
    start: u64,
    end: Option<u64>,
) -> Result<Option<Tree>, AllocError>
    requires chapters { IfSome spec.now.chapters (IsRead CHAPTERS) }
    requires start { start * spec.now.limits.scale < 2 ^ 64 }
    requires end { IfSome end (IsEnd spec.now.limits.scale start) }
    ensures exact { IfOk result (λ part. part ≡ chapters_cut spec.now start end) }
    ensures id { IfOk result (λ part. IfSome part (λ n. id_of n ≡ CHAPTERS)) }
{
    if !spec.split {
        return Ok(None);
    }
    let Some(chapters) = &spec.chapters else {
        return Ok(None);
    };
    let scale = spec.limits.scale;
    let to = match end {
        Some(end) => Some(end * scale),
        None => None,
    };
    cut(alloc, chapters, start * scale, to)
}

// Returns the Chapters that are written to a part: `part`, the ones in its period, if the output is cut into parts,
// otherwise all. `write_output` writes them after the Clusters.
fn chapters_in<'a>(spec: &'a OutputSpec, part: &'a Option<Tree>) -> &'a Option<Tree>
    ensures { result.now ≡ chapters_in spec.now part.now }
{
    if spec.split { part } else { &spec.chapters }
}

// Appends all blocks of the current part of `blocks` to the output in `writer`, and writes its last Cluster. Returns
// the part's Chapters if the output is cut into parts. `write_output` calls it once the start of the file is written.
fn fill<F: Files>(
    alloc: Global,
    files: &mut F,
    spec: &OutputSpec,
    blocks: &mut PlacedBlocks,
    writer: &mut BlockWriter,
) -> Result<Option<Tree>, OutEnd>
    requires { CanFill F.Reads F.Files.own files.old spec.now writer.old blocks.old }
    ensures fills { Fills F.Reads F.Files.own spec.now files.old files.new writer.old writer.new blocks.old blocks.new result }
    ensures id { IfOk result (λ part. IfSome part (λ n. id_of n ≡ CHAPTERS)) }
    ensures writes { WritesInto F.Reads F.Files.own files.old files.new writer.old writer.new result }
    ensures goes { Goes F.Reads 0 files.old files.new blocks.old blocks.new result }
    ensures over { OnOk result (IsOver blocks.old blocks.new) }
    ensures cause { HasRemuxCause F.Reads F.Files.own files.old files.new result }
{
    writer.add_part(files, blocks, spec.rules.as_slice())?;
    let chapters = cut_chapters(alloc, spec, blocks.start, blocks.end_of_part())?;
    add_rest(files, &mut writer.out, &mut writer.buffer)?;
    Ok(chapters)
}

/// Writes the file `name` with the blocks of the current part of `blocks`, and returns its counts. `spec` describes the
/// rest of the output. No file of it stays open, also after an error. `write_own` calls it for each output of `merge`.
pub(crate) fn write_output<F: Files>(
    alloc: Global,
    files: &mut F,
    spec: &OutputSpec,
    name: &str,
    blocks: &mut PlacedBlocks,
) -> Result<WrittenPart, OutEnd>
    requires { CanWrite F.Reads F.Files.own files.old spec.now name.now blocks.old }
    ensures writes { WritesPart F.Reads F.Files.own files.old files.new spec.now name.now blocks.old result }
    ensures finds { FindsWritten F.Reads files.old files.new spec.now blocks.old blocks.new result }
    ensures goes { Goes F.Reads (data_of spec.now) files.old files.new blocks.old blocks.new result }
    ensures kept { KeepsOthers F.Reads F.Files.own (name.now ∷ []) files.old files.new }
    ensures cause { HasRemuxCause F.Reads F.Files.own files.old files.new result }
{
    let buffer = ClusterBuf::new(alloc, spec.limits)?;
    let durations = durations_for(alloc, spec.limits.scale, &spec.front)?;
    let out = OutFile::begin(alloc, files, name, &spec.front)?;
    let mut writer = BlockWriter {
        out,
        buffer,
        blocks: 0,
        counts: Counts {
            clusters: 0,
            cues: 0,
        },
        durations,
        end: 0,
    };
    match fill(alloc, files, spec, blocks, &mut writer) {
        Ok(part) => {
            let written = WrittenPart {
                blocks: writer.blocks,
                counts: writer.counts,
            };
            let chapters = chapters_in(spec, &part);
            writer
                .out
                .finish_with(files, writer.end, chapters, &spec.tags)?;
            Ok(written)
        }
        Err(end) => {
            writer.out.abandon(files);
            Err(end)
        }
    }
}
