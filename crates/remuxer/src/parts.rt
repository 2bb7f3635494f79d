//! Outputs of a merge, written in sequence

ghost use Rattle.std.specs.Prelude.{◌≡◌, [], ◌∷◌, IfOk, OnOk};
ghost use Rattle.mkv_io.specs.Sources.{live_files};
ghost use Rattle.mkv_io.specs.Ends.{HasRemuxCause};
ghost use Rattle.mkv_io.specs.Writing.{KeepsOthers};
ghost use Rattle.remux_plan.specs.Parts.{name_of};
ghost use Rattle.remuxer.specs.Taking.{Goes};
ghost use Rattle.remuxer.specs.Output.{CanWrite, CanWriteAll, CanWriteNext, Ends, FindsNext, FindsOwn, KeepsUnwritten, ReadsParts, SaysWritten, WritesNext, WritesOwn, WritesParts, data_of, own_name};

use crate::info::info_with;
use crate::output::write_output;
use crate::placed::PlacedBlocks;
use mkv_io::{Files, List, Reads, RemuxEnd as OutEnd, Text};
use remux_plan::{OutputSpec, Written, uuids_at};
use splitter::part_name;
use std::alloc::{AllocError, Global};
use std::mem;

// Returns the file name of the output with the number `number`, counted from 1. It is the name on the command line, or
// one made from it if the output is cut into parts. For `write_own`, while `merge` writes an output.
fn name_of(alloc: Global, spec: &OutputSpec, number: u64) -> Result<Text, AllocError>
    ensures { IfOk result (λ name. name ≡ name_of spec.now.split spec.now.name number) }
{
    if spec.split {
        part_name(alloc, spec.name.as_str(), number)
    } else {
        spec.name.clone()
    }
}

// Writes the current part of `blocks` as the output with the number `number`, counted from 1, with its own identifiers
// in its Info. Returns its summary. For `write_next`; after a success `spec` is unchanged.
fn write_own<F: Files>(
    alloc: Global,
    files: &mut F,
    spec: &mut OutputSpec,
    number: usize,
    blocks: &mut PlacedBlocks,
) -> Result<Written, OutEnd>
    requires { CanWrite F.Reads F.Files.own files.old spec.old (own_name spec.old number) blocks.old }
    ensures writes { WritesOwn F.Reads F.Files.own files.old files.new spec.old number blocks.old result }
    ensures finds { FindsOwn F.Reads files.old files.new spec.old number blocks.old blocks.new result }
    ensures spec { OnOk result (spec.new ≡ spec.old) }
    ensures goes { Goes F.Reads (data_of spec.old) files.old files.new blocks.old blocks.new result }
    ensures kept { KeepsOthers F.Reads F.Files.own (own_name spec.old number ∷ []) files.old files.new }
    ensures cause { HasRemuxCause F.Reads F.Files.own files.old files.new result }
{
    let name = name_of(alloc, spec, number as u64)?;
    let uuids = uuids_at(spec.uuids.as_slice(), spec.link, number);
    let info = info_with(alloc, &spec.front.info, uuids)?;
    let plain = mem::replace(&mut spec.front.info, info);
    let done = write_output(alloc, files, spec, name.as_str(), blocks)?;
    spec.front.info = plain;
    Ok(Written {
        name,
        blocks: done.blocks,
        clusters: done.counts.clusters,
        cues: done.counts.cues,
    })
}

// Writes the current part of `blocks` as the next output, and appends its summary to `written`. Begins the next part,
// which has no attached files, and returns true if there is one. A turn of the loop of `write_parts`.
fn write_next<F: Files>(
    alloc: Global,
    files: &mut F,
    spec: &mut OutputSpec,
    blocks: &mut PlacedBlocks,
    written: &mut List<Written>,
) -> Result<bool, OutEnd>
    requires { CanWriteNext F.Reads F.Files.own files.old spec.old written.old blocks.old }
    ensures writes { WritesNext F.Reads F.Files.own files.old files.new spec.old blocks.old blocks.new written.old written.new result }
    ensures finds { IfOk result (FindsNext spec.old spec.new blocks.old blocks.new written.old written.new) }
    ensures goes { Goes F.Reads (data_of spec.old) files.old files.new blocks.old blocks.new result }
    ensures kept { KeepsUnwritten F.Reads F.Files.own spec.old.split spec.old.name files.old files.new }
    ensures cause { HasRemuxCause F.Reads F.Files.own files.old files.new result }
{
    let number = written.as_slice().len() + 1;
    let done = write_own(alloc, files, spec, number, blocks)?;
    written.push(done)?;
    spec.front.attachments = List::new(alloc);
    let begun = blocks.next_part(files)?;
    Ok(begun)
}

/// Writes an output for each part of the merge `blocks` in sequence, by the description `spec`, and returns their
/// summaries. Only the first has the attached files. After an error the first outputs are complete, and the next one
/// may be incomplete. For `remux`.
pub(crate) fn write_parts<F: Files>(
    alloc: Global,
    files: &mut F,
    spec: OutputSpec,
    blocks: &mut PlacedBlocks,
) -> Result<List<Written>, OutEnd>
    requires { CanWriteAll F.Reads F.Files.own files.old spec blocks.old }
    ensures writes { WritesParts F.Reads F.Files.own files.old files.new spec blocks.old result }
    ensures written { SaysWritten F.Reads files.old spec blocks.old result }
    ensures ends { OnOk result (Ends (live_files F.Reads files.old) blocks.old.merge blocks.new.merge) }
    ensures kept { KeepsUnwritten F.Reads F.Files.own spec.split spec.name files.old files.new }
    ensures octets { ReadsParts F.Reads files.old files.new spec blocks.old }
    ensures cause { HasRemuxCause F.Reads F.Files.own files.old files.new result }
{
    let mut spec = spec;
    let mut written = List::new(alloc);
    let mut begun = blocks.first_part(files)?;
    'parts: while begun {
        begun = write_next(alloc, files, &mut spec, blocks, &mut written)?;
    }
    Ok(written)
}
