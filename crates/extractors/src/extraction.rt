//! Extraction of tracks: the outputs are created, written and closed.

ghost use Rattle.std.specs.Prelude.{◌≡◌, ◌<◌, []};
ghost use Rattle.std.specs.List.{All};
ghost use Rattle.mkv_io.specs.Faults.{HasCause, is_make_failure};
ghost use Rattle.mkv_io.specs.Names.{AreApart, AreOthers};
ghost use Rattle.mkv_io.specs.Sources.{live_files};
ghost use Rattle.mkv_io.specs.Writing.{KeepsOthers};
ghost use Rattle.mkv_io.specs.Ends.{HasRemuxCause};
ghost use Rattle.cluster_reader.specs.Reading.{CanRead};
ghost use Rattle.mkv_outputs.specs.Sinks.{AreOpen, HaveBeenGiven, MadeSince};
ghost use Rattle.extractors.specs.Content.{names_in, outputs_of};
ghost use Rattle.extractors.specs.Source.{IsSource};
ghost use Rattle.extractors.specs.Walks.{IsReady, MakesOutputs, ReadsFewOf, TellsLeft, TellsTaken, WritesLeft, WritesTaken};

use crate::blocks::write_blocks;
use crate::extracted::Extracted;
use crate::source::Source;
use crate::track_output::TrackOutput;
use cluster_reader::Cursor;
use meta_records::scale_of;
use mkv_io::{Files, MakeFault, RemuxEnd};
use mkv_outputs::Outputs;
use std::alloc::Global;

/// Extracts tracks: it creates or replaces the file of each of the outputs `list`, in one pass over `source`. A file has
/// the bytes before the frames of its track, and the frames, or their timestamps. Returns the damage of the source and
/// the frames that were left out because they can't be written in their codec's form. `mkvsuite extract` calls it with
/// the outputs that `job_outputs` makes of the job.
///
/// `source` must have been read from its file. The outputs must be for its tracks; their names must differ from each
/// other and from the source's name.
pub fn extract<F: Files>(
    alloc: Global,
    files: &mut F,
    source: &Source,
    list: &[TrackOutput],
) -> Result<Extracted, RemuxEnd>
    requires source { IsSource F.Reads files.old source.now }
    requires ready { All IsReady list.now }
    requires apart { AreApart (names_in list.now) }
    requires other { AreOthers (F.holder files.old source.now.file.n) (names_in list.now) }

    // Each output is complete, and no other name changes. On failure the first outputs exist, each a first part.
    ensures writes { WritesTaken F.Reads F.Files.own source.now list.now files.old files.new result }
    ensures tells { TellsTaken F.Reads source.now list.now files.old result }

    // No file stays open in any case.
    ensures kept { KeepsOthers F.Reads F.Files.own (names_in list.now) files.old files.new }
    ensures cause { HasRemuxCause F.Reads F.Files.own files.old files.new result }
    ensures octets { ReadsFewOf F.Reads source.now.file files.old files.new result }
{
    let mut cursor = Cursor::start(alloc, &source.outline, source.file, scale_of(&source.info))?;
    write_tracks(alloc, list, files, &mut cursor)
}

/// Creates the outputs `list`, writes the remaining blocks of `cursor` to them and closes them, also after a failure.
/// Returns the damage of the source and the bad frames. Used by `extract`.
fn write_tracks<F: Files>(
    alloc: Global,
    list: &[TrackOutput],
    files: &mut F,
    cursor: &mut Cursor,
) -> Result<Extracted, RemuxEnd>
    requires apart { AreApart (names_in list.now) }
    requires steps { All IsReady list.now }
    requires stands { CanRead (live_files F.Reads files.old) cursor.old }
    requires other { AreOthers (F.holder files.old cursor.old.file.n) (names_in list.now) }
    ensures writes { WritesLeft F.Reads F.Files.own list.now cursor.old files.old files.new result }
    ensures tells { TellsLeft F.Reads list.now cursor.old files.old result }
    ensures kept { KeepsOthers F.Reads F.Files.own (names_in list.now) files.old files.new }
    ensures cause { HasRemuxCause F.Reads F.Files.own files.old files.new result }
    ensures octets { ReadsFewOf F.Reads cursor.old.file files.old files.new result }
{
    let mut outputs = Outputs::new(alloc);
    let ended = write_all(alloc, list, &mut outputs, files, cursor);
    outputs.close(files);
    ended
}

/// Creates the outputs `list` in `outputs`, which is empty before, and writes to each its part of the blocks that
/// `cursor` has left. The outputs stay open in any case. Used by `write_tracks`, which closes the outputs.
fn write_all<F: Files>(
    alloc: Global,
    list: &[TrackOutput],
    outputs: &mut Outputs,
    files: &mut F,
    cursor: &mut Cursor,
) -> Result<Extracted, RemuxEnd>
    requires none { outputs.old ≡ [] }
    requires apart { AreApart (names_in list.now) }
    requires steps { All IsReady list.now }
    requires stands { CanRead (live_files F.Reads files.old) cursor.old }
    requires other { AreOthers (F.holder files.old cursor.old.file.n) (names_in list.now) }
    ensures writes { WritesLeft F.Reads F.Files.own list.now cursor.old files.old files.new result }
    ensures tells { TellsLeft F.Reads list.now cursor.old files.old result }
    ensures open { AreOpen F.Reads files.new outputs.new }
    ensures made { MadeSince F.Reads F.Files.own (names_in list.now) files.old files.new outputs.new }
    ensures cause { HasRemuxCause F.Reads F.Files.own files.old files.new result }
    ensures octets { ReadsFewOf F.Reads cursor.old.file files.old files.new result }
{
    make_all(list, outputs, files)?;
    let extracted = write_blocks(alloc, list, outputs, files, cursor)?;
    outputs.flush(files)?;
    Ok(extracted)
}

/// Creates the outputs `list`, in order, in `outputs`, and writes the bytes that come before the first frame of each.
/// Used by `write_all` before the blocks.
fn make_all<F: Files>(
    list: &[TrackOutput],
    outputs: &mut Outputs,
    files: &mut F,
) -> Result<(), MakeFault>
    requires none { outputs.old ≡ [] }
    requires apart { AreApart (names_in list.now) }
    ensures makes { MakesOutputs F.Files.own files.old files.new outputs.new (outputs_of list.now []) result }
    ensures open { AreOpen F.Reads files.new outputs.new }
    ensures made { MadeSince F.Reads F.Files.own (names_in list.now) files.old files.new outputs.new }
    ensures cause { HasCause is_make_failure (F.writing_faults files.old) (F.writing_faults files.new) result }
    ensures reading { F.reading_faults files.new ≡ F.reading_faults files.old }
    ensures octets { F.octets_read files.new ≡ F.octets_read files.old }
{
    for k in 0..list.len() {
        let output = &list[k];
        outputs.add(files, output.name.as_str())?;
        outputs.write(files, k, output.head.as_slice())?;
    }
    Ok(())
}
