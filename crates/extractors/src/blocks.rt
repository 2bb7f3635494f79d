//! Extraction of tracks: each block of the source is written to the outputs of its track.

ghost use Rattle.std.specs.Prelude.{◌≡◌, ◌<◌, ◌+◌, length, OnOk};
ghost use Rattle.std.specs.List.{All};
ghost use Rattle.mkv_io.specs.Faults.{HasCause, is_make_failure};
ghost use Rattle.mkv_io.specs.Names.{AreOthers};
ghost use Rattle.mkv_io.specs.Sources.{live_files};
ghost use Rattle.mkv_io.specs.Ends.{HasRemuxCause};
ghost use Rattle.cluster_reader.specs.Reading.{CanRead};
ghost use Rattle.mkv_outputs.specs.Sinks.{AreOpen, WritesOutputs, names_under};
ghost use Rattle.extractors.specs.Walks.{AddsPart, CountsAllBad, CountsBadPiece, CountsPiece, GivesLeft, GivesLent, IsReady, ReadsFewOf, TellsBad, TellsLeft, WritesAndReads};

use crate::bad_frames::add_bad_frames;
use crate::extracted::Extracted;
use crate::frame_form::FrameForm;
use crate::frames::{Given, Scratch, give_frames, give_times};
use crate::takes::takes_of;
use crate::track_output::TrackOutput;
use cluster_reader::{Cursor, Damages, Step};
use mkv_io::{Files, MakeFault, RemuxEnd};
use mkv_outputs::Outputs;
use std::alloc::Global;

/// Writes the frames of the cursor's block, or their timestamps, to `output`, which has index `k` in `outputs`. A block
/// of another track is passed over. The next frame of the output's track has number `number`, counted from 1. The cursor
/// needs only the head of a block of another track, and of each block if only timestamps are written. Used by
/// `give_block`.
fn give_to<F: Files>(
    outputs: &mut Outputs,
    files: &mut F,
    k: usize,
    output: &TrackOutput,
    number: u64,
    cursor: &Cursor,
    scratch: &mut Scratch,
) -> Result<Given, MakeFault>
    requires below { k < length outputs.old }
    requires open { AreOpen F.Reads files.old outputs.old }
    requires ready { IsReady output.now }
    ensures gives { AddsPart F.Files.own output.now number cursor.now files.old files.new outputs.old outputs.new k result }
    ensures number { CountsPiece output.now number cursor.now result }
    ensures bad { CountsBadPiece output.now cursor.now result }
    ensures only { WritesOutputs F.Reads F.Files.own files.old files.new outputs.old outputs.new }
    ensures cause { HasCause is_make_failure (F.writing_faults files.old) (F.writing_faults files.new) result }
{
    if cursor.head().track != output.track {
        return Ok(Given {
            next: number,
            bad: None,
        });
    }
    match output.form {
        FrameForm::Time => give_times(outputs, files, k, output, number, cursor, scratch),
        _ => give_frames(outputs, files, k, output, number, cursor, scratch),
    }
}

/// Writes the cursor's block to each output of `list` that is for its track, open in `outputs`. `numbers` has, for each
/// output, the number of its next frame, counted from 1, and is advanced. Returns the number of the block's bad frames,
/// which weren't written: each counts once, since all outputs of a track have the same form. Used by `take_block`.
fn give_block<F: Files>(
    list: &[TrackOutput],
    outputs: &mut Outputs,
    files: &mut F,
    numbers: &mut Vec<u64>,
    cursor: &Cursor,
    scratch: &mut Scratch,
) -> Result<u64, MakeFault>
    requires count { length list.now ≡ length outputs.old }
    requires numbers { length list.now ≡ length numbers.old.items }
    requires open { AreOpen F.Reads files.old outputs.old }
    requires steps { All IsReady list.now }
    ensures gives { GivesLent F.Files.own list.now cursor.now files.old files.new outputs.old outputs.new numbers.old.items numbers.new.items result }
    ensures count { length numbers.new.items ≡ length numbers.old.items }
    ensures bad { CountsAllBad list.now cursor.now result }
    ensures only { WritesOutputs F.Reads F.Files.own files.old files.new outputs.old outputs.new }
    ensures cause { HasCause is_make_failure (F.writing_faults files.old) (F.writing_faults files.new) result }
{
    let mut bad = None;
    for k in 0..list.len() {
        let given = give_to(outputs, files, k, &list[k], numbers[k], cursor, scratch)?;
        numbers[k] = given.next;
        bad = bad.or(given.bad);
    }
    Ok(bad.unwrap_or(0))
}

/// Writes the good frames of the cursor's block to the outputs in `list` of its track, open in `outputs`, and adds the
/// bad ones to `bad`. `numbers` has the number of each output's next frame, counted from 1, and is advanced.
/// `scratch` is working memory. Used by `write_blocks`.
fn take_block<F: Files>(
    list: &[TrackOutput],
    outputs: &mut Outputs,
    files: &mut F,
    numbers: &mut Vec<u64>,
    cursor: &Cursor,
    scratch: &mut Scratch,
    bad: &mut Damages,
) -> Result<(), MakeFault>
    requires count { length list.now ≡ length outputs.old }
    requires numbers { length list.now ≡ length numbers.old.items }
    requires open { AreOpen F.Reads files.old outputs.old }
    requires ready { All IsReady list.now }
    ensures gives { GivesLent F.Files.own list.now cursor.now files.old files.new outputs.old outputs.new numbers.old.items numbers.new.items result }
    ensures count { length numbers.new.items ≡ length numbers.old.items }
    ensures tells { OnOk result (TellsBad list.now cursor.now bad.old bad.new) }
    ensures only { WritesOutputs F.Reads F.Files.own files.old files.new outputs.old outputs.new }
    ensures cause { HasCause is_make_failure (F.writing_faults files.old) (F.writing_faults files.new) result }
{
    let count = give_block(list, outputs, files, numbers, cursor, scratch)?;
    add_bad_frames(count, cursor, bad);
    Ok(())
}

/// Writes all remaining blocks of `cursor` to the outputs in `list` of their tracks, in one pass over the source, for
/// `extract`. The outputs must be open and have only the bytes before their first frame. Returns the damage of the
/// source and the bad frames. Blocks that no output takes are passed over without their frames.
pub fn write_blocks<F: Files>(
    alloc: Global,
    list: &[TrackOutput],
    outputs: &mut Outputs,
    files: &mut F,
    cursor: &mut Cursor,
) -> Result<Extracted, RemuxEnd>
    requires count { length list.now ≡ length outputs.old }
    requires open { AreOpen F.Reads files.old outputs.old }
    requires steps { All IsReady list.now }
    requires stands { CanRead (live_files F.Reads files.old) cursor.old }
    requires other { AreOthers (F.holder files.old cursor.old.file.n) (names_under F.Files.own files.old outputs.old) }
    ensures gives { GivesLeft F.Reads F.Files.own list.now cursor.old files.old files.new outputs.old outputs.new result }
    ensures tells { TellsLeft F.Reads list.now cursor.old files.old result }
    ensures walks { WritesAndReads F.Reads F.Files.own files.old files.new outputs.old outputs.new }
    ensures cause { HasRemuxCause F.Reads F.Files.own files.old files.new result }
    ensures octets { ReadsFewOf F.Reads cursor.old.file files.old files.new result }
{
    let takes = takes_of(list);
    let mut scratch = Scratch::new(alloc);
    let mut numbers = vec![in alloc; 1; list.len()]?;
    let mut told = Extracted::new(alloc)?;
    'steps: loop {
        match cursor.advance_for(files, takes)? {
            Step::Block => {
                let bad = &mut told.bad_frames;
                take_block(
                    list,
                    outputs,
                    files,
                    &mut numbers,
                    cursor,
                    &mut scratch,
                    bad,
                )?
            },
            Step::Damaged(damage) => told.damages.add(damage),
            Step::End => return Ok(told),
        }
    }
}
