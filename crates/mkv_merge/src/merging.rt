//! Opens, merges and closes files.

ghost use Rattle.mkv_io.specs.Told.{IfVisible};
ghost use Rattle.input_files.specs.ChapterFile.{CanBeWritten};
ghost use Rattle.requests.specs.Sound.{IsSoundMerge};
ghost use Rattle.input_files.specs.Inputs.{AreInputs};
ghost use Rattle.mkv_lines.specs.Command.{HasEnded};
ghost use Rattle.mkv_io.specs.Bounds.{ReadsUpTo};
ghost use Rattle.mkv_merge.specs.Asked.{AsksToMerge, opened_by, sidecars_of};
ghost use Rattle.mkv_merge.specs.Bound.{most_read};
ghost use Rattle.mkv_merge.specs.Merge.{ComesToMerge, sources_of};
ghost use Rattle.mkv_merge.specs.Opened.{opened_names};
ghost use Rattle.mkv_merge.specs.Read.{IsApartMerge};
ghost use Rattle.mkv_merge.specs.Records.{EndsReadable};
ghost use Rattle.mkv_merge.specs.Stages.{MergesNamed, MergesThere, as_command};

use crate::names::first_written;
use crate::opening::open_files;
use crate::pending::begun_refusal;
use crate::preparing::prepare;
use crate::refusal::{MergeEnd, Refusal, written};
use crate::telling::refuse;
use crate::writing::write;
use input_files::{TextFiles, close_all, read_text_files};
use mkv_io::{FileId, Files, Report};
use mkv_lines::{CommandEnd, Status};
use requests::MergeWords;
use std::alloc::Global;

/// Merges the open files `ids`: the inputs of `words`, and after them the files that it attaches. `texts` has the chapter
/// file and the timestamp files. Refuses the merge for a missing text file, for a pending edit of an input or of an
/// unsplit output, or as `prepare` does. Prints messages to `report`. For `merge_named`.
fn merge_opened<F: Files, P: Report>(
    alloc: Global,
    words: &MergeWords,
    texts: TextFiles,
    ids: &[FileId],
    files: &mut F,
    report: &mut P,
) -> Result<Status, MergeEnd>
    requires words { IsApartMerge words.now }
    requires inputs { AreInputs F.Reads F.Files.own (opened_names words.now) files.old ids.now }
    requires chapters { CanBeWritten texts.chapters }
    ensures merges { MergesThere F.Reads F.Files.own P.Report files.old files.new report.old report.new words.now texts ids.now result }
    ensures ended { HasEnded F.Reads F.Files.own P.Report files.old files.new report.old report.new (as_command result) }
    ensures asks { AsksToMerge (sidecars_of words.now) words.now (F.asked files.old) (F.asked files.new) }
{
    if let Some(why) = begun_refusal(alloc, words, &texts, files)? {
        return Err(MergeEnd::Refused(why));
    }
    let (own, attached) = ids.split_at(words.files.len());
    let prepared = prepare(alloc, words, texts, files, own, attached)?;
    written(write(alloc, words, prepared, ids, files, report))
}

/// Reads the text files and opens the inputs and attached files that `words` names, merges them, and closes them again.
/// Refuses the merge first if an output could have the name of a file that is read. Doesn't print the refusal. For
/// `merge_of`.
fn merge_named<F: Files, P: Report>(
    alloc: Global,
    words: &MergeWords,
    files: &mut F,
    report: &mut P,
) -> Result<Status, MergeEnd>
    requires { IsSoundMerge words.now }
    ensures merges { MergesNamed F.Reads F.Files.own P.Report files.old files.new report.old report.new words.now result }
    ensures ended { HasEnded F.Reads F.Files.own P.Report files.old files.new report.old report.new (as_command result) }
    ensures asks { AsksToMerge (opened_by words.now) words.now (F.asked files.old) (F.asked files.new) }
{
    if let Some(name) = first_written(alloc, words)? {
        return Err(MergeEnd::Refused(Refusal::OutputIsInput { name }));
    }
    let texts = read_text_files(alloc, &words.chapters, words.files.as_slice(), files)?;
    let ids = open_files(alloc, words, &texts, files)?;
    let ended = merge_opened(alloc, words, texts, ids.as_slice(), files, report);
    close_all(files, ids.as_slice());
    ended
}

/// Runs `merge`: writes the selected tracks of several files to one file, or to several parts. Timestamp files and a
/// chapter file that `words` names replace the inputs' timestamps and Chapters. Prints messages to `report`, also a
/// refusal, and returns the exit status. Called once the command line is read.
pub fn merge_of<F: Files, P: Report>(
    alloc: Global,
    words: &MergeWords,
    files: &mut F,
    report: &mut P,
) -> Result<Status, CommandEnd>
    requires { IsSoundMerge words.now }
    ensures verdict { ComesToMerge F.Reads F.Files.own P.Report files.old files.new report.old report.new result words.now }
    ensures ended { HasEnded F.Reads F.Files.own P.Report files.old files.new report.old report.new result }

    // If the merge ended by itself, its outputs can be read again: their records are valid, and none is longer than a
    // file may be.
    ensures readable { IfVisible (F.names files.old) (λ world. EndsReadable words.now (sources_of world words.now) result) }
    ensures asks { AsksToMerge (opened_by words.now) words.now (F.asked files.old) (F.asked files.new) }
    ensures octets { IfVisible (F.names files.old) (λ world. ReadsUpTo F.Reads files.old files.new (most_read world words.now)) }
{
    match merge_named(alloc, words, files, report) {
        Ok(status) => Ok(status),
        Err(MergeEnd::Refused(why)) => refuse(alloc, words, &why, report),
        Err(MergeEnd::Stopped(why)) => Err(why),
    }
}
