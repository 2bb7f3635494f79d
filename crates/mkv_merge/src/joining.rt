//! Merges files without printing a line.

ghost use Rattle.std.specs.Prelude.{◌≡◌, []};
ghost use Rattle.mkv_io.specs.Seen.{SameLive};
ghost use Rattle.mkv_io.specs.Told.{IfVisible};
ghost use Rattle.input_files.specs.Inputs.{AreInputs};
ghost use Rattle.requests.specs.Sound.{IsSoundMerge};
ghost use Rattle.mkv_merge.specs.Asked.{AsksToMerge};
ghost use Rattle.mkv_merge.specs.Joined.{MergesAlone, MergesLive, ReadsLive, as_merged, most_lone, no_texts};
ghost use Rattle.mkv_merge.specs.Opened.{opened_names};
ghost use Rattle.mkv_merge.specs.Read.{IsApartMerge};
ghost use Rattle.mkv_lines.specs.Command.{HasFilesCause};
ghost use Rattle.mkv_io.specs.Bounds.{ReadsUpTo};

use crate::names::first_written;
use crate::opening::open_files;
use crate::preparing::prepare;
use crate::refusal::{MergeEnd, Refusal, remuxed};
use input_files::{ChapterFile, TextFiles, close_all};
use mkv_io::{FileId, Files, List, Reads};
use mkv_lines::CommandEnd;
use remux_plan::Summary;
use remuxer::remux;
use requests::MergeWords;
use std::alloc::Global;

/// Result of `merge_files`, a merge that prints nothing: a summary of the outputs that were written, or the reason why
/// nothing was merged.
#[derive(Drop)]
pub enum Merged {
    Written(Summary),
    Refused(Refusal),
}

/// Reads, plans and writes the merge of the open files `ids`: the inputs of the command line `words`, in its order, and
/// after them the files that it attaches. Writes the outputs to `files`. `texts` has no text file. For `join_named`.
fn join_opened<F: Files>(
    alloc: Global,
    words: &MergeWords,
    texts: TextFiles,
    ids: &[FileId],
    files: &mut F,
) -> Result<Summary, MergeEnd>
    requires words { IsApartMerge words.now }
    requires texts { texts ≡ no_texts }
    requires inputs { AreInputs F.Reads F.Files.own (opened_names words.now) files.old ids.now }
    ensures merges { MergesLive F.Reads F.Files.own files.old files.new words.now ids.now (as_merged result) }
    ensures live { SameLive F.Reads files.old files.new }
    ensures cause { HasFilesCause F.Reads F.Files.own files.old files.new (as_merged result) }
    ensures asks { AsksToMerge [] words.now (F.asked files.old) (F.asked files.new) }
    ensures octets { ReadsLive F.Reads files.old files.new words.now ids.now }
{
    let (own, attached) = ids.split_at(words.files.len());
    let prepared = prepare(alloc, words, texts, files, own, attached)?;
    remuxed(remux(alloc, prepared.plan, files))
}

/// Opens the inputs and attached files that `words` names, merges them and closes them again. Refuses the merge first if
/// an output could have the name of a file that is read. For `merge_files`.
fn join_named<F: Files>(
    alloc: Global,
    words: &MergeWords,
    files: &mut F,
) -> Result<Summary, MergeEnd>
    requires { IsSoundMerge words.now }
    ensures merges { MergesAlone F.Files.own files.old files.new words.now (as_merged result) }
    ensures live { SameLive F.Reads files.old files.new }
    ensures cause { HasFilesCause F.Reads F.Files.own files.old files.new (as_merged result) }
    ensures asks { AsksToMerge (opened_names words.now) words.now (F.asked files.old) (F.asked files.new) }
    ensures octets { IfVisible (F.names files.old) (λ world. ReadsUpTo F.Reads files.old files.new (most_lone world words.now)) }
{
    if let Some(name) = first_written(alloc, words)? {
        return Err(MergeEnd::Refused(Refusal::OutputIsInput { name }));
    }
    let texts = TextFiles {
        chapters: ChapterFile::Absent,
        times: List::new(alloc),
    };
    let ids = open_files(alloc, words, &texts, files)?;
    let ended = join_opened(alloc, words, texts, ids.as_slice(), files);
    close_all(files, ids.as_slice());
    ended
}

/// Merges the files that `words` names, and prints nothing, for a caller with its own messages (`generate`). A refusal
/// is a result (`Merged::Refused`), not an error. Opens no journal, chapter file or timestamp file.
pub fn merge_files<F: Files>(
    alloc: Global,
    words: &MergeWords,
    files: &mut F,
) -> Result<Merged, CommandEnd>
    requires { IsSoundMerge words.now }
    ensures merges { MergesAlone F.Files.own files.old files.new words.now result }
    ensures live { SameLive F.Reads files.old files.new }
    ensures cause { HasFilesCause F.Reads F.Files.own files.old files.new result }
    ensures asks { AsksToMerge (opened_names words.now) words.now (F.asked files.old) (F.asked files.new) }
    ensures octets { IfVisible (F.names files.old) (λ world. ReadsUpTo F.Reads files.old files.new (most_lone world words.now)) }
{
    match join_named(alloc, words, files) {
        Ok(summary) => Ok(Merged::Written(summary)),
        Err(MergeEnd::Refused(why)) => Ok(Merged::Refused(why)),
        Err(MergeEnd::Stopped(why)) => Err(why),
    }
}
