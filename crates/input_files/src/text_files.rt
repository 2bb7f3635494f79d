//! The text files that the options of a merge name

ghost use Rattle.std.specs.Prelude.{◌+◌, ◌≤◌, IfOk};
ghost use Rattle.mkv_io.specs.Faults.{HasCause, is_read_fault};
ghost use Rattle.mkv_io.specs.Told.{IfVisible};
ghost use Rattle.sidecar_edit.specs.Pending.{LooksOnly};
ghost use Rattle.input_files.specs.ChapterFile.{CanBeWritten};
ghost use Rattle.input_files.specs.TextFiles.{GivesTexts, ReadsTexts, text_names};

use crate::chapter_file::{ChapterFile, read_chapter_file};
use crate::times_file::{TimesFile, read_times_files};
use mkv_io::{Files, List, ReadEnd, Text};
use requests::FileWords;
use std::alloc::Global;

/// Results of reading the text files that the options of a merge name
#[derive(Drop)]
pub struct TextFiles {
    pub chapters: ChapterFile,
    /// Timestamp files, in the order of the inputs
    pub times: List<TimesFile>,
}

/// Reads the chapter file of a merge, if `chapters` names one, and then the timestamp files that its inputs `words`
/// name. A file that can't be opened or read is a `ReadFault`. `merge` calls it before it opens its inputs.
pub fn read_text_files<F: Files>(
    alloc: Global,
    chapters: &Option<Text>,
    words: &[FileWords],
    files: &mut F,
) -> Result<TextFiles, ReadEnd>
    ensures exact { GivesTexts F.Files.own chapters.now words.now files.old result }

    // Chapters that were read can be written, even if names aren't visible to the proof.
    ensures written { IfOk result (λ texts. CanBeWritten texts.chapters) }
    ensures looks { LooksOnly F.Reads F.Files.own (text_names chapters.now words.now) files.old files.new }
    ensures cause { HasCause is_read_fault (F.reading_faults files.old) (F.reading_faults files.new) result }
    ensures octets { ReadsTexts F.Reads F.Files.own chapters.now words.now files.old files.new }
{
    let chapters = read_chapter_file(alloc, chapters, files)?;
    let times = read_times_files(alloc, words, files)?;
    Ok(TextFiles { chapters, times })
}
