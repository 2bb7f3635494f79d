//! The chapter file of a merge (`--chapters`)

ghost use Rattle.std.specs.Prelude.{◌≡◌, ◌+◌, ◌≤◌, [], ◌∷◌, IfOk};
ghost use Rattle.std.specs.Option.{option_to_list};
ghost use Rattle.mkv_io.specs.Faults.{HasCause, is_read_fault};
ghost use Rattle.mkv_io.specs.Told.{IfVisible};
ghost use Rattle.sidecar_edit.specs.Pending.{LooksOnly};
ghost use Rattle.input_files.specs.ChapterFile.{CanBeWritten, chapter_file, chapter_octets, file_with, octets_with};
ghost use Rattle.mkv_io.specs.Bounds.{ReadsByNames};

use crate::reading::read_chapters;
use crate::refusal::{TextFileEnd, TextRefusal};
use ebml_tree::Tree;
use mkv_io::{Files, OpenFault, ReadEnd, Text};
use std::alloc::Global;

/// Result of reading the chapter file of a merge
#[derive(Drop)]
pub enum ChapterFile {
    /// No chapter file is named
    Absent,
    /// No file has its name
    Missing,
    /// The file is refused for its size or its grammar
    Refused(TextRefusal),
    /// Its Chapters; every identifier is 0 until the merge gives one
    Read(Tree),
}

// Opens the chapter file `name`, reads it whole and closes it. A missing or refused file is a result, not an error.
// For `read_chapter_file`, when `merge` reads its chapter file.
fn read_named<F: Files>(alloc: Global, name: &str, files: &mut F) -> Result<ChapterFile, ReadEnd>
    ensures exact { IfVisible (F.names files.old) (λ world. IfOk result (λ given. given ≡ file_with (world name.now))) }
    ensures written { IfOk result CanBeWritten }
    ensures looks { LooksOnly F.Reads F.Files.own (name.now ∷ []) files.old files.new }
    ensures cause { HasCause is_read_fault (F.reading_faults files.old) (F.reading_faults files.new) result }
    ensures octets { ReadsByNames F.Reads F.Files.own files.old files.new (λ world. octets_with (world name.now)) }
{
    let file = match files.open_file(name) {
        Ok(file) => file,
        Err(OpenFault::Missing) => return Ok(ChapterFile::Missing),
        Err(OpenFault::Failed) => return Err(ReadEnd::ReadFault),
        Err(OpenFault::Memory) => return Err(ReadEnd::Memory),
    };
    let read = read_chapters(alloc, files, file);
    files.close(file);
    match read {
        Ok(chapters) => Ok(ChapterFile::Read(chapters)),
        Err(TextFileEnd::Refused(why)) => Ok(ChapterFile::Refused(why)),
        Err(TextFileEnd::ReadFault) => Err(ReadEnd::ReadFault),
        Err(TextFileEnd::Memory) => Err(ReadEnd::Memory),
    }
}

/// Reads the chapter file `name` that the command line of a merge names by `--chapters`, if any. It is closed again. A
/// file that can't be opened or read is a `ReadFault`. `read_text_files` calls it first.
pub fn read_chapter_file<F: Files>(
    alloc: Global,
    name: &Option<Text>,
    files: &mut F,
) -> Result<ChapterFile, ReadEnd>
    ensures exact { IfVisible (F.names files.old) (λ world. IfOk result (λ given. given ≡ chapter_file world name.now)) }

    // Chapters that were read can be written, even if names aren't visible to the proof.
    ensures written { IfOk result CanBeWritten }
    ensures looks { LooksOnly F.Reads F.Files.own (option_to_list name.now) files.old files.new }
    ensures cause { HasCause is_read_fault (F.reading_faults files.old) (F.reading_faults files.new) result }
    ensures octets { ReadsByNames F.Reads F.Files.own files.old files.new (λ world. chapter_octets world name.now) }
{
    match name {
        Some(name) => read_named(alloc, name.as_str(), files),
        None => Ok(ChapterFile::Absent),
    }
}
