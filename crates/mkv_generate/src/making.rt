//! The steps of `generate`: two files are written, merged, and split.

ghost use Rattle.std.specs.Prelude.{◌≡◌, ◌≢◌, ◌<◌, ◌≤◌, ◌^◌};
ghost use Rattle.mkv_io.specs.Ends.{HasRemuxCause};
ghost use Rattle.mkv_io.specs.Seen.{SameLive};
ghost use Rattle.mkv_io.specs.Told.{IfVisible};
ghost use Rattle.remuxer.specs.Output.{WritesOutputs};
ghost use Rattle.mkv_generate.specs.Asked.{AsksToGenerate};
ghost use Rattle.mkv_generate.specs.Bound.{ReadsBoth, ReadsMerged, most_made};
ghost use Rattle.mkv_generate.specs.Generate.{both_words, parts_words, two_files};
ghost use Rattle.mkv_generate.specs.Outcome.{Makes, MakesBoth, MakesParts};
ghost use Rattle.mkv_lines.specs.Command.{HasFilesCause};
ghost use Rattle.mkv_io.specs.Bounds.{ReadsByNames};

use crate::blocks::MediaKind;
use crate::file::write_file;
use crate::names::Names;
use crate::words::{both_words, parts_words};
use mkv_io::{Files, Reads, RemuxEnd};
use mkv_lines::{CommandEnd, stop_of};
use mkv_merge::{Merged, Refusal, merge_files};
use remux_plan::Summary;
use requests::MergeWords;
use std::alloc::{AllocError, Global};

/// Completed merge of `generate`: its command line, and its summary.
#[derive(Drop)]
pub struct Done {
    pub words: MergeWords,
    pub summary: Summary,
}

/// Outcome of making the files.
#[derive(Drop)]
pub enum Outcome {
    /// The merge with the command line `words` is refused, for the reason `why`; it reads files that `generate` has
    /// written.
    Refused { words: MergeWords, why: Refusal },
    /// All files are complete: `both` is the merge of the two files, `parts` the split.
    Made { both: Done, parts: Done },
}

// Writes the two files that are merged later, under `names`: `n` pictures, and two sounds for each picture. It is the
// first step of `generate`.
fn write_files<F: Files>(
    alloc: Global,
    n: u32,
    names: &Names,
    files: &mut F,
) -> Result<(), RemuxEnd>
    requires { n < 2 ^ 18 }
    ensures writes { WritesOutputs (F.names files.old) (F.names files.new) (two_files n names.now) result }
    ensures live { SameLive F.Reads files.old files.new }
    ensures asks { AsksToGenerate names.now (F.asked files.old) (F.asked files.new) }
    ensures cause { HasRemuxCause F.Reads F.Files.own files.old files.new result }
    ensures octets { F.octets_read files.new ≤ F.octets_read files.old }
{
    write_file(
        alloc,
        files,
        names.pictures.as_str(),
        MediaKind::Pictures,
        n,
    )?;
    write_file(alloc, files, names.sounds.as_str(), MediaKind::Sounds, n)
}

// Splits the merged file of `names` with the command line `words`, for `make_parts`. `both` is the merge before, which
// the outcome reports too.
fn merge_parts<F: Files>(
    alloc: Global,
    names: &Names,
    words: MergeWords,
    both: Done,
    files: &mut F,
) -> Result<Outcome, CommandEnd>
    requires { words ≡ parts_words names.now }
    ensures makes { MakesParts (F.names files.old) (F.names files.new) names.now both result }
    ensures octets { ReadsMerged (F.names files.old) names.now (F.octets_read files.old) (F.octets_read files.new) }
    ensures live { SameLive F.Reads files.old files.new }
    ensures asks { AsksToGenerate names.now (F.asked files.old) (F.asked files.new) }
    ensures cause { HasFilesCause F.Reads F.Files.own files.old files.new result }
{
    let _names = names;
    match merge_files(alloc, &words, files) {
        Ok(Merged::Written(summary)) => Ok(Outcome::Made {
            both,
            parts: Done { words, summary },
        }),
        Ok(Merged::Refused(why)) => Ok(Outcome::Refused { words, why }),
        Err(why) => Err(why),
    }
}

// Splits the merged file of `names` into parts of ten seconds: the third step of `generate`. `both` is the merge
// before, which the outcome reports too.
fn make_parts<F: Files>(
    alloc: Global,
    names: &Names,
    both: Done,
    files: &mut F,
) -> Result<Outcome, CommandEnd>
    ensures makes { MakesParts (F.names files.old) (F.names files.new) names.now both result }
    ensures octets { ReadsMerged (F.names files.old) names.now (F.octets_read files.old) (F.octets_read files.new) }
    ensures live { SameLive F.Reads files.old files.new }
    ensures asks { AsksToGenerate names.now (F.asked files.old) (F.asked files.new) }
    ensures cause { HasFilesCause F.Reads F.Files.own files.old files.new result }
{
    match parts_words(alloc, names) {
        Ok(words) => merge_parts(alloc, names, words, both, files),
        Err(AllocError) => Err(CommandEnd::Memory),
    }
}

// Merges the two files of `names` with the command line `words`, and then splits the merged file, for `make_both`.
fn merge_both<F: Files>(
    alloc: Global,
    names: &Names,
    words: MergeWords,
    files: &mut F,
) -> Result<Outcome, CommandEnd>
    requires { words ≡ both_words names.now }
    ensures makes { MakesBoth (F.names files.old) (F.names files.new) names.now result }
    ensures octets { ReadsBoth (F.names files.old) names.now (F.octets_read files.old) (F.octets_read files.new) }
    ensures live { SameLive F.Reads files.old files.new }
    ensures asks { AsksToGenerate names.now (F.asked files.old) (F.asked files.new) }
    ensures cause { HasFilesCause F.Reads F.Files.own files.old files.new result }
{
    match merge_files(alloc, &words, files) {
        Ok(Merged::Written(summary)) => make_parts(alloc, names, Done { words, summary }, files),
        Ok(Merged::Refused(why)) => Ok(Outcome::Refused { words, why }),
        Err(why) => Err(why),
    }
}

// Merges the two files with the names `names`, and then splits the merged file: the second and third step of
// `generate`. `make` calls it.
fn make_both<F: Files>(alloc: Global, names: &Names, files: &mut F) -> Result<Outcome, CommandEnd>
    ensures makes { MakesBoth (F.names files.old) (F.names files.new) names.now result }
    ensures octets { ReadsBoth (F.names files.old) names.now (F.octets_read files.old) (F.octets_read files.new) }
    ensures live { SameLive F.Reads files.old files.new }
    ensures asks { AsksToGenerate names.now (F.asked files.old) (F.asked files.new) }
    ensures cause { HasFilesCause F.Reads F.Files.own files.old files.new result }
{
    match both_words(alloc, names) {
        Ok(words) => merge_both(alloc, names, words, files),
        Err(AllocError) => Err(CommandEnd::Memory),
    }
}

/// Makes all files of `generate` for `n` pictures, under `names`: writes the two files, merges them, and splits the
/// merged file. Each step reads files that the previous one has written. `generate` calls it before it prints.
pub(crate) fn make<F: Files>(
    alloc: Global,
    n: u32,
    names: &Names,
    files: &mut F,
) -> Result<Outcome, CommandEnd>
    requires number { n < 2 ^ 18 }
    requires apart { names.now.pictures ≢ names.now.sounds }
    ensures makes { IfVisible (F.names files.old) (λ world. Makes (F.names files.old) (F.names files.new) n names.now result) }
    ensures octets { ReadsByNames F.Reads F.Files.own files.old files.new (λ _. most_made n names.now) }
    ensures live { SameLive F.Reads files.old files.new }
    ensures asks { AsksToGenerate names.now (F.asked files.old) (F.asked files.new) }
    ensures cause { HasFilesCause F.Reads F.Files.own files.old files.new result }
{
    match write_files(alloc, n, names, files) {
        Ok(()) => make_both(alloc, names, files),
        Err(end) => Err(stop_of(end)),
    }
}
