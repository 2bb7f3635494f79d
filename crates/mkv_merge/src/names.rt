//! Names of the outputs of a merge, and names of the files that it reads.

ghost use Rattle.std.specs.Prelude.{◌≡◌, ◌++◌, find, map, IfOk, OnOk};
ghost use Rattle.std.specs.Option.{option_copied, option_to_list};
ghost use Rattle.sidecar_edit.specs.Name.{sidecar_of};
ghost use Rattle.input_files.specs.Inputs.{file_names};
ghost use Rattle.input_files.specs.TimesFile.{times_names};
ghost use Rattle.mkv_merge.specs.Read.{first_written, is_output, is_part, read_names};

use crate::opening::{add_attached, add_names};
use input_files::{TimesName, times_named};
use mkv_io::{List, Text};
use requests::{FileWords, MergeWords};
use sidecar_edit::sidecar_name;
use splitter::is_part_name;
use std::alloc::{AllocError, Global};

/// Appends the name of the chapter file to `names`, if the command line gives one, for the list of names that no output
/// may have. A step of `read_names`.
fn add_chapters(chapters: &Option<Text>, names: &mut List<Text>) -> Result<(), AllocError>
    ensures { OnOk result (names.new ≡ names.old ++ option_to_list chapters.now) }
{
    match chapters {
        Some(name) => names.push(name.clone()?),
        None => Ok(()),
    }
}

/// Appends the names of the timestamp files `times` to `names`, for the list of names that no output may have. A step
/// of `read_names`.
fn add_times(times: &[TimesName], names: &mut List<Text>) -> Result<(), AllocError>
    ensures { OnOk result (names.new ≡ names.old ++ times_names times.now) }
{
    for each in times {
        names.push(each.name.clone()?)?;
    }
    Ok(())
}

/// Appends the names of the journals of the inputs `files` to `names`, for the list of names that no output may have. A
/// step of `read_names`.
fn add_sidecars(
    alloc: Global,
    files: &[FileWords],
    names: &mut List<Text>,
) -> Result<(), AllocError>
    ensures { OnOk result (names.new ≡ names.old ++ map sidecar_of (file_names files.now)) }
{
    for file in files {
        names.push(sidecar_name(alloc, file.name.as_str())?)?;
    }
    Ok(())
}

/// Appends the names of the journals of the timestamp files `times` to `names`, for the list of names that no output
/// may have. A step of `read_names`.
fn add_times_sidecars(
    alloc: Global,
    times: &[TimesName],
    names: &mut List<Text>,
) -> Result<(), AllocError>
    ensures { OnOk result (names.new ≡ names.old ++ map sidecar_of (times_names times.now)) }
{
    for each in times {
        names.push(sidecar_name(alloc, each.name.as_str())?)?;
    }
    Ok(())
}

/// Returns the names that no output of the merge `words` may have. They are the names of inputs, chapter file, timestamp
/// files and attached files, then the journals of inputs and of timestamp files. For `first_written`.
fn read_names(alloc: Global, words: &MergeWords) -> Result<List<Text>, AllocError>
    ensures { IfOk result (λ names. names ≡ read_names words.now) }
{
    let files = words.files.as_slice();
    let times = times_named(alloc, files)?;
    let mut names = List::new(alloc);
    add_names(files, &mut names)?;
    add_chapters(&words.chapters, &mut names)?;
    add_times(times.as_slice(), &mut names)?;
    add_attached(words.attached.as_slice(), &mut names)?;
    add_sidecars(alloc, files, &mut names)?;
    add_times_sidecars(alloc, times.as_slice(), &mut names)?;
    Ok(names)
}

/// Checks whether the output is split and `name` could be the name of one of its parts, whatever the part's number. For
/// `part_among`, so that `merge` overwrites no file that it reads.
fn is_part(words: &MergeWords, name: &str) -> bool
    ensures { result ≡ is_part words.now name.now }
{
    words.split.is_some() && is_part_name(words.output.as_str(), name)
}

/// Returns the first of `names` that equals the output's name on the command line `words`, or None. For
/// `first_written`, so that `merge` overwrites no file that it reads.
fn output_among<'a>(words: &MergeWords, names: &'a [Text]) -> Option<&'a Text>
    ensures { option_copied result ≡ find (is_output words.now) names.now }
{
    let output = words.output.as_str();
    names.iter().find(|name| name.as_str() == output)
}

/// Returns the first of `names` that could be the name of a part of the output, if `words` split it, or None. For
/// `first_written`, so that `merge` overwrites no file that it reads.
fn part_among<'a>(words: &MergeWords, names: &'a [Text]) -> Option<&'a Text>
    ensures { option_copied result ≡ find (is_part words.now) names.now }
{
    names.iter().find(|name| is_part(words, name.as_str()))
}

/// Returns the name of a file that is read and that an output could overwrite, if there is one; the merge is refused
/// then. A name that equals the output's own is found first, also if the output is split; then one that a part could
/// have. `merge` calls it before it opens a file.
pub fn first_written(alloc: Global, words: &MergeWords) -> Result<Option<Text>, AllocError>
    ensures { IfOk result (λ name. name ≡ first_written words.now) }
{
    let names = read_names(alloc, words)?;
    let names = names.as_slice();
    match output_among(words, names).or(part_among(words, names)) {
        Some(name) => Ok(Some(name.clone()?)),
        None => Ok(None),
    }
}
