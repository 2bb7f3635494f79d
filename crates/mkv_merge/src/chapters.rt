//! Chapters of a chapter file, which replace the inputs' own: RFC 9559, section 5.1.7 (Chapters Element).

ghost use Rattle.std.specs.Prelude.{◌≡◌, IfOk, IfErr};
ghost use Rattle.mkv_merge.specs.Chapters.{first_with, with_file, with_tree};
ghost use Rattle.mkv_merge.specs.Ends.{IsQuiet};
ghost use Rattle.mkv_merge.specs.Prepared.{ReadsAs};

use crate::refusal::{MergeEnd, Refusal};
use ebml_tree::Tree;
use input_files::ChapterFile;
use merge_inputs::Input;
use mkv_io::List;
use std::alloc::{AllocError, Global};

/// Returns `inputs` with the Chapters `chapters` in the first input, and without Chapters in all others: a merge has
/// one Chapters Element. `with_file` calls it for a chapter file that was read. Fails if memory runs out.
fn first_with(
    alloc: Global,
    chapters: Option<Tree>,
    inputs: List<Input>,
) -> Result<List<Input>, AllocError>
    ensures { IfOk result (λ list. list ≡ first_with with_tree chapters inputs) }
{
    let mut next = chapters;
    let mut list = List::new(alloc);
    for mut input in inputs.into_vec() {
        input.chapters = next.take();
        list.push(input)?;
    }
    Ok(list)
}

/// Applies the chapter file `file` of the command line to the read inputs: its Chapters replace the ones of all
/// `inputs`. With `webm`, for a WebM output, the inputs have no Chapters then. Without a chapter file they stay as they
/// are. Fails if `file` is refused. `prepare` calls it after all inputs are read.
pub fn with_file(
    alloc: Global,
    webm: bool,
    file: ChapterFile,
    inputs: List<Input>,
) -> Result<List<Input>, MergeEnd>
    ensures exact { ReadsAs (λ list. list) (with_file with_tree webm file inputs) result }
    ensures cause { IfErr result IsQuiet }
{
    match file {
        ChapterFile::Absent | ChapterFile::Missing => Ok(inputs),
        ChapterFile::Refused(why) => Err(MergeEnd::Refused(Refusal::Chapters(why))),
        ChapterFile::Read(chapters) => {
            let kept = if webm { None } else { Some(chapters) };
            Ok(first_with(alloc, kept, inputs)?)
        }
    }
}
