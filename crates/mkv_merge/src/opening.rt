//! Opens the inputs of a merge and the files that it attaches.

ghost use Rattle.std.specs.Prelude.{◌≡◌, ◌++◌, [], IfOk, OnErr, OnOk};
ghost use Rattle.mkv_io.specs.Told.{IfVisible};
ghost use Rattle.mkv_io.specs.Writing.{UsesOnly};
ghost use Rattle.input_files.specs.Inputs.{HaveContents, LeavesContents, OpensInputs, attached_names, file_names};
ghost use Rattle.mkv_merge.specs.Ends.{HasReadCause};
ghost use Rattle.mkv_merge.specs.Opened.{FindsAll, missing_refusal, opened_names};

use crate::refusal::{MergeEnd, Refusal};
use crate::texts::missing_text;
use input_files::{InputsEnd, TextFiles, open_all};
use mkv_io::{FileId, Files, List, Text};
use mkv_lines::CommandEnd;
use requests::{AttachedWords, FileWords, MergeWords};
use std::alloc::{AllocError, Global};

/// Appends the names of the inputs `files` to `names`, for the lists of names that are opened, and that no output may
/// have.
pub fn add_names(files: &[FileWords], names: &mut List<Text>) -> Result<(), AllocError>
    ensures { OnOk result (names.new ≡ names.old ++ file_names files.now) }
{
    for file in files {
        names.push(file.name.clone()?)?;
    }
    Ok(())
}

/// Appends the names of the files that `attached` attaches to `names`, for the lists of names that are opened, and that
/// no output may have.
pub fn add_attached(attached: &[AttachedWords], names: &mut List<Text>) -> Result<(), AllocError>
    ensures { OnOk result (names.new ≡ names.old ++ attached_names attached.now) }
{
    for each in attached {
        names.push(each.file.clone()?)?;
    }
    Ok(())
}

/// Returns the names of the inputs of the merge `words`, then those of the files that it attaches. `open_files` opens
/// them in this order.
fn opened_names(alloc: Global, words: &MergeWords) -> Result<List<Text>, AllocError>
    ensures { IfOk result (λ names. names ≡ opened_names words.now) }
{
    let mut names = List::new(alloc);
    add_names(words.files.as_slice(), &mut names)?;
    add_attached(words.attached.as_slice(), &mut names)?;
    Ok(names)
}

/// Returns the refusal of the merge `words` because the name number `missing`, counted from 0, of the ones that it opens
/// has no file. Its text files, which are `texts`, are checked after the inputs and before the attached files. For
/// `open_files`.
fn missing_refusal(
    words: &MergeWords,
    texts: &TextFiles,
    missing: usize,
) -> Result<Refusal, AllocError>
    ensures { IfOk result (λ why. why ≡ missing_refusal words.now texts.now missing) }
{
    let inputs = words.files.len();
    if missing < inputs {
        return Ok(Refusal::Missing { input: missing });
    }
    match missing_text(texts)? {
        Some(why) => Ok(why),
        None => Ok(Refusal::MissingAttached {
            attached: missing - inputs,
        }),
    }
}

/// Opens the inputs of the merge `words` and the files that it attaches. Refuses the merge if one is missing; its text
/// files, which are `texts`, are checked between them. No file stays open then. `merge_named` and `join_named` call it
/// before they read an input.
pub fn open_files<F: Files>(
    alloc: Global,
    words: &MergeWords,
    texts: &TextFiles,
    files: &mut F,
) -> Result<List<FileId>, MergeEnd>
    ensures opens { IfOk result (OpensInputs F.Reads F.Files.own (opened_names words.now) files.old files.new) }
    ensures contents { IfOk result (HaveContents F.Reads F.Files.own (opened_names words.now) files.old files.new) }
    ensures found { IfVisible (F.names files.old) (λ world. FindsAll world words.now texts.now result) }

    // After an error the same files are live, and each is unchanged.
    ensures refused { OnErr result (UsesOnly F.Reads F.Files.own (opened_names words.now) [] files.old files.new) }
    ensures same { LeavesContents F.Reads F.Files.own files.old files.new }
    ensures cause { HasReadCause (F.reading_faults files.old) (F.reading_faults files.new) result }
{
    let names = opened_names(alloc, words)?;
    match open_all(alloc, names.as_slice(), files) {
        Ok(ids) => Ok(ids),
        Err(InputsEnd::Missing { input }) => {
            let why = missing_refusal(words, texts, input)?;
            Err(MergeEnd::Refused(why))
        }
        Err(InputsEnd::Failed) => Err(MergeEnd::Stopped(CommandEnd::Files)),
        Err(InputsEnd::Memory) => Err(MergeEnd::Stopped(CommandEnd::Memory)),
    }
}
