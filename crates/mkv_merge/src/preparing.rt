//! Reads inputs up to their blocks, and plans the merge.

ghost use Rattle.std.specs.Prelude.{◌≡◌, ◌*◌, ◌++◌, IfOk};
ghost use Rattle.mkv_io.specs.Sources.{IfTold, IsLive, file_size, live_files};
ghost use Rattle.input_files.specs.ChapterFile.{CanBeWritten};
ghost use Rattle.requests.specs.Sound.{IsSoundFile};
ghost use Rattle.merge_inputs.specs.Input.{IsInput, IsReadOf, held_in};
ghost use Rattle.mkv_outputs.specs.Sinks.{AreLive};
ghost use Rattle.input_files.specs.Inputs.{sizes_of};
ghost use Rattle.mkv_merge.specs.Attached.{AreAttachedTo, ChecksSizes, AttachesFiles, CanBeAttached};
ghost use Rattle.mkv_merge.specs.Bound.{live_size};
ghost use Rattle.mkv_merge.specs.Prepared.{AreInputsOf, AreUnmoved, CanPrepare, EndsReading, IfAllTold, IfBothTold, IsPrepared};
ghost use Rattle.mkv_merge.specs.Prepared.{Prepares, ReadsEach, ReadsOne, ReadsToPrepare};
ghost use Rattle.mkv_io.specs.Bounds.{ReadsUpTo};

use crate::chapters::with_file;
use crate::refusal::{MergeEnd, Refusal};
use crate::texts::with_times;
use input_files::{TextFiles, first_large};
use merge_inputs::{Blocks, Input, InputEnd, read_input};
use merge_plan::{append_refusal, assign_append_offsets, attached_input, plan_of};
use mkv_io::{FileId, List, Reads};
use mkv_lines::CommandEnd;
use remux_plan::MergePlan;
use requests::{FileWords, MergeWords};
use std::alloc::{AllocError, Global};

/// Inputs and plan of a merge, ready to be written by `write`.
#[derive(Drop)]
pub struct Prepared {
    /// Inputs, in the order of the command line, and then the attached files.
    pub inputs: List<Input>,
    pub plan: MergePlan,
}

/// Reads Info, Tracks and the other records of the input number `input`, counted from 0, but none of its blocks. `file`
/// is its open file, and `held` the size of the records of the inputs before it, in bytes. A refusal names the input by
/// its number. `webm` is true for a WebM output. For `read_inputs`, before `merge` plans its outputs.
fn read_one<R: Reads>(
    alloc: Global,
    words: &FileWords,
    webm: bool,
    input: usize,
    held: u64,
    src: &mut R,
    file: FileId,
) -> Result<Input, MergeEnd>
    requires live { IsLive R.Reads src.old file }
    requires delays { IsSoundFile words.now }
    ensures exact { IfTold R.Reads src.old file (λ bytes. ReadsOne input words.now webm held bytes result) }
    ensures input { IfOk result (IsInput (live_files R.Reads src.new)) }
    ensures file { IfOk result (IsReadOf file words.now) }
    ensures reading { EndsReading R.Reads src.old src.new result }
    ensures octets { ReadsUpTo R.Reads src.old src.new (25 * file_size R.Reads src.old file) }
{
    match read_input(alloc, words, webm, held, src, file) {
        Ok(read) => Ok(read),
        Err(InputEnd::Refused(why)) => Err(MergeEnd::Refused(Refusal::Input { input, why })),
        Err(InputEnd::ReadFault) => Err(MergeEnd::Stopped(CommandEnd::Files)),
        Err(InputEnd::Memory) => Err(MergeEnd::Stopped(CommandEnd::Memory)),
    }
}

/// Returns for `read_inputs` the total size of Info, Tracks, Chapters and Tags of an input, in bytes. A SubRip text has
/// none of them.
fn held_by(blocks: &Blocks) -> u64
    ensures { result ≡ held_in blocks.now }
{
    match blocks {
        Blocks::Clusters { outline, .. } => outline.held(),
        Blocks::Entries { .. } => 0,
    }
}

/// Reads the records of all inputs, but none of their blocks, in the order of `words`; `files` are their open files.
/// The sizes of Info, Tracks, Chapters and Tags are added up, since they are limited for all inputs together. The first
/// step of `prepare`.
fn read_inputs<R: Reads>(
    alloc: Global,
    words: &MergeWords,
    src: &mut R,
    files: &[FileId],
) -> Result<List<Input>, MergeEnd>
    requires ready { CanPrepare R.Reads src.old words.now files.now }
    ensures exact { IfAllTold R.Reads src.old files.now (λ contents. ReadsEach words.now contents result) }
    ensures inputs { IfOk result (AreInputsOf (live_files R.Reads src.new) files.now) }
    ensures unmoved { IfOk result (AreUnmoved words.now.files) }
    ensures reading { EndsReading R.Reads src.old src.new result }
    ensures octets { ReadsUpTo R.Reads src.old src.new (25 * live_size R.Reads src.old files.now) }
{
    let mut inputs = List::new(alloc);
    let mut held: u64 = 0;
    for (input, file) in files.iter().enumerate() {
        let file_words = &words.files.as_slice()[input];
        let read = read_one(alloc, file_words, words.webm, input, held, src, *file)?;
        held = held.saturating_add(held_by(&read.blocks));
        inputs.push(read)?;
    }
    Ok(inputs)
}

/// Refuses the merge if one of the open files `attached` is too large to be attached. `prepare` calls it after the
/// timestamp files are applied.
fn check_sizes<R: Reads>(src: &R, attached: &[FileId]) -> Result<(), MergeEnd>
    requires { AreLive (live_files R.Reads src.now).live attached.now }
    ensures { ChecksSizes (sizes_of (live_files R.Reads src.now) attached.now) result }
{
    match first_large(src, attached) {
        Some(attached) => Err(MergeEnd::Refused(Refusal::AttachedTooLarge { attached })),
        None => Ok(()),
    }
}

/// Returns the read inputs `inputs` of `words`, and after them an input without tracks for each file that is attached.
/// `attached` are the open files. `prepare` calls it before it plans the merge.
fn with_attached<R: Reads>(
    alloc: Global,
    words: &MergeWords,
    src: &R,
    attached: &[FileId],
    inputs: List<Input>,
) -> Result<List<Input>, AllocError>
    requires live { CanBeAttached R.Reads src.now words.now attached.now }
    ensures exact { IfOk result (AttachesFiles (live_files R.Reads src.now) words.now attached.now inputs) }
    ensures valid { IfOk result (AreAttachedTo (live_files R.Reads src.now) attached.now inputs) }
{
    let mut list = inputs;
    for (k, file) in attached.iter().enumerate() {
        let each = &words.attached.as_slice()[k];
        list.push(attached_input(alloc, each, words.webm, src, *file)?)?;
    }
    Ok(list)
}

/// Reads the live files `files`, the inputs of `words`, applies the text files `texts` and plans the merge, with the live
/// files `attached` attached. Only a file that the next one is appended to is walked to its end. Fails if one of them is
/// refused. The stage of `merge` before it writes.
pub fn prepare<R: Reads>(
    alloc: Global,
    words: &MergeWords,
    texts: TextFiles,
    src: &mut R,
    files: &[FileId],
    attached: &[FileId],
) -> Result<Prepared, MergeEnd>
    requires ready { CanPrepare R.Reads src.old words.now files.now }
    requires attached { CanBeAttached R.Reads src.old words.now attached.now }
    requires chapters { CanBeWritten texts.chapters }
    ensures exact { IfBothTold R.Reads src.old files.now attached.now (λ own others. Prepares words.now texts own others result) }
    ensures prepared { IfOk result (IsPrepared (live_files R.Reads src.new) words.now (files.now ++ attached.now)) }
    ensures reading { EndsReading R.Reads src.old src.new result }
    ensures octets { ReadsToPrepare R.Reads src.old src.new words.now files.now }
{
    let TextFiles { chapters, times } = texts;
    let read = read_inputs(alloc, words, src, files)?;
    let chaptered = with_file(alloc, words.webm, chapters, read)?;
    let timed = with_times(alloc, times, chaptered)?;
    check_sizes(src, attached)?;
    if let Some(differs) = append_refusal(timed.as_slice()) {
        return Err(MergeEnd::Refused(Refusal::Differs(differs)));
    }
    let placed = assign_append_offsets(alloc, timed, src)?;
    let inputs = with_attached(alloc, words, src, attached, placed)?;
    let plan = plan_of(alloc, words, inputs.as_slice())?;
    Ok(Prepared { inputs, plan })
}
