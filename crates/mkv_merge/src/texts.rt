//! Timestamp files, which replace the timestamps of tracks, and refusals because of text files.

ghost use Rattle.std.specs.Prelude.{◌≡◌, ◌++◌, map, IfOk, IfErr, OnOk};
ghost use Rattle.std.specs.Option.{option_copied};
ghost use Rattle.merge_inputs.specs.Input.{listings_in, read_in};
ghost use Rattle.mkv_merge.specs.Ends.{IsQuiet};
ghost use Rattle.mkv_merge.specs.Prepared.{ReadsAs, reads_in};
ghost use Rattle.mkv_merge.specs.Texts.{first_refusing, missing_by, missing_text, missing_times, refusal_by, times_refusal, with_times};
ghost use Rattle.mkv_merge.specs.Timed.{IsSameBut, at_input, listed_by, listed_in, listed_of, shared_at, shared_for, shared_from};

use crate::refusal::{MergeEnd, Refusal};
use ext_times::Times;
use input_files::{ChapterFile, TextFiles, TimesFile, TimesGiven};
use merge_inputs::{Input, TrackTimes};
use mkv_io::List;
use std::alloc::{AllocError, Global};
use std::rc::Rc;

/// Returns the refusal of the merge if the timestamp file `file` doesn't exist, or None. For `missing_times`.
fn missing_by(file: &TimesFile) -> Result<Option<Refusal>, AllocError>
    ensures { IfOk result (λ why. why ≡ missing_by file.now) }
{
    match &file.given {
        TimesGiven::Missing => {
            let name = file.named.name.clone()?;
            Ok(Some(Refusal::MissingTimes { name }))
        }
        TimesGiven::Refused(_) | TimesGiven::Read(_) => Ok(None),
    }
}

/// Returns the first of the timestamp files `files` that doesn't exist, or None. For `missing_times`, when `merge`
/// applies its timestamp files.
fn first_missing(files: &[TimesFile]) -> Option<&TimesFile>
    ensures { option_copied result ≡ first_refusing missing_by files.now }
{
    files
        .iter()
        .find(|file| matches!(&file.given, TimesGiven::Missing))
}

/// Returns the refusal of the merge because of the first of the timestamp files `files` that doesn't exist, if there is
/// one. For `missing_text`.
fn missing_times(files: &[TimesFile]) -> Result<Option<Refusal>, AllocError>
    ensures { IfOk result (λ why. why ≡ missing_times files.now) }
{
    match first_missing(files) {
        Some(file) => missing_by(file),
        None => Ok(None),
    }
}

/// Returns the refusal of the merge because of a text file that doesn't exist, if there is one. The chapter file is
/// checked first, then the timestamp files. `merge` calls it before it reads an input.
pub fn missing_text(texts: &TextFiles) -> Result<Option<Refusal>, AllocError>
    ensures { IfOk result (λ why. why ≡ missing_text texts.now) }
{
    match &texts.chapters {
        ChapterFile::Missing => Ok(Some(Refusal::MissingChapters)),
        _ => missing_times(texts.times.as_slice()),
    }
}

/// Returns the refusal of the merge if the content of the timestamp file `file` is refused: it is too large or has an
/// invalid line. Returns None otherwise. For `times_refusal`.
fn refusal_by(file: &TimesFile) -> Result<Option<Refusal>, AllocError>
    ensures { IfOk result (λ why. why ≡ refusal_by file.now) }
{
    match &file.given {
        TimesGiven::Refused(why) => {
            let name = file.named.name.clone()?;
            Ok(Some(Refusal::Times { name, why: *why }))
        }
        TimesGiven::Missing | TimesGiven::Read(_) => Ok(None),
    }
}

/// Returns the first of the timestamp files `files` whose content is refused, or None. For `times_refusal`, when
/// `merge` applies its timestamp files.
fn first_refused(files: &[TimesFile]) -> Option<&TimesFile>
    ensures { option_copied result ≡ first_refusing refusal_by files.now }
{
    files
        .iter()
        .find(|file| matches!(&file.given, TimesGiven::Refused(_)))
}

/// Returns the refusal of the merge because of the first of the timestamp files `files` whose content is refused, if
/// there is one. For `with_times`.
fn times_refusal(files: &[TimesFile]) -> Result<Option<Refusal>, AllocError>
    ensures { IfOk result (λ why. why ≡ times_refusal files.now) }
{
    match first_refused(files) {
        Some(file) => refusal_by(file),
        None => Ok(None),
    }
}

/// Timestamps of one timestamp file, which all output tracks made from one track of an input share.
#[derive(Drop)]
struct SharedTimes {
    /// Number of the input, from 0 in the order of the command line.
    input: usize,
    id: u64,
    times: Rc<Times>,
}

/// Appends the timestamps of `file` to `list`, with the input and track that they are for, if the file was read. For
/// `shared`; fails if memory runs out.
fn share(alloc: Global, file: TimesFile, list: &mut List<SharedTimes>) -> Result<(), AllocError>
    ensures { OnOk result (map listed_of list.new ≡ map listed_of list.old ++ listed_by file) }
{
    let TimesFile { named, given } = file;
    match given {
        TimesGiven::Read(times) => {
            let times = Rc::new(alloc, times)?;
            list.push(SharedTimes {
                input: named.input,
                id: named.id,
                times,
            })
        }
        TimesGiven::Missing | TimesGiven::Refused(_) => Ok(()),
    }
}

/// Returns the timestamps of all timestamp files `files`, each with the input and track that it is for. Output tracks
/// share them instead of copying them. For `with_times`, when `merge` applies its timestamp files.
fn shared(alloc: Global, files: List<TimesFile>) -> Result<List<SharedTimes>, AllocError>
    ensures { IfOk result (λ list. map listed_of list ≡ listed_in files) }
{
    let mut list = List::new(alloc);
    for file in files.into_vec() {
        share(alloc, file, &mut list)?;
    }
    Ok(list)
}

/// Appends the timestamps `each` to `times`, which has the ones of the input number `input`, if they are for that
/// input. Inputs count from 0. For `times_at`, when `merge` applies its timestamp files.
fn add_at(input: usize, each: &SharedTimes, times: &mut List<TrackTimes>) -> Result<(), AllocError>
    ensures { OnOk result (listings_in times.new ≡ listings_in times.old ++ at_input input (listed_of each.now)) }
{
    if each.input != input {
        return Ok(());
    }
    let shared = each.times.clone()?;
    times.push(TrackTimes {
        id: each.id,
        times: shared,
    })
}

/// Selects the timestamps in `shared` that are for the input number `input`, counted from 0, each with the ID of its
/// track. For `times_for`, when `merge` applies its timestamp files.
fn times_at(
    alloc: Global,
    input: usize,
    shared: &[SharedTimes],
) -> Result<List<TrackTimes>, AllocError>
    ensures { IfOk result (λ times. listings_in times ≡ shared_at input shared.now) }
{
    let mut times = List::new(alloc);
    for each in shared {
        add_at(input, each, &mut times)?;
    }
    Ok(times)
}

/// Selects the timestamps in `shared` that are for `input`, the input number `number`, counted from 0. An appended
/// input gets none: it keeps its own timestamps. For `timed`, when `merge` applies its timestamp files.
fn times_for(
    alloc: Global,
    number: usize,
    input: &Input,
    shared: &[SharedTimes],
) -> Result<List<TrackTimes>, AllocError>
    ensures { IfOk result (λ times. listings_in times ≡ shared_for number shared.now (read_in input.now)) }
{
    if input.shift.is_some() {
        Ok(List::new(alloc))
    } else {
        times_at(alloc, number, shared)
    }
}

/// Returns `inputs`, each with the timestamps in `shared` that are for it. Nothing else of an input changes. For
/// `with_times`, when `merge` applies its timestamp files.
fn timed(
    alloc: Global,
    shared: &[SharedTimes],
    inputs: List<Input>,
) -> Result<List<Input>, AllocError>
    ensures exact { IfOk result (λ list. reads_in list ≡ shared_from shared.now 0 (reads_in inputs)) }
    ensures same { IfOk result (IsSameBut inputs) }
{
    let mut list = List::new(alloc);
    for (number, input) in inputs.into_vec().into_iter().enumerate() {
        let times = times_for(alloc, number, &input, shared)?;
        list.push(Input { times, ..input })?;
    }
    Ok(list)
}

/// Applies the timestamp files `files` of the command line: returns `inputs` with their timestamps. Fails if a
/// timestamp file is refused. `prepare` calls it after the chapter file is applied.
pub fn with_times(
    alloc: Global,
    files: List<TimesFile>,
    inputs: List<Input>,
) -> Result<List<Input>, MergeEnd>
    ensures exact { ReadsAs reads_in (with_times files (reads_in inputs)) result }
    ensures same { IfOk result (IsSameBut inputs) }
    ensures cause { IfErr result IsQuiet }
{
    if let Some(why) = times_refusal(files.as_slice())? {
        return Err(MergeEnd::Refused(why));
    }
    let shared = shared(alloc, files)?;
    Ok(timed(alloc, shared.as_slice(), inputs)?)
}
