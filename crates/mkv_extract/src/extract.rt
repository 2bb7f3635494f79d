//! The command `extract`: a file is opened, its parts are written to outputs, and it is closed.

ghost use Rattle.std.specs.Prelude.{◌≡◌, ◌*◌, [], ◌∷◌, IsSome, Ok};
ghost use Rattle.std.specs.List.{All};
ghost use Rattle.mkv_io.specs.Asked.{AsksOnly};
ghost use Rattle.extractors.specs.Job.{CanBeDone, fit_outputs, form_of, names_for};
ghost use Rattle.extractors.specs.Source.{entries_in};
ghost use Rattle.extractors.specs.Walks.{IsReady};
ghost use Rattle.sidecar_edit.specs.Name.{sidecar_of, with_sidecar};
ghost use Rattle.mkv_lines.specs.Command.{HasEnded, with_sidecar_head};
ghost use Rattle.mkv_io.specs.Bounds.{ReadsOf};
ghost use Rattle.mkv_lines.specs.Line.{text_of};
ghost use Rattle.mkv_extract.specs.Bound.{ReadsToExtract, most_of_content, most_of_file};
ghost use Rattle.mkv_extract.specs.Extract.{unfit_line};
ghost use Rattle.mkv_extract.specs.Steps.{TakesFile, TakesFit, TakesFrames, TakesSettled, TakesSource};
ghost use Rattle.mkv_extract.specs.Extractions.{CanTake, CanTakeFrom, Takes};

use crate::attachments::extract_attachments;
use crate::chapters::extract_chapters;
use crate::cues::extract_cues;
use crate::names::first_written;
use crate::reading::read_source;
use crate::telling::{Missing, say_absent, tell};
use element_reader::OutlineEnd;
use extractors::{
    Refusal, Source, TrackOutput, UnsupportedTrack, extract, job_outputs, targets_of,
};
use mkv_io::{FileId, Files, OpenFault, Report};
use mkv_lines::{CommandEnd, Line, Status, refuse, stop_of};
use requests::Job;
use sidecar_edit::is_pending;
use std::alloc::{AllocError, Global};

/// Runs `extract`: extracts from the file `name` what `job` asks for, each target to its own file. The outputs must
/// have different names. It opens the file, checks it, writes the outputs and closes it, in any case. Called once the
/// command line is read; prints messages to `report` and returns the exit status.
pub fn extract_of<F: Files, P: Report>(
    alloc: Global,
    name: &str,
    job: &Job,
    files: &mut F,
    report: &mut P,
) -> Result<Status, CommandEnd>
    requires job { CanBeDone job.now }
    ensures verdict { Takes F.Reads F.Files.own P.Report files.old files.new report.old report.new result name.now job.now }
    ensures ended { HasEnded F.Reads F.Files.own P.Report files.old files.new report.old report.new result }
    ensures asks { AsksOnly (with_sidecar name.now) (names_for job.now) (F.asked files.old) (F.asked files.new) }
    ensures octets { ReadsToExtract F.Reads F.Files.own files.old files.new name.now job.now }
{
    match first_written(alloc, name, job) {
        Ok(None) => {}
        Ok(Some(out)) => {
            let name = out.as_str();
            return refuse(alloc, &Line::OutputIsInput { name }, report);
        }
        Err(AllocError) => return Err(CommandEnd::Memory),
    }
    let file = match files.open_file(name) {
        Ok(file) => file,
        Err(OpenFault::Missing) => return refuse(alloc, &Line::Missing { name }, report),
        Err(OpenFault::Failed) => return Err(CommandEnd::Files),
        Err(OpenFault::Memory) => return Err(CommandEnd::Memory),
    };
    let ended = extract_settled(alloc, name, job, files, file, report);
    files.close(file);
    ended
}

/// Extracts from the open file `file` with the name `name` what `job` asks for. If its journal has a pending edit, it
/// prints only an error, since the file may be half written. For `extract_of`, while `extract` runs.
fn extract_settled<F: Files, P: Report>(
    alloc: Global,
    name: &str,
    job: &Job,
    files: &mut F,
    file: FileId,
    report: &mut P,
) -> Result<Status, CommandEnd>
    requires { CanTake F.Reads F.Files.own files.old file job.now }
    ensures verdict { TakesSettled F.Reads F.Files.own P.Report file files.old files.new report.old report.new result name.now job.now }
    ensures ended { HasEnded F.Reads F.Files.own P.Report files.old files.new report.old report.new result }
    ensures asks { AsksOnly (sidecar_of name.now ∷ []) (names_for job.now) (F.asked files.old) (F.asked files.new) }
    ensures octets { ReadsOf F.Reads files.old files.new file (with_sidecar_head (most_of_file job.now)) }
{
    if is_pending(alloc, name, files)? {
        return refuse(alloc, &Line::PendingEdit { name }, report);
    }
    extract_file(alloc, name, job, files, file, report)
}

/// Reads the open file `file` with the name `name` up to its blocks, and extracts what `job` asks for. A file that is
/// refused gets only an error line. For `extract_settled`, while `extract` runs.
fn extract_file<F: Files, P: Report>(
    alloc: Global,
    name: &str,
    job: &Job,
    files: &mut F,
    file: FileId,
    report: &mut P,
) -> Result<Status, CommandEnd>
    requires { CanTake F.Reads F.Files.own files.old file job.now }
    ensures verdict { TakesFile F.Reads F.Files.own P.Report file files.old files.new report.old report.new result name.now job.now }
    ensures ended { HasEnded F.Reads F.Files.own P.Report files.old files.new report.old report.new result }
    ensures asks { AsksOnly [] (names_for job.now) (F.asked files.old) (F.asked files.new) }
    ensures octets { ReadsOf F.Reads files.old files.new file (most_of_file job.now) }
{
    match read_source(alloc, job, files, file) {
        Ok(source) => extract_job(alloc, name, job, &source, files, report),
        Err(OutlineEnd::Refused(damage)) => {
            refuse(alloc, &Line::Refused { name, damage }, report)
        }
        Err(OutlineEnd::ReadFault) => Err(CommandEnd::Files),
        Err(OutlineEnd::Memory) => Err(CommandEnd::Memory),
    }
}

/// Extracts from `source`, the open file `name`, what `job` asks for, by the kind of the job. For `extract_file`, while
/// `extract` runs.
fn extract_job<F: Files, P: Report>(
    alloc: Global,
    name: &str,
    job: &Job,
    source: &Source,
    files: &mut F,
    report: &mut P,
) -> Result<Status, CommandEnd>
    requires { CanTakeFrom F.Reads F.Files.own files.old source.now job.now }
    ensures verdict { TakesSource F.Reads F.Files.own P.Report source.now files.old files.new report.old report.new result name.now job.now }
    ensures ended { HasEnded F.Reads F.Files.own P.Report files.old files.new report.old report.new result }
    ensures asks { AsksOnly [] (names_for job.now) (F.asked files.old) (F.asked files.new) }
    ensures octets { ReadsOf F.Reads files.old files.new source.now.file (most_of_content job.now) }
{
    match job {
        Job::Chapters { name: out } => extract_chapters(
            alloc,
            name,
            out.as_str(),
            source,
            files,
            report,
        ),
        Job::Attachments { list } => {
            extract_attachments(alloc, name, list.as_slice(), source, files, report)
        }
        Job::Cues { list } => extract_cues(alloc, name, list.as_slice(), source, files, report),
        Job::Tracks { .. } => extract_fit(alloc, name, job, source, files, report),
    }
}

/// Extracts the tracks that `job` names from `source`, the open file `name`. If one of them can't be written in the
/// job's form, it prints only an error. For `extract_job`, while `extract` runs.
fn extract_fit<F: Files, P: Report>(
    alloc: Global,
    name: &str,
    job: &Job,
    source: &Source,
    files: &mut F,
    report: &mut P,
) -> Result<Status, CommandEnd>
    requires takes { IsSome (form_of job.now) }
    requires can { CanTakeFrom F.Reads F.Files.own files.old source.now job.now }
    ensures verdict { TakesFrames F.Reads F.Files.own P.Report source.now files.old files.new report.old report.new result name.now job.now }
    ensures ended { HasEnded F.Reads F.Files.own P.Report files.old files.new report.old report.new result }
    ensures asks { AsksOnly [] (names_for job.now) (F.asked files.old) (F.asked files.new) }
    ensures octets { ReadsOf F.Reads files.old files.new source.now.file (λ octets. 2 * octets) }
{
    match job_outputs(alloc, job, &source.tracks) {
        Ok(Ok(outputs)) => extract_source(
            alloc,
            name,
            job,
            source,
            outputs.as_slice(),
            files,
            report,
        ),
        Ok(Err(refusal)) => refuse(alloc, &line_of(name, refusal), report),
        Err(AllocError) => Err(CommandEnd::Memory),
    }
}

/// Returns the error line for the track of the file `name` that can't be extracted, as `refusal` has it. For
/// `extract_fit`, while `extract` runs.
fn line_of(name: &str, refusal: Refusal) -> Line<'_>
    ensures { text_of result ≡ unfit_line name.now refusal.why refusal.track }
{
    let number = refusal.track;
    match refusal.why {
        UnsupportedTrack::NoExtractor => Line::NoExtractor { name, number },
        UnsupportedTrack::BadConfig => Line::BadConfig { name, number },
    }
}

/// Writes `outputs`, the ones of `job`, which extracts tracks, from `source`, the open file `name`, and prints the
/// messages. Tracks that the file lacks are warned of first. For `extract_fit`, after all tracks were checked.
fn extract_source<F: Files, P: Report>(
    alloc: Global,
    name: &str,
    job: &Job,
    source: &Source,
    outputs: &[TrackOutput],
    files: &mut F,
    report: &mut P,
) -> Result<Status, CommandEnd>
    requires takes { IsSome (form_of job.now) }
    requires fit { Ok outputs.now ≡ fit_outputs job.now (entries_in source.now) }
    requires ready { All IsReady outputs.now }
    requires can { CanTakeFrom F.Reads F.Files.own files.old source.now job.now }
    ensures verdict { TakesFit F.Reads F.Files.own P.Report source.now files.old files.new report.old report.new result name.now job.now }
    ensures ended { HasEnded F.Reads F.Files.own P.Report files.old files.new report.old report.new result }
    ensures asks { AsksOnly [] (names_for job.now) (F.asked files.old) (F.asked files.new) }
    ensures octets { ReadsOf F.Reads files.old files.new source.now.file (λ octets. 2 * octets) }
{
    let targets = targets_of(job);
    let count = source.tracks.len() as u64;
    say_absent(alloc, Missing::Track, name, targets, count, report)?;
    let extracted = match extract(alloc, files, source, outputs) {
        Ok(extracted) => extracted,
        Err(end) => return Err(stop_of(end)),
    };
    tell(alloc, name, targets, count, &extracted, report)
}
