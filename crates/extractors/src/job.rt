//! The outputs of a job, and the reasons to refuse it.

ghost use Rattle.std.specs.Prelude.{◌≡◌, map, IfOk};
ghost use Rattle.std.specs.List.{All};
ghost use Rattle.track_records.specs.Sound.{IsEntry};
ghost use Rattle.track_records.specs.Track.{track_of};
ghost use Rattle.extractors.specs.Job.{fit_outputs, form_of, output_with, outputs_or_refusal, targets_of};
ghost use Rattle.meta_records.specs.Records.{AreRead};
ghost use Rattle.extractors.specs.Source.{AreUsableOf, IsUsable, entry_in};
ghost use Rattle.extractors.specs.Walks.{IsReady};

use crate::coding::{bytes_of, coding_of};
use crate::frame_form::{Coding, Refusal, UnsupportedTrack};
use crate::track_output::TrackOutput;
use mkv_io::{List, Text};
use requests::{Form, Job, Target};
use std::alloc::{AllocError, Global};
use track_records::{Track, usable};

/// Returns the form of the frames that `job`, the extraction that the command line asks for, writes; None if it
/// extracts attached files, cue points or chapters. Used by `job_outputs`.
fn form_of(job: &Job) -> Option<Form>
    ensures { result ≡ form_of job.now }
{
    match job {
        Job::Tracks { form, .. } => Some(*form),
        Job::Attachments { .. } | Job::Cues { .. } | Job::Chapters { .. } => None,
    }
}

/// Returns the targets of `job`, the extraction that the command line asks for, whose IDs are indexes of tracks: for
/// frames, timestamps and cue points. It returns none for attached files and chapters. Used by `job_outputs`, and by
/// the command, which warns of tracks that are missing.
pub fn targets_of(job: &Job) -> &[Target]
    ensures { result.now ≡ targets_of job.now }
{
    match job {
        Job::Tracks { list, .. } | Job::Cues { list } => list.as_slice(),
        Job::Attachments { .. } | Job::Chapters { .. } => &[],
    }
}

/// Returns the outputs that `extract` writes for `job`, in the order of its targets, each with the coding of its track.
/// The inner error is the reason to refuse the job: one of the tracks that it names can't be written in the job's form.
/// `tracks` has the file's tracks. A target whose track is missing has no output, and neither has a job that writes no
/// frames. No file is touched. The command asks for them before it creates a file.
pub fn job_outputs(
    alloc: Global,
    job: &Job,
    tracks: &List<Track>,
) -> Result<Result<List<TrackOutput>, Refusal>, AllocError>
    requires read { AreRead tracks.now }
    requires usable { AreUsableOf (map entry_in tracks.now) (targets_of job.now) }
    ensures exact { IfOk result (λ made. made ≡ fit_outputs job.now (map entry_in tracks.now)) }
    ensures ready { IfOk result (λ made. IfOk made (All IsReady)) }
{
    match form_of(job) {
        Some(form) => outputs_for(alloc, form, targets_of(job), tracks),
        None => Ok(Ok(List::new(alloc))),
    }
}

/// Returns the outputs for the tracks of `targets` in the form `form`, in order. The inner error is the refusal: for the
/// first track whose codec has no form, or else for the first with a missing or invalid configuration. `tracks` has the
/// file's tracks. Used by `job_outputs`.
fn outputs_for(
    alloc: Global,
    form: Form,
    targets: &[Target],
    tracks: &List<Track>,
) -> Result<Result<List<TrackOutput>, Refusal>, AllocError>
    requires read { AreRead tracks.now }
    requires usable { AreUsableOf (map entry_in tracks.now) targets.now }
    ensures { IfOk result (λ made. made ≡ outputs_or_refusal form targets.now (map entry_in tracks.now)) }
{
    let mut list = List::new(alloc);
    let mut bad_config = None;
    for target in targets {
        let Some(track) = tracks.get(target.id as usize) else {
            continue;
        };
        let read = coding_of(alloc, form, track)?;
        match read {
            Ok(coding) => list.push(output_with(alloc, coding, &target.name, track)?)?,
            Err(why) => match why {
                UnsupportedTrack::BadConfig => bad_config = bad_config.or(Some(target.id)),
                UnsupportedTrack::NoExtractor => {
                    let track = target.id;
                    return Ok(Err(Refusal { why, track }));
                }
            },
        }
    }
    match bad_config {
        Some(track) => Ok(Err(Refusal {
            why: UnsupportedTrack::BadConfig,
            track,
        })),
        None => Ok(Ok(list)),
    }
}

/// Returns the description of the output `name` for the frames of `track`, with the head and form of `coding`. No file
/// is created yet. Used by `outputs_for`.
fn output_with(
    alloc: Global,
    coding: Coding,
    name: &Text,
    track: &Track,
) -> Result<TrackOutput, AllocError>
    requires track { track.now ≡ track_of track.now.entry }
    requires sound { IsEntry track.now.entry }
    requires usable { IsUsable track.now.entry }
    ensures { IfOk result (λ output. output ≡ output_with name.now track.now.entry coding) }
{
    let Ok(prefix) = usable(track) else {
        unreachable!()
    };
    Ok(TrackOutput {
        name: text_of(alloc, name.as_str())?,
        track: track.number,
        step: track.default_duration.unwrap_or(0),
        head: coding.head,
        prefix: bytes_of(alloc, prefix)?,
        form: coding.form,
    })
}

/// Returns a copy of `text`, an output's name, that the output owns. Used by `output_with`.
fn text_of(alloc: Global, text: &str) -> Result<Text, AllocError>
    ensures { IfOk result (λ copy. copy ≡ text.now) }
{
    let mut copy = Text::new(alloc);
    copy.append(text)?;
    Ok(copy)
}
