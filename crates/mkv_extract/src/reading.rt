//! Reading of a file up to its blocks, for an extraction.

ghost use Rattle.std.specs.Prelude.{◌≡◌, IfOk, IfSome};
ghost use Rattle.mkv_io.specs.Faults.{HasCause};
ghost use Rattle.mkv_io.specs.Sources.{IfTold, IsLive, file_size};
ghost use Rattle.mkv_schema.specs.declared.ids.TheConstants.{CUES};
ghost use Rattle.tree_format.specs.Standing.{IsSoundOf};
ghost use Rattle.element_reader.specs.Outline.{is_outline_fault};
ghost use Rattle.meta_records.specs.Records.{AreRead};
ghost use Rattle.extractors.specs.Job.{targets_of};
ghost use Rattle.extractors.specs.Source.{AreUsable, IsSource};
ghost use Rattle.mkv_schema.specs.Outline.{first_damage};
ghost use Rattle.track_records.specs.Sound.{IsEntry};
ghost use Rattle.track_records.specs.Track.{track_of};
ghost use Rattle.mkv_extract.specs.Bound.{ReadsAtMost, most_before, most_of_cues};
ghost use Rattle.mkv_extract.specs.Read.{HasOwnEvents, ReadsCues, ReadsSource, causes_of, first_unusable, is_named, read_of};
ghost use Rattle.mkv_io.specs.Bounds.{ReadsOf};

use ebml_tree::Tree;
use element_reader::{Outline, OutlineEnd};
use extractors::{Source, first_cues, targets_of};
use meta_records::read_records;
use mkv_io::{Damage, FileId, Reads};
use requests::{Job, Target};
use std::alloc::Global;
use track_records::{Track, usable};

/// Reads the open file `file` up to its blocks, or returns the first refusal. It checks the outline, the records, the
/// first Cues if `job` extracts cue points, and then the named tracks in file order. `extract` calls it before it
/// writes an output.
pub fn read_source<R: Reads>(
    alloc: Global,
    job: &Job,
    src: &mut R,
    file: FileId,
) -> Result<Source, OutlineEnd>
    requires { IsLive R.Reads src.old file }
    ensures exact { IfTold R.Reads src.old file (λ bytes. ReadsSource (read_of job.now bytes) result) }
    ensures source { IfOk result (IsSource R.Reads src.new) }
    ensures usable { IfOk result (λ source. AreUsable source (targets_of job.now)) }
    ensures file { IfOk result (λ source. source.file ≡ file) }

    // The tick is the one of the file's own blocks and damage.
    ensures events { IfOk result (λ source. IfTold R.Reads src.old file (HasOwnEvents source)) }
    ensures reads { ReadsAtMost R.Reads src.old src.new (most_before job.now (file_size R.Reads src.old file)) }
    ensures cause { HasCause is_outline_fault (R.reading_faults src.old) (R.reading_faults src.new) result }
{
    let outline = Outline::read(alloc, src, file)?;
    let records = read_records(alloc, &outline, src, file)?;
    let cues = cues_for(alloc, job, &outline, src, file)?;
    if let Some(damage) = first_unusable(targets_of(job), records.tracks.as_slice()) {
        return Err(OutlineEnd::Refused(damage));
    }
    Ok(Source {
        file,
        outline,
        info: records.info,
        tracks: records.tracks,
        attachments: records.attachments,
        chapters: records.chapters,
        cues,
    })
}

/// Reads the first Cues of the open file `file` if `job` extracts cue points, or returns the damage for which it is
/// refused. Other jobs get None. `outline` is the file's. For `read_source`, when `extract` reads its file.
fn cues_for<R: Reads>(
    alloc: Global,
    job: &Job,
    outline: &Outline,
    src: &mut R,
    file: FileId,
) -> Result<Option<Tree>, OutlineEnd>
    requires live { IsLive R.Reads src.old file }
    requires whole { outline.now.total ≡ file_size R.Reads src.old file }
    ensures exact { IfTold R.Reads src.old file (ReadsCues job.now outline.now result) }
    ensures sound { IfOk result (λ tree. IfSome tree (IsSoundOf CUES)) }
    ensures standing { R.standing src.new ≡ R.standing src.old }
    ensures cause { HasCause is_outline_fault (R.reading_faults src.old) (R.reading_faults src.new) result }
    ensures octets { ReadsOf R.Reads src.old src.new file (most_of_cues job.now) }
{
    match job {
        Job::Cues { .. } => first_cues(alloc, outline, src, file),
        _ => Ok(None),
    }
}

/// Checks whether one of `targets` names the track with index `k`, from 0. For `cause_of`: only named tracks must be
/// usable.
pub fn is_named(targets: &[Target], k: u64) -> bool
    ensures { result ≡ is_named targets.now k }
{
    targets.iter().any(|target| target.id == k)
}

/// Returns the reason why the frames of a track can't be used, such as encryption, for the first such track in `tracks`
/// that `targets` name. Returns None without such a track. For `read_source`, which refuses the file then.
fn first_unusable(targets: &[Target], tracks: &[Track]) -> Option<Damage>
    requires { AreRead tracks.now }
    ensures { result ≡ first_unusable targets.now tracks.now }
{
    for (k, track) in tracks.iter().enumerate() {
        if let Some(damage) = cause_of(targets, k as u64, track) {
            return Some(damage);
        }
    }
    None
}

/// Returns the reason why the frames of `track`, which has the index `k`, can't be used, if one of `targets` names it.
/// Returns None if they can or none names it. For `first_unusable`, when `extract` reads its file.
fn cause_of(targets: &[Target], k: u64, track: &Track) -> Option<Damage>
    requires sound { IsEntry track.now.entry }
    requires said { track.now ≡ track_of track.now.entry }
    ensures { result ≡ first_damage (causes_of targets.now k track.now) }
{
    if !is_named(targets, k) {
        return None;
    }
    match usable(track) {
        Ok(_) => None,
        Err(damage) => Some(damage),
    }
}
