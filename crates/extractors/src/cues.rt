//! Extraction of cue points as lines of text, each track's to its own file.

ghost use Rattle.std.specs.Prelude.{◌≡◌, ◌≤◌, ◌∷◌, [], IfOk, IfSome};
ghost use Rattle.std.specs.String.{string_bytes};
ghost use Rattle.mkv_io.specs.Writing.{KeepsOthers};
ghost use Rattle.mkv_io.specs.Ends.{HasRemuxCause};
ghost use Rattle.mkv_schema.specs.declared.ids.TheConstants.{CUES as CUES_ID};
ghost use Rattle.tree_format.specs.Standing.{IsSoundOf};
ghost use Rattle.meta_records.specs.Records.{AreRead, IsGoodInfo};
ghost use Rattle.extractors.specs.Job.{names_of};
ghost use Rattle.extractors.specs.Cues.{WritesCues, WritesTrackCues, cues_text};

use crate::lines::put_cues;
use crate::source::Source;
use crate::whole::write_file;
use ebml_tree::Tree;
use meta_records::scale_of;
use mkv_io::{Files, RemuxEnd};
use requests::Target;
use std::alloc::{AllocError, Global};

/// Returns the text of a track's cue points, as `put_cues` writes it; empty if `cues`, the file's first Cues, is None.
/// `track` is a TrackNumber, and `scale` the nanoseconds per tick. Used by `write_track_cues`.
fn cues_text(
    alloc: Global,
    cues: &Option<Tree>,
    track: u64,
    scale: u64,
) -> Result<String, AllocError>
    requires { IfSome cues.now (IsSoundOf CUES_ID) }
    ensures { IfOk result (λ text. string_bytes text ≡ cues_text scale track cues.now) }
{
    let mut text = String::new(alloc);
    if let Some(cues) = cues {
        put_cues(cues, track, scale, &mut text)?;
    }
    Ok(text)
}

/// Creates or replaces the file of `target` with the cue points of its track, one line each. `target.id` is the track's
/// index in the Tracks of `source`, from 0; if the source has no such track, nothing is created. Used by `write_cues`.
fn write_track_cues<F: Files>(
    alloc: Global,
    files: &mut F,
    source: &Source,
    target: &Target,
) -> Result<(), RemuxEnd>
    requires info { IfSome source.now.info IsGoodInfo }
    requires tracks { AreRead source.now.tracks }
    requires cues { IfSome source.now.cues (IsSoundOf CUES_ID) }
    ensures writes { WritesTrackCues F.Files.own source.now target.now files.old files.new result }
    ensures kept { KeepsOthers F.Reads F.Files.own (target.now.name ∷ []) files.old files.new }
    ensures cause { HasRemuxCause F.Reads F.Files.own files.old files.new result }
    ensures reads { F.octets_read files.new ≤ F.octets_read files.old }
{
    let Some(track) = source.tracks.get(target.id as usize) else {
        return Ok(());
    };
    let scale = scale_of(&source.info);
    let text = cues_text(alloc, &source.cues, track.number, scale)?;
    write_file(files, target.name.as_str(), text.as_bytes())
}

/// Extracts the cue points of tracks, for `extract FILE cues`: it creates or replaces the file of each target in
/// `targets` whose track the source has, in order. A file has a line for each CueTrackPositions of its track; without a
/// Cues it is empty. Each file is closed before the next is created. On failure the files of the first targets are
/// complete, and the last file that was created may have only a first part.
pub fn write_cues<F: Files>(
    alloc: Global,
    files: &mut F,
    source: &Source,
    targets: &[Target],
) -> Result<(), RemuxEnd>
    requires info { IfSome source.now.info IsGoodInfo }
    requires tracks { AreRead source.now.tracks }
    requires cues { IfSome source.now.cues (IsSoundOf CUES_ID) }
    ensures writes { WritesCues F.Files.own source.now targets.now files.old files.new result }
    ensures kept { KeepsOthers F.Reads F.Files.own (names_of targets.now) files.old files.new }
    ensures cause { HasRemuxCause F.Reads F.Files.own files.old files.new result }
    ensures reads { F.octets_read files.new ≤ F.octets_read files.old }
{
    for target in targets {
        write_track_cues(alloc, files, source, target)?;
    }
    Ok(())
}
