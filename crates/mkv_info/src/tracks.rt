//! The tracks in the list of `info`, one to a line.

ghost use Rattle.std.specs.Prelude.{◌≡◌, IfErr, IfOk, IfSome};
ghost use Rattle.mkv_schema.specs.declared.ids.TheConstants.{TRACKS as TRACKS_ID};
ghost use Rattle.mkv_io.specs.Bounds.{ReadsUpTo};
ghost use Rattle.mkv_io.specs.Faults.{HasCause, is_read_fault};
ghost use Rattle.mkv_io.specs.Sources.{IfTold, IsLive, file_size};
ghost use Rattle.tree_format.specs.Standing.{IsSoundOf};
ghost use Rattle.mkv_lines.specs.Said.{HasSayCause, Says};
ghost use Rattle.mkv_lines.specs.Line.{text_of};
ghost use Rattle.mkv_lines.specs.declared.line.Line.TheVariants as line;
ghost use Rattle.mkv_info.specs.Tracks.{AreTracksOf, shown_track, track_lines, tracks_in};

use ebml_tree::{Tree, TreeEnd};
use element_reader::{Outline, OutlineEnd};
use meta_records::first_tree;
use mkv_io::{Damage, FileId, List, ReadEnd, Reads, Report};
use mkv_lines::{CommandEnd, Line, ShownTrack, say};
use mkv_schema::ids::TRACKS;
use std::alloc::Global;
use track_records::{Track, read_tracks};

/// Reads the tracks of the open file `file`, whose outline is `outline`, for the lines of `info`. The inner error is
/// the damage for which its tracks are refused.
pub fn tracks_of<R: Reads>(
    alloc: Global,
    outline: &Outline,
    src: &mut R,
    file: FileId,
) -> Result<Result<List<Track>, Damage>, ReadEnd>
    requires live { IsLive R.Reads src.old file }
    requires whole { outline.now.total ≡ file_size R.Reads src.old file }
    ensures ok { IfOk result (λ found. IfTold R.Reads src.old file (AreTracksOf outline.now found)) }
    ensures standing { R.standing src.new ≡ R.standing src.old }
    ensures cause { HasCause is_read_fault (R.reading_faults src.old) (R.reading_faults src.new) result }
    ensures octets { ReadsUpTo R.Reads src.old src.new (file_size R.Reads src.old file) }
{
    match first_tree(alloc, outline, src, file, TRACKS) {
        Ok(tracks) => tracks_in(alloc, &tracks),
        Err(OutlineEnd::Refused(damage)) => Ok(Err(damage)),
        Err(OutlineEnd::ReadFault) => Err(ReadEnd::ReadFault),
        Err(OutlineEnd::Memory) => Err(ReadEnd::Memory),
    }
}

// Reads the tracks in `tracks`, the file's first Tracks, for the lines that `info` prints; there are none without a
// Tracks. The inner error is the damage for which they are refused.
fn tracks_in(alloc: Global, tracks: &Option<Tree>) -> Result<Result<List<Track>, Damage>, ReadEnd>
    requires { IfSome tracks.now (IsSoundOf TRACKS_ID) }
    ensures ok { IfOk result (λ found. found ≡ tracks_in tracks.now) }
    ensures memory { IfErr result (λ end. end ≡ ReadEnd.Memory) }
{
    let Some(tracks) = tracks else {
        return Ok(Ok(List::new(alloc)));
    };
    match read_tracks(alloc, tracks) {
        Ok(tracks) => Ok(Ok(tracks)),
        Err(TreeEnd::Damage(damage)) => Ok(Err(damage)),
        Err(TreeEnd::Memory) => Err(ReadEnd::Memory),
    }
}

// Returns the parts of the line for `track`, which has the index `index`, from 0. `say_tracks` prints it.
fn shown<'a>(index: usize, track: &'a Track) -> ShownTrack<'a>
    ensures { text_of (line.Track result) ≡ shown_track index track.now }
{
    ShownTrack {
        index,
        type_name: track.type_name(),
        codec: track.codec.as_str(),
        number: track.number,
        uid: track.uid,
        language: track.language.as_str(),
    }
}

/// Prints a line for each of `tracks`, numbered from 0, for `info`, after the lines of the Elements.
pub fn say_tracks<P: Report>(
    alloc: Global,
    tracks: &List<Track>,
    report: &mut P,
) -> Result<(), CommandEnd>
    ensures said { Says (P.lines report.old) (P.lines report.new) (track_lines 0 tracks.now) result }
    ensures cause { HasSayCause (P.faults report.old) (P.faults report.new) result }
{
    for (index, track) in tracks.as_slice().iter().enumerate() {
        say(alloc, report, &Line::Track(shown(index, track)))?;
    }
    Ok(())
}
