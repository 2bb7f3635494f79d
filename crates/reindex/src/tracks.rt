//! The tracks whose keyframes get cue points.

ghost use Rattle.std.specs.Prelude.{◌≡◌, ◌||◌, ◌==◌, IfOk};
ghost use Rattle.std.specs.List.{All};
ghost use Rattle.mkv_schema.specs.declared.ids.TheConstants.{TRACKS as TRACKS_ID};
ghost use Rattle.tree_format.specs.Standing.{StandsIn};
ghost use Rattle.file_format.specs.Entry as entry;
ghost use Rattle.track_records.specs.Sound.{IsEntry};
ghost use Rattle.reindex.specs.Points as spec;
ghost use Rattle.reindex.specs.Reading.{indexed_number};

use ebml_tree::{Tree, uint_in};
use mkv_io::List;
use mkv_schema::ids::{TRACK_ENTRY, TRACK_NUMBER, TRACK_TYPE};
use mkv_schema::track_type::{SUBTITLE_TRACK, VIDEO_TRACK};
use std::alloc::{AllocError, Global};

// Returns the TrackType of `track`, a TrackEntry. Used by `is_indexed_track`.
#[tactic(auto, using(track_records::proofs::EntryLemmas::known))]
fn type_of(track: &Tree) -> u64
    requires { IsEntry track.now }
    ensures { result ≡ entry.type_of track.now }
{
    uint_in(track, TRACK_TYPE)
}

// Returns the TrackNumber of `track`, a TrackEntry. Used by `indexed_number`.
#[tactic(auto, using(track_records::proofs::EntryLemmas::known))]
fn number_of(track: &Tree) -> u64
    requires { IsEntry track.now }
    ensures { result ≡ entry.number_of track.now }
{
    uint_in(track, TRACK_NUMBER)
}

// Checks whether `tree`, a child of Tracks, is the TrackEntry of a video or subtitle track. Their keyframes get cue
// points. Used by `indexed_number`.
#[tactic(auto, using(edit_changes::proofs::SelectLemmas::entries))]
fn is_indexed_track(tree: &Tree) -> bool
    requires { StandsIn TRACKS_ID tree.now }
    ensures { result ≡ spec.is_indexed_track tree.now }
{
    if tree.id() != TRACK_ENTRY {
        return false;
    }
    let kind = type_of(tree);
    kind == VIDEO_TRACK || kind == SUBTITLE_TRACK
}

// Returns the TrackNumber of `tree`, a child of Tracks, if it is a video or subtitle track; None for any other child.
// Used by `indexed_tracks`.
#[tactic(auto, using(edit_changes::proofs::SelectLemmas::entries))]
fn indexed_number(tree: &Tree) -> Option<u64>
    requires { StandsIn TRACKS_ID tree.now }
    ensures { result ≡ indexed_number tree.now }
{
    if is_indexed_track(tree) {
        Some(number_of(tree))
    } else {
        None
    }
}

/// Returns the TrackNumbers of the video and subtitle tracks in `tracks`, the children of Tracks, in their order.
/// Keyframes of other tracks get no cue point. Used by `read_points`.
pub fn indexed_tracks(alloc: Global, tracks: &[Tree]) -> Result<List<u64>, AllocError>
    requires { All (StandsIn TRACKS_ID) tracks.now }
    ensures { IfOk result (λ numbers. numbers ≡ spec.indexed_tracks tracks.now) }
{
    let mut numbers = List::new(alloc);
    for tree in tracks {
        if let Some(number) = indexed_number(tree) {
            numbers.push(number)?;
        }
    }
    Ok(numbers)
}
