//! Tracks of a Tracks element: RFC 9559, section 5.1.4 (Tracks).

ghost use Rattle.std.specs.Prelude.{◌≡◌, ◌≢◌, map, All, OnOk, IfOk, IfErr};
ghost use Rattle.tree_format.specs.Node.{HasRoom};
ghost use Rattle.tree_format.specs.Standing.{IsSound};
ghost use Rattle.file_format.specs.Entry.{entries_of};
ghost use Rattle.file_format.specs.Tracks.{AreTracks};
ghost use Rattle.track_records.specs.Track.{track_of, tracks_of};
ghost use Rattle.track_records.specs.Outcome.{ReadsTracks};
ghost use Rattle.track_records.specs.Sound.{IsEntry};

use crate::entry::track_of;
use crate::refusal::refusal_of;
use crate::track::Track;
use ebml_tree::{Tree, TreeEnd};
use mkv_io::List;
use mkv_schema::ids::TRACK_ENTRY;
use std::alloc::{AllocError, Global};

// Returns the tracks of `tracks`, a Tracks that isn't refused, in the order of its entries, for `read`.
fn tracks_in(alloc: Global, tracks: &Tree) -> Result<List<Track>, AllocError>
    requires { IsSound tracks.now }
    ensures exact { IfOk result (λ list. list ≡ map track_of (entries_of tracks.now)) }
    ensures room { OnOk result (All HasRoom (entries_of tracks.now)) }
{
    let mut list = List::new(alloc);
    for child in tracks.children() {
        if child.id() == TRACK_ENTRY {
            list.push(track_of(alloc, child)?)?;
        }
    }
    Ok(list)
}

// Reads the tracks of `tracks`, as the definition has them, for `read_tracks`, which promises more.
fn read(alloc: Global, tracks: &Tree) -> Result<List<Track>, TreeEnd>
    requires { IsSound tracks.now }
    ensures exact { ReadsTracks result (tracks_of tracks.now) }
    ensures room { OnOk result (All HasRoom (entries_of tracks.now)) }
{
    match refusal_of(alloc, tracks)? {
        Some(damage) => Err(TreeEnd::Damage(damage)),
        None => Ok(tracks_in(alloc, tracks)?),
    }
}

/// Reads the tracks of the Tracks Element `tracks` in the order of its entries, or returns the first damage. All
/// commands that read a file's tracks call it. A tree from the parser is sound. An invalid value in any entry is
/// reported first. Then come a missing child, a repeated TrackNumber, and the 1,025th entry. Used by `good_tracks` of
/// `edit_plan` and others.
pub fn read_tracks(alloc: Global, tracks: &Tree) -> Result<List<Track>, TreeEnd>
    requires { IsSound tracks.now }
    ensures exact { ReadsTracks result (tracks_of tracks.now) }

    // The entries are refused exactly if they aren't tracks. Returned tracks are sound, and fit in a Tracks element.
    ensures taken { IfOk result (λ list. AreTracks (entries_of tracks.now)) }
    ensures refused { IfErr result (λ end. end ≢ TreeEnd.Memory → ¬ AreTracks (entries_of tracks.now)) }
    ensures sound { IfOk result (All (λ track. IsEntry track.entry)) }
    ensures room { IfOk result (All (λ track. HasRoom track.entry)) }
{
    read(alloc, tracks)
}
