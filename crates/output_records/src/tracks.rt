//! Tracks of an output: RFC 9559, section 5.1.4 (Tracks).

ghost use Rattle.std.specs.Prelude.{◌≡◌, All, IfOk};
ghost use Rattle.mkv_schema.specs.declared.ids.TheConstants.{TRACKS as TRACKS_ID};
ghost use Rattle.track_records.specs.Entry.{IsWholeEntry};
ghost use Rattle.output_model.specs.Sound.{IsRecord};
ghost use Rattle.output_records.specs.Tracks.{output_tracks};

use ebml_tree::{Tree, empty};
use mkv_io::List;
use mkv_schema::ids::TRACKS;
use std::alloc::{AllocError, Global};

/// Returns the Tracks of an output of `merge` or `generate` with the TrackEntries `entries`, in their order.
pub fn tracks_of(alloc: Global, entries: List<Tree>) -> Result<Tree, AllocError>
    requires { All IsWholeEntry entries }
    ensures exact { IfOk result (λ tracks. tracks ≡ output_tracks entries) }
    ensures sound { IfOk result (IsRecord TRACKS_ID) }
{
    let mut tracks = empty(alloc, TRACKS, 0)?;
    for entry in entries.into_vec() {
        tracks.push(entry)?;
    }
    Ok(tracks)
}
