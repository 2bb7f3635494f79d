//! Durations of the frames of output tracks.

ghost use Rattle.std.specs.Prelude.{◌≡◌, map, IfOk};
ghost use Rattle.mkv_schema.specs.declared.ids.TheConstants.{TRACKS};
ghost use Rattle.tree_format.specs.Standing.{IsSoundOf};
ghost use Rattle.file_format.specs.Entry.{default_duration_of, entries_of};
ghost use Rattle.remuxer.specs.Durations.{durations_for};

use ebml_tree::{Tree, integer_in};
use mkv_io::List;
use mkv_schema::ids::{DEFAULT_DURATION, TRACK_ENTRY};
use output_model::{Durations, Front};
use std::alloc::{AllocError, Global};

// Returns the DefaultDuration of each TrackEntry of the Tracks `tracks` in nanoseconds, or None if it has none. Fails
// if memory runs out. For `durations_for`, while `merge` writes an output.
fn default_durations(alloc: Global, tracks: &Tree) -> Result<List<Option<u64>>, AllocError>
    requires { IsSoundOf TRACKS tracks.now }
    ensures { IfOk result (λ durations. durations ≡ map default_duration_of (entries_of tracks.now)) }
{
    let mut durations = List::new(alloc);
    for entry in tracks.children() {
        if entry.id() == TRACK_ENTRY {
            durations.push(integer_in(entry, DEFAULT_DURATION))?;
        }
    }
    Ok(durations)
}

/// Returns the durations of frames on the output tracks of `front`, with `scale` nanoseconds per tick. Without a
/// Duration in the Info of the output they aren't needed, and there are none. `write_output` gets them before it begins
/// the file, to compute the Duration from them.
pub(crate) fn durations_for(
    alloc: Global,
    scale: u64,
    front: &Front,
) -> Result<Durations, AllocError>
    requires { IsSoundOf TRACKS front.now.tracks }
    ensures { IfOk result (λ durations. durations ≡ durations_for scale front.now) }
{
    let frames = if front.duration {
        default_durations(alloc, &front.tracks)?
    } else {
        List::new(alloc)
    };
    Ok(Durations { scale, frames })
}
