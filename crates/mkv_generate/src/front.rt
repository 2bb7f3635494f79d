//! The Elements before the Clusters of a generated file: RFC 9559, section 5.1.4 (Tracks Element).

ghost use Rattle.std.specs.Prelude.{◌≡◌, IfOk};
ghost use Rattle.track_records.specs.Entry.{IsWholeEntry};
ghost use Rattle.mkv_generate.specs.Files.{IsFrontOf, codec_of, track_of, type_of};

use crate::blocks::MediaKind;
use ebml_tree::{Tree, empty, text_leaf, uint_leaf};
use mkv_io::List;
use mkv_schema::ids::{CODEC_ID, TRACK_ENTRY, TRACK_NUMBER, TRACK_TYPE, TRACK_UID};
use output_model::Front;
use output_records::{info_of, tracks_of};
use std::alloc::{AllocError, Global};

/// Nanoseconds per tick of the generated files: a millisecond.
pub(crate) const SCALE: u64 = 1_000_000;

// Returns the TrackType of the file of the kind `medium`: 1 for video, 2 for audio. `track_of` calls it.
fn type_of(medium: MediaKind) -> u64
    ensures { result ≡ type_of medium }
{
    match medium {
        MediaKind::Pictures => 1,
        MediaKind::Sounds => 2,
    }
}

// Returns the CodecID of the file of the kind `medium`, which no player knows. `track_of` calls it.
fn codec_of(medium: MediaKind) -> &'static str
    ensures { result.now ≡ codec_of medium }
{
    match medium {
        MediaKind::Pictures => "V_TEST",
        MediaKind::Sounds => "A_TEST",
    }
}

// Returns the TrackEntry of the file of the kind `medium`. TrackNumber and TrackUID are 1. `front_of` calls it.
fn track_of(alloc: Global, medium: MediaKind) -> Result<Tree, AllocError>
    ensures exact { IfOk result (λ entry. entry ≡ track_of medium) }
    ensures whole { IfOk result IsWholeEntry }
{
    let mut entry = empty(alloc, TRACK_ENTRY, 0)?;
    entry.push(uint_leaf(alloc, TRACK_NUMBER, 1)?)?;
    entry.push(uint_leaf(alloc, TRACK_UID, 1)?)?;
    entry.push(uint_leaf(alloc, TRACK_TYPE, type_of(medium))?)?;
    entry.push(text_leaf(alloc, CODEC_ID, codec_of(medium))?)?;
    Ok(entry)
}

/// Returns the Elements before the Clusters of the generated file of the kind `medium`: Info and a Tracks with one
/// TrackEntry. `write_file` calls it first.
pub(crate) fn front_of(alloc: Global, medium: MediaKind) -> Result<Front, AllocError>
    ensures { IfOk result (IsFrontOf medium) }
{
    let mut entries = List::new(alloc);
    entries.push(track_of(alloc, medium)?)?;
    Ok(Front {
        webm: false,
        duration: false,
        info: info_of(alloc, SCALE, "")?,
        tracks: tracks_of(alloc, entries)?,
        attachments: List::new(alloc),
    })
}
