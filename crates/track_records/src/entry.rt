//! The values of a TrackEntry that a track is described by: RFC 9559, section 5.1.4 (Tracks).

ghost use Rattle.std.specs.Prelude.{◌≡◌, IfOk};
ghost use Rattle.file_format.specs.Entry.{number_of};
ghost use Rattle.track_records.specs.Track.{track_of};
ghost use Rattle.track_records.specs.Sound.{IsEntry};

use crate::track::Track;
use ebml_tree::{Tree, integer_in, text_in, uint_in};
use mkv_io::Text;
use mkv_schema::ids::{
    CODEC_ID, DEFAULT_DURATION, LANGUAGE, LANGUAGE_BCP47, TRACK_NUMBER, TRACK_TYPE, TRACK_UID,
};
use std::alloc::{AllocError, Global};

/// Returns the TrackNumber of `entry`, a TrackEntry, or 0 if it is absent. Tracks and repeated numbers are found by it.
/// Used by `track_of` and `numbers_of`.
#[tactic(auto, using(crate::proofs::EntryLemmas::known))]
pub(crate) fn number_of(entry: &Tree) -> u64
    requires { IsEntry entry.now }
    ensures { result ≡ number_of entry.now }
{
    uint_in(entry, TRACK_NUMBER)
}

// Returns a copy of `text` that a track owns, for `track_of`.
fn as_text(alloc: Global, text: &str) -> Result<Text, AllocError>
    ensures { IfOk result (λ copy. copy ≡ text.now) }
{
    let mut copy = Text::new(alloc);
    copy.append(text)?;
    Ok(copy)
}

/// Returns the track with the TrackEntry `entry`, with a copy of it. `tracks_in` does this for each entry.
#[tactic(auto, using(crate::proofs::EntryLemmas::known))]
pub(crate) fn track_of(alloc: Global, entry: &Tree) -> Result<Track, AllocError>
    requires { IsEntry entry.now }
    ensures { IfOk result (λ track. track ≡ track_of entry.now) }
{
    let codec = text_in(entry, CODEC_ID).unwrap_or("");
    let language = text_in(entry, LANGUAGE_BCP47)
        .or(text_in(entry, LANGUAGE))
        .unwrap_or("");
    Ok(Track {
        number: number_of(entry),
        uid: uint_in(entry, TRACK_UID),
        kind: uint_in(entry, TRACK_TYPE),
        codec: as_text(alloc, codec)?,
        language: as_text(alloc, language)?,
        default_duration: integer_in(entry, DEFAULT_DURATION),
        offset: entry.offset(),
        entry: entry.copy(alloc)?,
        stored: false,
    })
}
