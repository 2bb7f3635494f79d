//! The track that a SubRip file has in a merge

ghost use Rattle.std.specs.Prelude.{◌≡◌, [], ◌∷◌, All, IfOk};
ghost use Rattle.track_records.specs.Entry.{IsWholeEntry};
ghost use Rattle.file_format.specs.Tracks.{IsTrack};
ghost use Rattle.track_records.specs.Track.{track_of};
ghost use Rattle.input_files.specs.Track.{text_entry};

use ebml_tree::{Tree, TreeEnd, empty, text_leaf, uint_leaf};
use mkv_io::List;
use mkv_schema::ids::{
    CODEC_ID, FLAG_LACING, LANGUAGE, TRACK_ENTRY, TRACK_NUMBER, TRACK_TYPE, TRACK_UID, TRACKS,
};
use mkv_schema::track_type::SUBTITLE_TRACK;
use std::alloc::{AllocError, Global};
use track_records::{Track, read_tracks};

/// Returns the TrackEntry of a SubRip file: subtitles of unknown language, without lacing, with TrackUID 0 until the
/// merge gives one. For `text_tracks`.
fn text_entry(alloc: Global) -> Result<Tree, AllocError>
    ensures exact { IfOk result (λ entry. entry ≡ text_entry) }
    ensures whole { IfOk result IsWholeEntry }
{
    let mut entry = empty(alloc, TRACK_ENTRY, 0)?;
    entry.push(uint_leaf(alloc, TRACK_NUMBER, 1)?)?;
    entry.push(uint_leaf(alloc, TRACK_UID, 0)?)?;
    entry.push(uint_leaf(alloc, TRACK_TYPE, SUBTITLE_TRACK)?)?;
    entry.push(uint_leaf(alloc, FLAG_LACING, 0)?)?;
    entry.push(text_leaf(alloc, LANGUAGE, "und")?)?;
    entry.push(text_leaf(alloc, CODEC_ID, "S_TEXT/UTF8")?)?;
    Ok(entry)
}

/// Returns the tracks of a SubRip file as a merge selects them: one subtitle track, whose entry can be written. `merge`
/// calls it for each input that is SubRip.
pub fn text_tracks(alloc: Global) -> Result<List<Track>, AllocError>
    ensures exact { IfOk result (λ list. list ≡ track_of text_entry ∷ []) }
    ensures whole { IfOk result (All (λ track. IsWholeEntry track.entry)) }
    ensures tracks { IfOk result (All (λ track. IsTrack track.entry)) }
{
    let mut tracks = empty(alloc, TRACKS, 0)?;
    tracks.push(text_entry(alloc)?)?;
    match read_tracks(alloc, &tracks) {
        Ok(list) => Ok(list),
        Err(TreeEnd::Memory) => Err(AllocError),
        Err(TreeEnd::Damage(_)) => unreachable!(),
    }
}
