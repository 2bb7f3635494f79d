//! Tracks of a file that the command line chooses, and the other kept parts

ghost use Rattle.std.specs.Prelude.{◌≡◌};
ghost use Rattle.merge_inputs.specs.Select.{is_taken, keep_of, keeps_attachments, keeps_chapters, keeps_tags, takes, unmoved};

use mkv_schema::track_type::{AUDIO_TRACK, SUBTITLE_TRACK, VIDEO_TRACK};
use record_changes::TagKeep;
use requests::{FileWords, Select};

/// Checks whether the options `words` of an input of `merge` select its track with the ID `id`, counted from 0, and the
/// TrackType `kind`. Only video, audio and subtitle tracks can be selected.
pub fn is_taken(words: &FileWords, id: u64, kind: u64) -> bool
    ensures { result ≡ is_taken words.now id kind }
{
    match kind {
        VIDEO_TRACK => takes(&words.video, id),
        AUDIO_TRACK => takes(&words.audio, id),
        SUBTITLE_TRACK => takes(&words.subtitles, id),
        _ => false,
    }
}

/// Checks whether the option `select` for one type of tracks, as `-a` for audio, selects the track with the ID `id`,
/// counted from 0. Used by `is_taken`.
fn takes(select: &Select, id: u64) -> bool
    ensures { result ≡ takes select.now id }
{
    match select {
        Select::All => true,
        Select::These { ids } => ids.as_slice().contains(&id),
        Select::AllBut { ids } => !ids.as_slice().contains(&id),
        Select::Off => false,
    }
}

/// Checks whether the attached files of an input with the options `words` are kept. With `webm` they are left out,
/// since WebM has none. Used by `read_file`.
pub fn keeps_attachments(words: &FileWords, webm: bool) -> bool
    ensures { result ≡ keeps_attachments words.now webm }
{
    words.attachments && !webm
}

/// Checks whether the Chapters of an input with the options `words` are kept. With `webm` they are left out. Used by
/// `read_file`.
pub fn keeps_chapters(words: &FileWords, webm: bool) -> bool
    ensures { result ≡ keeps_chapters words.now webm }
{
    words.chapters && !webm
}

/// Checks whether some Tags of an input with the options `words` are kept: Tags of tracks, or others. Used by
/// `kept_tags`.
pub fn keeps_tags(words: &FileWords) -> bool
    ensures { result ≡ keeps_tags words.now }
{
    words.track_tags || words.global_tags
}

/// Returns the choice of Tags that the options `words` of an input of `merge` make. Called for each input that is read.
pub fn keep_of(words: &FileWords) -> TagKeep
    ensures { result ≡ keep_of words.now }
{
    TagKeep {
        tracks: words.track_tags,
        global: words.global_tags,
    }
}

/// Returns the append offset in nanoseconds of an input of `merge` before it is known: 0 if `words` appends it to the
/// previous input, and None otherwise. Called for each input that is read.
pub fn unmoved(words: &FileWords) -> Option<u64>
    ensures { result ≡ unmoved words.now }
{
    if words.appended { Some(0) } else { None }
}
