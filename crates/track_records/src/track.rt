//! Track of a file

ghost use Rattle.std.specs.Prelude.{◌≡◌};

use ebml_tree::Tree;
use mkv_io::Text;
use mkv_schema::track_type::{AUDIO_TRACK, SUBTITLE_TRACK, VIDEO_TRACK};

/// Track, from its TrackEntry (RFC 9559, section 5.1.4, Tracks)
#[derive(Drop)]
pub struct Track {
    /// TrackNumber, the track's number in Blocks; not 0
    pub number: u64,
    /// TrackUID, or 0 if it is absent
    pub uid: u64,
    /// TrackType (`mkv_schema::track_type`)
    pub kind: u64,
    /// CodecID
    pub codec: Text,
    /// Displayed language: LanguageBCP47 if present, otherwise Language
    pub language: Text,
    /// Nanoseconds per frame, below 2^48
    pub default_duration: Option<u64>,
    /// Byte offset of the entry's header in the file
    pub offset: u64,
    /// Whole entry
    pub entry: Tree,
    /// Frames are taken as they are stored, and ContentEncodings is kept; not set when a track is read
    pub stored: bool,
}

impl Track {
    ghost use Rattle.file_format.specs.TrackType.{type_name};

    /// Returns the name of the track's type, as `info` and `merge -J` print it: `video`, `audio`, `subtitles`, or
    /// `other`.
    #[tactic(auto, unfolding(file_format::specs::TrackType::type_name))]
    pub fn type_name(&self) -> &'static str
        ensures { result.now ≡ type_name self.now.kind }
    {
        match self.kind {
            VIDEO_TRACK => "video",
            AUDIO_TRACK => "audio",
            SUBTITLE_TRACK => "subtitles",
            _ => "other",
        }
    }
}
