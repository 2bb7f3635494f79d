//! Extractions from a file, as `extract` makes them.

use mkv_io::{List, Text};

/// One extraction: its kind of content, and the files that it writes.
#[derive(Debug, Drop)]
pub enum Job {
    /// Frames of tracks, or their timestamps.
    Tracks { form: Form, list: List<Target> },
    /// Data of attached files.
    Attachments { list: List<Target> },
    /// Cue points of tracks.
    Cues { list: List<Target> },
    /// Chapters as text, in the file `name`.
    Chapters { name: Text },
}

/// Form of the frames of a track in the file that is written.
#[derive(Clone, Copy, Debug, PartialEq, Eq)]
pub enum Form {
    /// Frames in sequence.
    Raw,
    /// CodecPrivate of the track, and then the frames.
    Full,
    /// Frames in the form that the track's codec has in a file of its own: a SubRip text, or a stream that players
    /// read.
    ByCodec,
    /// Timestamps of the frames.
    Times,
}

/// One item that is extracted, and the file that gets it.
#[derive(Debug, Drop)]
pub struct Target {
    /// Index of a track in Tracks, counted from 0, or of an attached file in Attachments, counted from 1.
    pub id: u64,
    /// Name of the file that is written.
    pub name: Text,
}
