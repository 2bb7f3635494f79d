//! Sources of the blocks of an output track.

use element_reader::Outline;
use ext_times::Times;
use mkv_io::{Bytes, Entry, FileId, List};
use std::rc::Rc;

/// Sources of the blocks of an output track: its links, one for each input that it continues with.
#[derive(Drop)]
pub struct LaneSpec {
    pub links: List<Link>,
}

/// Source of an output track's blocks in one input.
#[derive(Drop)]
pub enum Link {
    /// One track of a Matroska file.
    Track(TrackLink),
    /// Subtitles of a SubRip text.
    Entries(TextLink),
}

/// One track of a Matroska file as a source of blocks.
#[derive(Drop)]
pub struct TrackLink {
    /// Open file that has the track.
    pub file: FileId,
    /// Outline of the file, which its inputs share.
    pub outline: Rc<Outline>,
    /// TrackNumber of the track in the file.
    pub number: u64,
    /// Nanoseconds per tick in the file.
    pub scale: u64,
    /// Duration of a frame of the track in nanoseconds, if the track has a default.
    pub default_duration: Option<u64>,
    /// Nanoseconds that are added to each timestamp. A block that is then before time 0 is dropped.
    pub delay: i64,
    /// Append offset: nanoseconds that are added after the delay.
    pub shift: u64,
    /// Bytes that are put before each frame.
    pub prefix: Bytes,
    /// Timestamps of the track's frames from a timestamp file, if there is one; frames count from 0. Each block gets
    /// the timestamp of its first frame instead of its own.
    pub times: Option<Rc<Times>>,
    /// True if the links after this one are read even if damage ends its reading.
    pub goes_on: bool,
}

/// Subtitles of a SubRip text as a source of blocks.
#[derive(Drop)]
pub struct TextLink {
    pub entries: List<Entry>,
    /// Nanoseconds that are added to each timestamp. A subtitle that is then before time 0 is dropped.
    pub delay: i64,
    /// Append offset: nanoseconds that are added after the delay.
    pub shift: u64,
}
