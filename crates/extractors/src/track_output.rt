//! An output for the frames of a track.

use crate::frame_form::FrameForm;
use mkv_io::{Bytes, Text};

/// Output of an extraction: a file for the frames of one track.
#[derive(Debug, Drop)]
pub struct TrackOutput {
    /// Name of its file.
    pub name: Text,
    /// TrackNumber of the track.
    pub track: u64,
    /// Nanoseconds from one frame of a lace to the next: the track's DefaultDuration, or 0 if it is absent.
    pub step: u64,
    /// Bytes that are written before the first frame.
    pub head: Bytes,
    /// Bytes that ContentCompAlgo 3 (header stripping) removed from the start of each frame.
    pub prefix: Bytes,
    /// Written form of each frame.
    pub form: FrameForm,
}
