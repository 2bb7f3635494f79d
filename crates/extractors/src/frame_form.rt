//! Forms of the frames of a track.

use elementary::Aac;
use mkv_io::Bytes;

/// Form in which `extract` writes a codec: the bytes before the first frame (its head), and the frames. To add a form,
/// add a case here, its CodecIDs to `codec_form`, and a line to `form_coding`.
#[derive(Clone, Copy, Debug, PartialEq, Eq)]
pub enum CodecForm {
    /// No head, and an entry of SubRip for each frame.
    SubRip,
    /// Annex B byte stream (H.264) that begins with the parameter sets in the CodecPrivate.
    H264,
    /// Annex B byte stream (H.265) that begins with the parameter sets in the CodecPrivate.
    H265,
    /// No head, and each frame after an ADTS header.
    Aac,
    /// The CodecPrivate, and then the frames as they are.
    Flac,
    /// No head, and the frames as they are.
    Joined,
    /// No head, and the segments of each frame (PGS), each after a header with the frame's timestamp.
    Pgs,
}

/// Written form of a frame in an output. To add a form, add a case here, and one each to `give_frame` and `is_of_times`.
#[derive(Clone, Copy, Debug, PartialEq, Eq)]
pub enum FrameForm {
    /// The frame as it is.
    Plain,
    /// An entry of SubRip: number, times and text.
    SubRip,
    /// Annex B byte stream (H.264 or H.265): units after start codes. In the frame, the length before each unit has
    /// `length_size` bytes.
    AnnexB { length_size: u8 },
    /// The frame after an ADTS header (AAC).
    Adts { aac: Aac },
    /// Segments of a display set (PGS), each after a header with the frame's timestamp.
    Pgs,
    /// A line with the frame's timestamp in milliseconds.
    Time,
}

/// Bytes before the frames of a track, and the form of each frame.
#[derive(Debug, Drop)]
pub struct Coding {
    pub head: Bytes,
    pub form: FrameForm,
}

/// Reason why a track can't be written in the form of its codec.
#[derive(Clone, Copy, Debug, PartialEq, Eq)]
pub enum UnsupportedTrack {
    /// No form is known for the codec.
    NoExtractor,
    /// The codec's form needs a configuration, which is missing or invalid.
    BadConfig,
}

/// Reason why an extraction is refused, with the index of the track in the Tracks, from 0.
#[derive(Clone, Copy, Debug, PartialEq, Eq)]
pub struct Refusal {
    pub why: UnsupportedTrack,
    pub track: u64,
}
