//! Track types that this suite distinguishes: RFC 9559, section 5.1.4 (Tracks Element), TrackType.

pub const VIDEO_TRACK: u64 = 1;

pub const AUDIO_TRACK: u64 = 2;

pub const SUBTITLE_TRACK: u64 = 17;
