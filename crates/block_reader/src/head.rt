//! Head of a block

use lacing::Lace;

/// Head of a block: RFC 9559, section 10 (Cluster Blocks)
#[derive(Clone, Copy, Debug, PartialEq, Eq)]
pub struct BlockHead {
    /// TrackNumber of its track
    pub track: u64,
    /// Time in nanoseconds, which may be negative
    pub time: i64,
    /// Keyframe: a SimpleBlock with that flag, or a group without references
    pub key: bool,
    /// Decoded but not shown
    pub invisible: bool,
    /// May be dropped if playback is late; never set for a group
    pub discardable: bool,
    /// BlockGroup, not SimpleBlock
    pub group: bool,
    /// Kind of lacing
    pub lace: Lace,
    /// BlockDuration in nanoseconds, if present
    pub duration: Option<u64>,
    /// Byte offset of its SimpleBlock or BlockGroup in the file
    pub offset: u64,
}
