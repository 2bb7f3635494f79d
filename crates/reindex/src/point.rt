//! A cue point of a new index.

/// Cue point of a block: RFC 9559, section 5.1.5 (Cues Element).
#[derive(Clone, Copy, Debug, PartialEq, Eq)]
pub struct Point {
    /// Timestamp of the block in ticks of the file, from its start.
    pub tick: u64,
    /// TrackNumber of its track, with up to 56 bits.
    pub track: u64,
    /// Bytes from the start of the Segment's body to the block's Cluster.
    pub cluster: u64,
    /// Bytes from the start of the Cluster's body to the block's SimpleBlock or BlockGroup.
    pub relative: u64,
}
