//! Places of blocks and Elements in an output.

/// Place of a block: RFC 9559, section 5.1.5 (Cues Element).
#[derive(Clone, Copy, Debug, PartialEq, Eq)]
pub struct CuePoint {
    /// Tick of the block.
    pub tick: u64,
    /// Number of the output track, from 1 on.
    pub lane: u8,
    /// Offset in bytes of the Cluster from the start of the Segment's body.
    pub cluster: u64,
    /// Offset in bytes of the SimpleBlock or BlockGroup from the start of the Cluster's body.
    pub relative: u64,
}

/// Place of an Element of the Segment: RFC 9559, section 5.1.1 (SeekHead Element).
#[derive(Clone, Copy, Debug, PartialEq, Eq)]
pub struct Seek {
    pub id: u32,
    /// Offset in bytes of the Element from the start of the Segment's body.
    pub position: u64,
}
