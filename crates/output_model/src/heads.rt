//! Header fields of a block, and the end of a Cluster.

use lacing::Lace;

/// Header fields of an output block: RFC 9559, section 10 (Cluster Blocks). Times are in ticks of the output.
#[derive(Clone, Copy, Debug, PartialEq, Eq)]
pub struct OutHead {
    /// Tick of the block on its output track.
    pub tick: u64,
    /// Greatest tick of the output track up to this block; blocks are merged by it.
    pub order: u64,
    /// BlockDuration, if the block has one.
    pub duration: Option<u64>,
    /// True if the block is a keyframe.
    pub key: bool,
    /// True if the block is decoded, but not shown.
    pub invisible: bool,
    /// True if the block may be left out if there is no time for it.
    pub discardable: bool,
    /// True for a BlockGroup, false for a SimpleBlock.
    pub group: bool,
    /// Lacing of the frames; without lacing there is one.
    pub lace: Lace,
}

/// Limits that end a Cluster.
#[derive(Clone, Copy, Debug, PartialEq, Eq)]
pub struct ClusterLimits {
    /// Maximum number of blocks.
    pub blocks: u32,
    /// Maximum time from the Timestamp to a block, in nanoseconds.
    pub span: u64,
    /// Nanoseconds per tick.
    pub scale: u64,
}
