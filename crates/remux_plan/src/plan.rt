//! Plan of a merge

use ebml_tree::Tree;
use merge_model::LaneSpec;
use mkv_io::{List, Text};
use output_model::{ClusterLimits, CueRule, Front};
use splitter::SplitSpec;

/// Plan of a merge with one output, or with several that each have a part of the blocks: RFC 9559, section 5.1
/// (Segment)
#[derive(Drop)]
pub struct MergePlan {
    /// Name of the output on the command line; the names of parts are made from it
    pub output: Text,
    /// Times for cuts, in nanoseconds
    pub split: SplitSpec,
    /// Size of each part except the last, in bytes of SimpleBlocks and BlockGroups, if the output is cut by size. Then
    /// there are no times.
    pub size: Option<u64>,
    /// Limits of Clusters, and the output's nanoseconds per tick
    pub limits: ClusterLimits,
    /// Output tracks, with track numbers from 1
    pub lanes: List<PlannedLane>,
    /// Elements before the first Cluster; only the first part has the attached files
    pub front: Front,
    /// Chapters; each part gets the ones in its period
    pub chapters: Option<Tree>,
    pub tags: Option<Tree>,
    /// SegmentUUIDs of the outputs in their order, as far as they are given, with the highest byte first: RFC 9559,
    /// section 5.1.2.1 (SegmentUUID)
    pub uuids: List<u128>,
    /// Each output names the SegmentUUIDs of the previous and the next output
    pub link: bool,
}

/// One output track of a plan
#[derive(Drop)]
pub struct PlannedLane {
    /// Links to the tracks whose blocks it gets, in sequence
    pub spec: LaneSpec,
    /// Number of each link's input, counted from 0, for the warnings about its damage
    pub inputs: List<usize>,
    /// Rule for its cue points
    pub cues: CueRule,
    /// Output may be cut before its keyframes
    pub drives: bool,
}
