//! Common part of all outputs of a plan

use ebml_tree::Tree;
use mkv_io::{List, Text};
use output_model::{ClusterLimits, CueRule, Front};

/// Description that all outputs of a plan share, without their blocks: RFC 9559, section 5.1 (Segment)
#[derive(Drop)]
pub struct OutputSpec {
    /// Name of the output on the command line
    pub name: Text,
    /// Output is cut into parts, with names made from `name`
    pub split: bool,
    pub limits: ClusterLimits,
    /// Rule for cue points of each output track
    pub rules: List<CueRule>,
    pub front: Front,
    pub chapters: Option<Tree>,
    pub tags: Option<Tree>,
    /// SegmentUUIDs of the outputs in their order, as far as they are given; with `link` each output also names the
    /// previous and next ones
    pub uuids: List<u128>,
    pub link: bool,
}
