//! Laws on written blocks and Clusters: they are read back by the format's definitions (RFC 9559, sections 5.1.3,
//! Cluster Element, 5.1.5, Cues Element, and 10, Cluster Blocks). Blocks that were read can be written again. No code
//! that reads or writes depends on this crate.

ghost use Rattle.output_laws.specs.Outputs.{BlocksAreRead, ClustersAreRead, FramesCanBeWritten, KeptCanBeWritten, PointsAreRead, SegmentsAreRead};

/// Law: a written block is read as that block, at any offset of a file. `clusters_are_read` builds on it.
pub fn blocks_are_read()
    ensures { BlocksAreRead }
{}

/// Law: a written Cluster gives its blocks when it is read, with any bytes after it. `segments_are_read` builds on it.
pub fn clusters_are_read()
    ensures { ClustersAreRead }
{}

/// Law: a written Segment has its Elements at level 1, and gives the blocks of its Clusters, without damage.
/// `layouts_are_read` builds on it for whole outputs.
pub fn segments_are_read()
    ensures { SegmentsAreRead }
{}

/// Law: each cue point of a written Segment points at its block. `layouts_are_read` builds on it for the Cues of an
/// output.
pub fn points_are_read()
    ensures { PointsAreRead }
{}

/// Law: the kept children of a BlockGroup that was read can be written again. `merge` copies these children.
/// `found_blocks_are_of_their_kind` builds on it.
pub fn kept_can_be_written()
    ensures { KeptCanBeWritten }
{}

/// Law: the frames of a block that was read can be laced again by the same lacing, with bytes before each. So `merge`
/// can put back the bytes that header stripping had removed. `placed_blocks_are_sound` builds on it.
pub fn frames_can_be_written()
    ensures { FramesCanBeWritten }
{}
