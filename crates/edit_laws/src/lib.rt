#![tactic(auto)]

//! Laws on edited and reindexed files: which content of the old file remains, and where the cue points of a new index
//! point. See RFC 9559, sections 5.1 (Segment Element) and 5.1.5 (Cues Element). They are statements for a reader; no
//! command calls them.

ghost use Rattle.edit_laws.specs.Laws.{EditsChangeNothingElse};
ghost use Rattle.edit_laws.specs.IndexLaws.{BlocksStandInClusters, EachBlockHasItsPoint, LimitsHideNothing, NewIndexIsWhole, PointsPointAtBlocks, TimesAreTicks};

/// States that a file after `propedit` holds the content of the old file, except for the edited properties. Only Info,
/// Tracks, the SeekHead, Voids and the Segment's size are written. A law for a reader; no command calls it.
pub fn edits_change_nothing_else()
    ensures { EditsChangeNothingElse }
{}

/// States that each block of a file, damaged or not, is inside the last Cluster that begins before it, which its cue
/// point after `reindex` names. A law for a reader; no command calls it.
pub fn blocks_stand_in_clusters()
    ensures { BlocksStandInClusters }
{}

/// States that the timestamp of a block that isn't before the start is a whole number of ticks, so that its CueTime
/// after `reindex` is exact. A law for a reader; no command calls it.
pub fn times_are_ticks()
    ensures { TimesAreTicks }
{}

/// States that a reader without limits finds the same blocks and damage as one with limits, in a file that `reindex`
/// accepts. A law for a reader; no command calls it.
pub fn limits_hide_nothing()
    ensures { LimitsHideNothing }
{}

/// States which blocks get cue points from `reindex`: the first 1,048,576 indexed blocks of a file, damaged or not, one
/// each, in the order of the file. Indexed blocks are the keyframes of video and subtitle tracks that aren't before the
/// start. A law for a reader; no command calls it.
pub fn each_block_has_its_point()
    ensures { EachBlockHasItsPoint }
{}

/// States that each cue point that `reindex` makes for a file that it accepts points at a block of the file. A law for
/// a reader; no command calls it.
pub fn points_point_at_blocks()
    ensures { PointsPointAtBlocks }
{}

/// States that a file after `reindex` holds its old content and the new Cues and SeekHead. A law for a reader; no
/// command calls it.
pub fn new_index_is_whole()
    ensures { NewIndexIsWhole }
{}
