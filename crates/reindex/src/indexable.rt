//! A file that gets a new index.

use crate::point::Point;
use element_reader::Outline;
use mkv_io::List;

/// File that gets a new index: its Elements at level 1 and the points of its new Cues.
#[derive(Drop)]
pub struct IndexableFile {
    pub outline: Outline,
    /// Cue points of its new Cues, in file order.
    pub points: List<Point>,
}
