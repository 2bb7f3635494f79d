//! The parts of a file that can be edited.

use ebml_tree::Tree;
use mkv_io::List;

/// Parts of a file that edits change, in memory: RFC 9559, sections 5.1.2 (Info Element) and 5.1.4 (Tracks Element).
#[derive(Drop)]
pub struct Trees {
    /// First Info of the file, if it has one.
    pub info: Option<Tree>,
    /// Children of the first Tracks: TrackEntries, and any others, which edits keep.
    pub tracks: List<Tree>,
}
