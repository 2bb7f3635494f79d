//! The SeekHead that a file has before an edit.

use ebml_tree::Tree;
use element_reader::Header;
use mkv_io::List;

/// The old SeekHead of a file (RFC 9559, section 5.1.1, SeekHead Element): its header and its children, Seeks and
/// others.
#[derive(Drop)]
pub struct SeekHead {
    pub header: Header,
    pub seeks: List<Tree>,
}
