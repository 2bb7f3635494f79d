//! An attached file.

use ebml_tree::Tree;
use mkv_io::FileId;

/// Attached file, whose data stay in the file that they were found in.
#[derive(Drop)]
pub struct Attachment {
    /// The FileUID.
    pub uid: u64,
    /// The live file that has the data.
    pub file: FileId,
    /// Offset of the data in bytes from the start of that file.
    pub at: u64,
    /// Length of the data in bytes.
    pub len: u64,
    /// The AttachedFile. Its FileData only marks a place: its content isn't written.
    pub entry: Tree,
}
