//! The writes of an edit before they are checked.

use crate::write::Write;

/// Writes of an edit that rewrites the SeekHead, before the check whether it is refused.
#[derive(Drop)]
pub struct Prepared {
    /// Bytes of the new SeekHead, which fill its room. If it is longer, or there is no room, they are its shortest
    /// form.
    pub head: Vec<u8>,
    /// Least length of the new SeekHead in bytes.
    pub need: u64,
    /// Length in bytes of the old SeekHead and the Voids after it; 0 if there is none.
    pub room: u64,
    /// Writes at the places of the old Elements.
    pub places: Vec<Write>,
    /// Bytes that are appended to the file.
    pub moved: Vec<u8>,
    /// Number of bytes written in all.
    pub length: u64,
}
