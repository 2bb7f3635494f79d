//! A write of an edit.

/// Bytes that an edit writes over a file, or after its end.
#[derive(Drop)]
pub struct Write {
    /// Offset of the first byte in the file.
    pub at: u64,
    pub octets: Vec<u8>,
}
