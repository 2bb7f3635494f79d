//! The header of an Element: RFC 8794, sections 5 (Element ID) and 6 (Element Data Size).

use ebml_numbers::Size;

/// Place of an Element in a file, and the fields of its header.
#[derive(Clone, Copy, Debug, PartialEq, Eq)]
pub struct Header {
    /// The Element's ID, with its marker.
    pub id: u32,
    /// Offset in bytes of the Element from the start of the file.
    pub offset: u64,
    /// Offset in bytes of the Element's body from the start of the file.
    pub body: u64,
    /// Size of the body, as the header gives it.
    pub size: Size,
}
