//! Results of reading a number: RFC 8794, sections 4 to 6.

/// Element ID, with its length in bytes (RFC 8794, section 5, Element ID).
#[derive(Clone, Copy, Debug, PartialEq, Eq)]
pub struct IdRead {
    /// The ID with its marker bit, as the standards print it: `0x1A45DFA3`.
    pub id: u32,
    /// Length in bytes: 1 to 4.
    pub len: u8,
}

/// Number of bytes that an Element Data Size gives for the Element's body (RFC 8794, section 6, Element Data Size).
#[derive(Clone, Copy, Debug, PartialEq, Eq)]
pub enum Size {
    /// Number of bytes, less than 2^56 - 1.
    Known(u64),
    /// Unknown size: RFC 8794, section 6.2 (Unknown Data Size).
    Unknown,
}

/// Element Data Size, with its own length in bytes (RFC 8794, section 6, Element Data Size).
#[derive(Clone, Copy, Debug, PartialEq, Eq)]
pub struct SizeRead {
    /// Size of the Element's body.
    pub size: Size,
    /// Length in bytes: 1 to 8.
    pub len: u8,
}

/// Reason why bytes don't begin with a number.
#[derive(Clone, Copy, Debug, PartialEq, Eq)]
pub enum NumFault {
    /// The number has this number of bytes in all, but fewer are here.
    More(u8),
    /// No number begins with these bytes, whatever follows them.
    Bad,
}
