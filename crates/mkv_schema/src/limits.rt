//! Limits of a reader. They are this project's; RFC 8794 and RFC 9559 have none.

/// Length of the longest header, in bytes: an ID of 4 and a size of 8 (RFC 8794, sections 5, Element ID, and 6,
/// Element Data Size).
pub const MAX_ELEMENT_HEADER_LEN: u64 = 12;

/// Maximum length of an EBML header's body, in bytes.
pub const MAX_HEADER_LEN: u64 = 65536;

/// Maximum length of one Info, Tracks, Chapters, Tags or SeekHead, in bytes.
pub const MAX_MASTER_LEN: u64 = 16 << 20;

/// Maximum length of all Info, Tracks, Chapters and Tags of all inputs together, in bytes.
pub const MAX_MASTERS_LEN: u64 = 64 << 20;

/// Maximum length of one Cues, in bytes.
pub const MAX_CUES_LEN: u64 = 64 << 20;

/// Maximum number of Elements of level 1 besides Clusters.
pub const MAX_ELEMENTS: usize = 4096;
