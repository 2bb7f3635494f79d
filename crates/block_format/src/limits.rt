//! Limits of a block, which are this project's, and an ID that the table of Elements doesn't have.

/// ID of Slices, an Element of a BlockGroup that RFC 9559 reclaimed.
pub const SLICES: u32 = 0x8E;

/// Maximum length of a SimpleBlock's or a BlockGroup's body, in bytes.
pub const MAX_BLOCK_LEN: u64 = 32 * 1024 * 1024;

/// Maximum number of ReferenceBlocks of a BlockGroup.
pub const MAX_REFERENCES: usize = 64;

/// Maximum length of a Cluster's Timestamp, in bytes.
pub const MAX_TIMESTAMP_LEN: u64 = 8;

/// Smallest absolute value, in nanoseconds, that is too large for a timestamp, a duration or a reference.
pub const TOO_LARGE_TIME: u64 = 1 << 56;
