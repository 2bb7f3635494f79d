//! The limits of a merge, which are this project's.

/// Maximum number of links of an output track: itself and 63 appended tracks.
pub const MAX_LINKS: usize = 64;

/// Smallest absolute value of a delay that is too large, in nanoseconds.
pub const TOO_LARGE_DELAY: u64 = 1 << 55;

/// Maximum append offset in nanoseconds: the ends of 63 files. The last block of each begins below 2^56 + 2^55
/// nanoseconds and lasts less than 2^56.
pub const MAX_SHIFT: u64 = 63 * ((1 << 57) + (1 << 55));
