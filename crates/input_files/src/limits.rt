//! Size limits of text files, and of files that are attached

/// Maximum size of a SubRip file in bytes
pub const MAX_SRT_LEN: u64 = 16 << 20;

/// Maximum size of a chapter file in bytes
pub const MAX_CHAPTERS_LEN: u64 = 1 << 20;

/// Maximum size of a timestamp file in bytes
pub const MAX_TIMES_LEN: u64 = 16 << 20;

/// Maximum total size of a merge's timestamp files in bytes
pub const MAX_ALL_TIMES_LEN: u64 = 64 << 20;

/// Maximum size of a file that is attached to an output, in bytes
pub const MAX_ATTACHED_LEN: u64 = 1 << 30;
