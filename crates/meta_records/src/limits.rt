//! Limits on attached files. They are this project's; RFC 9559 has none.

/// Maximum number of counted bytes of an Attachments: the headers of all AttachedFiles, and their children without data
pub const MAX_ATTACHMENTS_LEN: u64 = 1 << 20;

/// Maximum number of attached files of a file
pub const MAX_ATTACHMENTS: usize = 1024;
