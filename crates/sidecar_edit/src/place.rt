//! Places of writes in a record, and the sizes of a record.

/// Value of the gate, the first byte of a journal, while an edit is pending.
pub const OPEN: u8 = 0xA5;

/// Length in bytes of a record of version 1 before the bytes of its writes.
pub const HEAD_1: u64 = 160;

/// Length in bytes of a record of version 2 before the bytes of its writes.
pub const HEAD: u64 = 232;

/// Number of the file's first bytes that a record of version 2 has, to identify the file.
pub const KEPT: u64 = 64;

/// Greatest number of writes in a record.
pub const MAX_WRITES: u64 = 8;

/// Greatest number of bytes that the writes of a record write in all: 16 MiB.
pub const MAX_OCTETS: u64 = 1 << 24;

/// Place of a write in the file
#[derive(Clone, Copy, Debug, PartialEq, Eq)]
pub struct Place {
    /// Offset in bytes from the start of the file.
    pub at: u64,
    /// Number of bytes.
    pub len: u64,
}
