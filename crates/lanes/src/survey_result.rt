//! Result of a survey of a file

/// Maximum end of a file in nanoseconds: a block is below 2^56 + 2^55 with its delay, and its duration below 2^56
pub const MAX_END: u64 = (1 << 57) + (1 << 55);

/// End of a file, which gives the append offset of the next one
#[derive(Clone, Copy, Debug, PartialEq, Eq)]
pub struct Survey {
    /// End in nanoseconds, without an append offset
    pub end: u64,
    /// Damage ends the reading of the file
    pub stopped: bool,
}
