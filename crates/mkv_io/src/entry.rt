//! Timed text: an entry of a SubRip file, which an output track turns into a block.

use crate::octets::Text;

/// Text that is shown from `start` for `duration`, both in nanoseconds.
#[derive(Debug, Drop)]
pub struct Entry {
    /// Start, in nanoseconds.
    pub start: u64,
    /// Duration, in nanoseconds.
    pub duration: u64,
    /// Text that is shown.
    pub text: Text,
}
