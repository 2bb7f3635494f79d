//! The state of a journal.

/// State of a journal, which decides whether its file may be used, edited or recovered.
#[derive(Clone, Copy, Debug, PartialEq, Eq)]
pub enum Gate {
    /// Pending edit, which `recover` must complete.
    Live,
    /// No pending edit: the file is whole.
    Quiet,
    /// Invalid journal: its gate is open, and no valid record follows.
    Bad {
        /// Offset in bytes of the first error from the start of the journal.
        offset: u64,
    },
}
