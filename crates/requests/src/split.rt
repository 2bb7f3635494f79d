//! Rules for cutting an output into parts.

use mkv_io::List;

/// Rule for cutting an output into parts, as `--split` gives it. Times are in nanoseconds.
#[derive(Debug, Drop)]
pub enum SplitWords {
    /// Cut after each duration of `by`.
    Duration { by: u64 },
    /// Cuts at the times `at`, which ascend.
    Times { at: List<u64> },
    /// Cuts at the bounds of `spans`, which ascend and don't overlap; only the time in them is written.
    Parts { spans: List<SpanWords> },
    /// Cut at the start of each chapter.
    AllChapters,
    /// Cuts at the start of the chapters with the numbers `numbers`, counted from 1. A number that no chapter has is
    /// accepted here.
    Chapters { numbers: List<u64> },
    /// Cut after each `limit` bytes of blocks.
    Size { limit: u64 },
}

/// Time span in nanoseconds, which may have no end.
#[derive(Clone, Copy, Debug, PartialEq, Eq)]
pub struct SpanWords {
    pub start: u64,
    pub end: Option<u64>,
}
