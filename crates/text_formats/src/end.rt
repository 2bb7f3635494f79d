//! Reasons why a text file isn't read.

ghost use Rattle.std.specs.Prelude.{◌≡◌};
ghost use Rattle.text_formats.specs.declared.end.TextEnd.TheVariants as text_end;

use std::alloc::{AllocError, AllocFailed};
use thiserror::Error;

/// Reason why a text file isn't read.
#[derive(Clone, Copy, Debug, PartialEq, Eq, Error)]
pub enum TextEnd {
    /// Number of the first line that breaks the file's grammar, counted from 1.
    #[error("bad line {line}")]
    Bad { line: u64 },
    /// Out of memory.
    #[error("Memory")]
    Memory,
}

impl From<AllocError> for TextEnd {
    ghost from_gives = { λ _ end. end ≡ text_end.Memory };

    fn from(_error: AllocError) -> TextEnd {
        TextEnd::Memory
    }
}

impl<T: Drop> From<AllocFailed<T>> for TextEnd {
    ghost from_gives = { λ _ end. end ≡ text_end.Memory };

    fn from(_failed: AllocFailed<T>) -> TextEnd {
        TextEnd::Memory
    }
}
