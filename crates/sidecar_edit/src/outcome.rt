//! Results of `recover`.

ghost use Rattle.std.specs.Prelude.{◌≡◌};
ghost use Rattle.sidecar_edit.specs.declared.outcome.RecoverEnd.TheVariants as recover_end;

use mkv_io::Failed;

/// Difference between a file and the file that a journal's record was made for.
#[derive(Clone, Copy, Debug, PartialEq, Eq)]
pub enum Mark {
    /// Other length in bytes.
    Length,
    /// Other byte, which the edit doesn't change.
    Octet {
        /// Offset in bytes from the start of the file.
        at: u64,
    },
}

/// Outcome of a recovery that succeeded.
#[derive(Clone, Copy, Debug, PartialEq, Eq)]
pub enum Recovered {
    /// The edit was completed.
    Applied,
    /// No edit was pending.
    Nothing,
}

/// Reason why a file isn't recovered; it stays as it is.
#[derive(Clone, Copy, Debug, PartialEq, Eq)]
pub enum RecoverEnd {
    /// The journal should have a record and has no valid one, or its writes leave a gap after the file.
    BadSidecar {
        /// Offset in bytes of the first error from the start of the journal.
        offset: u64,
    },
    /// The record was made for another file.
    Foreign {
        mark: Mark,
        /// Length of the file before the edit, or byte, that the record has.
        kept: u64,
        /// Length or byte of the file that was found instead.
        found: u64,
    },
    /// The disk failed.
    DiskFault,
}

impl From<Failed> for RecoverEnd {
    ghost from_gives = { λ _ end. end ≡ recover_end.DiskFault };

    /// Returns the end of a recovery when a call on the disk failed.
    fn from(_failed: Failed) -> RecoverEnd {
        RecoverEnd::DiskFault
    }
}
