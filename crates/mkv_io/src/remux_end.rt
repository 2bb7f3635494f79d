//! Ends of a run that reads and writes files, without a result.

ghost use Rattle.std.specs.Prelude.{◌≡◌};
ghost use Rattle.mkv_io.specs.declared.remux_end.RemuxEnd.TheVariants as remux_end;

use crate::outside::{Failed, MakeFault, ReadEnd};
use std::alloc::{AllocError, AllocFailed};

/// End of a run that reads files and writes others, without a result.
#[derive(Clone, Copy, Debug, PartialEq, Eq)]
pub enum RemuxEnd {
    /// An input couldn't be read.
    ReadFault,
    /// An output couldn't be created or written.
    WriteFault,
    /// Memory ran out.
    Memory,
}

impl From<MakeFault> for RemuxEnd {
    ghost use Rattle.mkv_io.specs.RemuxEnd.{end_of_make};

    ghost from_gives = { λ fault end. end ≡ end_of_make fault };

    /// Converts the error `fault` of creating or writing an output, for `?` in the functions that read inputs and write
    /// outputs.
    fn from(fault: MakeFault) -> RemuxEnd {
        match fault {
            MakeFault::Failed => RemuxEnd::WriteFault,
            MakeFault::Memory => RemuxEnd::Memory,
        }
    }
}

impl From<ReadEnd> for RemuxEnd {
    ghost use Rattle.mkv_io.specs.RemuxEnd.{end_of_read};

    ghost from_gives = { λ end now. now ≡ end_of_read end };

    /// Converts the end `end` of a reader of an input, for `?` in the functions that read inputs and write outputs.
    fn from(end: ReadEnd) -> RemuxEnd {
        match end {
            ReadEnd::ReadFault => RemuxEnd::ReadFault,
            ReadEnd::Memory => RemuxEnd::Memory,
        }
    }
}

/// A bare `Failed` is the failure of an overwrite. A caller of `read_at` turns its failure into a `ReadEnd` first.
impl From<Failed> for RemuxEnd {
    ghost from_gives = { λ _ end. end ≡ remux_end.WriteFault };

    /// Converts a failed overwrite of an output, for `?` in the functions that write outputs.
    fn from(_failed: Failed) -> RemuxEnd {
        RemuxEnd::WriteFault
    }
}

impl From<AllocError> for RemuxEnd {
    ghost from_gives = { λ _ end. end ≡ remux_end.Memory };

    /// Converts a failed allocation, for `?` in the functions that read inputs and write outputs.
    fn from(_error: AllocError) -> RemuxEnd {
        RemuxEnd::Memory
    }
}

impl<T: Drop> From<AllocFailed<T>> for RemuxEnd {
    ghost from_gives = { λ _ end. end ≡ remux_end.Memory };

    /// Converts a failed allocation that returns its value, which is dropped, for `?` in the functions that write
    /// outputs.
    fn from(_failed: AllocFailed<T>) -> RemuxEnd {
        RemuxEnd::Memory
    }
}
