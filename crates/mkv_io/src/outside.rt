//! Parameters and errors of the calls to files and reports.

ghost use Rattle.std.specs.Prelude.{◌≡◌};
ghost use Rattle.mkv_io.specs.declared.outside.MakeFault.TheVariants as make_fault;
ghost use Rattle.mkv_io.specs.declared.outside.OpenFault.TheVariants as open_fault;
ghost use Rattle.mkv_io.specs.declared.outside.ReadEnd.TheVariants as read_end;

use std::alloc::{AllocError, AllocFailed};

/// Maximum length of a file, in bytes.
pub const LONGEST_FILE: u64 = 1 << 48;

/// Number of a live file: one that was opened and isn't closed yet.
#[derive(Clone, Copy, Debug, PartialEq, Eq)]
pub struct FileId {
    pub n: u64,
}

/// Error of a call to the system, which has increased its count of faults.
#[derive(Clone, Copy, Debug, PartialEq, Eq)]
pub struct Failed;

/// Cause of a failure to open a file.
#[derive(Clone, Copy, Debug, PartialEq, Eq)]
pub enum OpenFault {
    /// No file has that name.
    Missing,
    /// The system failed.
    Failed,
    /// Memory ran out.
    Memory,
}

/// Cause of a failure to create a file or to append to it.
#[derive(Clone, Copy, Debug, PartialEq, Eq)]
pub enum MakeFault {
    /// The system failed.
    Failed,
    /// Memory ran out.
    Memory,
}

/// End of a call that reads a file without a result.
#[derive(Clone, Copy, Debug, PartialEq, Eq)]
pub enum ReadEnd {
    /// A read failed.
    ReadFault,
    /// Memory ran out.
    Memory,
}

impl From<Failed> for OpenFault {
    ghost from_gives = { λ _ end. end ≡ open_fault.Failed };

    /// Converts a failed call to the system, for `?` in the functions that open a file.
    fn from(_failed: Failed) -> OpenFault {
        OpenFault::Failed
    }
}

impl From<AllocError> for OpenFault {
    ghost from_gives = { λ _ end. end ≡ open_fault.Memory };

    /// Converts a failed allocation, for `?` in the functions that open a file.
    fn from(_error: AllocError) -> OpenFault {
        OpenFault::Memory
    }
}

impl<T: Drop> From<AllocFailed<T>> for OpenFault {
    ghost from_gives = { λ _ end. end ≡ open_fault.Memory };

    /// Converts a failed allocation that returns its value, which is dropped, for `?` in the functions that open a
    /// file.
    fn from(_failed: AllocFailed<T>) -> OpenFault {
        OpenFault::Memory
    }
}

impl From<Failed> for MakeFault {
    ghost from_gives = { λ _ end. end ≡ make_fault.Failed };

    /// Converts a failed call to the system, for `?` in the functions that create or write a file.
    fn from(_failed: Failed) -> MakeFault {
        MakeFault::Failed
    }
}

impl From<AllocError> for MakeFault {
    ghost from_gives = { λ _ end. end ≡ make_fault.Memory };

    /// Converts a failed allocation, for `?` in the functions that create or write a file.
    fn from(_error: AllocError) -> MakeFault {
        MakeFault::Memory
    }
}

impl<T: Drop> From<AllocFailed<T>> for MakeFault {
    ghost from_gives = { λ _ end. end ≡ make_fault.Memory };

    /// Converts a failed allocation that returns its value, which is dropped, for `?` in the functions that create or
    /// write a file.
    fn from(_failed: AllocFailed<T>) -> MakeFault {
        MakeFault::Memory
    }
}

impl From<Failed> for ReadEnd {
    ghost from_gives = { λ _ end. end ≡ read_end.ReadFault };

    /// Converts a failed call to the system, for `?` in the functions that read a file.
    fn from(_failed: Failed) -> ReadEnd {
        ReadEnd::ReadFault
    }
}

impl From<AllocError> for ReadEnd {
    ghost from_gives = { λ _ end. end ≡ read_end.Memory };

    /// Converts a failed allocation, for `?` in the functions that read a file.
    fn from(_error: AllocError) -> ReadEnd {
        ReadEnd::Memory
    }
}

impl<T: Drop> From<AllocFailed<T>> for ReadEnd {
    ghost from_gives = { λ _ end. end ≡ read_end.Memory };

    /// Converts a failed allocation that returns its value, which is dropped, for `?` in the functions that read a
    /// file.
    fn from(_failed: AllocFailed<T>) -> ReadEnd {
        ReadEnd::Memory
    }
}
