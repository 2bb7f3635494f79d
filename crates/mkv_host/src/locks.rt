//! Locks of files, which keep runs of the program away from each other's files.

use std::fs::{File, TryLockError};
use std::io;
use std::io::ErrorKind;

/// Takes the exclusive lock of `file`, which is edited in place; `open_media` does this. Ignores that a file system has
/// no locks; fails on every other error.
pub fn lock(file: &File) -> io::Result<()> {
    match file.try_lock() {
        Ok(()) => Ok(()),
        Err(TryLockError::WouldBlock) => Err(ErrorKind::WouldBlock.into()),
        Err(TryLockError::Error(error)) if error.kind() == ErrorKind::Unsupported => Ok(()),
        Err(TryLockError::Error(error)) => Err(error),
    }
}

/// Takes a shared lock of `file`, an output; `make` does this for each output. Fails only if another run edits the file
/// or writes it in place.
pub fn share(file: &File) -> io::Result<()> {
    unless_held(file.try_lock_shared())
}

/// Takes the exclusive lock of `file`, an output that is written in place; `emptied` does this. Fails only if another
/// run writes or edits the file.
pub fn own(file: &File) -> io::Result<()> {
    unless_held(file.try_lock())
}

/// Ignores every failure of a lock in `outcome`, except that another run holds it, for `share` and `own`. An edit fails
/// on such a failure, or knows that the file system has no locks.
fn unless_held(outcome: Result<(), TryLockError>) -> io::Result<()> {
    match outcome {
        Err(TryLockError::WouldBlock) => Err(ErrorKind::WouldBlock.into()),
        Ok(()) | Err(TryLockError::Error(_)) => Ok(()),
    }
}
