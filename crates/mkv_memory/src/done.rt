//! Effects of a call on a file of a disk in memory.

ghost use Rattle.std.specs.Prelude.{◌≡◌, ◌+◌, ◌<◌, ◌≤◌, ◌^◌, length, vec_capacity, OnOk, IsOk};
ghost use Rattle.mkv_io.specs.Contents.{overwritten};
ghost use Rattle.mkv_memory.specs.Changes.{CanChange, reads_by};
ghost use Rattle.mkv_memory.specs.LogIn.{change_of, octets_done};

use mkv_io::FileId;
use std::alloc::AllocError;

/// Effect of a call on a file: a write, a truncation or a sync. The bytes that it wrote are kept elsewhere.
#[derive(Clone, Copy)]
pub enum Done {
    Wrote { at: u64, len: usize },
    Cut { len: u64 },
    Synced,
}

/// Call that was made on one of the two files, for the log.
#[derive(Clone, Copy)]
pub struct Call {
    pub file: FileId,
    pub done: Done,
}

/// Returns the number of bytes that a call with the effect `done` wrote. The log of a disk in memory finds the bytes of
/// each call by it. Used by `replayed`.
pub fn octets_done(done: Done) -> usize
    ensures { result ≡ octets_done done }
{
    match done {
        Done::Wrote { len, .. } => len,
        Done::Cut { .. } | Done::Synced => 0,
    }
}

/// Applies the effect `done`, with the bytes `bytes`, to the content `reads` of a file, for a disk in memory. Allocates
/// only if the vector has no room left. `LoggedPair::make` and `Pending::make` call it.
pub fn apply(reads: &mut Vec<u8>, done: Done, bytes: &[u8]) -> Result<(), AllocError>
    requires count { length bytes.now ≡ octets_done done }
    requires inside { CanChange (change_of done bytes.now) reads.old.items }
    ensures ok { OnOk result (reads.new.items ≡ reads_by (change_of done bytes.now) reads.old.items) }
    ensures room { length reads.old.items + length bytes.now ≤ vec_capacity reads.old → IsOk result }
    ensures capacity { vec_capacity reads.old ≤ vec_capacity reads.new }
{
    match done {
        Done::Wrote { at, .. } => write_over(reads, at as usize, bytes),
        Done::Cut { len } => {
            reads.truncate(len as usize);
            Ok(())
        }
        Done::Synced => Ok(()),
    }
}

/// Writes `bytes` over `octets` from the offset `at`, also past the end. `apply` calls it for a write.
fn write_over(octets: &mut Vec<u8>, at: usize, bytes: &[u8]) -> Result<(), AllocError>
    requires inside { at ≤ length octets.old.items }
    requires short { at + length bytes.now < 2 ^ 64 }
    ensures ok { OnOk result (octets.new.items ≡ overwritten octets.old.items at bytes.now) }
    ensures room { at + length bytes.now ≤ vec_capacity octets.old → IsOk result }
    ensures capacity { vec_capacity octets.old ≤ vec_capacity octets.new }
{
    let end = at + bytes.len();
    if end > octets.len() {
        octets.resize(end, 0)?;
    }
    octets[at..end].copy_from_slice(bytes);
    Ok(())
}
