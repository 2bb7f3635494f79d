//! Runs over files in memory, while one of their calls fails.

use crate::fault::Fault;
use crate::reading::Reading;
use crate::runs::{has_ended, run_over};
use mkv_io::LONGEST_FILE;
use mkv_memory::{MemDisk, MemFiles};
use std::alloc::Global;

/// Number of calls that fail in turn. The last of them must come after the last call of a run.
const CALLS: u64 = 80;

/// Number of bytes that a failing append still writes.
const KEPT: u64 = 1;

/// Returns the files in memory that exist before the run of the case `reading`: each part whose name has a dot. Used by
/// `left_by`.
fn files_before(alloc: Global, reading: &Reading) -> Result<MemFiles, Fault> {
    let mut files = MemFiles::new(alloc)?;
    for part in &reading.parts {
        if part.octets.len() as u64 > LONGEST_FILE {
            return Err(Fault::Unread);
        }
        if part.name.as_str().contains('.') {
            files.put(part.name.as_str(), part.octets.as_slice())?;
        }
    }
    Ok(files)
}

/// Checks whether a stopped run of the case `reading` may leave the bytes `left` in `out.mkv`, or no such file (None).
/// Used by `left_by`.
fn is_left(reading: &Reading, left: Option<&[u8]>) -> bool {
    match left {
        Some(octets) => {
            left == reading.part("out.mkv")
                || reading.octets("grown").starts_with(octets)
                || left == reading.part("nearly")
        }
        None => reading.part("out.mkv").is_none(),
    }
}

/// Runs the command of the case `reading` over `files`, whose call number `call`, from 0, fails. Returns true if it
/// ended as if no call failed, and false if it was stopped. Used by `left_by`.
fn ends_over(
    alloc: Global,
    reading: &Reading,
    files: &mut MemFiles,
    call: u64,
) -> Result<bool, Fault> {
    let mut disk = MemDisk::new(alloc, &[], &[], 0, 0)?;
    let (status, report) = run_over(alloc, &reading.words, files, &mut disk)?;
    has_ended(status, &report, reading.said.as_str(), "fault: files", call)
}

/// Runs the command of the case `reading` while the call number `call`, from 0, fails, and checks its output. Returns
/// the length of the output in bytes if the run was stopped, and None if not. Used by `lengths_left`.
fn left_by(alloc: Global, reading: &Reading, call: u64) -> Result<Option<usize>, Fault> {
    let mut files = files_before(alloc, reading)?;
    files.fail_at(call, KEPT)?;
    let ended = ends_over(alloc, reading, &mut files, call)?;
    let left = files.bytes("out.mkv");
    if ended {
        Fault::unless(left == reading.part("whole"), "another end", call)?;
        return Ok(None);
    }
    Fault::unless(is_left(reading, left), "another output", call)?;
    Ok(Some(left.unwrap_or(&[]).len()))
}

/// Runs `calls fail`, a line of the test program's input, for the case `reading`: makes each call fail in turn. Returns
/// the lengths of the output in bytes after the stopped runs, without repetitions.
///
/// A call for a journal that doesn't exist doesn't fail, so a run may end well before the last one that is stopped.
pub fn lengths_left(alloc: Global, reading: &Reading) -> Result<Vec<usize>, Fault> {
    let mut lengths: Vec<usize> = Vec::new(alloc);
    let mut ended = false;
    for call in 0..CALLS {
        let left = left_by(alloc, reading, call)?;
        ended = left.is_none();
        if let Some(length) = left {
            if lengths.last().copied() != left {
                lengths.push(length)?;
            }
        }
    }
    Fault::unless(ended, "no end", CALLS)?;
    Ok(lengths)
}
