//! A run over files and a disk in memory, and the check of its end.

ghost use Rattle.mkv_disk.specs.Pair.{IsSynced};
ghost use Rattle.mkv_memory.specs.DiskIn.{seen};
ghost use Rattle.mkv_memory.specs.SeenDisk.{pair_in};

use crate::fault::Fault;
use mkv_lines::Status;
use mkv_memory::{MemDisk, MemFiles, MemReport};
use mkv_run::run_command_line;
use std::alloc::Global;

/// Runs the command line `words` over `files` and `disk`, which are in memory. Returns its status, and the report with
/// its lines. Each case runs its command so. Used by `is_recovered`, `ends` and others.
pub fn run_over(
    alloc: Global,
    words: &Vec<String>,
    files: &mut MemFiles,
    disk: &mut MemDisk,
) -> Result<(Status, MemReport), Fault>
    requires { IsSynced (pair_in (seen disk.old)) }
{
    let mut report = MemReport::new(alloc, 10, 1000)?;
    let status = run_command_line(alloc, words, files, disk, &mut report);
    Ok((status, report))
}

/// Checks whether `said` is the only line of `report`. Used by `has_ended`.
fn has_said(report: &MemReport, said: &str) -> bool {
    report.line(0) == Some(said) && report.line(1).is_none()
}

/// Checks the end of a run that returned `status` and printed `report`. It ended as if no call failed, with the line
/// `said`, or was stopped by the call number `call`, from 0, with the line `fault`. Returns true if it ended, and false
/// if it was stopped; anything else is a `Fault`. Used by `ends` and `ends_over`.
pub fn has_ended(
    status: Status,
    report: &MemReport,
    said: &str,
    fault: &str,
    call: u64,
) -> Result<bool, Fault> {
    let ended = status == Status::Done;
    Fault::unless(ended || status == Status::Outside, "another status", call)?;
    let due = if ended { said } else { fault };
    Fault::unless(has_said(report, due), "other lines", call)?;
    Ok(ended)
}
