//! The command `recover`: a file is opened with its journal, and recovered.

ghost use Rattle.std.specs.Prelude.{IfOk};
ghost use Rattle.mkv_io.specs.Bounds.{ReadsUpTo};
ghost use Rattle.mkv_disk.specs.Calls.{AtRest, IsReady};
ghost use Rattle.mkv_lines.specs.Code.{status_of};
ghost use Rattle.mkv_lines.specs.Ordinary.{IsOrdinary};
ghost use Rattle.mkv_lines.specs.Said.{SaysLast};
ghost use Rattle.mkv_propedit.specs.Bound.{most_to_recover};
ghost use Rattle.mkv_propedit.specs.Left.{StaysOpen};
ghost use Rattle.mkv_propedit.specs.Recovery.{HasDiskStop, IsRecovery, IsRecoveryOf};
ghost use Rattle.mkv_propedit.specs.Recover.{SaysOfRecover, SaysOfRecovery};

use crate::recover_telling::{recovered_text, tell};
use mkv_disk::Disk;
use mkv_io::{OpenFault, Report};
use mkv_lines::{CommandEnd, Line, Status, refuse};
use sidecar_edit::recover;
use std::alloc::Global;

/// Completes an interrupted edit of the file `name`, as its journal has it, and prints the outcome. It is the command
/// `recover`. It opens the file and its journal on `disk`.
pub fn recover_of<D: Disk, R: Report>(
    alloc: Global,
    name: &str,
    disk: &mut D,
    report: &mut R,
) -> Result<Status, CommandEnd>
    requires { AtRest D.Disk.own disk.old }
    ensures verdict { SaysOfRecover D.Disk.own R.Report disk.old report.old report.new result name.now }
    ensures ordinary { IfOk result IsOrdinary }
    ensures recovery { IsRecoveryOf D.Reads D.Disk.own name.now disk.old disk.new (status_of result) }
    ensures octets { ReadsUpTo D.Reads disk.old disk.new most_to_recover }
    ensures cause { HasDiskStop D.Reads D.Disk.own disk.old disk.new (R.faults report.old) (R.faults report.new) result }
    ensures last { SaysLast (R.lines report.old) (R.lines report.new) result }
{
    match disk.open_pair(name) {
        Ok(()) => recover_open(alloc, name, disk, report),
        Err(OpenFault::Missing) => refuse(alloc, &Line::Missing { name }, report),
        Err(OpenFault::Failed) => Err(CommandEnd::Disk),
        Err(OpenFault::Memory) => Err(CommandEnd::Memory),
    }
}

/// Recovers the file `name`, which is open with its journal, and prints the outcome. `recover_of` calls it. All memory
/// is taken before anything is written.
fn recover_open<D: Disk, R: Report>(
    alloc: Global,
    name: &str,
    disk: &mut D,
    report: &mut R,
) -> Result<Status, CommandEnd>
    requires { IsReady D.Reads D.Disk.own disk.old }
    ensures verdict { SaysOfRecovery D.Disk.own R.Report disk.old report.old report.new result name.now }
    ensures ordinary { IfOk result IsOrdinary }
    ensures recovery { IsRecovery D.Disk.own disk.old disk.new (status_of result) }
    ensures stays { StaysOpen D.Reads D.Disk.own disk.old disk.new most_to_recover }
    ensures cause { HasDiskStop D.Reads D.Disk.own disk.old disk.new (R.faults report.old) (R.faults report.new) result }
    ensures last { SaysLast (R.lines report.old) (R.lines report.new) result }
{
    let Ok(recovered) = recovered_text(alloc, name) else {
        return Err(CommandEnd::Memory);
    };
    let outcome = recover(disk);
    tell(alloc, name, &recovered, outcome, report)
}
