//! The commands `propedit` and `reindex` on one file: it is opened with its journal, checked, and changed.

ghost use Rattle.std.specs.Prelude.{◌≡◌, IfOk};
ghost use Rattle.mkv_disk.specs.Calls.{AtRest, IsReady, OfReads};
ghost use Rattle.mkv_lines.specs.Code.{status_of};
ghost use Rattle.mkv_lines.specs.Ordinary.{IsOrdinary};
ghost use Rattle.mkv_lines.specs.Said.{SaysLast};
ghost use Rattle.mkv_propedit.specs.Recovery.{HasDiskStop};
ghost use Rattle.sidecar_edit.specs.Gate.{state};
ghost use Rattle.mkv_propedit.specs.Change.{SaysOfChange, SaysOfOpened, SaysOfQuiet, most_to_change, most_to_plan_change, writes_of_change};
ghost use Rattle.mkv_propedit.specs.Left.{IsEdit, IsEditOf, StaysOpenOf};
ghost use Rattle.mkv_propedit.specs.Command.{ReadsOfDisk};

use crate::carrying::edit_planned;
use crate::change::{FileChange, plan_change};
use crate::telling::refusal_line;
use edit_plan::PlanEnd;
use mkv_disk::{Disk, SIDECAR};
use mkv_io::{Failed, OpenFault, Report};
use mkv_lines::{CommandEnd, Line, Status, refuse};
use sidecar_edit::{Gate, state};
use std::alloc::Global;

/// Makes `change` in the file `name`, wholly or not at all, and prints the outcome. `propedit` and `reindex` call it.
/// It opens the file and its journal on `disk`. After a stop at any moment, `recover` gives the file as it was or
/// wholly changed.
pub fn change_file<D: Disk, R: Report>(
    alloc: Global,
    name: &str,
    change: &FileChange,
    disk: &mut D,
    report: &mut R,
) -> Result<Status, CommandEnd>
    requires { AtRest D.Disk.own disk.old }
    ensures verdict { SaysOfChange D.Disk.own R.Report disk.old report.old report.new result name.now change.now }
    ensures ordinary { IfOk result IsOrdinary }
    ensures edit { IsEditOf D.Reads D.Disk.own name.now (writes_of_change change.now) disk.old disk.new (status_of result) }
    ensures octets { ReadsOfDisk D.Reads D.Disk.own disk.old disk.new (most_to_change change.now) }
    ensures cause { HasDiskStop D.Reads D.Disk.own disk.old disk.new (R.faults report.old) (R.faults report.new) result }
    ensures last { SaysLast (R.lines report.old) (R.lines report.new) result }
{
    match disk.open_pair(name) {
        Ok(()) => change_open(alloc, name, change, disk, report),
        Err(OpenFault::Missing) => refuse(alloc, &Line::Missing { name }, report),
        Err(OpenFault::Failed) => Err(CommandEnd::Disk),
        Err(OpenFault::Memory) => Err(CommandEnd::Memory),
    }
}

/// Makes `change` in the file `name`, which is open with its journal. `change_file` calls it. It prints only an error
/// if the journal has a pending edit or is invalid.
fn change_open<D: Disk, R: Report>(
    alloc: Global,
    name: &str,
    change: &FileChange,
    disk: &mut D,
    report: &mut R,
) -> Result<Status, CommandEnd>
    requires { IsReady D.Reads D.Disk.own disk.old }
    ensures verdict { SaysOfOpened D.Disk.own R.Report disk.old report.old report.new result name.now change.now }
    ensures ordinary { IfOk result IsOrdinary }
    ensures edit { IsEdit D.Disk.own (writes_of_change change.now) disk.old disk.new (status_of result) }
    ensures stays { StaysOpenOf D.Reads D.Disk.own disk.old disk.new (most_to_change change.now) }
    ensures cause { HasDiskStop D.Reads D.Disk.own disk.old disk.new (R.faults report.old) (R.faults report.new) result }
    ensures last { SaysLast (R.lines report.old) (R.lines report.new) result }
{
    match state(disk, SIDECAR) {
        Ok(Gate::Quiet) => change_quiet(alloc, name, change, disk, report),
        Ok(Gate::Live) => refuse(alloc, &Line::PendingEdit { name }, report),
        Ok(Gate::Bad { offset }) => refuse(alloc, &Line::BadSidecar { name, offset }, report),
        Err(Failed) => Err(CommandEnd::Disk),
    }
}

/// Makes `change` in the file `name`, which is open with a journal without a pending edit: it plans the change and then
/// makes it. `change_open` calls it. A refusal is printed, and nothing is written.
fn change_quiet<D: Disk, R: Report>(
    alloc: Global,
    name: &str,
    change: &FileChange,
    disk: &mut D,
    report: &mut R,
) -> Result<Status, CommandEnd>
    requires ready { IsReady D.Reads D.Disk.own disk.old }
    requires quiet { OfReads D.Disk.own disk.old (λ M S. state S ≡ Gate.Quiet) }
    ensures verdict { SaysOfQuiet D.Disk.own R.Report disk.old report.old report.new result name.now change.now }
    ensures ordinary { IfOk result IsOrdinary }
    ensures edit { IsEdit D.Disk.own (writes_of_change change.now) disk.old disk.new (status_of result) }
    ensures stays { StaysOpenOf D.Reads D.Disk.own disk.old disk.new (most_to_plan_change change.now) }
    ensures cause { HasDiskStop D.Reads D.Disk.own disk.old disk.new (R.faults report.old) (R.faults report.new) result }
    ensures last { SaysLast (R.lines report.old) (R.lines report.new) result }
{
    match plan_change(alloc, name, change, disk) {
        Ok(made) => edit_planned(alloc, &made.line, &made.plan, disk, report),
        Err(PlanEnd::Refused(why)) => refuse(alloc, &refusal_line(name, why), report),
        Err(PlanEnd::ReadFault) => Err(CommandEnd::Disk),
        Err(PlanEnd::Memory) => Err(CommandEnd::Memory),
    }
}
