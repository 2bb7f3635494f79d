//! Execution of a planned edit: journal first, then the file.

ghost use Rattle.std.specs.Prelude.{◌≤◌, true, [], ◌∷◌, length, IfOk};
ghost use Rattle.mkv_io.specs.Faults.{HasCause};
ghost use Rattle.mkv_disk.specs.Pair.{both};
ghost use Rattle.mkv_disk.specs.Calls.{AnyMoment, IsReady, MakesPair, OfReads};
ghost use Rattle.mkv_disk.specs.Writing.{OnlyWrites};
ghost use Rattle.mkv_lines.specs.Code.{status_of};
ghost use Rattle.mkv_lines.specs.Line.{text_of};
ghost use Rattle.mkv_lines.specs.Ordinary.{IsOrdinary};
ghost use Rattle.mkv_lines.specs.Said.{SaysLast};
ghost use Rattle.mkv_lines.specs.Verdict.{SaysVerdict, done};
ghost use Rattle.mkv_propedit.specs.Recovery.{HasDiskStop};
ghost use Rattle.sidecar_edit.specs.Fields.{writes_of};
ghost use Rattle.sidecar_edit.specs.Writes.{applied};
ghost use Rattle.sidecar_edit.specs.Leaves.{IsEditing};
ghost use Rattle.mkv_propedit.specs.Left.{IsPlannedFor, LeavesPlanned, LeftByPlan};

use crate::telling::{line_text, tell};
use mkv_disk::Disk;
use mkv_io::Report;
use mkv_lines::{CommandEnd, Line, Status};
use sidecar_edit::{DiskFault, Plan, commit, settle};
use std::alloc::Global;

/// Makes the edits of `plan` in the open file on `disk`, whose journal has no pending edit, and prints `line`.
/// `change_quiet` calls it if the change isn't refused. All memory is taken before anything is written, so that only a
/// failed call can stop it.
pub fn edit_planned<D: Disk, R: Report>(
    alloc: Global,
    line: &Line,
    plan: &Plan,
    disk: &mut D,
    report: &mut R,
) -> Result<Status, CommandEnd>
    requires ready { IsReady D.Reads D.Disk.own disk.old }
    requires some { 1 ≤ length plan.now.head.places }
    requires planned { OfReads D.Disk.own disk.old (IsPlannedFor plan.now) }
    ensures verdict { SaysVerdict (R.lines report.old) (R.lines report.new) result (done (text_of line.now ∷ [])) }
    ensures ordinary { IfOk result IsOrdinary }
    ensures pair { OfReads D.Disk.own disk.old (λ M S. LeavesPlanned (status_of result) plan.now M S (D.pair disk.new)) }
    ensures any_moment { AnyMoment D.Disk.own disk.old disk.new (LeftByPlan (status_of result) plan.now) }
    ensures only { OnlyWrites D.Reads D.Disk.own disk.old disk.new }
    ensures cause { HasDiskStop D.Reads D.Disk.own disk.old disk.new (R.faults report.old) (R.faults report.new) result }
    ensures last { SaysLast (R.lines report.old) (R.lines report.new) result }
{
    let Ok(edited) = line_text(alloc, line) else {
        return Err(CommandEnd::Memory);
    };
    let made = carry_out(plan, disk);
    tell(&edited, made, report)
}

/// Makes the edits of `plan` in the open file on `disk`, for `propedit` and `reindex`. It resets the journal, which has
/// no pending edit, and writes the plan there and the new bytes to the file. Then it resets the journal again.
fn carry_out<D: Disk>(plan: &Plan, disk: &mut D) -> Result<(), DiskFault>
    requires ready { IsReady D.Reads D.Disk.own disk.old }
    requires some { 1 ≤ length plan.now.head.places }
    requires planned { OfReads D.Disk.own disk.old (IsPlannedFor plan.now) }
    ensures ok { MakesPair D.Disk.own disk.old disk.new result (λ M S. both (applied M (writes_of plan.now)) (0 ∷ [])) }
    ensures any_moment { AnyMoment D.Disk.own disk.old disk.new (λ M S m s. IsEditing plan.now M m s) }
    ensures only { OnlyWrites D.Reads D.Disk.own disk.old disk.new }
    ensures cause { HasCause (λ _. true) (D.writing_faults disk.old) (D.writing_faults disk.new) result }
{
    settle(disk)?;
    commit(plan, disk)
}
