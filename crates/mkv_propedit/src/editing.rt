//! The command `propedit`.

ghost use Rattle.std.specs.Prelude.{IfOk};
ghost use Rattle.mkv_disk.specs.Calls.{AtRest};
ghost use Rattle.mkv_lines.specs.Code.{status_of};
ghost use Rattle.mkv_lines.specs.Ordinary.{IsOrdinary};
ghost use Rattle.mkv_lines.specs.Said.{SaysLast};
ghost use Rattle.mkv_propedit.specs.Bound.{most_to_edit};
ghost use Rattle.mkv_propedit.specs.Left.{IsEditOf, writes_of_edits};
ghost use Rattle.mkv_propedit.specs.Recovery.{HasDiskStop};
ghost use Rattle.mkv_propedit.specs.Command.{ReadsOfDisk};
ghost use Rattle.mkv_propedit.specs.Propedit.{SaysOfEdits};

use crate::change::FileChange;
use crate::changing::change_file;
use mkv_disk::Disk;
use mkv_io::{List, Report};
use mkv_lines::{CommandEnd, Status};
use requests::Edit;
use std::alloc::Global;

/// Makes `edits` in the file `name`, all of them or none, and prints the outcome. It is the command `propedit`. After a
/// stop at any moment, `recover` gives the file as it was or with all edits.
pub fn propedit_of<D: Disk, R: Report>(
    alloc: Global,
    name: &str,
    edits: &List<Edit>,
    disk: &mut D,
    report: &mut R,
) -> Result<Status, CommandEnd>
    requires { AtRest D.Disk.own disk.old }
    ensures verdict { SaysOfEdits D.Disk.own R.Report disk.old report.old report.new result name.now edits.now }
    ensures ordinary { IfOk result IsOrdinary }
    ensures edit { IsEditOf D.Reads D.Disk.own name.now (writes_of_edits edits.now) disk.old disk.new (status_of result) }
    ensures octets { ReadsOfDisk D.Reads D.Disk.own disk.old disk.new most_to_edit }
    ensures cause { HasDiskStop D.Reads D.Disk.own disk.old disk.new (R.faults report.old) (R.faults report.new) result }
    ensures last { SaysLast (R.lines report.old) (R.lines report.new) result }
{
    change_file(alloc, name, &FileChange::Edits(edits), disk, report)
}
