//! The command `reindex`.

ghost use Rattle.std.specs.Prelude.{IfOk};
ghost use Rattle.mkv_disk.specs.Calls.{AtRest};
ghost use Rattle.mkv_lines.specs.Code.{status_of};
ghost use Rattle.mkv_lines.specs.Ordinary.{IsOrdinary};
ghost use Rattle.mkv_lines.specs.Said.{SaysLast};
ghost use Rattle.mkv_propedit.specs.Left.{IsEditOf};
ghost use Rattle.mkv_propedit.specs.Recovery.{HasDiskStop};
ghost use Rattle.mkv_propedit.specs.Reindex.{SaysOfReindex, most_to_reindex, writes_of_index};
ghost use Rattle.mkv_propedit.specs.Command.{ReadsOfDisk};

use crate::change::FileChange;
use crate::changing::change_file;
use mkv_disk::Disk;
use mkv_io::Report;
use mkv_lines::{CommandEnd, Status};
use std::alloc::Global;

/// Rewrites the index of the file `name`, its Cues and SeekHead, and prints the outcome. It is the command `reindex`.
/// After a stop at any moment, `recover` gives the file as it was or with the new index.
pub fn reindex_of<D: Disk, R: Report>(
    alloc: Global,
    name: &str,
    disk: &mut D,
    report: &mut R,
) -> Result<Status, CommandEnd>
    requires { AtRest D.Disk.own disk.old }
    ensures verdict { SaysOfReindex D.Disk.own R.Report disk.old report.old report.new result name.now }
    ensures ordinary { IfOk result IsOrdinary }
    ensures edit { IsEditOf D.Reads D.Disk.own name.now writes_of_index disk.old disk.new (status_of result) }
    ensures octets { ReadsOfDisk D.Reads D.Disk.own disk.old disk.new most_to_reindex }
    ensures cause { HasDiskStop D.Reads D.Disk.own disk.old disk.new (R.faults report.old) (R.faults report.new) result }
    ensures last { SaysLast (R.lines report.old) (R.lines report.new) result }
{
    change_file(alloc, name, &FileChange::Index, disk, report)
}
