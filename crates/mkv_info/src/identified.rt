//! The command `merge -J` for one open file: its identification as one line of JSON.

ghost use Rattle.std.specs.Prelude.{◌≡◌, IfOk};
ghost use Rattle.mkv_io.specs.Bounds.{ReadsUpTo};
ghost use Rattle.mkv_io.specs.Sources.{IsLive, file_size};
ghost use Rattle.mkv_info.specs.Sound.{CanBeTold};
ghost use Rattle.mkv_lines.specs.Ordinary.{IsOrdinary};
ghost use Rattle.mkv_lines.specs.Said.{HasSayCause};
ghost use Rattle.mkv_lines.specs.Verdict.{SaysVerdict};
ghost use Rattle.mkv_info.specs.Bound.{most_to_identify};
ghost use Rattle.mkv_info.specs.Identified.{identified_of, identified_verdict};
ghost use Rattle.mkv_info.specs.Telling.{HasTellStop, Informs};

use crate::line::identify;
use crate::list::warn;
use crate::reading::{FileRead, read_file};
use element_reader::OutlineEnd;
use mkv_io::{FileId, Reads, Report};
use mkv_lines::{CommandEnd, Line, Status, refuse, say_text};
use std::alloc::Global;

/// Prints the identification of the open file `file` with the name `name`, for `merge -J`. A warning of the damage that
/// ends its outline follows. A file that is refused gets only an error line.
pub fn identify_file<R: Reads, P: Report>(
    alloc: Global,
    name: &str,
    src: &mut R,
    file: FileId,
    report: &mut P,
) -> Result<Status, CommandEnd>
    requires { IsLive R.Reads src.old file }
    ensures verdict { Informs R.Reads P.Report src.old file report.old report.new result (identified_verdict name.now) }
    ensures ordinary { IfOk result IsOrdinary }
    ensures standing { R.standing src.new ≡ R.standing src.old }
    ensures cause { HasTellStop R.Reads P.Report src.old src.new report.old report.new result }
    ensures octets { ReadsUpTo R.Reads src.old src.new (most_to_identify (file_size R.Reads src.old file)) }
{
    match read_file(alloc, src, file) {
        Ok(read) => tell(alloc, name, &read, report),
        Err(OutlineEnd::Refused(damage)) => {
            refuse(alloc, &Line::Refused { name, damage }, report)
        }
        Err(OutlineEnd::ReadFault) => Err(CommandEnd::Files),
        Err(OutlineEnd::Memory) => Err(CommandEnd::Memory),
    }
}

/// Prints the identification of the file `name` with the data in `read`, for `identify_file`, and then a warning of its
/// damage, if any.
fn tell<P: Report>(
    alloc: Global,
    name: &str,
    read: &FileRead,
    report: &mut P,
) -> Result<Status, CommandEnd>
    requires { CanBeTold read.now.records }
    ensures verdict { SaysVerdict (P.lines report.old) (P.lines report.new) result (identified_of name.now read.now) }
    ensures ordinary { IfOk result IsOrdinary }
    ensures cause { HasSayCause (P.faults report.old) (P.faults report.new) result }
{
    let Ok(line) = identify(alloc, name, &read.records) else {
        return Err(CommandEnd::Memory);
    };
    say_text(report, line.as_str())?;
    warn(alloc, name, read.damage, report)
}
