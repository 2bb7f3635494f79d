//! The commands `info` and `merge -J`: a file is opened, described and closed.

ghost use Rattle.std.specs.Prelude.{◌≡◌, [], ◌∷◌, IfOk};
ghost use Rattle.mkv_io.specs.Asked.{AsksOnly};
ghost use Rattle.mkv_io.specs.Sources.{IsLive};
ghost use Rattle.sidecar_edit.specs.Name.{sidecar_of, with_sidecar};
ghost use Rattle.sidecar_edit.specs.Pending.{LooksOnly};
ghost use Rattle.mkv_lines.specs.Command.{HasEnded, with_sidecar_head};
ghost use Rattle.mkv_io.specs.Bounds.{ReadsByNames, ReadsOf};
ghost use Rattle.mkv_lines.specs.Ordinary.{IsOrdinary};
ghost use Rattle.mkv_info.specs.Bound.{most_of_form, most_to_tell};
ghost use Rattle.mkv_info.specs.Telling.{HasTellStop, Presents, TellsSettled};

use crate::identified::identify_file;
use crate::list::list_file;
use mkv_io::{FileId, Files, OpenFault, Report};
use mkv_lines::{CommandEnd, Line, Status, refuse};
use sidecar_edit::is_pending;
use std::alloc::Global;

/// Form of the description of a file: `info` or `merge -J`.
#[derive(Clone, Copy, Debug, PartialEq, Eq)]
pub enum Form {
    /// A line for each Element at level 1 and each track (`info`).
    Lines,
    /// One line of JSON (`merge -J`).
    Json,
}

/// Opens the file `name`, prints its description in the form `form`, and closes it, in any case. It is the whole
/// command `info`, and `merge -J`. A missing file, and one with a pending edit, gets only an error line.
pub fn info_of<F: Files, P: Report>(
    alloc: Global,
    form: Form,
    name: &str,
    files: &mut F,
    report: &mut P,
) -> Result<Status, CommandEnd>
    ensures verdict { Presents F.Reads F.Files.own P.Report files.old files.new report.old report.new result form name.now }
    ensures ended { HasEnded F.Reads F.Files.own P.Report files.old files.new report.old report.new result }
    ensures names { F.names files.new ≡ F.names files.old }
    ensures asks { AsksOnly (with_sidecar name.now) [] (F.asked files.old) (F.asked files.new) }
    ensures octets { ReadsByNames F.Reads F.Files.own files.old files.new (λ world. most_to_tell form world name.now) }
{
    let file = match files.open_file(name) {
        Ok(file) => file,
        Err(OpenFault::Missing) => return refuse(alloc, &Line::Missing { name }, report),
        Err(OpenFault::Failed) => return Err(CommandEnd::Files),
        Err(OpenFault::Memory) => return Err(CommandEnd::Memory),
    };
    let ended = report_unless_pending(alloc, form, name, files, file, report);
    files.close(file);
    ended
}

/// Prints the description of the open file `file` with the name `name` in the form `form`, for `info_of`. If its
/// journal has a pending edit, it prints only an error, since the file may be half written.
fn report_unless_pending<F: Files, P: Report>(
    alloc: Global,
    form: Form,
    name: &str,
    files: &mut F,
    file: FileId,
    report: &mut P,
) -> Result<Status, CommandEnd>
    requires { IsLive F.Reads files.old file }
    ensures verdict { TellsSettled F.Reads F.Files.own P.Report files.old file report.old report.new result form name.now }
    ensures ordinary { IfOk result IsOrdinary }
    ensures looks { LooksOnly F.Reads F.Files.own (sidecar_of name.now ∷ []) files.old files.new }
    ensures cause { HasTellStop F.Reads P.Report files.old files.new report.old report.new result }
    ensures octets { ReadsOf F.Reads files.old files.new file (with_sidecar_head (most_of_form form)) }
{
    if is_pending(alloc, name, files)? {
        return refuse(alloc, &Line::PendingEdit { name }, report);
    }
    match form {
        Form::Lines => list_file(alloc, name, files, file, report),
        Form::Json => identify_file(alloc, name, files, file, report),
    }
}
