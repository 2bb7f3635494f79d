//! The command `extract` for chapters.

ghost use Rattle.std.specs.Prelude.{◌≡◌, ◌≤◌, [], ◌∷◌, false, option_to_list, IfOk, IfSome};
ghost use Rattle.mkv_io.specs.Asked.{AsksOnly};
ghost use Rattle.mkv_schema.specs.declared.ids.TheConstants.{CHAPTERS};
ghost use Rattle.tree_format.specs.Standing.{IsSoundOf};
ghost use Rattle.mkv_lines.specs.Command.{Fulfils, HasEnded, SaysTo};
ghost use Rattle.mkv_lines.specs.Line.{wrote_line};
ghost use Rattle.mkv_lines.specs.Ordinary.{IsOrdinary};
ghost use Rattle.mkv_lines.specs.Said.{HasSayCause};
ghost use Rattle.mkv_extract.specs.Extract.{chapters_taken, done_verdict, status_of};
ghost use Rattle.mkv_extract.specs.Read.{read_in};
ghost use Rattle.mkv_extract.specs.Told.{outline_lines};

use crate::telling::warn_outline;
use extractors::{Source, write_chapters};
use mkv_io::{Damage, Files, Report};
use mkv_lines::{CommandEnd, Line, Status, say, stop_of};
use std::alloc::Global;

/// Extracts the chapters of `source`, the open file `name`, as OGM simple chapters to the file `out`, and prints the
/// messages. `extract_job` calls it for a job that names a file for chapters.
pub fn extract_chapters<F: Files, P: Report>(
    alloc: Global,
    name: &str,
    out: &str,
    source: &Source,
    files: &mut F,
    report: &mut P,
) -> Result<Status, CommandEnd>
    requires { IfSome source.now.chapters (IsSoundOf CHAPTERS) }
    ensures verdict { Fulfils F.Reads F.Files.own P.Report files.old files.new report.old report.new result
        (done_verdict name.now (chapters_taken out.now (read_in source.now))) }
    ensures ended { HasEnded F.Reads F.Files.own P.Report files.old files.new report.old report.new result }
    ensures asks { AsksOnly [] (out.now ∷ []) (F.asked files.old) (F.asked files.new) }
    ensures octets { F.octets_read files.new ≤ F.octets_read files.old }
{
    if let Err(end) = write_chapters(alloc, files, &source.chapters, out) {
        return Err(stop_of(end));
    }
    tell_output(alloc, name, out, source.outline.damage(), report)
}

/// Prints the message that the output `out` is complete, and a warning of the damage of the file `name` at level 1, if
/// any. Returns the status of the command. For `extract_chapters`, when `extract` has written chapters.
fn tell_output<P: Report>(
    alloc: Global,
    name: &str,
    out: &str,
    damage: Option<Damage>,
    report: &mut P,
) -> Result<Status, CommandEnd>
    ensures said { SaysTo P.Report report.old report.new (wrote_line out.now ∷ outline_lines name.now damage) result }
    ensures status { IfOk result (λ status. status ≡ status_of false (option_to_list damage)) }
    ensures ordinary { IfOk result IsOrdinary }
    ensures cause { HasSayCause (P.faults report.old) (P.faults report.new) result }
{
    say(alloc, report, &Line::Wrote { name: out })?;
    warn_outline(alloc, name, damage, report)
}
