//! Messages of `recover`.

ghost use Rattle.std.specs.Prelude.{◌≡◌, IfOk};
ghost use Rattle.std.specs.String.{string_bytes};
ghost use Rattle.mkv_lines.specs.Line.{recovered_line};
ghost use Rattle.mkv_lines.specs.Ordinary.{IsOrdinary};
ghost use Rattle.mkv_lines.specs.Said.{SaysLast};
ghost use Rattle.mkv_lines.specs.Verdict.{SaysVerdict};
ghost use Rattle.mkv_propedit.specs.Recover.{told};
ghost use Rattle.mkv_propedit.specs.Recovery.{HasTellCause};

use mkv_io::Report;
use mkv_lines::{CommandEnd, Line, Status, refuse, say, say_text};
use sidecar_edit::{RecoverEnd, Recovered};
use std::alloc::{AllocError, Global};

/// Returns the line that reports a completed edit of the file `name`. `recover` makes it beforehand, while memory may
/// still run out.
pub fn recovered_text(alloc: Global, name: &str) -> Result<String, AllocError>
    ensures { IfOk result (λ text. string_bytes text ≡ recovered_line name.now) }
{
    let line = Line::Recovered { name };
    format!(in alloc; "{line}")
}

/// Prints the outcome of a recovery of the file `name`, unless the disk failed, and returns its status. `recover` calls
/// it last. `recovered` is the line for a completed edit, which takes no memory.
pub fn tell<R: Report>(
    alloc: Global,
    name: &str,
    recovered: &str,
    outcome: Result<Recovered, RecoverEnd>,
    report: &mut R,
) -> Result<Status, CommandEnd>
    requires { recovered.now ≡ recovered_line name.now }
    ensures verdict { SaysVerdict (R.lines report.old) (R.lines report.new) result (told name.now outcome) }
    ensures ordinary { IfOk result IsOrdinary }
    ensures cause { HasTellCause outcome (R.faults report.old) (R.faults report.new) result }
    ensures last { SaysLast (R.lines report.old) (R.lines report.new) result }
{
    match outcome {
        Ok(Recovered::Applied) => say_text(report, recovered)?,
        Ok(Recovered::Nothing) => say(alloc, report, &Line::NothingToRecover { name })?,
        Err(RecoverEnd::BadSidecar { offset }) => {
            return refuse(alloc, &Line::BadSidecar { name, offset }, report);
        }
        Err(RecoverEnd::Foreign { mark, kept, found }) => {
            let line = Line::Foreign {
                name,
                mark,
                kept,
                found,
            };
            return refuse(alloc, &line, report);
        }
        Err(RecoverEnd::DiskFault) => return Err(CommandEnd::Disk),
    }
    Ok(Status::Done)
}
