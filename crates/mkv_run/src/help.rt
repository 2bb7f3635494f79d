//! The commands without a file: `--help`, `explain` and `--version`.

ghost use Rattle.std.specs.Prelude.{◌∷◌, [], IfOk, map};
ghost use Rattle.mkv_args.specs.Explain.{explained};
ghost use Rattle.mkv_args.specs.Help.{usage_lines, version_line};
ghost use Rattle.mkv_lines.specs.Ordinary.{IsOrdinary};
ghost use Rattle.mkv_lines.specs.Said.{HasSayCause, Says};
ghost use Rattle.mkv_lines.specs.Verdict.{SaysVerdict, done};

use mkv_args::{Verb, explained, usage_lines, version_line};
use mkv_io::{Report, Text};
use mkv_lines::{CommandEnd, Status, say_text};

/// Prints the help page of the command `about`, or the overview of all commands if there is none. For the command
/// `--help`.
pub fn help<R: Report>(about: Option<Verb>, report: &mut R) -> Result<Status, CommandEnd>
    ensures verdict { SaysVerdict (R.lines report.old) (R.lines report.new) result (done (usage_lines about)) }
    ensures ordinary { IfOk result IsOrdinary }
    ensures cause { HasSayCause (R.faults report.old) (R.faults report.new) result }
{
    print_lines(usage_lines(about), report)
}

/// Prints the page that explains `name`, a word of a message such as `BadValue`, or the list of all such words. For the
/// command `explain`.
pub fn explain<R: Report>(name: &Option<Text>, report: &mut R) -> Result<Status, CommandEnd>
    ensures verdict { SaysVerdict (R.lines report.old) (R.lines report.new) result (done (explained name.now)) }
    ensures ordinary { IfOk result IsOrdinary }
    ensures cause { HasSayCause (R.faults report.old) (R.faults report.new) result }
{
    let lines = match name {
        Some(name) => explained(Some(name.as_str())),
        None => explained(None),
    };
    print_lines(lines, report)
}

/// Prints the line with the name of the program and its version to `report`, and returns the status Done. For the
/// command `--version`.
pub fn version<R: Report>(report: &mut R) -> Result<Status, CommandEnd>
    ensures verdict { SaysVerdict (R.lines report.old) (R.lines report.new) result (done (version_line ∷ [])) }
    ensures ordinary { IfOk result IsOrdinary }
    ensures cause { HasSayCause (R.faults report.old) (R.faults report.new) result }
{
    say_text(report, version_line())?;
    Ok(Status::Done)
}

// Prints each of `lines` to `report`, in order, and returns the status Done. For `help` and `explain`, when a page is
// printed.
fn print_lines<R: Report>(lines: &[&str], report: &mut R) -> Result<Status, CommandEnd>
    ensures verdict { SaysVerdict (R.lines report.old) (R.lines report.new) result (done (map (λ line. line.now) lines.now)) }
    ensures ordinary { IfOk result IsOrdinary }
    ensures cause { HasSayCause (R.faults report.old) (R.faults report.new) result }
{
    say_texts(lines, report)?;
    Ok(Status::Done)
}

// Prints each of `texts` to `report` as a line, in order, up to the first that can't be printed. For `print_lines`,
// when a page is printed.
fn say_texts<R: Report>(texts: &[&str], report: &mut R) -> Result<(), CommandEnd>
    ensures said { Says (R.lines report.old) (R.lines report.new) (map (λ text. text.now) texts.now) result }
    ensures cause { HasSayCause (R.faults report.old) (R.faults report.new) result }
{
    for text in texts {
        say_text(report, text)?;
    }
    Ok(())
}
