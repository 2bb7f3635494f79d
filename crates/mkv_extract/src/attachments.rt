//! The command `extract` for attached files.

ghost use Rattle.std.specs.Prelude.{◌*◌, ◌≤◌, [], length, All};
ghost use Rattle.mkv_io.specs.Asked.{AsksOnly};
ghost use Rattle.mkv_io.specs.Names.{AreOthers};
ghost use Rattle.requests.specs.declared.job.Target.{Target as TargetSeen};
ghost use Rattle.extractors.specs.Job.{names_of};
ghost use Rattle.extractors.specs.Source.{IsSource};
ghost use Rattle.mkv_lines.specs.Command.{HasEnded};
ghost use Rattle.mkv_io.specs.Bounds.{ReadsOf};
ghost use Rattle.mkv_extract.specs.Steps.{TakesAttached};

use crate::telling::{Missing, say_absent, tell_held};
use extractors::{Source, write_attachments};
use mkv_io::{Files, Report};
use mkv_lines::{CommandEnd, Status, stop_of};
use requests::Target;
use std::alloc::Global;

/// Extracts the attached files that `targets` name, each to its own file, from `source`, the open file `name`, and
/// prints the messages. Attached files are numbered from 1. Those that the file lacks are warned of first.
/// `extract_job` calls it for a job that names attached files.
pub fn extract_attachments<F: Files, P: Report>(
    alloc: Global,
    name: &str,
    targets: &[Target],
    source: &Source,
    files: &mut F,
    report: &mut P,
) -> Result<Status, CommandEnd>
    requires source { IsSource F.Reads files.old source.now }
    requires numbers { All (λ (t : TargetSeen). 1 ≤ t.id) targets.now }
    requires other { AreOthers (F.holder files.old source.now.file.n) (names_of targets.now) }
    ensures verdict { TakesAttached F.Reads F.Files.own P.Report source.now files.old files.new report.old report.new result name.now targets.now }
    ensures ended { HasEnded F.Reads F.Files.own P.Report files.old files.new report.old report.new result }
    ensures asks { AsksOnly [] (names_of targets.now) (F.asked files.old) (F.asked files.new) }
    ensures octets { ReadsOf F.Reads files.old files.new source.now.file (λ octets. length targets.now * octets) }
{
    let count = source.attachments.as_slice().len() as u64 + 1;
    say_absent(alloc, Missing::Attachment, name, targets, count, report)?;
    if let Err(end) = write_attachments(alloc, files, source, targets) {
        return Err(stop_of(end));
    }
    tell_held(alloc, name, targets, count, source.outline.damage(), report)
}
