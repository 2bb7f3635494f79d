//! The command `extract` for cue points.

ghost use Rattle.std.specs.Prelude.{◌≤◌, []};
ghost use Rattle.mkv_io.specs.Asked.{AsksOnly};
ghost use Rattle.extractors.specs.Job.{names_of};
ghost use Rattle.extractors.specs.Source.{IsSource};
ghost use Rattle.mkv_lines.specs.Command.{Fulfils, HasEnded};
ghost use Rattle.mkv_extract.specs.Extract.{cues_taken, done_verdict};
ghost use Rattle.mkv_extract.specs.Read.{read_in};

use crate::telling::{Missing, say_absent, tell_held};
use extractors::{Source, write_cues};
use mkv_io::{Files, Report};
use mkv_lines::{CommandEnd, Status, stop_of};
use requests::Target;
use std::alloc::Global;

/// Extracts the cue points of the tracks that `targets` name, each track's to its own file, and prints the messages.
/// `source` is the open file `name`. Tracks that it lacks are warned of first. `extract_job` calls it for a job that
/// asks for cue points.
pub fn extract_cues<F: Files, P: Report>(
    alloc: Global,
    name: &str,
    targets: &[Target],
    source: &Source,
    files: &mut F,
    report: &mut P,
) -> Result<Status, CommandEnd>
    requires { IsSource F.Reads files.old source.now }
    ensures verdict { Fulfils F.Reads F.Files.own P.Report files.old files.new report.old report.new result
        (done_verdict name.now (cues_taken name.now targets.now (read_in source.now))) }
    ensures ended { HasEnded F.Reads F.Files.own P.Report files.old files.new report.old report.new result }
    ensures asks { AsksOnly [] (names_of targets.now) (F.asked files.old) (F.asked files.new) }
    ensures octets { F.octets_read files.new ≤ F.octets_read files.old }
{
    let count = source.tracks.len() as u64;
    say_absent(alloc, Missing::Track, name, targets, count, report)?;
    if let Err(end) = write_cues(alloc, files, source, targets) {
        return Err(stop_of(end));
    }
    tell_held(alloc, name, targets, count, source.outline.damage(), report)
}
