//! A run of the program, with the contract that its users rely on.

ghost use Rattle.mkv_disk.specs.Calls.{AtRest};
ghost use Rattle.word_values.specs.Place.{texts};
ghost use Rattle.mkv_run.specs.ByWords.{reach_for};
ghost use Rattle.mkv_run.specs.Touched.{IsInPlace};
ghost use Rattle.suite.specs.Outside.{outside};
ghost use Rattle.suite.specs.Runs.{Runs};

use edit_laws::{edits_change_nothing_else, new_index_is_whole};
use generate_laws::generate_succeeds;
use mkv_disk::Disk;
use mkv_io::{Files, Report};
use mkv_lines::Status;
use mkv_run::run_command_line;
use remerge_laws::outputs_are_written_again;
use std::alloc::Global;

/// Does what `words`, the command line without the program's name, ask for, prints the messages, and returns the
/// status. `program` calls it once. Requires that nothing on the disk is left to sync if the command edits or recovers
/// a file in place.
pub fn run<F: Files, D: Disk, R: Report>(
    alloc: Global,
    words: &Vec<String>,
    files: &mut F,
    disk: &mut D,
    report: &mut R,
) -> Status
    requires { IsInPlace (reach_for words.now.items) → AtRest D.Disk.own disk.old }
    ensures { let seen = outside F.Reads F.Files.own D.Reads D.Disk.own R.Report in
        Runs (texts words.now.items) (seen files.old disk.old report.old) (seen files.new disk.new report.new) result }
{
    outputs_are_written_again();
    edits_change_nothing_else();
    new_index_is_whole();
    generate_succeeds();
    run_command_line(alloc, words, files, disk, report)
}
