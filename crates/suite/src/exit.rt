//! The program: its command line, and its exit status.

ghost use Rattle.std.specs.Prelude.{◌≡◌, ◌⊎◌, IfOk, IfErr, IsOkAnd, OnErr};
ghost use Rattle.std.specs.Process.{exit_status};
ghost use Rattle.mkv_disk.specs.Calls.{AtRest};
ghost use Rattle.mkv_lines.specs.Code.{code_of};
ghost use Rattle.word_values.specs.Place.{texts};
ghost use Rattle.mkv_run.specs.ByWords.{reach_for};
ghost use Rattle.suite.specs.Outside.{outside};
ghost use Rattle.suite.specs.Runs.{Exits, IsIdle};
ghost use Rattle.mkv_run.specs.Touched.{IsInPlace};
ghost use Rattle.suite.specs.Exit.{ExitsMerged};

use crate::running::run;
use mkv_disk::Disk;
use mkv_io::{Files, Report};
use mkv_lines::Status;
use std::alloc::Global;
use std::env;
use std::io::ErrorKind;
use std::process::ExitCode;
use std::rt::Env;

/// Returns the words of the command line, in order and without the program's name, for `main`. If a word isn't UTF-8,
/// fails with `Refused`; if memory runs out, with `NoMemory`.
pub fn words_of<R: Env + AllocGlobal>(rt: &R) -> Result<Vec<String>, Status>
    ensures { IfErr result (λ status. (status ≡ Status.Refused) ⊎ (status ≡ Status.NoMemory)) }
{
    let args = match env::args(rt) {
        Ok(args) => args,
        Err(error) if error.kind() == ErrorKind::OutOfMemory => return Err(Status::NoMemory),
        Err(_) => return Err(Status::Refused),
    };
    args.skip(1).collect(rt.alloc()).or(Err(Status::NoMemory))
}

/// Does what `words` ask for, and returns the exit status of the program, for `main`. If the words couldn't be read,
/// does nothing, and returns the number of the status in their place. Requires that nothing on the disk is left to sync
/// if the command edits or recovers a file in place.
pub fn program<F: Files, D: Disk, R: Report>(
    alloc: Global,
    words: &Result<Vec<String>, Status>,
    files: &mut F,
    disk: &mut D,
    report: &mut R,
) -> ExitCode
    requires { IsOkAnd words.now (λ words. IsInPlace (reach_for words.items)) → AtRest D.Disk.own disk.old }
    ensures ok { let seen = outside F.Reads F.Files.own D.Reads D.Disk.own R.Report in
        IfOk words.now (λ words. Exits (texts words.items) (seen files.old disk.old report.old) (seen files.new disk.new report.new)
        (exit_status result)) }

    // If the exit status is 0 or 1, the merge that the words ask for was written.
    ensures merged { IfOk words.now (ExitsMerged (F.names files.old) (F.names files.new) (exit_status result)) }
    ensures unread { IfErr words.now (λ status. exit_status result ≡ code_of status) }
    ensures idle { let seen = outside F.Reads F.Files.own D.Reads D.Disk.own R.Report in
        OnErr words.now (IsIdle (seen files.old disk.old report.old) (seen files.new disk.new report.new)) }
{
    match words {
        Ok(words) => ExitCode::from(run(alloc, words, files, disk, report).code()),
        Err(status) => ExitCode::from(status.code()),
    }
}
