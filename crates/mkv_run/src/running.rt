//! The run of a command line: parsing, execution, and the message of a failure.

ghost use Rattle.std.specs.Prelude.{IfOk};
ghost use Rattle.mkv_io.specs.Told.{IfVisible};
ghost use Rattle.mkv_args.specs.Sound.{IsSound};
ghost use Rattle.mkv_disk.specs.Calls.{AtRest};
ghost use Rattle.mkv_lines.specs.Command.{Fulfils};
ghost use Rattle.mkv_lines.specs.Ordinary.{IsOrdinary};
ghost use Rattle.mkv_lines.specs.Line.{word_line};
ghost use Rattle.mkv_lines.specs.Said.{HasSayCause};
ghost use Rattle.mkv_lines.specs.Verdict.{SaysVerdict, refused};
ghost use Rattle.mkv_propedit.specs.Recover.{disk_world};
ghost use Rattle.word_values.specs.Place.{texts};
ghost use Rattle.mkv_run.specs.Asked.{AsksByWords, AsksToObey, LeavesFiles};
ghost use Rattle.mkv_run.specs.ByWords.{CrashLeaves, EndsFor, HasCauseFor, ReadsFor, ReadsToObey, reach_for, verdict_for};
ghost use Rattle.mkv_run.specs.Run.{LeavesReadable, MergesReadable, MergesReadableIn, verdict_of};
ghost use Rattle.mkv_run.specs.RunSeen.{HasObeyed};
ghost use Rattle.mkv_run.specs.Touched.{IsInPlace, Touched, Touches, reach_of};

use crate::help::{explain, help, version};
use mkv_args::{ArgsEnd, Command, read_words};
use mkv_disk::Disk;
use mkv_extract::extract_of;
use mkv_generate::generate_of;
use mkv_info::{Form, info_of};
use mkv_io::{Files, Report};
use mkv_lines::{CommandEnd, Line, Status, say_disk_fault, say_files_fault};
use mkv_merge::merge_of;
use mkv_propedit::{propedit_of, recover_of, reindex_of};
use std::alloc::Global;

/// Does what `words`, the command line without the program's name, ask for, prints the messages, and returns the
/// status. If a call on the files or the disk failed, it prints the line of that failure, too. Requires that nothing on
/// the disk is left to sync if the command edits or recovers a file in place. The program and its tests call it once a
/// run.
pub fn run_command_line<F: Files, D: Disk, R: Report>(
    alloc: Global,
    words: &Vec<String>,
    files: &mut F,
    disk: &mut D,
    report: &mut R,
) -> Status
    requires { IsInPlace (reach_for words.now.items) → AtRest D.Disk.own disk.old }

    // Status, messages and outputs are the definition's, up to a failure of the system or of memory. No other name
    // has changed.
    ensures verdict { EndsFor F.Reads F.Files.own D.Reads D.Disk.own R.Report files.old files.new disk.old disk.new
        report.old report.new words.now.items result }

    // The outputs of a merge can be read again, unless a call of the system failed or memory ran out.
    ensures readable { LeavesReadable (F.names files.old) (texts words.now.items) result }

    // `Outside` is returned exactly if a count of failures has increased. If memory runs out, an edit in place prints
    // nothing.
    ensures cause { HasCauseFor F.Reads F.Files.own D.Reads D.Disk.own R.Report files.old files.new disk.old disk.new
        report.old report.new words.now.items result }

    // The same files are open as before. No name is opened or made that the words don't ask for.
    ensures files { LeavesFiles F.Reads F.Files.own files.old files.new words.now.items }

    // The number of bytes read, of the files and the disk together, is within the bound of the command.
    ensures octets { ReadsFor F.Reads F.Files.own D.Reads D.Disk.own files.old files.new disk.old disk.new words.now.items }

    // An edit in place leaves the files as they are, and every other command the disk; help and refused words leave
    // both. FILE and journal of an edit are those that its definition gives.
    ensures touches { Touches D.Reads D.Disk.own (reach_for words.now.items) files.old files.new disk.old disk.new result }

    // If nothing was left to sync, a crash leaves the two files of the disk as they were, or as the command can leave
    // them.
    ensures any_moment { CrashLeaves D.Disk.own disk.old disk.new (reach_for words.now.items) result }
{
    match carry_out(alloc, words, files, disk, report) {
        Ok(status) => status,
        Err(CommandEnd::Memory) => Status::NoMemory,
        Err(CommandEnd::Report) => Status::Outside,
        Err(CommandEnd::Files) => {
            let _ = say_files_fault(report);
            Status::Outside
        }
        Err(CommandEnd::Disk) => {
            let _ = say_disk_fault(report);
            Status::Outside
        }
    }
}

// Parses `words` and executes their command, up to the first failed call or missing memory. Words that are refused get
// only an error line. For `run_command_line`, in a run of the program.
fn carry_out<F: Files, D: Disk, R: Report>(
    alloc: Global,
    words: &Vec<String>,
    files: &mut F,
    disk: &mut D,
    report: &mut R,
) -> Result<Status, CommandEnd>
    requires { IsInPlace (reach_for words.now.items) → AtRest D.Disk.own disk.old }
    ensures verdict { IfVisible (verdict_for F.Files.own D.Disk.own files.old disk.old words.now.items)
        (Fulfils F.Reads F.Files.own R.Report files.old files.new report.old report.new result) }
    ensures ended { HasObeyed F.Reads F.Files.own D.Reads D.Disk.own R.Report files.old files.new disk.old disk.new
        report.old report.new (reach_for words.now.items) result }
    ensures readable { MergesReadableIn (F.names files.old) (texts words.now.items) result }
    ensures asks { AsksByWords F.Files.own files.old files.new words.now.items }
    ensures octets { ReadsFor F.Reads F.Files.own D.Reads D.Disk.own files.old files.new disk.old disk.new words.now.items }
    ensures touches { Touched D.Reads D.Disk.own (reach_for words.now.items) files.old files.new disk.old disk.new result }
{
    match read_words(alloc, words) {
        Ok(command) => execute(alloc, &command, files, disk, report),
        Err(ArgsEnd::Usage(usage)) => refuse(alloc, usage.word, usage.why.name(), report),
        Err(ArgsEnd::Memory) => Err(CommandEnd::Memory),
    }
}

// Executes `command`, whose arguments are parsed, over the files and the disk, and prints its messages to the report.
// Each command has its own crate. Returns its status. For `carry_out`, in a run of the program.
fn execute<F: Files, D: Disk, R: Report>(
    alloc: Global,
    command: &Command,
    files: &mut F,
    disk: &mut D,
    report: &mut R,
) -> Result<Status, CommandEnd>
    requires sound { IsSound command.now }
    requires at_rest { IsInPlace (reach_of command.now) → AtRest D.Disk.own disk.old }
    ensures verdict { IfVisible (verdict_of (F.names files.old) (disk_world D.Disk.own disk.old) command.now)
        (Fulfils F.Reads F.Files.own R.Report files.old files.new report.old report.new result) }
    ensures ended { HasObeyed F.Reads F.Files.own D.Reads D.Disk.own R.Report files.old files.new disk.old disk.new
        report.old report.new (reach_of command.now) result }
    ensures readable { MergesReadable (F.names files.old) command.now result }
    ensures asks { AsksToObey F.Files.own files.old files.new command.now }
    ensures octets { ReadsToObey F.Reads F.Files.own D.Reads D.Disk.own files.old files.new disk.old disk.new command.now }
    ensures touches { Touched D.Reads D.Disk.own (reach_of command.now) files.old files.new disk.old disk.new result }
{
    match command {
        Command::Help { about } => help(*about, report),
        Command::Explain { name } => explain(name, report),
        Command::Version => version(report),
        Command::Info { file } => info_of(alloc, Form::Lines, file.as_str(), files, report),
        Command::Identify { file } => info_of(alloc, Form::Json, file.as_str(), files, report),
        Command::Recover { file } => recover_of(alloc, file.as_str(), disk, report),
        Command::Reindex { file } => reindex_of(alloc, file.as_str(), disk, report),
        Command::Propedit { file, edits } => {
            propedit_of(alloc, file.as_str(), edits, disk, report)
        }
        Command::Extract { file, job } => extract_of(alloc, file.as_str(), job, files, report),
        Command::Merge { words } => merge_of(alloc, words, files, report),
        Command::Generate { n, prefix } => {
            generate_of(alloc, *n, prefix.as_str(), files, report)
        }
    }
}

// Prints the error line for the first wrong word of the command line, with its number `word` and the reason `why`.
// Returns the status of a refusal. For `carry_out`, which then executes nothing.
fn refuse<R: Report>(
    alloc: Global,
    word: usize,
    why: &str,
    report: &mut R,
) -> Result<Status, CommandEnd>
    ensures verdict { SaysVerdict (R.lines report.old) (R.lines report.new) result (refused (word_line word why.now)) }
    ensures ordinary { IfOk result IsOrdinary }
    ensures cause { HasSayCause (R.faults report.old) (R.faults report.new) result }
{
    mkv_lines::refuse(alloc, &Line::Word { word, why }, report)
}
