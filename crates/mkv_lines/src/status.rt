//! Exit statuses of a run.

ghost use Rattle.std.specs.Prelude.{◌≡◌};
ghost use Rattle.mkv_lines.specs.Code.{code_of, stop_of};

use mkv_io::{ReadEnd, RemuxEnd};

/// Exit status of a run, from 0 to 4 in this order.
#[derive(Clone, Copy, Debug, PartialEq, Eq)]
pub enum Status {
    /// Everything is done.
    Done,
    /// Everything is done, and a message warns of a problem.
    Warned,
    /// The command is refused, and a message gives the reason. Files that `generate` wrote before a refusal remain.
    /// There is no message if an argument isn't UTF-8.
    Refused,
    /// Memory ran out.
    NoMemory,
    /// The files, the disk or the report failed (I/O failure).
    Outside,
}

impl Status {
    /// Returns the number of the status, from 0 to 4, which the program exits with. `program` calls it last.
    pub fn code(self) -> u8
        ensures { result ≡ code_of self }
    {
        match self {
            Status::Done => 0,
            Status::Warned => 1,
            Status::Refused => 2,
            Status::NoMemory => 3,
            Status::Outside => 4,
        }
    }
}

/// Reason why a command ends before its work is done.
#[derive(Clone, Copy, Debug, PartialEq, Eq)]
pub enum CommandEnd {
    /// Out of memory.
    Memory,
    /// A read or a write of the files failed.
    Files,
    /// A call on the file that is edited in place, or on its journal, failed.
    Disk,
    /// A line couldn't be printed.
    Report,
}

impl From<ReadEnd> for CommandEnd {
    ghost use Rattle.mkv_lines.specs.Code.{read_stop};

    ghost from_gives = { λ why stop. stop ≡ read_stop why };

    fn from(why: ReadEnd) -> CommandEnd {
        match why {
            ReadEnd::ReadFault => CommandEnd::Files,
            ReadEnd::Memory => CommandEnd::Memory,
        }
    }
}

/// Returns the reason why a command ends early, for the error `end` of a call that reads and writes files. `extract`,
/// `merge` and `generate` end by it.
pub fn stop_of(end: RemuxEnd) -> CommandEnd
    ensures { result ≡ stop_of end }
{
    match end {
        RemuxEnd::ReadFault | RemuxEnd::WriteFault => CommandEnd::Files,
        RemuxEnd::Memory => CommandEnd::Memory,
    }
}
