//! Reasons why nothing is merged.

ghost use Rattle.std.specs.Prelude.{◌≡◌};
ghost use Rattle.mkv_lines.specs.Code.{read_stop};
ghost use Rattle.mkv_lines.specs.declared.status.CommandEnd.TheVariants as stop;
ghost use Rattle.mkv_merge.specs.Ends.{as_remuxed, as_written, unplanned};
ghost use Rattle.mkv_merge.specs.declared.refusal.MergeEnd.TheVariants as merge_end;

use input_files::TextRefusal;
use merge_inputs::InputRefusal;
use merge_plan::{AppendDiffers, PlanEnd, PlanRefusal};
use mkv_io::{ReadEnd, RemuxEnd, Text};
use mkv_lines::{CommandEnd, Status, stop_of};
use remux_plan::Summary;
use std::alloc::AllocError;

/// Reason why nothing is merged. Inputs count from 0, in the order of the command line.
#[derive(Debug, Drop)]
pub enum Refusal {
    /// An output has or could have `name`, which is the name of a file that is read. That file is an input, the
    /// chapter file, a timestamp file, an attached file, or the journal of an input or a timestamp file.
    OutputIsInput { name: Text },
    /// The input doesn't exist.
    Missing { input: usize },
    /// The chapter file doesn't exist.
    MissingChapters,
    /// The timestamp file `name` doesn't exist.
    MissingTimes { name: Text },
    /// The file that is attached with the number `attached`, counted from 0, doesn't exist.
    MissingAttached { attached: usize },
    /// An edit of the input is pending.
    PendingInput { input: usize },
    /// An edit of the file with the output's name is pending.
    PendingOutput,
    /// The input is refused.
    Input { input: usize, why: InputRefusal },
    /// The chapter file is refused.
    Chapters(TextRefusal),
    /// The timestamp file `name` is refused.
    Times { name: Text, why: TextRefusal },
    /// The file that is attached with the number `attached`, counted from 0, is too large.
    AttachedTooLarge { attached: usize },
    /// The tracks of an appended input can't continue the output tracks of the input to which it is appended.
    Differs(AppendDiffers),
    /// The inputs make no output.
    Plan(PlanRefusal),
}

/// End of a merge that wrote no complete set of outputs: it was refused, or it stopped because memory ran out or a call
/// failed.
#[derive(Debug, Drop)]
pub enum MergeEnd {
    Refused(Refusal),
    Stopped(CommandEnd),
}

/// Converts the result `ended` of `write`, which prints messages: an early end is a stop, never a refusal. For
/// `merge_opened`, when `merge` ends.
pub fn written(ended: Result<Status, CommandEnd>) -> Result<Status, MergeEnd>
    ensures { result ≡ as_written ended }
{
    match ended {
        Ok(status) => Ok(status),
        Err(why) => Err(MergeEnd::Stopped(why)),
    }
}

/// Converts the result `ended` of `remux`, which prints nothing: an early end is a stop, never a refusal. For
/// `join_opened`.
pub fn remuxed(ended: Result<Summary, RemuxEnd>) -> Result<Summary, MergeEnd>
    ensures { result ≡ as_remuxed ended }
{
    match ended {
        Ok(summary) => Ok(summary),
        Err(end) => Err(MergeEnd::Stopped(stop_of(end))),
    }
}

impl From<AllocError> for MergeEnd {
    ghost from_gives = { λ _ end. end ≡ merge_end.Stopped stop.Memory };

    // Converts a lack of memory to the end of a merge, for `?` in the steps of `merge`.
    fn from(_error: AllocError) -> MergeEnd {
        MergeEnd::Stopped(CommandEnd::Memory)
    }
}

impl From<ReadEnd> for MergeEnd {
    ghost from_gives = { λ why end. end ≡ merge_end.Stopped (read_stop why) };

    // Converts the failure `why` of a read to the end of a merge, for `?` in the steps of `merge`.
    fn from(why: ReadEnd) -> MergeEnd {
        MergeEnd::Stopped(CommandEnd::from(why))
    }
}

impl From<PlanEnd> for MergeEnd {
    ghost from_gives = { λ why end. end ≡ unplanned why };

    // Converts the failure `why` to plan to the end of a merge, a refusal or a lack of memory, for `?` in `prepare`.
    fn from(why: PlanEnd) -> MergeEnd {
        match why {
            PlanEnd::Refused(why) => MergeEnd::Refused(Refusal::Plan(why)),
            PlanEnd::Memory => MergeEnd::Stopped(CommandEnd::Memory),
        }
    }
}
