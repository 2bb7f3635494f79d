//! Messages of `propedit` and `reindex`.

ghost use Rattle.std.specs.Prelude.{◌≡◌, [], ◌∷◌, IfOk};
ghost use Rattle.std.specs.String.{string_bytes};
ghost use Rattle.mkv_lines.specs.Line.{text_of};
ghost use Rattle.mkv_lines.specs.Ordinary.{IsOrdinary};
ghost use Rattle.mkv_lines.specs.Said.{SaysLast};
ghost use Rattle.mkv_lines.specs.Verdict.{SaysVerdict, done};
ghost use Rattle.mkv_propedit.specs.Left.{HasMadeCause};
ghost use Rattle.mkv_propedit.specs.Propedit as spec;

use edit_changes::{EditRefusal, Refusal, Room};
use mkv_io::Report;
use mkv_lines::{CommandEnd, Line, Status, say_text};
use sidecar_edit::DiskFault;
use std::alloc::{AllocError, Global};

/// Returns the text of `line`, the message of a change. `edit_planned` makes it before the change, and prints it after
/// it, when no memory may be needed any more.
pub fn line_text(alloc: Global, line: &Line) -> Result<String, AllocError>
    ensures { IfOk result (λ text. string_bytes text ≡ text_of line.now) }
{
    format!(in alloc; "{line}")
}

/// Prints `edited`, the line that reports a completed change, unless the disk failed, and returns the status.
/// `edit_planned` calls it last. It takes no memory. `made` is the result of the change.
pub fn tell<R: Report>(
    edited: &str,
    made: Result<(), DiskFault>,
    report: &mut R,
) -> Result<Status, CommandEnd>
    ensures verdict { SaysVerdict (R.lines report.old) (R.lines report.new) result (done (edited.now ∷ [])) }
    ensures ordinary { IfOk result IsOrdinary }
    ensures cause { HasMadeCause made (R.faults report.old) (R.faults report.new) result }
    ensures last { SaysLast (R.lines report.old) (R.lines report.new) result }
{
    match made {
        Ok(()) => {
            say_text(report, edited)?;
            Ok(Status::Done)
        }
        Err(DiskFault) => Err(CommandEnd::Disk),
    }
}

/// Returns the error line for an edit or new index of the file `name` that was refused for the reason `refusal`.
/// `change_quiet` prints it.
pub fn refusal_line(name: &str, refusal: Refusal) -> Line<'_>
    ensures { text_of result ≡ spec.refusal_text name.now refusal }
{
    match refusal {
        Refusal::Damaged(damage) => Line::Refused { name, damage },
        Refusal::Edit { edit, why } => Line::EditRefused {
            name,
            why: why_name(why),
            edit,
        },
        Refusal::EditTooLarge { length, nodes } => Line::EditTooLarge {
            name,
            length,
            nodes,
        },
        Refusal::NoRoom { why, need, have } => Line::NoRoom {
            name,
            why: room_name(why),
            need,
            have,
        },
    }
}

// Returns the name of the reason `why` in an error line, such as `NoSuchTrack`, for the message of a refused
// `propedit`.
fn why_name(why: EditRefusal) -> &'static str
    ensures { result.now ≡ spec.why_name why }
{
    match why {
        EditRefusal::NoInfo => "NoInfo",
        EditRefusal::NoSuchTrack => "NoSuchTrack",
        EditRefusal::NoSuchProperty => "NoSuchProperty",
        EditRefusal::BadPropertyValue => "BadPropertyValue",
        EditRefusal::AlreadyThere => "AlreadyThere",
        EditRefusal::Mandatory => "Mandatory",
    }
}

// Returns the name of the kind `room` of missing room in an error line, such as `SeekHead`, for the message of a
// refused `propedit` or `reindex`.
fn room_name(room: Room) -> &'static str
    ensures { result.now ≡ spec.room_name room }
{
    match room {
        Room::Tail => "Tail",
        Room::Twin => "Twin",
        Room::SeekHead => "SeekHead",
        Room::SegmentSize => "SegmentSize",
    }
}
