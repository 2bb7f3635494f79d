//! The command `info` for one open file: a list of its Elements and tracks, one to a line.

ghost use Rattle.std.specs.Prelude.{◌≡◌, ◌*◌, IfOk};
ghost use Rattle.mkv_io.specs.Bounds.{ReadsUpTo};
ghost use Rattle.mkv_io.specs.Sources.{IsLive, file_size};
ghost use Rattle.elements.specs.Window.{nothing_at};
ghost use Rattle.mkv_lines.specs.Ordinary.{IsOrdinary};
ghost use Rattle.mkv_lines.specs.Said.{HasSayCause, Says};
ghost use Rattle.mkv_info.specs.Bound.{most_to_list};
ghost use Rattle.mkv_info.specs.Listed.{level_1_lines, listed_verdict, status_with, warnings};
ghost use Rattle.mkv_info.specs.Telling.{HasTellStop, ListsOutline, SaysOf, Informs, SaysElements};

use crate::tracks::{say_tracks, tracks_of};
use element_reader::{Outline, OutlineEnd, Window, segment_bound};
use elements::{Level1Step, next_of_segment};
use mkv_io::{Damage, FileId, Reads, Report};
use mkv_lines::{CommandEnd, Line, Status, refuse, say};
use std::alloc::Global;

/// Prints a line for each Element and each track of the open file `file`, which has the name `name`, for `info`. A
/// warning of the damage that ends the list follows. If its outline or tracks are refused, it prints only an error.
pub fn list_file<R: Reads, P: Report>(
    alloc: Global,
    name: &str,
    src: &mut R,
    file: FileId,
    report: &mut P,
) -> Result<Status, CommandEnd>
    requires { IsLive R.Reads src.old file }
    ensures verdict { Informs R.Reads P.Report src.old file report.old report.new result (listed_verdict name.now) }
    ensures ordinary { IfOk result IsOrdinary }
    ensures standing { R.standing src.new ≡ R.standing src.old }
    ensures cause { HasTellStop R.Reads P.Report src.old src.new report.old report.new result }
    ensures octets { ReadsUpTo R.Reads src.old src.new (most_to_list (file_size R.Reads src.old file)) }
{
    match Outline::read(alloc, src, file) {
        Ok(outline) => list_outline(alloc, name, &outline, src, file, report),
        Err(OutlineEnd::Refused(damage)) => {
            refuse(alloc, &Line::Refused { name, damage }, report)
        }
        Err(OutlineEnd::ReadFault) => Err(CommandEnd::Files),
        Err(OutlineEnd::Memory) => Err(CommandEnd::Memory),
    }
}

// Prints the lines of the open file `file` with the name `name`, whose outline is `outline`, for `list_file`. If its
// tracks are refused, it prints only an error.
fn list_outline<R: Reads, P: Report>(
    alloc: Global,
    name: &str,
    outline: &Outline,
    src: &mut R,
    file: FileId,
    report: &mut P,
) -> Result<Status, CommandEnd>
    requires live { IsLive R.Reads src.old file }
    requires whole { outline.now.total ≡ file_size R.Reads src.old file }
    ensures verdict { ListsOutline R.Reads P.Report src.old file outline.now name.now report.old report.new result }
    ensures ordinary { IfOk result IsOrdinary }
    ensures standing { R.standing src.new ≡ R.standing src.old }
    ensures cause { HasTellStop R.Reads P.Report src.old src.new report.old report.new result }
    ensures octets { ReadsUpTo R.Reads src.old src.new (2 * file_size R.Reads src.old file) }
{
    match tracks_of(alloc, outline, src, file)? {
        Ok(tracks) => {
            say_elements(alloc, outline, src, file, report)?;
            say_tracks(alloc, &tracks, report)?;
            warn(alloc, name, outline.damage(), report)
        }
        Err(damage) => refuse(alloc, &Line::Refused { name, damage }, report),
    }
}

// Prints a line for the EBML header, for the Segment, and for each Element at level 1 of the open file `file`, for
// `info`. Their `outline` is known; level 1 is read again.
fn say_elements<R: Reads, P: Report>(
    alloc: Global,
    outline: &Outline,
    src: &mut R,
    file: FileId,
    report: &mut P,
) -> Result<(), CommandEnd>
    requires live { IsLive R.Reads src.old file }
    requires whole { outline.now.total ≡ file_size R.Reads src.old file }
    ensures said { SaysElements R.Reads P.Report src.old file outline.now report.old report.new result }
    ensures standing { R.standing src.new ≡ R.standing src.old }
    ensures cause { HasTellStop R.Reads P.Report src.old src.new report.old report.new result }
    ensures octets { ReadsUpTo R.Reads src.old src.new (file_size R.Reads src.old file) }
{
    let Ok(mut window) = Window::new(alloc) else {
        return Err(CommandEnd::Memory);
    };
    say(alloc, report, &Line::Level0(outline.ebml()))?;
    say(alloc, report, &Line::Level0(outline.segment()))?;
    say_level_1(alloc, outline, &mut window, src, file, report)
}

// Prints a line for each Element at level 1 of the open file `file`, for `say_elements`. The headers are read through
// `window`, which must be empty. It ends at the damage or end of the Segment.
fn say_level_1<R: Reads, P: Report>(
    alloc: Global,
    outline: &Outline,
    window: &mut Window,
    src: &mut R,
    file: FileId,
    report: &mut P,
) -> Result<(), CommandEnd>
    requires live { IsLive R.Reads src.old file }
    requires whole { outline.now.total ≡ file_size R.Reads src.old file }
    requires empty { window.old ≡ nothing_at 0 }
    ensures said { SaysOf R.Reads P.Report src.old file report.old report.new result (level_1_lines outline.now.segment) }
    ensures standing { R.standing src.new ≡ R.standing src.old }
    ensures cause { HasTellStop R.Reads P.Report src.old src.new report.old report.new result }
    ensures octets { ReadsUpTo R.Reads src.old src.new (file_size R.Reads src.old file) }
{
    let segment = outline.segment();
    let end = segment_bound(&segment, outline.total());
    let mut at = segment.body;
    loop {
        match next_of_segment(window, src, file, segment.size, at, end) {
            Ok(Level1Step::Element { header, next }) => {
                say(alloc, report, &Line::Level1(header))?;
                at = next.unwrap_or(end);
            }
            Ok(Level1Step::Damaged(_) | Level1Step::End) => return Ok(()),
            Err(_) => return Err(CommandEnd::Files),
        }
    }
}

/// Prints a warning of the damaged place `damage` in the file `name`, if there is one, and returns the status of `info`
/// or `merge -J`: Warned, or Done without damage.
pub(crate) fn warn<P: Report>(
    alloc: Global,
    name: &str,
    damage: Option<Damage>,
    report: &mut P,
) -> Result<Status, CommandEnd>
    ensures said { Says (P.lines report.old) (P.lines report.new) (warnings name.now damage) result }
    ensures status { IfOk result (λ status. status ≡ status_with damage) }
    ensures cause { HasSayCause (P.faults report.old) (P.faults report.new) result }
{
    match damage {
        Some(damage) => {
            say(alloc, report, &Line::Warned { name, damage })?;
            Ok(Status::Warned)
        }
        None => Ok(Status::Done),
    }
}
