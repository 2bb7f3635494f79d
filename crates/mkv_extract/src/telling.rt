//! Messages of an extraction: missing items, outputs that were written, and warnings.

ghost use Rattle.std.specs.Prelude.{◌≡◌, false, ◌&&◌, not, nat_le, nat_lt, nat_eq, length, option_to_list, ◌∷◌, [], List, Ok, IfOk, IfErr, OnOk};
ghost use Rattle.mkv_io.specs.declared.damage.Damage.{Damage};
ghost use Rattle.cluster_reader.specs.ToldDamages.{told_damages};
ghost use Rattle.mkv_lines.specs.Line.{warning_line};
ghost use Rattle.mkv_lines.specs.Ordinary.{IsOrdinary};
ghost use Rattle.mkv_lines.specs.Said.{HasSayCause};
ghost use Rattle.mkv_lines.specs.Command.{SaysTo};
ghost use Rattle.mkv_lines.specs.declared.status.CommandEnd.TheVariants as ends;
ghost use Rattle.indexmap.specs.IndexSet.{contains};
ghost use Rattle.mkv_extract.specs.Extract.{status_of};
ghost use Rattle.mkv_extract.specs.ToldNumbers.{HasJoined};
ghost use Rattle.mkv_extract.specs.Told.{HasStatusOf, absent_lines, extracted_lines, has_absent, held_lines, line_of, more_line, outline_lines, warnings, wrong_lines, wrote_lines};

use cluster_reader::Damages;
use extractors::Extracted;
use indexmap::IndexSet;
use mkv_io::{Damage, Report};
use mkv_lines::{CommandEnd, Line, Status, say};
use requests::Target;
use std::alloc::Global;

/// Kind of item that targets name and a file may lack.
#[derive(Clone, Copy)]
pub enum Missing {
    Track,
    Attachment,
}

/// Kind of the warnings in a list, which determines the line about those that aren't printed.
#[derive(Clone, Copy)]
pub enum WarningKind {
    /// Damaged places of the file.
    File,
    /// Frames that aren't written.
    Frames,
}

/// Warns of each item that `targets` name and that the file `name` lacks, once: its number is at least `count`.
/// `missing` is the kind of items. For tracks, numbered from 0, `count` is their number. For attached files, numbered
/// from 1, it is their number plus 1. `extract` calls it before it writes an output.
pub fn say_absent<P: Report>(
    alloc: Global,
    missing: Missing,
    name: &str,
    targets: &[Target],
    count: u64,
    report: &mut P,
) -> Result<(), CommandEnd>
    ensures said { SaysTo P.Report report.old report.new (absent_lines missing name.now count targets.now) result }
    ensures cause { HasSayCause (P.faults report.old) (P.faults report.new) result }
{
    let mut told = IndexSet::new(alloc);
    for target in targets {
        let number = target.id;
        if !is_told(&mut told, number, count)? {
            continue;
        }
        say_missing(alloc, missing, name, number, report)?;
    }
    Ok(())
}

/// Warns that the file `name` lacks the item of the kind `missing`, a track or an attached file, with the number
/// `number`. For `say_absent`, when `extract` prints its messages.
fn say_missing<P: Report>(
    alloc: Global,
    missing: Missing,
    name: &str,
    number: u64,
    report: &mut P,
) -> Result<(), CommandEnd>
    ensures said { SaysTo P.Report report.old report.new (line_of missing name.now number ∷ []) result }
    ensures cause { HasSayCause (P.faults report.old) (P.faults report.new) result }
{
    match missing {
        Missing::Track => say(alloc, report, &Line::NoTrack { name, number }),
        Missing::Attachment => say(alloc, report, &Line::NoAttachment { name, number }),
    }
}

/// Checks whether a missing number must be reported: it isn't below `count`, and it isn't one of `told`, those that
/// were reported. It then joins `told`. For `say_absent`, which reports each number once.
fn is_told(told: &mut IndexSet<u64>, number: u64, count: u64) -> Result<bool, CommandEnd>
    ensures told { IfOk result (λ is_told. is_told ≡ (nat_le count number && not (contains nat_eq told.old number))) }
    ensures numbers { OnOk result (HasJoined count number told.old.keys told.new.keys) }
    ensures memory { IfErr result (λ end. end ≡ ends.Memory) }
{
    if number < count {
        return Ok(false);
    }
    match told.insert(number) {
        Ok(is_new) => Ok(is_new),
        Err(_) => Err(CommandEnd::Memory),
    }
}

/// Prints the messages after an extraction of frames: a line for each complete output of `targets`, and the warnings of
/// `extracted`. Returns the status. `count` is the number of tracks in the file `name`. The last step of `extract` for
/// tracks.
pub fn tell<P: Report>(
    alloc: Global,
    name: &str,
    targets: &[Target],
    count: u64,
    extracted: &Extracted,
    report: &mut P,
) -> Result<Status, CommandEnd>
    ensures said { SaysTo P.Report report.old report.new (extracted_lines name.now count targets.now extracted.now) result }
    ensures status { HasStatusOf extracted.now (has_absent count targets.now) result }
    ensures ordinary { IfOk result IsOrdinary }
    ensures cause { HasSayCause (P.faults report.old) (P.faults report.new) result }
{
    say_wrote(alloc, targets, count, report)?;
    warn_all(alloc, name, extracted, report)?;
    Ok(status_of(targets, count, extracted))
}

/// Warns of the damage of the file `name` that `extracted` has, and then of the frames that were left out. For `tell`,
/// when `extract` prints its messages.
fn warn_all<P: Report>(
    alloc: Global,
    name: &str,
    extracted: &Extracted,
    report: &mut P,
) -> Result<(), CommandEnd>
    ensures said { SaysTo P.Report report.old report.new (wrong_lines name.now extracted.now) result }
    ensures cause { HasSayCause (P.faults report.old) (P.faults report.new) result }
{
    warn(alloc, WarningKind::File, name, &extracted.damages, report)?;
    warn(
        alloc,
        WarningKind::Frames,
        name,
        &extracted.bad_frames,
        report,
    )
}

/// Prints a line for each output that was written: for each of `targets` with a number below `count`, the first number
/// that the file lacks. For `tell` and `tell_held`, when `extract` prints its messages.
pub fn say_wrote<P: Report>(
    alloc: Global,
    targets: &[Target],
    count: u64,
    report: &mut P,
) -> Result<(), CommandEnd>
    ensures said { SaysTo P.Report report.old report.new (wrote_lines count targets.now) result }
    ensures cause { HasSayCause (P.faults report.old) (P.faults report.new) result }
{
    for target in targets {
        if target.id >= count {
            continue;
        }
        let name = target.name.as_str();
        say(alloc, report, &Line::Wrote { name })?;
    }
    Ok(())
}

/// Prints a warning for each of the first damaged places in `damages`, and a line with the number of the others. `what`
/// is their kind, and `name` the file's name. For `warn_all`, when `extract` prints its messages.
fn warn<P: Report>(
    alloc: Global,
    what: WarningKind,
    name: &str,
    damages: &Damages,
    report: &mut P,
) -> Result<(), CommandEnd>
    ensures said { SaysTo P.Report report.old report.new (warnings what name.now damages.now) result }
    ensures cause { HasSayCause (P.faults report.old) (P.faults report.new) result }
{
    let first = damages.first();
    for damage in first {
        warn_of(alloc, name, damage, report)?;
    }
    let more = damages.more();
    if more > 0 {
        say_more(alloc, what, name, more, report)?;
    }
    Ok(())
}

/// Prints a line with the number `more` of damaged places that aren't printed each; `what` is their kind, and `name`
/// the file's name. For `warn`, when `extract` prints its messages.
fn say_more<P: Report>(
    alloc: Global,
    what: WarningKind,
    name: &str,
    more: u64,
    report: &mut P,
) -> Result<(), CommandEnd>
    ensures said { SaysTo P.Report report.old report.new (more_line what name.now more ∷ []) result }
    ensures cause { HasSayCause (P.faults report.old) (P.faults report.new) result }
{
    match what {
        WarningKind::File => say(alloc, report, &Line::MoreDamages { name, more }),
        WarningKind::Frames => say(alloc, report, &Line::MoreBadFrames { name, more }),
    }
}

/// Prints the messages after an extraction of attached files or cue points. They are a line for each complete output of
/// `targets`, and a warning of damage at level 1. Returns the status, which is a warning if there is damage or if a
/// target names a missing item. `count` is the first number that the file `name` lacks. The last step of `extract` for
/// both.
pub fn tell_held<P: Report>(
    alloc: Global,
    name: &str,
    targets: &[Target],
    count: u64,
    damage: Option<Damage>,
    report: &mut P,
) -> Result<Status, CommandEnd>
    ensures said { SaysTo P.Report report.old report.new (held_lines name.now count targets.now damage) result }
    ensures status { IfOk result (λ status. status ≡ status_of (has_absent count targets.now) (option_to_list damage)) }
    ensures ordinary { IfOk result IsOrdinary }
    ensures cause { HasSayCause (P.faults report.old) (P.faults report.new) result }
{
    say_wrote(alloc, targets, count, report)?;
    let status = warn_outline(alloc, name, damage, report)?;
    if has_absent(targets, count) {
        Ok(Status::Warned)
    } else {
        Ok(status)
    }
}

/// Warns of the damage of the file `name` at level 1, if there is any, and returns the status of the command, `Warned`
/// or `Done`. For `extract` of anything else than frames.
pub fn warn_outline<P: Report>(
    alloc: Global,
    name: &str,
    damage: Option<Damage>,
    report: &mut P,
) -> Result<Status, CommandEnd>
    ensures said { SaysTo P.Report report.old report.new (outline_lines name.now damage) result }
    ensures status { IfOk result (λ status. status ≡ status_of false (option_to_list damage)) }
    ensures ordinary { IfOk result IsOrdinary }
    ensures cause { HasSayCause (P.faults report.old) (P.faults report.new) result }
{
    let Some(damage) = damage else {
        return Ok(Status::Done);
    };
    warn_of(alloc, name, &damage, report)?;
    Ok(Status::Warned)
}

/// Prints a warning of the damaged place `damage` in the file `name`. Used for all warnings of `extract` about damage.
fn warn_of<P: Report>(
    alloc: Global,
    name: &str,
    damage: &Damage,
    report: &mut P,
) -> Result<(), CommandEnd>
    ensures said { SaysTo P.Report report.old report.new (warning_line name.now damage.now ∷ []) result }
    ensures cause { HasSayCause (P.faults report.old) (P.faults report.new) result }
{
    let damage = *damage;
    say(alloc, report, &Line::Warned { name, damage })
}

/// Returns the status of an extraction of frames. It is a warning if `targets` name a track that the file lacks, whose
/// number is at least `count`. It is one too if `extracted` has damage or a frame that was left out. For `tell`.
fn status_of(targets: &[Target], count: u64, extracted: &Extracted) -> Status
    ensures value { HasStatusOf extracted.now (has_absent count targets.now) (Ok result) }
    ensures ordinary { IsOrdinary result }
{
    if has_absent(targets, count) {
        return Status::Warned;
    }
    if is_any(&extracted.damages) {
        return Status::Warned;
    }
    if is_any(&extracted.bad_frames) {
        return Status::Warned;
    }
    Status::Done
}

/// Checks whether `told`, a list of reported places, has any. For `status_of`, when `extract` prints its messages.
fn is_any(told: &Damages) -> bool
    ensures { (list : List Damage) → told.now ≡ told_damages list → result ≡ nat_lt 0 (length list) }
{
    !told.first().is_empty()
}

/// Checks whether one of `targets` names an item that the file lacks: its number is at least `count`. For tracks,
/// numbered from 0, `count` is their number. For attached files, numbered from 1, it is their number plus 1. `extract`
/// ends with the status of warnings then.
pub fn has_absent(targets: &[Target], count: u64) -> bool
    ensures { result ≡ has_absent count targets.now }
{
    targets.iter().any(|target| target.id >= count)
}
