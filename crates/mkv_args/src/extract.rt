//! The command line of `extract`: this project's grammar, after mkvextract(1).

ghost use Rattle.std.specs.Prelude.{◌≡◌, map, IfOk};
ghost use Rattle.word_values.specs.Answers.{Tells};
ghost use Rattle.mkv_args.specs.Entry as entry;
ghost use Rattle.mkv_args.specs.Extract as spec;
ghost use Rattle.mkv_args.specs.TargetNames.{AddsName, ReadsAfter};
ghost use Rattle.word_values.specs.Place.{texts};

use crate::command::Command;
use crate::entry::{Entry, meant};
use indexmap::IndexSet;
use mkv_io::List;
use requests::{Form, Job, Target};
use std::alloc::{AllocError, Global};
use word_values::{
    ArgsEnd, Why, due_at, end_at, file_at, is_option, name, refused, track_and_rest, word_at,
};

/// Parses the command line `extract FILE MODE ARGS`; `extract` is argument 0 of `words`. Fails with the number of the
/// first wrong argument and the reason. Used by `first_command`.
#[tactic(auto, unfolding(crate::specs::Extract::extract))]
pub(crate) fn extract(alloc: Global, words: &[String]) -> Result<Command, ArgsEnd>
    ensures { Tells result (spec.extract (texts words.now)) }
{
    let file = file_at(words, 1)?;
    let mode = due_at(words, 2)?;
    let job = job(alloc, mode, words)?;
    Ok(Command::Extract {
        file: name(alloc, file)?,
        job,
    })
}

/// Mode of `extract`: the content that it writes.
#[derive(Clone, Copy, PartialEq, Eq)]
pub(crate) enum Mode {
    Tracks,
    Timestamps,
    Cues,
    Attachments,
    Chapters,
}

#[rattlefmt::skip]
static MODES: [Entry<Mode>; 5] = [
    Entry("", "tracks", Mode::Tracks),
    Entry("", "timestamps_v2", Mode::Timestamps),
    Entry("", "cues", Mode::Cues),
    Entry("", "attachments", Mode::Attachments),
    Entry("", "chapters", Mode::Chapters),
];

/// Returns the modes of `extract` with their names, as a table, which argument 2 of a command line is looked up in.
#[tactic(auto, unfolding(crate::specs::Extract::modes))]
pub(crate) fn modes() -> &'static [Entry<Mode>]
    ensures { map entry.shown result.now ≡ spec.modes }
{
    &MODES
}

/// Returns the mode of `extract` with the name `word`, or None if there is none. Used by `job`.
fn mode_of(word: &str) -> Option<Mode>
    ensures { result ≡ entry.meant spec.modes word.now }
{
    meant(modes(), word)
}

/// Parses the arguments of `extract` after the mode `mode`, which is argument 2 of `words`. Used by `extract`.
#[tactic(auto, unfolding(crate::specs::Extract::job, crate::specs::Extract::job_of))]
fn job(alloc: Global, mode: &str, words: &[String]) -> Result<Job, ArgsEnd>
    ensures { Tells result (spec.job mode.now (texts words.now)) }
{
    match mode_of(mode) {
        None => refused(2, Why::UnknownCommand),
        Some(Mode::Tracks) => tracks(alloc, words),
        Some(Mode::Timestamps) => Ok(Job::Tracks {
            form: Form::Times,
            list: targets(alloc, 0, words, 3)?,
        }),
        Some(Mode::Cues) => Ok(Job::Cues {
            list: targets(alloc, 0, words, 3)?,
        }),
        Some(Mode::Attachments) => Ok(Job::Attachments {
            list: targets(alloc, 1, words, 3)?,
        }),
        Some(Mode::Chapters) => chapters(alloc, words),
    }
}

/// Parses `[--raw or --fullraw] ID:OUT..`, the arguments of `extract` from argument 3 of `words` onwards, for the mode
/// `tracks`. Used by `job`.
#[tactic(auto, unfolding(crate::specs::Extract::tracks))]
fn tracks(alloc: Global, words: &[String]) -> Result<Job, ArgsEnd>
    ensures { Tells result (spec.tracks (texts words.now)) }
{
    match due_at(words, 3)? {
        "--raw" => Ok(Job::Tracks {
            form: Form::Raw,
            list: targets(alloc, 0, words, 4)?,
        }),
        "--fullraw" => Ok(Job::Tracks {
            form: Form::Full,
            list: targets(alloc, 0, words, 4)?,
        }),
        word if is_option(word) => refused(3, Why::UnknownOption),
        _ => Ok(Job::Tracks {
            form: Form::ByCodec,
            list: targets(alloc, 0, words, 3)?,
        }),
    }
}

/// Parses `--simple OUT`, the arguments of `extract` from argument 3 of `words` onwards, for the mode `chapters`. Used
/// by `job`.
#[tactic(auto, unfolding(crate::specs::Extract::chapters))]
fn chapters(alloc: Global, words: &[String]) -> Result<Job, ArgsEnd>
    ensures { Tells result (spec.chapters (texts words.now)) }
{
    match due_at(words, 3)? {
        "--simple" => {
            let out = due_at(words, 4)?;
            end_at(words, 5)?;
            Ok(Job::Chapters {
                name: name(alloc, out)?,
            })
        }
        word if is_option(word) => refused(3, Why::UnknownOption),
        _ => refused(3, Why::BadValue),
    }
}

/// Parses one or more targets `ID:OUT`, from argument number `start` of `words` to the last one, with IDs of at least
/// `least`. Track IDs count from 0, IDs of attached files from 1. Each mode of `extract` but `chapters` has such
/// targets.
#[tactic(auto, unfolding(crate::specs::Extract::targets))]
fn targets(
    alloc: Global,
    least: u64,
    words: &[String],
    start: usize,
) -> Result<List<Target>, ArgsEnd>
    ensures { Tells result (spec.targets least (texts words.now) start) }
{
    due_at(words, start)?;
    let mut list = List::new(alloc);
    let mut names = IndexSet::new(alloc);
    let mut at = start;
    while let Some(word) = word_at(words, at) {
        let target = target(alloc, least, at, word, &mut names)?;
        list.push(target)?;
        at += 1;
    }
    Ok(list)
}

/// Parses `word`, argument number `at`, as a target `ID:OUT` of `extract`, and adds `OUT` to `names`, the names of
/// earlier targets. Refuses an ID less than `least`, and a name that is one of `names`. Used by `targets`.
#[tactic(auto, unfolding(crate::specs::Extract::target))]
fn target<'a>(
    alloc: Global,
    least: u64,
    at: usize,
    word: &'a str,
    names: &mut IndexSet<&'a str>,
) -> Result<Target, ArgsEnd>
    ensures { ReadsAfter names.old.keys names.new.keys (λ before. spec.target least before at word.now) result }
{
    let Some((id, out)) = track_and_rest(word) else {
        return refused(at, Why::BadValue);
    };
    if id < least {
        return refused(at, Why::BadValue);
    }
    if !add(names, out)? {
        return refused(at, Why::RepeatedOutput);
    }
    Ok(Target {
        id,
        name: name(alloc, out)?,
    })
}

/// Adds the name `out` of an output of `extract` to `names`, and returns true if it is new. Used by `target`.
fn add<'a>(names: &mut IndexSet<&'a str>, out: &'a str) -> Result<bool, AllocError>
    ensures { IfOk result (AddsName names.old.keys names.new.keys out.now) }
{
    Ok(names.insert(out)?)
}
