//! The command line of `propedit`: this project's grammar, after mkvpropedit(1).

ghost use Rattle.std.specs.Prelude.{◌≡◌, ◌<◌, length, map, slice_get};
ghost use Rattle.word_values.specs.Answers.{ReadsValue, Tells};
ghost use Rattle.mkv_args.specs.Entry as entry;
ghost use Rattle.mkv_args.specs.Propedit as spec;
ghost use Rattle.word_values.specs.Place.{texts};

use crate::command::Command;
use crate::entry::{Entry, meant};
use mkv_io::{List, Text};
use requests::{Change, Edit, Selector, number};
use std::alloc::Global;
use word_values::{ArgsEnd, ValueEnd, Why, cut_text, due_at, file_at, name, refused, word_at};

/// TrackType that a section names by `v`: video (RFC 9559, section 5.1.4.1.3).
pub const VIDEO_TRACK: u64 = 1;

/// TrackType that a section names by `a`: audio (RFC 9559, section 5.1.4.1.3).
pub const AUDIO_TRACK: u64 = 2;

/// TrackType that a section names by `s`: subtitle (RFC 9559, section 5.1.4.1.3).
pub const SUBTITLE_TRACK: u64 = 17;

/// Kind of an option of `propedit`: it begins a section, or changes a property of the section.
#[derive(Clone, Copy, PartialEq, Eq)]
pub enum EditOptionKind {
    Section,
    Edit(Change),
}

/// Option of `propedit` with its value.
#[derive(Drop)]
pub enum EditOption {
    /// Section that the edits after it are for.
    Section(Selector),
    /// Change of a property in the last section before it.
    Change {
        change: Change,
        name: Text,
        value: Text,
    },
}

/// Parses the command line `propedit FILE` with sections and their edits; `propedit` is argument 0 of `words`. Used by
/// `first_command`.
#[tactic(auto, unfolding(crate::specs::Propedit::propedit))]
pub(crate) fn propedit(alloc: Global, words: &[String]) -> Result<Command, ArgsEnd>
    ensures { Tells result (spec.propedit (texts words.now)) }
{
    let file = file_at(words, 1)?;
    let edits = edits(alloc, words)?;
    Ok(Command::Propedit {
        file: name(alloc, file)?,
        edits,
    })
}

/// Parses the options of `propedit`, from argument 2 of `words` onwards, and returns the edits of all sections, in
/// order. Each section must have an edit. Used by `propedit`.
#[tactic(auto, unfolding(crate::specs::Propedit::edits))]
fn edits(alloc: Global, words: &[String]) -> Result<List<Edit>, ArgsEnd>
    ensures { Tells result (spec.edits (texts words.now)) }
{
    let mut list = List::new(alloc);
    let mut place = first_section(words)?;
    let mut edited = false;
    let mut at = 4;
    while let Some(word) = word_at(words, at) {
        match said(alloc, words, at, word, edited)? {
            EditOption::Section(next) => {
                place = next;
                edited = false;
            }
            EditOption::Change {
                change,
                name,
                value,
            } => {
                list.push(Edit {
                    place,
                    change,
                    name,
                    value,
                })?;
                edited = true;
            }
        }
        at += 2;
    }
    if !edited {
        return refused(words.len(), Why::MissingValue);
    }
    Ok(list)
}

/// Parses the first section of `propedit`, at the arguments 2 and 3 of `words`; the first option after FILE must be
/// `--edit`. Used by `edits`.
#[tactic(auto, unfolding(crate::specs::Propedit::first_section))]
fn first_section(words: &[String]) -> Result<Selector, ArgsEnd>
    ensures { Tells result (spec.first_section (texts words.now)) }
{
    let Some(EditOptionKind::Section) = step_of(due_at(words, 2)?) else {
        return refused(2, Why::UnknownOption);
    };
    match selector(due_at(words, 3)?.as_bytes()) {
        Some(place) => Ok(place),
        None => refused(3, Why::BadValue),
    }
}

/// Parses the option `word` of `propedit`, argument number `at` of `words`, with its value, the next argument. `edited`
/// is true if the section before it has an edit. Used by `edits`.
fn said(
    alloc: Global,
    words: &[String],
    at: usize,
    word: &str,
    edited: bool,
) -> Result<EditOption, ArgsEnd>
    requires { at < length words.now }
    ensures { Tells result (spec.said (length words.now) edited (spec.pair_at (texts words.now) at word.now)) }
{
    match step_of(word) {
        Some(step) if may_follow(edited, step) => saying_at(alloc, words, at + 1, step),
        _ => refused(at, Why::UnknownOption),
    }
}

/// Checks whether an option of `propedit` of the kind `step` is allowed after the options before it. A section must
/// have an edit (`edited`) before the next section begins. Used by `said`.
fn may_follow(edited: bool, step: EditOptionKind) -> bool
    ensures { result ≡ spec.may_follow edited step }
{
    match step {
        EditOptionKind::Section => edited,
        EditOptionKind::Edit(_) => true,
    }
}

#[rattlefmt::skip]
static STEPS: [Entry<EditOptionKind>; 4] = [
    Entry("-e", "--edit", EditOptionKind::Section),
    Entry("-s", "--set", EditOptionKind::Edit(Change::Set)),
    Entry("-a", "--add", EditOptionKind::Edit(Change::Add)),
    Entry("-d", "--delete", EditOptionKind::Edit(Change::Delete)),
];

/// Returns the options of `propedit` with their spellings and kinds, as a table, which options of a command line are
/// looked up in.
#[tactic(auto, unfolding(crate::specs::Propedit::steps))]
pub(crate) fn steps() -> &'static [Entry<EditOptionKind>]
    ensures { map entry.shown result.now ≡ spec.steps }
{
    &STEPS
}

/// Returns the kind of the option `word` of `propedit`, or None if it isn't one.
#[tactic(auto, unfolding(crate::specs::Propedit::step_of))]
fn step_of(word: &str) -> Option<EditOptionKind>
    ensures { result ≡ spec.step_of word.now }
{
    meant(steps(), word)
}

/// Parses the argument of `words` with number `at` as the value of an option of `propedit` of the kind `step`. Fails if
/// it is missing or doesn't have the form. Used by `said`.
fn saying_at(
    alloc: Global,
    words: &[String],
    at: usize,
    step: EditOptionKind,
) -> Result<EditOption, ArgsEnd>
    ensures { Tells result (spec.saying_at at step (slice_get (texts words.now) at) (length words.now)) }
{
    match meaning(alloc, step, due_at(words, at)?) {
        Ok(saying) => Ok(saying),
        Err(ValueEnd::Bad) => refused(at, Why::BadValue),
        Err(ValueEnd::Memory) => Err(ArgsEnd::Memory),
    }
}

/// Parses `word` as the value of an option of `propedit` of the kind `step`: a section, the name of a property, or
/// `NAME=VALUE`. Used by `saying_at`.
fn meaning(alloc: Global, step: EditOptionKind, word: &str) -> Result<EditOption, ValueEnd>
    ensures { ReadsValue result (spec.meaning step word.now) }
{
    match step {
        EditOptionKind::Section => match selector(word.as_bytes()) {
            Some(place) => Ok(EditOption::Section(place)),
            None => Err(ValueEnd::Bad),
        },
        EditOptionKind::Edit(Change::Delete) => Ok(EditOption::Change {
            change: Change::Delete,
            name: name(alloc, word)?,
            value: Text::new(alloc),
        }),
        EditOptionKind::Edit(change) => changed(alloc, change, word),
    }
}

/// Parses `word` as `NAME=VALUE`, for the change `change` of a property; the name ends at the first `=`. Used by
/// `meaning`.
fn changed(alloc: Global, change: Change, word: &str) -> Result<EditOption, ValueEnd>
    ensures { ReadsValue result (spec.changed change word.now) }
{
    let Some((property, value)) = cut_text(word, '=') else {
        return Err(ValueEnd::Bad);
    };
    Ok(EditOption::Change {
        change,
        name: name(alloc, property)?,
        value: name(alloc, value)?,
    })
}

/// Parses `word`, the value of `--edit` of `propedit`, as a section: `info`, `track:N`, `track:vN`, `track:aN`,
/// `track:sN`, `track:=UID` or `track:@NUMBER`. Returns None for another form.
#[tactic(auto, unfolding(crate::specs::Propedit::selector))]
fn selector(word: &[u8]) -> Option<Selector>
    ensures { result ≡ spec.selector word.now }
{
    match word {
        b"info" => Some(Selector::Info),
        [b't', b'r', b'a', b'c', b'k', b':', rest @ ..] => track(rest),
        _ => None,
    }
}

/// Parses `word`, the part of a section after `track:`. It is a position, a letter of a type and a position, `=` and a
/// TrackUID, or `@` and a TrackNumber. Used by `selector`.
#[tactic(auto, unfolding(crate::specs::Propedit::track))]
fn track(word: &[u8]) -> Option<Selector>
    ensures { result ≡ spec.track word.now }
{
    match word {
        [b'v', rest @ ..] => typed(VIDEO_TRACK, rest),
        [b'a', rest @ ..] => typed(AUDIO_TRACK, rest),
        [b's', rest @ ..] => typed(SUBTITLE_TRACK, rest),
        [b'=', rest @ ..] => Some(Selector::Uid { uid: number(rest)? }),
        [b'@', rest @ ..] => Some(Selector::Number {
            number: number(rest)?,
        }),
        _ => Some(Selector::Nth { n: place(word)? }),
    }
}

/// Returns the selector of a track by its position among the tracks with the TrackType `kind`; `word` is the position,
/// counted from 1. Returns None for another form. Used by `track`.
#[tactic(auto, unfolding(crate::specs::Propedit::typed))]
fn typed(kind: u64, word: &[u8]) -> Option<Selector>
    ensures { result ≡ spec.typed kind word.now }
{
    Some(Selector::Typed {
        kind,
        n: place(word)?,
    })
}

/// Parses `word` as a position of a track, counted from 1. Returns None for another form. Used by `track` and `typed`.
#[tactic(auto, unfolding(crate::specs::Propedit::place))]
fn place(word: &[u8]) -> Option<u64>
    ensures { result ≡ spec.place word.now }
{
    let n = number(word)?;
    if n >= 1 { Some(n) } else { None }
}
