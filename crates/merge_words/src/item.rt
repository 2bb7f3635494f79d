//! Items of a merge's command line: an option with its value, `+`, or the name of an input.

ghost use Rattle.std.specs.Prelude.{◌≡◌, ◌+◌, ◌<◌, length, slice_get};
ghost use Rattle.word_values.specs.Answers.{Tells};
ghost use Rattle.merge_words.specs.Items as spec;
ghost use Rattle.word_values.specs.Place.{texts};

use crate::options::{Meaning, Scope, Subject};
use std::alloc::Global;
use word_values::{
    ArgsEnd, Value, ValueEnd, ValueForm, Why, flag_of, is_option, name, refused, value_of, word_at,
};

/// Maximum number of inputs of a merge.
const MAX_FILES: usize = 64;

/// Maximum number of files that a merge attaches to its output.
const MAX_ATTACHED: usize = 256;

/// Item of a merge's command line: an option with its value, a `+`, or the name of an input.
#[derive(Drop)]
pub(crate) struct Item {
    /// Number of its first argument; `merge` has number 0.
    pub(crate) at: usize,
    pub(crate) subject: Subject,
    pub(crate) scope: Scope,
    pub(crate) value: Value,
}

/// Reads the item that begins with the argument `word`, whose number is `at`, after the items `before`. `means` is its
/// meaning as an option, if it has one. `merge` is argument 0. Fails with the number of the wrong argument and the
/// reason. `items` calls it for each item.
#[tactic(auto, unfolding(crate::specs::Items::item_at))]
pub(crate) fn item_at(
    alloc: Global,
    words: &[String],
    at: usize,
    word: &str,
    means: Option<Meaning>,
    before: &[Item],
) -> Result<Item, ArgsEnd>
    requires { at < length words.now }
    ensures { Tells result (spec.item_in before.now (texts words.now) at word.now means (length words.now)) }
{
    if word == "+" {
        return append_at(at, before);
    }
    if !is_option(word) {
        return file_at(alloc, at, word, before);
    }
    match means {
        None => refused(at, Why::UnknownOption),
        Some(means) => option_at(alloc, words, at, means, before),
    }
}

/// Reads the `+` at argument number `at`. It needs an input before it, and is allowed once before the next input.
/// `before` are the items before it. For `item_at`, when the command line of `merge` is read.
#[tactic(auto, unfolding(crate::specs::Items::append_at))]
fn append_at(at: usize, before: &[Item]) -> Result<Item, ArgsEnd>
    ensures { Tells result (spec.append_at before.now at) }
{
    if counted(Subject::File, before) == 0 {
        return refused(at, Why::AppendFirst);
    }
    if stands(Subject::Append, since(Subject::File, before)) {
        return refused(at, Why::ExtraWord);
    }
    Ok(Item {
        at,
        subject: Subject::Append,
        scope: Scope::File,
        value: Value::Flag,
    })
}

/// Reads the name of an input, `word`, at argument number `at`. A merge has at most 64 inputs. `before` are the items
/// before it. For `item_at`.
#[tactic(auto, unfolding(crate::specs::Items::file_at))]
fn file_at(alloc: Global, at: usize, word: &str, before: &[Item]) -> Result<Item, ArgsEnd>
    ensures { Tells result (spec.file_at before.now at word.now) }
{
    if counted(Subject::File, before) >= MAX_FILES {
        return refused(at, Why::TooManyInputs);
    }
    Ok(Item {
        at,
        subject: Subject::File,
        scope: Scope::Output,
        value: Value::File(name(alloc, word)?),
    })
}

/// Reads the option at argument number `at`, which means `means`, with its value. If it is allowed only once, a
/// repetition among the items `before` is refused before its value is read. A 257th attached file is refused at its
/// name. `merge` is argument 0 of `words`. For `item_at`.
#[tactic(auto, unfolding(crate::specs::Items::option_at))]
fn option_at(
    alloc: Global,
    words: &[String],
    at: usize,
    means: Meaning,
    before: &[Item],
) -> Result<Item, ArgsEnd>
    requires { at < length words.now }
    ensures { Tells result (spec.option_at before.now at means (slice_get (texts words.now) (at + 1)) (length words.now)) }
{
    if means.subject == Subject::Identify {
        return refused(at, Why::ExtraWord);
    }
    if repeats(means, before) {
        return refused(at, Why::RepeatedOption);
    }
    let value = match flag_of(means.form) {
        Some(value) => value,
        None => value_at(alloc, words, at + 1, means.form)?,
    };
    if overfull(means.subject, before) {
        return refused(at + 1, Why::TooManyInputs);
    }
    if let Some(id) = track_in(&value) {
        if stands_for(means.subject, id, since(Subject::File, before)) {
            return refused(at, Why::RepeatedOption);
        }
    }
    Ok(Item {
        at,
        subject: means.subject,
        scope: means.scope,
        value,
    })
}

/// Reads the argument with number `at` as an option value of the form `form`. Fails if it is missing or doesn't have
/// this form. For `option_at`, when the command line of `merge` is read.
fn value_at(alloc: Global, words: &[String], at: usize, form: ValueForm) -> Result<Value, ArgsEnd>
    ensures { Tells result (spec.value_at at form (slice_get (texts words.now) at) (length words.now)) }
{
    let Some(word) = word_at(words, at) else {
        return refused(words.len(), Why::MissingValue);
    };
    match value_of(alloc, form, word) {
        Ok(value) => Ok(value),
        Err(ValueEnd::Bad) => refused(at, Why::BadValue),
        Err(ValueEnd::Memory) => Err(ArgsEnd::Memory),
    }
}

/// Checks whether an option that means `means` is allowed only once and is among the items `before` already, whatever
/// its value is. For `option_at`, when the command line of `merge` is read.
fn repeats(means: Meaning, before: &[Item]) -> bool
    ensures { result ≡ spec.repeats means before.now }
{
    match means.scope {
        Scope::Output => stands(means.subject, before),
        Scope::Attached => stands(means.subject, since(Subject::AttachedFile, before)),
        Scope::File => stands(means.subject, since(Subject::File, before)),
        Scope::Track => false,
    }
}

/// Checks whether one of `items` has the subject `subject`. Used for options without a value, for `+`, and for options
/// that must be given.
pub(crate) fn stands(subject: Subject, items: &[Item]) -> bool
    ensures { result ≡ spec.stands subject items.now }
{
    items.iter().any(|item| item.subject.is(subject))
}

/// Checks whether one of `items` has the subject `subject` and is for the track with the index `id`, counted from 0.
/// For `option_at`, which refuses a repetition.
fn stands_for(subject: Subject, id: u64, items: &[Item]) -> bool
    ensures { result ≡ spec.stands_for subject id items.now }
{
    items.iter().any(|item| item.subject.is(subject) && track_in(&item.value) == Some(id))
}

/// Returns the index, counted from 0, of the track that the option value `value` is for, or None if it isn't for one
/// track. For repetitions and for the tracks that options name. Used by `add_ids`, `option_at` and others.
pub(crate) fn track_in(value: &Value) -> Option<u64>
    ensures { result ≡ spec.track_in value.now }
{
    match value {
        Value::TrackDelay(id, _) => Some(*id),
        Value::TrackText(id, _) => Some(*id),
        Value::TrackLanguage(id, _) => Some(*id),
        Value::TrackLanguageTag(id, _) => Some(*id),
        Value::TrackFlag(id, _) => Some(*id),
        Value::TrackCues(id, _) => Some(*id),
        Value::TrackFile(id, _) => Some(*id),
        _ => None,
    }
}

/// Checks whether an option with the subject `subject` attaches a file and the items `before` attach 256 already. For
/// `option_at`.
fn overfull(subject: Subject, before: &[Item]) -> bool
    ensures { result ≡ spec.overfull subject before.now }
{
    subject.is(Subject::AttachedFile) && counted(Subject::AttachedFile, before) >= MAX_ATTACHED
}

/// Returns the number of `items` that have the subject `subject`. For the limits of inputs and of attached files, and
/// for the refusals of `+` and of no input.
pub(crate) fn counted(subject: Subject, items: &[Item]) -> usize
    ensures { result ≡ spec.counted subject items.now }
{
    items.iter().filter(|item| item.subject.is(subject)).count()
}

/// Returns those of `items` after the last one with the subject `subject`, an input or an attached file, or all if
/// there is none. They are options for the next one. Looks at no item before that one. For refusals of repetitions and
/// of options without a file. Used by `append_at`, `option_at` and others.
#[tactic(auto, using(crate::proofs::ItemsLemmas::since_latest))]
pub(crate) fn since(subject: Subject, items: &[Item]) -> &[Item]
    ensures { result.now ≡ spec.since subject items.now }
{
    let mut start = items.len();
    while start > 0 {
        if items[start - 1].subject.is(subject) {
            return &items[start..];
        }
        start -= 1;
    }
    items
}
