//! Command line of a merge: its items, the check that it is complete, and the request.

ghost use Rattle.std.specs.Prelude.{◌≡◌, if◌then◌else◌, length};
ghost use Rattle.merge_words.specs.Merge as spec;
ghost use Rattle.word_values.specs.Answers.{Tells};
ghost use Rattle.word_values.specs.Place.{texts};

use crate::item::{Item, counted, item_at, since, stands};
use crate::options::{Meaning, Scope, Subject, meaning_of};
use crate::output::merge_words;
use mkv_io::List;
use requests::{FileWords, MergeWords};
use std::alloc::Global;
use word_values::{ArgsEnd, Why, flag_of, refused, word_at};

/// Reads the arguments of `merge`, and returns the request. Fails with the number of the first wrong argument and the
/// reason. `merge` itself is argument 0 of `words`. The reader of the whole command line calls it for the command
/// `merge`.
#[tactic(auto, unfolding(crate::specs::Merge::merged))]
pub fn read_merge(alloc: Global, words: &[String]) -> Result<MergeWords, ArgsEnd>
    ensures { Tells result (spec.merged (texts words.now)) }
{
    let items = items(alloc, words)?;
    complete(words.len(), items.as_slice())?;
    let request = merge_words(alloc, items.as_slice())?;
    refuse_at(
        misplaced(words, &request, items.as_slice()),
        Why::NoSuchFile,
    )?;
    Ok(request)
}

/// Reads the items of a merge's command line `words`, from argument 1 onwards, or fails with the first wrong argument.
/// For `read_merge`.
#[tactic(auto, unfolding(crate::specs::Merge::items))]
fn items(alloc: Global, words: &[String]) -> Result<List<Item>, ArgsEnd>
    ensures { Tells result (spec.items (texts words.now)) }
{
    let mut items = List::new(alloc);
    let mut at = 1;
    while let Some(word) = word_at(words, at) {
        let means = meaning_of(word);
        let item = item_at(alloc, words, at, word, means, items.as_slice())?;
        items.push(item)?;
        at += width(means);
    }
    Ok(items)
}

/// Returns the number of arguments of an item that means `means` as an option: 2 for an option with a value, otherwise
/// 1. For `items`, when the command line of `merge` is read.
fn width(means: Option<Meaning>) -> usize
    ensures { result ≡ (if spec.takes_next means then 2 else 1) }
{
    match means {
        Some(means) if flag_of(means.form).is_none() => 2,
        _ => 1,
    }
}

/// Refuses the items of a command line with `count` arguments if they aren't a complete merge. The reasons are a `+` or
/// an option without an input after it, no output, no input, and `--link` without identifiers. For `read_merge`.
#[tactic(auto, unfolding(crate::specs::Merge::complete))]
fn complete(count: usize, items: &[Item]) -> Result<(), ArgsEnd>
    ensures { Tells result (spec.complete count items.now) }
{
    let open = stands(Subject::Append, since(Subject::File, items));
    refuse_if(open, count, Why::MissingValue)?;
    refuse_at(dangling(items), Why::DanglingOption)?;
    refuse_if(!stands(Subject::Output, items), count, Why::NoOutput)?;
    refuse_if(counted(Subject::File, items) == 0, count, Why::NoInput)?;
    refuse_at(unlinked(items), Why::NeedsUuids)
}

/// Refuses the argument with number `word` for the reason `why` if `test` holds; a helper of `complete`.
fn refuse_if(test: bool, word: usize, why: Why) -> Result<(), ArgsEnd>
    ensures { Tells result (spec.wrong_if test word why) }
{
    if test {
        return refused(word, why);
    }
    Ok(())
}

/// Refuses the argument with number `word`, if there is one, for the reason `why`; a helper of `complete`.
fn refuse_at(word: Option<usize>, why: Why) -> Result<(), ArgsEnd>
    ensures { Tells result (spec.wrong_at word why) }
{
    match word {
        Some(word) => refused(word, why),
        None => Ok(()),
    }
}

/// Returns the argument number of the value of `--track-order`, if it names an input that isn't there or is appended to
/// another one. Otherwise None. `request` is the request of the command line `words`, and `items` its items. For
/// `read_merge`.
fn misplaced(words: &[String], request: &MergeWords, items: &[Item]) -> Option<usize>
    requires { spec.AreWithin (length words.now) items.now }
    ensures { result ≡ spec.misplaced request.now items.now }
{
    if all_begin(request.files.as_slice(), request.order.as_slice()) {
        None
    } else {
        ordering(words, items)
    }
}

/// Returns the argument number of the value of `--track-order`, or None if it isn't given. `items` are the items of the
/// command line `words`. For `misplaced`.
fn ordering(words: &[String], items: &[Item]) -> Option<usize>
    requires { spec.AreWithin (length words.now) items.now }
    ensures { result ≡ spec.ordering items.now }
{
    let item = items.iter().find(|item| item.subject.is(Subject::Order))?;
    Some(item.at + 1)
}

/// Checks whether each of `tracks` names one of the inputs `files`, by its index, that isn't appended to another one.
/// For `misplaced`.
fn all_begin(files: &[FileWords], tracks: &[(u64, u64)]) -> bool
    ensures { result ≡ spec.all_begin files.now tracks.now }
{
    tracks.iter().all(|track| begins(files, track.0))
}

/// Checks whether `files` has an input with the index `file`, counted from 0, that isn't appended to another one. For
/// `all_begin`.
fn begins(files: &[FileWords], file: u64) -> bool
    ensures { result ≡ spec.begins files.now file }
{
    match files.get(file as usize) {
        Some(file) => !file.appended,
        None => false,
    }
}

/// Returns for `complete` the argument number of the first of `items` that is an option for the next input or for the
/// next attached file, if no such file follows. Returns None if there is no such option.
fn dangling(items: &[Item]) -> Option<usize>
    ensures { result ≡ spec.dangling items.now }
{
    let input = fileless(since(Subject::File, items));
    let attached = unattached(since(Subject::AttachedFile, items));
    earlier(input, attached)
}

/// Returns the smaller one of the argument numbers `a` and `b`; if only one is given, that one, otherwise None. For
/// `dangling`.
fn earlier(a: Option<usize>, b: Option<usize>) -> Option<usize>
    ensures { result ≡ spec.earlier a b }
{
    match (a, b) {
        (Some(a), Some(b)) => Some(a.min(b)),
        (Some(a), None) => Some(a),
        (None, b) => b,
    }
}

/// Returns for `dangling` the argument number of the first option for an input among `items`, the items after the last
/// input; no input follows it. Returns None if there is no such option.
fn fileless(items: &[Item]) -> Option<usize>
    ensures { result ≡ spec.fileless items.now }
{
    let item = items.iter().find(|item| is_for_input(item.scope))?;
    Some(item.at)
}

/// Checks whether an option with the scope `scope` is for the next input, or for one of its tracks. For `fileless`.
fn is_for_input(scope: Scope) -> bool
    ensures { result ≡ spec.is_for_input scope }
{
    match scope {
        Scope::File | Scope::Track => true,
        Scope::Output | Scope::Attached => false,
    }
}

/// Returns for `dangling` the argument number of the first option for an attached file among `items`, the items after
/// the last attached file; none follows it. Returns None if there is no such option.
fn unattached(items: &[Item]) -> Option<usize>
    ensures { result ≡ spec.unattached items.now }
{
    let item = items.iter().find(|item| item.scope == Scope::Attached)?;
    Some(item.at)
}

/// Returns the argument number of the option `--link`, or None if it isn't given. For `unlinked`.
fn linking(items: &[Item]) -> Option<usize>
    ensures { result ≡ spec.linking items.now }
{
    let item = items.iter().find(|item| item.subject.is(Subject::Link))?;
    Some(item.at)
}

/// Returns the argument number of the option `--link`, if it is given without `--segment-uid`, otherwise None. For
/// `complete`.
fn unlinked(items: &[Item]) -> Option<usize>
    ensures { result ≡ spec.unlinked items.now }
{
    if stands(Subject::Uuids, items) {
        None
    } else {
        linking(items)
    }
}
