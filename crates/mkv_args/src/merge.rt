//! The command line of `merge`, after mkvmerge(1).

ghost use Rattle.std.specs.Prelude.{◌≡◌};
ghost use Rattle.mkv_args.specs.Merge as spec;
ghost use Rattle.word_values.specs.Answers.{Tells};
ghost use Rattle.word_values.specs.Place.{texts};

use crate::command::Command;
use merge_words::{meaning_of, read_merge};
use std::alloc::Global;
use word_values::{ArgsEnd, Why, is_option, name, refused, word_at};

/// Parses the command line of `merge` with its options and files, or `merge -J FILE`; `merge` is argument 0 of `words`.
/// Used by `first_command`.
#[tactic(auto, unfolding(crate::specs::Merge::merge))]
pub(crate) fn merge(alloc: Global, words: &[String]) -> Result<Command, ArgsEnd>
    ensures { Tells result (spec.merge (texts words.now)) }
{
    if word_at(words, 1) == Some("-J") {
        return identify(alloc, words);
    }
    Ok(Command::Merge {
        words: read_merge(alloc, words)?,
    })
}

/// Parses the command line `merge -J FILE`, which asks for the identification of FILE; no other argument is allowed in
/// `words`. Used by `merge`.
#[tactic(auto, unfolding(crate::specs::Merge::identify))]
fn identify(alloc: Global, words: &[String]) -> Result<Command, ArgsEnd>
    ensures { Tells result (spec.identify (texts words.now)) }
{
    let Some(file) = word_at(words, 2) else {
        return refused(words.len(), Why::MissingValue);
    };
    if file == "+" || is_option(file) {
        return beside(2, file);
    }
    if let Some(extra) = word_at(words, 3) {
        return beside(3, extra);
    }
    Ok(Command::Identify {
        file: name(alloc, file)?,
    })
}

/// Refuses `word`, argument number `at` of `merge -J FILE`, which can't be there. The reason is an unknown option or an
/// argument too many. Used by `identify`.
#[tactic(auto, unfolding(crate::specs::Merge::beside))]
fn beside(at: usize, word: &str) -> Result<Command, ArgsEnd>
    ensures { Tells result (spec.beside at word.now) }
{
    if is_option(word) && meaning_of(word).is_none() {
        return refused(at, Why::UnknownOption);
    }
    refused(at, Why::ExtraWord)
}
