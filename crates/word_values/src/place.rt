//! Arguments of the command line by their index, counted from 0, and the refusal of a missing or surplus one.

ghost use Rattle.std.specs.Prelude.{◌≡◌, ◌<◌, [], MatchOption, OnSome, drop, length, slice_get, option_map};
ghost use Rattle.word_values.specs.Answers.{Tells, TellsOf, refuses};
ghost use Rattle.word_values.specs.Place as place;
ghost use Rattle.word_values.specs.Place.{texts, IsWordAt};

use crate::usage::{ArgsEnd, Usage, Why};

/// Returns the argument of `words` with the index `at`, counted from 0, or None if the command line ends before it.
/// Parsers of all commands go through the arguments with it.
pub fn word_at(words: &[String], at: usize) -> Option<&str>
    ensures same { option_map (λ w. w.now) result ≡ slice_get (texts words.now) at }
    ensures rest { MatchOption result (drop at (texts words.now) ≡ []) (λ word. IsWordAt (texts words.now) at word.now) }
    ensures within { OnSome result (at < length words.now) }
{
    match text_at(words, at) {
        Some(word) => Some(word),
        None => None,
    }
}

// Returns the argument of `words` with the index `at`, counted from 0, if there is one, for `word_at`.
fn text_at(words: &[String], at: usize) -> Option<&str>
    ensures { option_map (λ w. w.now) result ≡ slice_get (texts words.now) at }
{
    Some(words.get(at)?.as_str())
}

/// Returns the argument of `words` with the index `at`, counted from 0, that a command needs, such as a file of
/// `extract`. If it is missing, the command line is refused (`MissingValue`).
pub fn due_at(words: &[String], at: usize) -> Result<&str, ArgsEnd>
    ensures { TellsOf (λ w. w.now) result (place.due_at (texts words.now) at) }
{
    match word_at(words, at) {
        Some(word) => Ok(word),
        None => refused(words.len(), Why::MissingValue),
    }
}

/// Returns the argument of `words` with the index `at`, from 0, the name of a file that is read, for all commands with
/// one. A missing one is refused, and one that looks like an option.
pub fn file_at(words: &[String], at: usize) -> Result<&str, ArgsEnd>
    ensures { TellsOf (λ w. w.now) result (place.file_at (texts words.now) at) }
{
    let file = due_at(words, at)?;
    if is_option(file) {
        return refused(at, Why::UnknownOption);
    }
    Ok(file)
}

/// Refuses the command line `words` if it has an argument with the index `at`, from 0, after a complete command
/// (`ExtraWord`). Parsers of commands end with it.
pub fn end_at(words: &[String], at: usize) -> Result<(), ArgsEnd>
    ensures { Tells result (place.end_at (texts words.now) at) }
{
    if at < words.len() {
        return refused(at, Why::ExtraWord);
    }
    Ok(())
}

/// Returns the refusal of the argument with the index `word`, counted from 0, for the reason `why`. Parsers of all
/// commands refuse with it. Used by `due_at`, `file_at` and others.
pub fn refused<T>(word: usize, why: Why) -> Result<T, ArgsEnd>
    ensures { result ≡ refuses word why }
{
    Err(ArgsEnd::Usage(Usage { word, why }))
}

/// Checks whether the argument `word` looks like an option: it begins with `-` and has more than one character. Parsers
/// distinguish options from files by it. Used by `file_at` and others.
pub fn is_option(word: &str) -> bool
    ensures { result ≡ place.is_option word.now }
{
    matches!(word.as_bytes(), [b'-', _, ..])
}
