//! A command line, read from left to right.

ghost use Rattle.std.specs.Prelude.{◌≡◌, IfOk};
ghost use Rattle.word_values.specs.Answers.{Tells, TellsOf, refuses};
ghost use Rattle.word_values.specs.Place as place;
ghost use Rattle.word_values.specs.Place.{texts};
ghost use Rattle.mkv_args.specs.Words as spec;
ghost use Rattle.mkv_args.specs.Sound.{IsSound};

use crate::command::Command;
use crate::commands::{Verb, verb_of};
use crate::explain::explain;
use crate::extract::extract;
use crate::merge::merge;
use crate::propedit::propedit;
use requests::number;
use std::alloc::Global;
use word_values::{ArgsEnd, Why, due_at, end_at, file_at, is_option, name, refused, word_at};

/// Returns the command that the arguments `words` ask for, or the first wrong argument and the reason. Arguments count
/// from 0, without the program's own name, so that the command is argument 0. Each run begins with it.
pub fn read_words(alloc: Global, words: &Vec<String>) -> Result<Command, ArgsEnd>
    ensures exact { Tells result (spec.command (texts words.now.items)) }

    // Numbers are within their limits, and the outputs of an extraction have different names.
    ensures sound { IfOk result IsSound }
{
    command(alloc, words.as_slice())
}

/// Returns the command that the arguments `words` ask for, or the first wrong argument and the reason. Used by
/// `read_words`, which promises the same.
#[tactic(auto, unfolding(crate::specs::Words::command))]
fn command(alloc: Global, words: &[String]) -> Result<Command, ArgsEnd>
    ensures { Tells result (spec.command (texts words.now)) }
{
    if is_short_help(words) {
        return Ok(Command::Help { about: None });
    }
    match helped(words) {
        Some(verb) => Ok(Command::Help { about: Some(verb) }),
        None => first_command(alloc, words),
    }
}

/// Checks whether `-h` is the only argument of `words`. Used by `command`.
fn is_short_help(words: &[String]) -> bool
    ensures { result ≡ spec.is_short_help (texts words.now) }
{
    word_at(words, 0) == Some("-h") && word_at(words, 1).is_none()
}

/// Returns the command that `COMMAND --help` asks the page of, if `words` has only these two arguments, or None. Used
/// by `command`.
fn helped(words: &[String]) -> Option<Verb>
    ensures { result ≡ spec.helped (texts words.now) }
{
    if word_at(words, 1) == Some("--help") && word_at(words, 2).is_none() {
        named(word_at(words, 0)?)
    } else {
        None
    }
}

/// Returns the command with the name `word`, or None if there is none or `word` looks like an option. Used by `helped`.
fn named(word: &str) -> Option<Verb>
    ensures { result ≡ spec.named word.now }
{
    if is_option(word) { None } else { verb_of(word) }
}

/// Parses the command line `words` for the command that argument 0 names. Fails with the number of the first wrong
/// argument and the reason. Used by `command`.
#[tactic(auto, unfolding(crate::specs::Words::first_command, crate::specs::Words::command_named))]
fn first_command(alloc: Global, words: &[String]) -> Result<Command, ArgsEnd>
    ensures { Tells result (spec.first_command (texts words.now)) }
{
    let Some(first) = word_at(words, 0) else {
        return refused(0, Why::NoCommand);
    };
    match verb_of(first) {
        None => refused(0, Why::UnknownCommand),
        Some(Verb::Info) => info(alloc, words),
        Some(Verb::Merge) => merge(alloc, words),
        Some(Verb::Extract) => extract(alloc, words),
        Some(Verb::Propedit) => propedit(alloc, words),
        Some(Verb::Recover) => recover(alloc, words),
        Some(Verb::Reindex) => reindex(alloc, words),
        Some(Verb::Generate) => generate(alloc, words),
        Some(Verb::Explain) => explain(alloc, words),
        Some(Verb::Help) => help(words),
        Some(Verb::Version) => version(words),
    }
}

/// Parses the command line `--help`, which has no other argument in `words`. Used by `first_command`.
#[tactic(auto, unfolding(crate::specs::Words::alone))]
fn help(words: &[String]) -> Result<Command, ArgsEnd>
    ensures { Tells result (spec.alone (Command.Help None) (texts words.now)) }
{
    end_at(words, 1)?;
    Ok(Command::Help { about: None })
}

/// Parses the command line `--version`, which has no other argument in `words`. Used by `first_command`.
#[tactic(auto, unfolding(crate::specs::Words::alone))]
fn version(words: &[String]) -> Result<Command, ArgsEnd>
    ensures { Tells result (spec.alone Command.Version (texts words.now)) }
{
    end_at(words, 1)?;
    Ok(Command::Version)
}

/// Parses the command line `info FILE`; `info` is argument 0 of `words`. Used by `first_command`.
#[tactic(auto, unfolding(crate::specs::Words::info))]
fn info(alloc: Global, words: &[String]) -> Result<Command, ArgsEnd>
    ensures { Tells result (spec.info (texts words.now)) }
{
    let file = only_file(words)?;
    Ok(Command::Info {
        file: name(alloc, file)?,
    })
}

/// Parses the command line `recover FILE`; `recover` is argument 0 of `words`. Used by `first_command`.
#[tactic(auto, unfolding(crate::specs::Words::recover))]
fn recover(alloc: Global, words: &[String]) -> Result<Command, ArgsEnd>
    ensures { Tells result (spec.recover (texts words.now)) }
{
    let file = only_file(words)?;
    Ok(Command::Recover {
        file: name(alloc, file)?,
    })
}

/// Parses the command line `reindex FILE`; `reindex` is argument 0 of `words`. Used by `first_command`.
#[tactic(auto, unfolding(crate::specs::Words::reindex))]
fn reindex(alloc: Global, words: &[String]) -> Result<Command, ArgsEnd>
    ensures { Tells result (spec.reindex (texts words.now)) }
{
    let file = only_file(words)?;
    Ok(Command::Reindex {
        file: name(alloc, file)?,
    })
}

/// Parses the command line `generate N PREFIX`, with N from 1 to 100000; `generate` is argument 0 of `words`. Used by
/// `first_command`.
#[tactic(auto, unfolding(crate::specs::Words::generate))]
fn generate(alloc: Global, words: &[String]) -> Result<Command, ArgsEnd>
    ensures { Tells result (spec.generate (texts words.now)) }
{
    let n = blocks_at(words, 1)?;
    let prefix = due_at(words, 2)?;
    end_at(words, 3)?;
    Ok(Command::Generate {
        n,
        prefix: name(alloc, prefix)?,
    })
}

/// Returns the number in argument `at` of `words`, the N of `generate`, from 1 to 100000. Fails for another form. Used
/// by `generate`.
#[tactic(auto, unfolding(crate::specs::Words::blocks_at))]
fn blocks_at(words: &[String], at: usize) -> Result<u32, ArgsEnd>
    ensures { Tells result (spec.blocks_at (texts words.now) at) }
{
    match number(due_at(words, at)?.as_bytes()) {
        Some(n) if 1 <= n && n <= 100_000 => Ok(n as u32),
        _ => refused(at, Why::BadValue),
    }
}

/// Returns the name in argument 1 of `words`, which must be the last one. Used by `info`, `recover` and `reindex`.
#[tactic(auto, unfolding(crate::specs::Words::only_file))]
fn only_file(words: &[String]) -> Result<&str, ArgsEnd>
    ensures { TellsOf (λ w. w.now) result (spec.only_file (texts words.now)) }
{
    let file = file_at(words, 1)?;
    end_at(words, 2)?;
    Ok(file)
}
