//! The names of the commands, which are this project's.

ghost use Rattle.std.specs.Prelude.{◌≡◌, map};
ghost use Rattle.mkv_args.specs.Commands as spec;
ghost use Rattle.mkv_args.specs.Entry as words;

use crate::entry::{Entry, meant};

/// Command that the first argument of a command line names.
#[derive(Clone, Copy, Debug, PartialEq, Eq)]
pub enum Verb {
    Info,
    Merge,
    Extract,
    Propedit,
    Recover,
    Reindex,
    Generate,
    Explain,
    Help,
    Version,
}

#[rattlefmt::skip]
static COMMANDS: [Entry<Verb>; 10] = [
    Entry("", "info", Verb::Info),
    Entry("", "merge", Verb::Merge),
    Entry("", "extract", Verb::Extract),
    Entry("", "propedit", Verb::Propedit),
    Entry("", "recover", Verb::Recover),
    Entry("", "reindex", Verb::Reindex),
    Entry("", "generate", Verb::Generate),
    Entry("", "explain", Verb::Explain),
    Entry("", "--help", Verb::Help),
    Entry("", "--version", Verb::Version),
];

/// Returns the names of all commands, as a table with their meanings, which argument 0 of a command line is looked up
/// in. Used by `verb_of`.
#[tactic(auto, unfolding(crate::specs::Commands::commands))]
pub(crate) fn commands() -> &'static [Entry<Verb>]
    ensures { map words.shown result.now ≡ spec.commands }
{
    &COMMANDS
}

/// Returns the command with the name `word`, argument 0 of a command line, or None if there is none. Used by `named`
/// and `first_command`.
pub(crate) fn verb_of(word: &str) -> Option<Verb>
    ensures { result ≡ words.meant spec.commands word.now }
{
    meant(commands(), word)
}
