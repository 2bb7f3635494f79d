#![tactic(auto)]

//! The command line: the command that it asks for, or the first wrong argument and the reason.

mod command;
mod commands;
mod entry;
mod explain;
mod extract;
mod help;
mod merge;
mod pages;
mod propedit;
mod topics;
mod words;

pub use command::Command;
pub use commands::Verb;
pub use explain::explained;
pub use help::{usage_lines, version_line};
pub use merge_words::{Meaning, OptionRow, Scope, Subject, meaning_of, merge_options};
pub use requests::{CueWord, FileWords, MergeWords, Select, SpanWords, SplitWords};
pub use word_values::{ArgsEnd, Usage, ValueForm, Why};
pub use words::read_words;
