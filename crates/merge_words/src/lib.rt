#![tactic(auto)]

//! Command line of a merge: its options, and their values for the output and for each file.

mod attached;
mod files;
mod item;
mod merge;
mod options;
mod output;
mod said;

pub use merge::read_merge;
pub use options::{Meaning, OptionRow, Scope, Subject, meaning_of, merge_options};
