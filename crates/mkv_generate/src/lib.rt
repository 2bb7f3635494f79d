#![tactic(auto)]

//! The command `generate`: it makes two files, merges them into one, and splits the merged file, for tests of the
//! program on any system. The files are the same everywhere.

mod blocks;
mod counting;
mod file;
mod front;
mod generating;
mod making;
mod names;
mod words;

pub use generating::generate_of;
