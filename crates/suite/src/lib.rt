#![tactic(auto)]

//! The whole program, with the contract that its users rely on. It runs from a command line to an exit status, over any
//! files, any disk for edits in place, and any report for its lines.

mod exit;
mod running;

pub use exit::{program, words_of};
pub use running::run;
