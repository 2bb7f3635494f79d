#![tactic(auto)]

//! The command `merge`, which writes one file from the selected tracks of several files.

mod chapters;
mod joining;
mod merging;
mod names;
mod opening;
mod pending;
mod preparing;
mod refusal;
mod telling;
mod texts;
mod writing;

pub use joining::{Merged, merge_files};
pub use merging::merge_of;
pub use refusal::Refusal;
pub use telling::{refuse, warn};
