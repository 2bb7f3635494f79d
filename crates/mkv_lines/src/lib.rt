#![tactic(auto)]

//! The messages that a run prints for the user, and its exit status.

mod line;
mod saying;
mod shown;
mod shown_text;
mod status;

pub use line::Line;
pub use saying::{refuse, say, say_disk_fault, say_files_fault, say_text};
pub use shown::ShownTrack;
pub use status::{CommandEnd, Status, stop_of};
