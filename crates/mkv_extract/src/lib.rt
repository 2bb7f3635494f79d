#![tactic(auto)]

//! The command `extract`. It writes frames of tracks, their timestamps, cue points, chapters or attached files to files
//! of their own, and prints their names.

mod attachments;
mod chapters;
mod cues;
mod extract;
mod names;
mod reading;
mod telling;

pub use extract::extract_of;
