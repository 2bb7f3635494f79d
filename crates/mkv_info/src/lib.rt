#![tactic(auto)]

//! Descriptions of a file: the command `info` lists its Elements and tracks, and `merge -J` identifies it in one line
//! of JSON. Neither writes a file.

mod attachments;
mod chapters;
mod container;
mod identified;
mod info;
mod json;
mod line;
mod list;
mod reading;
mod tag_counts;
mod tags;
mod told_tracks;
mod tracks;
mod values;

pub use info::{Form, info_of};
