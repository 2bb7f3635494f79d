#![tactic(auto)]

//! OGM simple chapters (`CHAPTER01=..`), read as a Chapters Element and written from one (RFC 9559, section 5.1.7,
//! Chapters Element). The crate also passes on the calls on the other text files.

mod reading;
mod writing;

pub use reading::{chapters_tree, read_simple};
pub use text_formats::{Entry, TextEnd, put_srt, read_srt};
pub use writing::put_simple;
