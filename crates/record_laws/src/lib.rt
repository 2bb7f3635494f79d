#![tactic(auto)]

//! Laws on records and texts. A merge of its own output leaves them unchanged, and written texts are read back. The
//! functions do nothing; their contracts are the laws.

mod again;
mod records;
mod texts;

pub use again::{chapters_stay, files_stay, statistics_are_left_out, tags_stay};
pub use records::{
    differences_are_told, encodings_stay, entries_stay, read_entries_are_whole,
    same_elements_are_written_alike, tracks_stay,
};
pub use texts::{chapters_are_read_back, entries_are_read_back};
