#![tactic(auto)]

//! The files that a merge reads. Its inputs and the files that it attaches are opened, all or none, and closed together.
//! The first input with a pending edit is found, and the first attached file that is too large. Text files are read whole: SubRip as a track and entries, simple chapters as Chapters, and timestamp
//! files (RFC 9559, sections 5.1.4, Tracks, and 5.1.7, Chapters).

mod attached;
mod chapter_file;
mod files;
mod inputs_end;
pub mod laws;
mod limits;
mod names;
mod pending;
mod reading;
mod refusal;
mod text_files;
mod times_file;
mod track;

pub use attached::first_large;
pub use chapter_file::{ChapterFile, read_chapter_file};
pub use files::{close_all, open_all};
pub use inputs_end::InputsEnd;
pub use limits::{
    MAX_ALL_TIMES_LEN, MAX_ATTACHED_LEN, MAX_CHAPTERS_LEN, MAX_SRT_LEN, MAX_TIMES_LEN,
};
pub use names::{begins_ebml, is_srt_name};
pub use pending::first_pending;
pub use reading::{read_chapters, read_entries, read_track_times};
pub use refusal::{TextFileEnd, TextRefusal};
pub use text_files::{TextFiles, read_text_files};
pub use times_file::{TimesFile, TimesGiven, TimesName, read_times_files, times_named};
pub use track::text_tracks;
