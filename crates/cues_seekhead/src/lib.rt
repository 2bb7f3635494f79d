#![tactic(auto)]

//! Whole outputs in their files: RFC 9559, section 5.1 (Segment). The elements before the Clusters come first, then
//! the Clusters one by one, and after them Cues, Chapters and Tags. The SeekHead and the Segment's size are written
//! last, into the room that was reserved for them.

mod area;
mod attached;
mod attaching;
mod back;
mod copying;
mod cues;
mod ending;
mod front;
mod info;
mod out;
mod places;
mod written;

pub use area::put_seeks;
pub use attached::attached_len;
pub use copying::{append, copy_data};
pub use mkv_io::RemuxEnd as OutEnd;
pub use out::OutFile;
pub use output_model::{Attachment, CuePoint, Front, Seek};
