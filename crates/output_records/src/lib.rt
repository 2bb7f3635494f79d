#![tactic(auto)]

//! Records of an output: its Info and Tracks, and the Attachments, Chapters and Tags merged from its inputs. Also the
//! check whether a record is too large to be read again (RFC 9559, sections 5.1.2, Info, 5.1.4, Tracks, 5.1.6,
//! Attachments, 5.1.7, Chapters, and 5.1.8, Tags).

mod attached;
mod attachments;
mod chapters;
mod info;
mod inputs;
mod limits;
mod merged;
mod record_limits;
mod records;
mod tags;
mod tracks;
mod uids;

pub use attached::attached_entry;
pub use info::info_of;
pub use inputs::InputRecords;
pub use limits::first_too_large;
pub use merged::{MergedRecords, merge_records};
pub use record_changes::TagKeep;
pub use tracks::tracks_of;
