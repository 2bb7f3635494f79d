#![tactic(auto)]

//! Tracks of a file: RFC 9559, section 5.1.4 (Tracks). The crate reads the entries of a Tracks as values, or reports
//! the first damage. It checks whether a track's frames can be used, and whether a track may be appended to another. It
//! makes the TrackEntry of an output, with its number and identifier, and with the user's changes.

mod difference;
mod encoding;
mod entry;
mod fields;
mod refusal;
mod same;
mod stored;
mod track;
mod track_change;
mod tracks;
mod written_entry;

pub use difference::differs;
pub use encoding::usable;
pub use stored::as_stored;
pub use track::Track;
pub use track_change::{FlagChange, TrackChange};
pub use tracks::read_tracks;
pub use written_entry::written;
