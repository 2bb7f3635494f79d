#![tactic(auto)]

//! Changes that a merge makes to the records of its inputs. They are new identifiers, Tags with their targets, and
//! shifted or cut Chapters (RFC 9559, sections 5.1.7, Chapters, and 5.1.8, Tags).

mod cutting;
mod identifier_laws;
mod identifiers;
mod numbering;
mod shifting;
mod starts;
mod statistics;
mod stretch;
mod tag;
mod tags;
mod target;
mod targets;
mod uid_map;
mod uids;

pub use cutting::cut;
pub use identifier_laws::{numbers_fit, numbers_settle, smallest_is_free};
pub use identifiers::renumber;
pub use numbering::with_identifiers;
pub use shifting::shift;
pub use starts::top_starts;
pub use statistics::without_statistics;
pub use stretch::Stretch;
pub use tags::merge_tags;
pub use targets::TagTargets;
pub use uid_map::{TagKeep, UidMap};
pub use uids::{push_chapter_uids, push_edition_uids};
