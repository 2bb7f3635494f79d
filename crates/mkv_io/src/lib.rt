#![tactic(auto)]

//! Interfaces to the system: files that are read, files that are written, and a report of lines; and the plain values
//! that these use.
//!
//! Each of the three interfaces is a trait. Its ghost members describe its contents, how often it failed, and how
//! much of it was read. Code of other crates is generic over these traits, and is proved from their contracts only.

mod asked;
mod damage;
mod entry;
mod files;
mod list;
mod octets;
mod outside;
mod reads;
mod remux_end;
mod report;

pub use asked::{Asked, room_for_name};
pub use damage::{Damage, Kind};
pub use entry::Entry;
pub use files::Files;
pub use list::List;
pub use octets::{Bytes, Text};
pub use outside::{Failed, FileId, LONGEST_FILE, MakeFault, OpenFault, ReadEnd};
pub use reads::Reads;
pub use remux_end::RemuxEnd;
pub use report::Report;
