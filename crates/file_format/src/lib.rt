#![tactic(auto)]

//! The tracks of a file, the timestamp scale of its Info, and its blocks in this scale. The standard is RFC 9559,
//! sections 5.1.2 (Info Element) and 5.1.4 (Tracks Element).
//!
//! The definitions, which higher crates use, are in `specs/`. The calls do nothing: they carry laws on the
//! definitions.

mod info_laws;
mod scale;
mod track_laws;

pub use info_laws::limits_change_no_scale;
pub use scale::DEFAULT_SCALE;
pub use track_laws::limits_change_no_entry;
