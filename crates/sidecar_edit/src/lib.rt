#![tactic(auto)]

//! Edits of a file in place, by way of a journal that has the record of the edit. A stop at any moment leaves a file
//! and a journal that recover to the file before or after the edit. This crate also checks whether an edit is pending,
//! and completes it.

mod copying;
mod edit;
mod fit;
mod gate;
mod head;
mod held;
mod name;
mod outcome;
mod pending;
mod place;
mod plan;
mod reading;
mod recovery;

pub use edit::{DiskFault, commit};
pub use gate::settle;
pub use held::Gate;
pub use name::{SUFFIX, sidecar_name};
pub use outcome::{Mark, RecoverEnd, Recovered};
pub use pending::is_pending;
pub use place::{HEAD_1, KEPT, MAX_OCTETS, MAX_WRITES, Place};
pub use plan::Plan;
pub use reading::{read_first, state};
pub use recovery::recover;
