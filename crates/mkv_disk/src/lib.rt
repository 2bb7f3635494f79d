#![tactic(auto)]

//! A disk with two files, as an edit in place uses it: the file that is edited, and its journal. Its definition
//! includes the contents that a crash at any moment may leave. The commands use a real disk, and tests one in memory.

mod disk;

pub use disk::{Disk, MEDIA, SIDECAR};
