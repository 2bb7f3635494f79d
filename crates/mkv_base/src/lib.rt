#![tactic(auto)]

//! The common vocabulary of the suite's crates, for their users: plain values, traits for the system, and files, a
//! disk and a report in memory.

pub use mkv_disk::{Disk, MEDIA, SIDECAR};
pub use mkv_io::{
    Asked, Bytes, Damage, Failed, FileId, Files, Kind, LONGEST_FILE, List, MakeFault, OpenFault,
    ReadEnd, Reads, Report, Text,
};
pub use mkv_memory::{MemDisk, MemFiles, MemReport};
