#![tactic(auto)]

//! Files, a disk and a report in memory. Their contents are visible to the proof, and chosen calls fail.

mod done;
mod failing;
mod logged_pair;
mod mem_disk;
mod mem_files;
mod mem_report;
mod pending;
mod store;

pub use mem_disk::MemDisk;
pub use mem_files::MemFiles;
pub use mem_report::MemReport;
