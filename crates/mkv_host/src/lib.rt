#![tactic(auto)]

//! The program's access to the system: the files that it reads and writes, a file and its journal for edits in place,
//! and standard output. Contents of files and folders aren't visible to the proof. It is trusted that the system keeps
//! the bytes that are written.

mod disk_system;
mod locks;
mod open_files;
mod opened;
mod outputs;
mod pair;
mod real_disk;
mod real_files;
mod real_report;
mod sharing;
mod system;
mod writer;

pub use real_disk::RealDisk;
pub use real_files::RealFiles;
pub use real_report::RealReport;
pub use writer::{WriteAt, write_from};
