#![tactic(auto)]

//! The program of the suite: `suite` over the files, the disk and the standard output of the system.

use mkv_host::{RealDisk, RealFiles, RealReport};
use std::process::ExitCode;
use suite::{program, words_of};

// Runs the program on the files, the disk and the standard output of the system, and returns its exit status. The
// system calls it with the command line.
fn main(rt: HostRuntime) -> ExitCode {
    let words = words_of(&rt);
    let mut files = RealFiles::new(rt.alloc(), &rt);
    let mut disk = RealDisk::new(rt.alloc(), &rt);
    let mut report = RealReport::new(&rt);
    program(rt.alloc(), &words, &mut files, &mut disk, &mut report)
}
