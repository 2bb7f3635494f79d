#![tactic(auto)]

//! A test program: a merge, an edit and a recovery over files and a disk in memory, whose calls fail. One call fails,
//! or all from one on. The lines of the file `stdin` name bytes and start runs; the module `reading` describes them.

mod disk_runs;
mod fault;
mod file_runs;
mod reading;
mod runs;

use crate::fault::Fault;
use crate::reading::Reading;
use std::alloc::Global;
use std::fmt::Write;
use std::io;

/// Returns the numbers in `lengths` as text, each after a space. Used by `answer`.
fn listed(alloc: Global, lengths: &[usize]) -> Result<String, Fault> {
    let mut text = String::new(alloc);
    for length in lengths {
        write!(text, " {length}")?;
    }
    Ok(text)
}

/// Runs what the line `line` of the input asks for, and returns the text of the result. A line that starts no run is
/// read into `reading`, and the text is empty. Used by `take_line`.
fn answer(alloc: Global, line: &str, reading: &mut Reading) -> Result<String, Fault> {
    match line {
        "calls fail" => listed(alloc, file_runs::lengths_left(alloc, reading)?.as_slice()),
        "disk fails" => disk_runs::check(alloc, reading, false),
        "disk stops" => disk_runs::check(alloc, reading, true),
        _ => reading.line(line),
    }
}

/// Prints the result of the line `line` of the input, if it starts a run, for the case that `reading` has read up to
/// it. Used by `main`.
fn take_line(rt: &(impl Print + AllocGlobal), line: &str, reading: &mut Reading) -> io::Result<()> {
    match answer(rt.alloc(), line, reading) {
        Ok(text) if text.is_empty() => Ok(()),
        Ok(text) => println!(rt; "{line}:{text}"),
        Err(fault) => println!(rt; "{line}: {fault}"),
    }
}

// Takes all lines of the input in turn; the test program ends after the last one.
fn main(rt: HostRuntime) -> io::Result<()> {
    let mut reading = Reading::new(rt.alloc());
    for line in rt.lines(rt.alloc()) {
        take_line(&rt, line?.as_str(), &mut reading)?;
    }
    Ok(())
}
