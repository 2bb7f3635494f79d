//! Reads the lines of the cases.
//!
//!     # a comment
//!     small = 1A45DFA3 00*3       names bytes: hexadecimal digits, and parts; *N repeats a word N times. A later line
//!                                 may give the name other bytes
//!     $ merge -o out.mkv a.mkv    the command line of the next runs
//!     > wrote out.mkv: 2 blocks   the line that they print
//!     calls fail                  runs the command over files in memory, while each call fails in turn
//!     disk fails, disk stops      runs it over a disk in memory, while each call fails in turn, or all calls from
//!                                 each one on
//!
//! `calls fail` begins with the parts whose name has a dot, as files. A run that no call stops leaves the bytes `whole`
//! in `out.mkv`. Any other run ends with 4 and prints only the message of the failure. It leaves the bytes that
//! `out.mkv` had, a first part of `grown`, or `nearly`. The printed numbers are the lengths of `out.mkv` after the
//! stopped runs, without repetitions.
//!
//! `disk fails` and `disk stops` begin with the bytes `film` and `journal`. A run that no call stops leaves `edited`.
//! After any other `recover` makes `edited` or `unedited` of each image that a crash may leave.

use crate::fault::Fault;
use std::alloc::Global;

/// Part of a case: a name with bytes.
#[derive(Drop)]
pub struct Named {
    pub name: String,
    pub octets: Vec<u8>,
}

/// Result of the lines that were read: named parts, the latest last, and the command line with its expected line of
/// output.
#[derive(Drop)]
pub struct Reading {
    alloc: Global,
    pub parts: Vec<Named>,
    pub words: Vec<String>,
    pub said: String,
}

impl Reading {
    /// Returns the state before the first line of the input. Used by `failing_disk`, `recover_words` and others.
    pub fn new(alloc: Global) -> Reading {
        Reading {
            alloc,
            parts: Vec::new(alloc),
            words: Vec::new(alloc),
            said: String::new(alloc),
        }
    }

    /// Returns the bytes of the part `name`, which a line of the input gave last, or None if there is no such part.
    /// Used by `is_left`, `left_by` and others.
    pub fn part(&self, name: &str) -> Option<&[u8]> {
        for part in self.parts.iter().rev() {
            if part.name.as_str() == name {
                return Some(part.octets.as_slice());
            }
        }
        None
    }

    /// Returns the bytes of the part `name`, which a line of the input gave last, or no bytes if there is no such part.
    /// Used by `failing_disk`, `film_on` and others.
    pub fn octets(&self, name: &str) -> &[u8] {
        self.part(name).unwrap_or(&[])
    }

    /// Reads `line`, which starts no run: a comment, a command line, an expected line, or a part. Returns an empty
    /// text. Used by `answer`.
    pub fn line(&mut self, line: &str) -> Result<String, Fault> {
        match line.split_once(' ') {
            None | Some(("#", _)) => {}
            Some(("$", words)) => self.read_words(words)?,
            Some((">", said)) => self.said = said.to_string(self.alloc)?,
            Some((name, spelled)) => self.read_part(name, spelled)?,
        }
        Ok(String::new(self.alloc))
    }

    /// Reads `line`, the command line of the next runs, whose words have spaces between them. Used by `line`.
    fn read_words(&mut self, line: &str) -> Result<(), Fault> {
        self.words = Vec::new(self.alloc);
        for word in line.split_whitespace() {
            self.words.push(word.to_string(self.alloc)?)?;
        }
        Ok(())
    }

    /// Adds the part `name` with the bytes that `spelled` gives: a `=`, and words of `add_word`. Used by `line`.
    fn read_part(&mut self, name: &str, spelled: &str) -> Result<(), Fault> {
        let mut octets = Vec::new(self.alloc);
        for word in spelled.split_whitespace().skip(1) {
            self.add_word(word, &mut octets)?;
        }
        let name = name.to_string(self.alloc)?;
        self.parts.push(Named { name, octets })?;
        Ok(())
    }

    /// Appends to `octets` the bytes that `word` spells: hexadecimal digits or the name of a part, with `*N` after it
    /// for N copies. Used by `read_part`.
    fn add_word(&self, word: &str, octets: &mut Vec<u8>) -> Result<(), Fault> {
        let (once, times) = word.split_once('*').unwrap_or((word, "1"));
        let times = times.parse::<u32>().or(Err(Fault::Unread))?;
        if let Some(part) = self.part(once) {
            return add_times(part, times, octets);
        }
        match hex::decode(self.alloc, once) {
            Ok(digits) => add_times(digits.as_slice(), times, octets),
            Err(_) => Err(Fault::Unread),
        }
    }
}

/// Appends `times` copies of `once` to `octets`. Used by `add_word`.
fn add_times(once: &[u8], times: u32, octets: &mut Vec<u8>) -> Result<(), Fault> {
    for _ in 0..times {
        octets.extend_from_slice(once)?;
    }
    Ok(())
}
