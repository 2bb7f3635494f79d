//! The system's files, which a run reads and writes.

ghost use Rattle.std.specs.Prelude.{◌≡◌, ◌≢◌, ◌↔◌, ℕ, ◌+◌, ◌-◌, ◌<◌, ◌≤◌, ◌^◌, List, [], ◌∷◌, ◌++◌, length, Option, Some, None, is_some, false, vec_capacity, IfOk, OnOk, IsTrue};
ghost use Rattle.mkv_io.specs.Faults.{HasIncreased, counted, last_count};
ghost use Rattle.mkv_host.specs.Opened.{holder_in, is_node, opened_at, size_at};
ghost use Rattle.std.specs.List.{list_any};

use crate::locks::share;
use crate::open_files::{add, is_seen, lengthen, open_at, prepare};
use crate::opened::Opened;
use crate::outputs::{Output, emptied, is_irreplaceable, node_at, open_or_make, replaced};
use crate::system::{Node, is_missing, is_standard_output, node_of, open_to_read};
use crate::writer::write_from;
use mkv_io::{
    Asked, Failed, FileId, Files, LONGEST_FILE, MakeFault, OpenFault, Reads, room_for_name,
};
use std::alloc::Global;
use std::fs::File;
use std::io::ErrorKind;
use std::os::unix::fs::FileExt;
use std::{fs, io};

/// Files of the system that a run reads and writes. An opened file is only read; a created one is written, too. The
/// identities and names of all files that a run has opened or created stay known after they are closed.
#[derive(Drop)]
pub struct RealFiles<'a, R: fs::Files<File = File>> {
    alloc: Global,
    system: &'a R,
    opened: Vec<Option<Opened>>,
    seen: Vec<Node>,
    // Names that the contracts speak of; no code reads them.
    asked: Vec<Asked>,
    reading_faults: u64,
    writing_faults: u64,
    octets_read: u64,
    ghost few: { length opened.items ≤ 2 ^ 64 - 1 },
    ghost each: { length seen.items ≡ length opened.items },
}

impl<'a, R: fs::Files<File = File>> RealFiles<'a, R> {
    /// Returns the files over the calls of `system`; none is opened or created yet. The program makes one for each run.
    pub fn new(alloc: Global, system: &'a R) -> RealFiles<'a, R>
        ensures none_open { result.opened.items ≡ [] }
        ensures none_asked { result.asked.items ≡ [] }
    {
        RealFiles {
            alloc,
            system,
            opened: Vec::new(alloc),
            seen: Vec::new(alloc),
            asked: Vec::new(alloc),
            reading_faults: 0,
            writing_faults: 0,
            octets_read: 0,
        }
    }

    /// Checks whether no number is left for another file. `open_file` and `create` then fail.
    fn is_full(&self) -> bool
        ensures { IsTrue result ↔ (length self.now.opened.items ≡ last_count) }
    {
        self.opened.len() as u64 == u64::MAX
    }

    /// Checks whether the file with the identity `node` can't be an output, for `make`. This run has opened or created
    /// it, under any name, or it is standard output.
    fn is_taken(&self, node: Node) -> bool
        ensures { result ≡ false → list_any (is_node node) self.now.seen.items ≡ false }
    {
        is_seen(&self.seen, node) || is_standard_output(self.system, node)
    }

    /// Creates the empty output `name`, or replaces the file of that name, for `create`. An empty file is replaced,
    /// too: another run may be about to write it. A file that is taken, or that another run edits, is refused and keeps
    /// its bytes. An open output holds a shared lock.
    fn make(&self, name: &str) -> io::Result<Output>
        ensures { IfOk result (λ made. made.is_new ≡ false → list_any (is_node made.node) self.now.seen.items ≡ false) }
    {
        let before = node_at(self.system, name)?;
        if before.is_some_and(|node| self.is_taken(node)) {
            return Err(ErrorKind::ResourceBusy.into());
        }
        let (file, is_new) = open_or_make(self.system, name, before.is_some())?;
        let found = file.metadata()?;
        // On an overlay, opening a file to write it makes it another file.
        let node = node_of(&found)?;
        if !is_new && self.is_taken(node) {
            return Err(ErrorKind::ResourceBusy.into());
        }
        share(&file)?;
        let output = Output { file, node, is_new };
        if is_new {
            return Ok(output);
        }
        match replaced(self.alloc, self.system, name, &found) {
            Err(error) if is_irreplaceable(error.kind()) => emptied(self.system, name, output),
            made => made,
        }
    }
}

/// Adds 1 to `count`, a number of failed calls of the files, up to 2^64 - 1.
fn note_failure(count: &mut u64)
    ensures exact { count.new ≡ counted count.old 1 }
    ensures risen { HasIncreased count.old count.new }
{
    *count = count.saturating_add(1);
}

impl<'a, R: fs::Files<File = File>> Reads for RealFiles<'a, R> {
    ghost use Rattle.std.specs.Prelude.{List, Option, ℕ};
    ghost use Rattle.mkv_host.specs.Opened.{live_in, opened_at, short-of_size};
    ghost use Rattle.mkv_host.specs.declared.opened.Opened.{Opened};
    ghost use Rattle.mkv_io.specs.declared.asked.Asked.{Asked};

    ghost Standing = { List (Option Opened) × ℕ × List Asked };

    ghost standing = { λ files. (files.opened.items, files.writing_faults, files.asked.items) };

    ghost files = { λ s. live_in s.0 };

    ghost reading_faults = { λ files. files.reading_faults };

    ghost octets_read = { λ files. files.octets_read };

    ghost told_size = { λ s file bytes told. cc };

    ghost short = { λ files file live. short-of_size (opened_at files.opened.items file) };

    /// Returns the length in bytes of the open file `file`, as it was when it was opened or has grown since.
    fn size(&self, file: FileId) -> u64 {
        open_at(&self.opened, file).size
    }

    /// Fills `into` with the bytes of the open file `file` from the offset `at` on, by reads of the system. Every
    /// reader uses it.
    fn read_at(&mut self, file: FileId, at: u64, into: &mut [u8]) -> Result<(), Failed> {
        let length = into.len() as u64;
        if open_at(&self.opened, file)
            .file
            .read_exact_at(into, at)
            .is_err()
        {
            note_failure(&mut self.reading_faults);
            return Err(Failed);
        }
        self.octets_read = self.octets_read.saturating_add(length);
        Ok(())
    }
}

impl<'a, R: fs::Files<File = File>> Files for RealFiles<'a, R> {
    ghost use Rattle.std.specs.Prelude.{None, List, Option, length, ℕ};
    ghost use Rattle.std.proofs.Common.{ap};
    ghost use Rattle.mkv_host.specs.Opened.{holder_in, live_in, opened_at, numbered-live};
    ghost use Rattle.mkv_host.specs.declared.opened.Opened.{Opened};
    ghost use Rattle.mkv_io.specs.declared.asked.Asked.{Asked};

    ghost names = { λ _. None };

    ghost holder = { λ files. holder_in files.opened.items };

    ghost given = { λ files. length files.opened.items };

    ghost writing_faults = { λ files. files.writing_faults };

    ghost asked = { λ files. files.asked.items };

    ghost named = { λ files file live world told. cc };

    ghost there = { λ files file live world told. cc };

    ghost numbered = { λ files file live. numbered-live files.opened.items file live };

    ghost last = { λ files. files.few };

    ghost names_stand = { λ a b same. cc };

    ghost holders_stand = { λ a b same file. ap (λ (s : List (Option Opened) × ℕ × List Asked). holder_in s.0 file) same };

    ghost given_stands = { λ a b same. ap (λ (s : List (Option Opened) × ℕ × List Asked). length s.0) same };

    ghost writing_stands = { λ a b same. ap (λ (s : List (Option Opened) × ℕ × List Asked). s.1) same };

    ghost asked_stands = { λ a b same. ap (λ (s : List (Option Opened) × ℕ × List Asked). s.2) same };

    /// Opens the file `name` for reading, and returns its number. `merge`, `extract` and `info` open their inputs with
    /// it. `Missing` means that no file has the name.
    fn open_file(&mut self, name: &str) -> Result<FileId, OpenFault> {
        if self.is_full() {
            note_failure(&mut self.reading_faults);
            return Err(OpenFault::Failed);
        }
        let asked = room_for_name(&mut self.asked, self.alloc, name)?;
        let holder = prepare(&mut self.opened, &mut self.seen, self.alloc, name)?;
        match open_to_read(self.system, name) {
            Ok((file, size, node)) => {
                self.asked.push(Asked::Opened(asked)).unwrap();
                let one = Opened {
                    file,
                    node,
                    name: holder,
                    size,
                };
                Ok(add(&mut self.opened, &mut self.seen, one))
            }
            Err(error) if is_missing(&error) => Err(OpenFault::Missing),
            Err(_) => {
                note_failure(&mut self.reading_faults);
                Err(OpenFault::Failed)
            }
        }
    }

    /// Creates or replaces the file `name`, with an empty content, for writing, and returns its number. `merge`,
    /// `extract` and `generate` create their outputs with it.
    fn create(&mut self, name: &str) -> Result<FileId, MakeFault> {
        if self.is_full() {
            note_failure(&mut self.writing_faults);
            return Err(MakeFault::Failed);
        }
        let asked = room_for_name(&mut self.asked, self.alloc, name)?;
        let holder = prepare(&mut self.opened, &mut self.seen, self.alloc, name)?;
        match self.make(name) {
            Ok(made) => {
                self.asked.push(Asked::Made(asked)).unwrap();
                let one = Opened {
                    file: made.file,
                    node: made.node,
                    name: holder,
                    size: 0,
                };
                Ok(add(&mut self.opened, &mut self.seen, one))
            }
            Err(error) if error.kind() == ErrorKind::OutOfMemory => Err(MakeFault::Memory),
            // The file may have been made or emptied before the failure.
            Err(_) => {
                self.asked.push(Asked::Made(asked)).unwrap();
                note_failure(&mut self.writing_faults);
                Err(MakeFault::Failed)
            }
        }
    }

    /// Appends `bytes` to the open file `file`, by writes of the system. After a failure some of the first may have
    /// been written. Used by `prepare` and `names`.
    fn append(&mut self, file: FileId, bytes: &[u8]) -> Result<(), MakeFault> {
        let open = open_at(&self.opened, file);
        if bytes.len() as u64 > LONGEST_FILE - open.size {
            note_failure(&mut self.writing_faults);
            return Err(MakeFault::Failed);
        }
        let written = write_from(&mut &open.file, open.size, bytes);
        lengthen(&mut self.opened, file, written as u64);
        if written < bytes.len() {
            note_failure(&mut self.writing_faults);
            return Err(MakeFault::Failed);
        }
        Ok(())
    }

    /// Writes `bytes` over the open file `file` from the offset `at` on. `merge` does this for the SeekHead, the
    /// Segment's size and the Duration of an output.
    fn overwrite(&mut self, file: FileId, at: u64, bytes: &[u8]) -> Result<(), Failed> {
        let open = open_at(&self.opened, file);
        if write_from(&mut &open.file, at, bytes) < bytes.len() {
            note_failure(&mut self.writing_faults);
            return Err(Failed);
        }
        Ok(())
    }

    /// Closes the open file `file`. Its number isn't used again.
    fn close(&mut self, file: FileId) {
        self.opened[file.n as usize] = None;
    }
}
