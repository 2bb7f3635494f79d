//! Files in memory.

ghost use Rattle.std.specs.Prelude.{◌≡◌, ℕ, ◌+◌, ◌-◌, ◌≤◌, List, length, Option, Some, None, min, option_map, OnOk, OnErr, IsOkAnd, IsTrue};
ghost use Rattle.std.specs.BTreeMap.{get};
ghost use Rattle.std.specs.Ordering.{nat_cmp};
ghost use Rattle.mkv_io.specs.Faults.{HasCause, is_failure, is_make_failure, is_open_failure, last_count};
ghost use Rattle.mkv_io.specs.declared.outside.TheConstants.{LONGEST_FILE};

use crate::store::Store;
use mkv_io::{
    Asked, Bytes, Failed, FileId, Files, LONGEST_FILE, MakeFault, OpenFault, Reads, room_for_name,
};
use std::alloc::{AllocError, Global};
use std::cmp::min;
use std::collections::BTreeMap;

/// Files in memory, by name. Their names and contents are visible to the proof, and chosen calls fail. The names that
/// were opened or created stay known, in order.
///
/// Calls of `open_file`, `create`, `read_at`, `append` and `overwrite` are counted from 0.
#[derive(Drop)]
pub struct MemFiles {
    alloc: Global,
    store: Store,
    failing: BTreeMap<u64, u64>,
    calls: u64,
    reading_faults: u64,
    writing_faults: u64,
    octets_read: u64,
    // the names for contracts: no code reads them
    asked: Vec<Asked>,
}

impl MemFiles {
    ghost use denote.Ref.{Bor};
    ghost use Rattle.mkv_memory.specs.Stored.{with_content_at};
    ghost use Rattle.mkv_memory.specs.SeenFiles.{with_file, with_stored, no_files, with_failure};
    ghost use Rattle.mkv_memory.specs.FilesIn.{seen};

    /// Returns an empty set of files in memory, for tests; no call is set to fail.
    pub fn new(alloc: Global) -> Result<MemFiles, AllocError>
        ensures { IsOkAnd result (λ files. seen files ≡ no_files) }
    {
        Ok(MemFiles {
            alloc,
            store: Store::new(alloc),
            failing: BTreeMap::new(alloc),
            calls: 0,
            reading_faults: 0,
            writing_faults: 0,
            octets_read: 0,
            asked: Vec::new(alloc),
        })
    }

    /// Sets the content of the file `name` to `bytes`. Live files with this name get it too. Tests make their inputs
    /// with it.
    pub fn put(&mut self, name: &str, bytes: &[u8]) -> Result<(), AllocError>
        requires { length bytes.now ≤ LONGEST_FILE }
        ensures ok { OnOk result (seen self.new ≡ with_file (seen self.old) name.now bytes.now) }
        ensures err { OnErr result (seen self.new ≡ seen self.old) }
    {
        let mut content = Bytes::new(self.alloc);
        content.append(bytes)?;
        self.store.set(name, content)
    }

    /// Sets the call with the number `call`, counted from 0, to fail. If it is an `append`, it keeps the first `kept`
    /// bytes, or all except the last if there are fewer. Tests choose the call by it.
    pub fn fail_at(&mut self, call: u64, kept: u64) -> Result<(), AllocError>
        ensures ok { OnOk result (seen self.new ≡ with_failure (seen self.old) call kept) }
        ensures err { OnErr result (seen self.new ≡ seen self.old) }
    {
        self.failing.insert(call, kept)?;
        Ok(())
    }

    /// Returns the content of the file `name`, or None if no file has this name. Tests read outputs by it.
    pub fn bytes(&self, name: &str) -> Option<&[u8]>
        ensures { option_map (λ (bytes : Bor (List ℕ)). bytes.now) result ≡ (seen self.now).stored.world name.now }
    {
        self.store.content(name)
    }

    /// Counts a call. If it must fail, returns the number of bytes that it keeps; otherwise None. Each call except
    /// `close` begins with it.
    fn next_failure(&mut self) -> Option<u64>
        ensures kept { result ≡ get nat_cmp self.old.failing self.old.calls }
        ensures rest { self.new ≡ record self.old { calls = min (self.old.calls + 1) last_count } }
    {
        let kept = self.failing.get(&self.calls).copied();
        self.calls = self.calls.saturating_add(1);
        kept
    }
}

/// Returns the number of bytes that an append of `len` bytes keeps if it fails: `kept`, but never the last byte.
/// `append` calls it.
fn kept_of(len: usize, kept: u64) -> usize
    ensures { result ≡ min kept (len - 1) }
{
    min(kept, (len as u64).saturating_sub(1)) as usize
}

impl Reads for MemFiles {
    ghost use Rattle.std.specs.Prelude.{List, ℕ};
    ghost use Rattle.mkv_io.specs.declared.asked.Asked.{Asked};
    ghost use Rattle.mkv_io.specs.Faults.{HasCause, is_failure, is_make_failure, is_open_failure};
    ghost use Rattle.mkv_memory.specs.SeenFiles.{ReadsAt};
    ghost use Rattle.mkv_memory.specs.FilesIn.{seen};
    ghost use Rattle.mkv_memory.specs.Stored.{Stored, files_of, content_of_file, name_of_file, size-of_told, short-of_names};
    ghost use Rattle.mkv_memory.specs.StoreIn.{stored_in};

    ghost Standing = { Stored × ℕ × List Asked };

    ghost standing = { λ m. (stored_in m.store, m.writing_faults, m.asked.items) };

    ghost files = { λ s. files_of s.0 };

    ghost reading_faults = { λ m. m.reading_faults };

    ghost octets_read = { λ m. m.octets_read };

    ghost told_size = { λ s file bytes told. size-of_told s.0 file bytes told };

    ghost short = { λ m file live. short-of_names (stored_in m.store).world (name_of_file (stored_in m.store).opened file) m.store.short };

    /// Returns the length of the live file `file` in bytes.
    fn size(&self, file: FileId) -> u64 {
        self.store.octets(file).len() as u64
    }

    /// Fills `into` with the bytes of the live file `file` from the offset `at` onwards, or fails if the call must fail
    /// and leaves `into` unchanged.
    fn read_at(&mut self, file: FileId, at: u64, into: &mut [u8]) -> Result<(), Failed>
        requires live { IsTrue ((files_of (seen self.old).stored).live file.n) }
        requires range { at + length into.old ≤ (files_of (seen self.old).stored).size file.n }
        ensures exact { ReadsAt (seen self.old) file.n at into.old into.new result (seen self.new) }
        ensures cause { HasCause is_failure (seen self.old).reading_faults (seen self.new).reading_faults result }
        ensures octets_least { (seen self.old).octets_read ≤ (seen self.new).octets_read }
    {
        if self.next_failure().is_some() {
            self.reading_faults = self.reading_faults.saturating_add(1);
            return Err(Failed);
        }
        let start = at as usize;
        into.copy_from_slice(&self.store.octets(file)[start..start + into.len()]);
        self.octets_read = self.octets_read.saturating_add(into.len() as u64);
        Ok(())
    }
}

impl Files for MemFiles {
    ghost use Rattle.std.specs.Prelude.{List, Some, length, ℕ};
    ghost use Rattle.mkv_io.specs.declared.asked.Asked.{Asked};
    ghost use Rattle.std.proofs.Common.{ap};
    ghost use Rattle.mkv_io.specs.Faults.{HasCause, is_failure, is_make_failure, is_open_failure};
    ghost use Rattle.mkv_memory.specs.SeenFiles.{AppendsTo, ClosesFile, CreatesName, OpensName, OverwritesIn};
    ghost use Rattle.mkv_memory.specs.FilesIn.{seen};
    ghost use Rattle.mkv_memory.specs.Stored.{Stored, files_of, holder_of, name_of_file, content-told, numbered-live, there-told};
    ghost use Rattle.mkv_memory.specs.StoreIn.{stored_in};

    ghost names = { λ m. Some (stored_in m.store).world };

    ghost holder = { λ m. holder_of (stored_in m.store) };

    ghost given = { λ m. length (stored_in m.store).opened };

    ghost writing_faults = { λ m. m.writing_faults };

    ghost asked = { λ m. m.asked.items };

    ghost named = { λ m file live world told. content-told (stored_in m.store).world world (name_of_file (stored_in m.store).opened file) live told };

    ghost there = { λ m file live world told. there-told (stored_in m.store).world world (name_of_file (stored_in m.store).opened file) live (m.store.there file) told };

    ghost numbered = { λ m file live. numbered-live (stored_in m.store).opened file live };

    ghost last = { λ m. m.store.few };

    ghost names_stand = { λ a b same. ap (λ (s : Stored × ℕ × List Asked). Some s.0.world) same };

    ghost holders_stand = { λ a b same file. ap (λ (s : Stored × ℕ × List Asked). holder_of s.0 file) same };

    ghost given_stands = { λ a b same. ap (λ (s : Stored × ℕ × List Asked). length s.0.opened) same };

    ghost writing_stands = { λ a b same. ap (λ (s : Stored × ℕ × List Asked). s.1) same };

    ghost asked_stands = { λ a b same. ap (λ (s : Stored × ℕ × List Asked). s.2) same };

    /// Opens the file with the name `name` for reading, and returns its number. A name without a content is missing;
    /// the call may also be set to fail.
    fn open_file(&mut self, name: &str) -> Result<FileId, OpenFault>
        ensures exact { OpensName (seen self.old) name.now result (seen self.new) }
        ensures cause { HasCause is_open_failure (seen self.old).reading_faults (seen self.new).reading_faults result }
    {
        let failure = self.next_failure();
        if self.store.content(name).is_none() {
            return Err(OpenFault::Missing);
        }
        if failure.is_some() || self.store.is_full() {
            self.reading_faults = self.reading_faults.saturating_add(1);
            return Err(OpenFault::Failed);
        }
        let asked = Asked::Opened(room_for_name(&mut self.asked, self.alloc, name)?);
        let file = self.store.open(name)?;
        self.asked.push(asked).unwrap();
        Ok(file)
    }

    /// Creates the file `name` with an empty content, whatever it had before, opens it, and returns its number.
    fn create(&mut self, name: &str) -> Result<FileId, MakeFault>
        ensures exact { CreatesName (seen self.old) name.now result (seen self.new) }
        ensures cause { HasCause is_make_failure (seen self.old).writing_faults (seen self.new).writing_faults result }
    {
        let failure = self.next_failure();
        if failure.is_some() || self.store.is_full() {
            self.writing_faults = self.writing_faults.saturating_add(1);
            return Err(MakeFault::Failed);
        }
        let asked = Asked::Made(room_for_name(&mut self.asked, self.alloc, name)?);
        let file = self.store.create(name)?;
        self.asked.push(asked).unwrap();
        Ok(file)
    }

    /// Appends `bytes` to the live file `file`; a call that must fail appends a prefix of them. It also fails if the
    /// file would be longer than the limit.
    fn append(&mut self, file: FileId, bytes: &[u8]) -> Result<(), MakeFault>
        requires { IsTrue ((files_of (seen self.old).stored).live file.n) }
        ensures exact { AppendsTo (seen self.old) file.n bytes.now result (seen self.new) }
        ensures cause { HasCause is_make_failure (seen self.old).writing_faults (seen self.new).writing_faults result }
    {
        let failure = self.next_failure();
        if bytes.len() as u64 > LONGEST_FILE - self.size(file) {
            self.writing_faults = self.writing_faults.saturating_add(1);
            return Err(MakeFault::Failed);
        }
        match failure {
            Some(kept) => {
                self.store
                    .append(file, &bytes[..kept_of(bytes.len(), kept)])?;
                self.writing_faults = self.writing_faults.saturating_add(1);
                Err(MakeFault::Failed)
            }
            None => Ok(self.store.append(file, bytes)?),
        }
    }

    /// Writes `bytes` over the live file `file` from the offset `at` onwards; a failed call leaves the file as it was.
    fn overwrite(&mut self, file: FileId, at: u64, bytes: &[u8]) -> Result<(), Failed>
        requires live { IsTrue ((files_of (seen self.old).stored).live file.n) }
        requires range { at + length bytes.now ≤ (files_of (seen self.old).stored).size file.n }
        ensures exact { OverwritesIn (seen self.old) file.n at bytes.now result (seen self.new) }
        ensures cause { HasCause is_failure (seen self.old).writing_faults (seen self.new).writing_faults result }
    {
        if self.next_failure().is_some() {
            self.writing_faults = self.writing_faults.saturating_add(1);
            return Err(Failed);
        }
        self.store.overwrite(file, at as usize, bytes);
        Ok(())
    }

    /// Closes the live file `file`. It isn't counted as a call.
    fn close(&mut self, file: FileId)
        requires { IsTrue ((files_of (seen self.old).stored).live file.n) }
        ensures { ClosesFile (seen self.old) file.n (seen self.new) }
    {
        self.store.close(file);
    }
}
