//! A disk in memory.

ghost use Rattle.std.specs.Prelude.{◌≡◌, ◌≤◌, ℕ, List, length, Option, OnOk, OnErr, IfOk, IsTrue};
ghost use Rattle.mkv_io.specs.Faults.{HasCause, is_failure, is_open_failure};
ghost use Rattle.mkv_memory.specs.Changes.{BeginsWithin, cut, pair_of, synced, written};
ghost use Rattle.mkv_memory.specs.Images.{left_by};
ghost use Rattle.mkv_memory.specs.LogIn.{change_of, octets_done};
ghost use Rattle.mkv_memory.specs.SeenDisk.{is_too_long};
ghost use Rattle.mkv_memory.specs.Sound.{IsSound};
ghost use Rattle.mkv_io.specs.declared.outside.TheConstants.{LONGEST_FILE};

use crate::done::Done;
use crate::failing::Failing;
use crate::logged_pair::{CallBudget, LoggedPair};
use crate::pending::CrashImage;
use mkv_disk::{Disk, MEDIA, SIDECAR};
use mkv_io::{Failed, FileId, LONGEST_FILE, OpenFault, Reads, Text};
use std::alloc::{AllocError, Global};

/// Disk in memory with two files, an edited file and its journal, which any name opens. Its contents, and the contents
/// that a crash may leave, are visible to the proof. Chosen calls fail, and calls without room.
///
/// Calls of `open_pair`, `read_at`, `write_at`, `cut` and `sync` are counted from 0.
#[derive(Drop)]
pub struct MemDisk {
    alloc: Global,
    files: LoggedPair,
    opened: Option<Text>,
    failing: Failing,
    reading_faults: u64,
    writing_faults: u64,
    octets_read: u64,
    ghost media_sound: { IsSound (pair_of files.history).media },
    ghost sidecar_sound: { IsSound (pair_of files.history).sidecar },
}

/// Returns the contents of the edited file and of the journal that a crash leaves, chosen by the number `pick`.
/// `MemDisk::crashed` calls it.
fn left_by(pick: u64) -> (CrashImage, CrashImage)
    ensures { result ≡ left_by pick }
{
    match pick {
        0 => (CrashImage::AsRead, CrashImage::AsRead),
        1 => (CrashImage::AsSynced, CrashImage::AsSynced),
        2 => (CrashImage::AsRead, CrashImage::AsSynced),
        3 => (CrashImage::AsSynced, CrashImage::AsRead),
        4 => (CrashImage::Blotted, CrashImage::Blotted),
        _ => (CrashImage::Mixed, CrashImage::Mixed),
    }
}

/// Checks whether a call with the effect `done` would make a file longer than the limit. `MemDisk::make` calls it.
fn is_too_long(done: Done) -> bool
    ensures { (bytes : List ℕ) → length bytes ≡ octets_done done → result ≡ is_too_long (change_of done bytes) }
{
    match done {
        Done::Wrote { at, len } => at > LONGEST_FILE || len as u64 > LONGEST_FILE - at,
        Done::Cut { .. } | Done::Synced => false,
    }
}

impl MemDisk {
    ghost use Rattle.mkv_disk.specs.Pair.{IsSynced};
    ghost use Rattle.mkv_memory.specs.SeenDisk.{IsOnImage, MakesChange, crashed_by, failing_at, fresh, pair_in, reads_in, room_for, stopping_at};
    ghost use Rattle.mkv_memory.specs.DiskIn.{seen};

    /// Returns a disk with an edited file and a journal without pending writes, for tests. It has room for `calls`
    /// calls of `write_at`, `cut` and `sync`, and for `octets` bytes that they write in all.
    pub fn new(
        alloc: Global,
        media: &[u8],
        sidecar: &[u8],
        calls: u32,
        octets: u64,
    ) -> Result<MemDisk, AllocError>
        requires media { length media.now ≤ LONGEST_FILE }
        requires sidecar { length sidecar.now ≤ LONGEST_FILE }
        ensures exact { IfOk result (λ disk. seen disk ≡ fresh media.now sidecar.now (room_for calls octets)) }
        ensures rests { IfOk result (λ disk. IsSynced (pair_in (seen disk))) }
    {
        Ok(MemDisk {
            alloc,
            files: LoggedPair::new(alloc, media, sidecar, CallBudget { calls, octets })?,
            opened: None,
            failing: Failing::new(alloc),
            reading_faults: 0,
            writing_faults: 0,
            octets_read: 0,
        })
    }

    /// Sets the call with the number `call`, counted from 0, to fail. It then does nothing. Tests choose the call by
    /// it.
    pub fn fail_at(&mut self, call: u64) -> Result<(), AllocError>
        ensures ok { OnOk result (seen self.new ≡ failing_at (seen self.old) call) }
        ensures err { OnErr result (seen self.new ≡ seen self.old) }
    {
        self.failing.fail_at(call)
    }

    /// Sets the call with the number `call`, counted from 0, and all later ones to fail. Tests cut off an edit in place
    /// by it.
    pub fn stop_at(&mut self, call: u64)
        ensures { seen self.new ≡ stopping_at (seen self.old) call }
    {
        self.failing.stop_at(call);
    }

    /// Returns a disk with contents that a crash may leave now, and with the room that this one had at first. Tests
    /// recover an edit in place on it. The number `pick` chooses the contents.
    ///
    /// With 0 both files are as read, and with 1 as last synced. With 2 the edited file is as read and the journal as
    /// last synced, and with 3 the reverse. With 4 both are as read, with FF in each byte that was written since its
    /// file's last sync.
    ///
    /// Any other number truncates each file to its least length since its last sync. Bytes at odd offsets are as at
    /// that sync, the others as read.
    pub fn crashed(&self, alloc: Global, pick: u64) -> Result<MemDisk, AllocError>
        ensures exact { IfOk result (λ disk. seen disk ≡ crashed_by pick (seen self.now)) }
        ensures image { IfOk result (λ disk. IsOnImage (seen self.now) (seen disk)) }
        ensures rests { IfOk result (λ disk. IsSynced (pair_in (seen disk))) }
    {
        let (media, sidecar) = left_by(pick);
        let media = self.files.pending(alloc, MEDIA)?.image(alloc, media)?;
        let sidecar = self.files.pending(alloc, SIDECAR)?.image(alloc, sidecar)?;
        let room = self.files.room();
        MemDisk::new(alloc, &media, &sidecar, room.calls, room.octets)
    }

    /// Applies the effect `done` with the bytes `bytes` to `file`, unless the call must fail or there is no room.
    /// `write_at`, `cut` and `sync` call it.
    fn make(&mut self, file: FileId, done: Done, bytes: &[u8]) -> Result<(), Failed>
        requires count { length bytes.now ≡ octets_done done }
        requires inside { BeginsWithin (change_of done bytes.now) (reads_in (seen self.old) file.n) }
        ensures exact { MakesChange (seen self.old) file.n (change_of done bytes.now) result (seen self.new) }
        ensures cause { HasCause is_failure (seen self.old).writing_faults (seen self.new).writing_faults result }
    {
        let fails = self.failing.next();
        if fails || !self.files.has_room(bytes.len()) || is_too_long(done) {
            self.writing_faults = self.writing_faults.saturating_add(1);
            return Err(Failed);
        }
        self.files.make(file, done, bytes);
        Ok(())
    }
}

impl Reads for MemDisk {
    ghost use Rattle.std.specs.Prelude.{◌+◌, Option, ℕ, List};
    ghost use Rattle.mkv_memory.specs.Logged.{Logged};
    ghost use Rattle.mkv_memory.specs.SeenDisk.{ReadsAt, is_live, live_in, pair_in, size-of_told, size_in};
    ghost use Rattle.mkv_memory.specs.Sound.{short-of_sound};
    ghost use Rattle.mkv_memory.specs.DiskIn.{seen};

    ghost Standing = { Option (List ℕ) × Logged × ℕ };

    ghost standing = { λ d. (d.opened, d.files, d.writing_faults) };

    ghost files = { λ s. live_in s.0 (pair_of s.1.history) };

    ghost reading_faults = { λ d. d.reading_faults };

    ghost octets_read = { λ d. d.octets_read };

    ghost told_size = { λ s n bytes told. size-of_told s.0 (pair_of s.1.history) n bytes told };

    ghost short = { λ d n live. short-of_sound (pair_of d.files.history) n d.media_sound d.sidecar_sound };

    /// Returns the length of the live file `file` in bytes, as reads return it.
    fn size(&self, file: FileId) -> u64 {
        self.files.reads(file).len() as u64
    }

    /// Fills `into` with the bytes of the live file `file` from the offset `at` onwards, or fails if the call must fail
    /// and leaves `into` unchanged.
    fn read_at(&mut self, file: FileId, at: u64, into: &mut [u8]) -> Result<(), Failed>
        requires live { IsTrue (is_live (seen self.old).opened file.n) }
        requires range { at + length into.old ≤ size_in (pair_in (seen self.old)) file.n }
        ensures exact { ReadsAt (seen self.old) file.n at into.old into.new result (seen self.new) }
        ensures cause { HasCause is_failure (seen self.old).reading_faults (seen self.new).reading_faults result }
        ensures octets_least { (seen self.old).octets_read ≤ (seen self.new).octets_read }
    {
        if self.failing.next() {
            self.reading_faults = self.reading_faults.saturating_add(1);
            return Err(Failed);
        }
        let start = at as usize;
        into.copy_from_slice(&self.files.reads(file)[start..start + into.len()]);
        self.octets_read = self.octets_read.saturating_add(into.len() as u64);
        Ok(())
    }
}

impl Disk for MemDisk {
    ghost use Rattle.std.specs.Prelude.{true, Option, ℕ, List};
    ghost use Rattle.std.proofs.Common.{ap, refl, subst};
    ghost use Rattle.mkv_memory.specs.Changes.{LeftSince, left-now, now-left};
    ghost use Rattle.mkv_memory.specs.Logged.{Logged};
    ghost use Rattle.mkv_memory.specs.SeenDisk.{MakesChange, OpensPair, is_live, reads_in};
    ghost use Rattle.mkv_memory.specs.DiskIn.{seen};

    ghost told = { true };

    ghost pair = { λ d. pair_of d.files.history };

    ghost opened = { λ d. d.opened };

    ghost is_there = { λ _ _. true };

    ghost moment = { λ d. length d.files.history.made };

    ghost left_since = { λ d t m s. LeftSince d.files.history t m s };

    ghost writing_faults = { λ d. d.writing_faults };

    ghost contents = { λ d told. (refl, refl) };

    ghost counts_now = { λ d t m s told le image. left-now d.files.history t m s le image };

    ghost only_now = { λ d m s told left. now-left d.files.history m s left };

    ghost pair_stands = { λ a b same. ap (λ (s : Option (List ℕ) × Logged × ℕ). pair_of s.1.history) same };

    ghost moment_stands = { λ a b same. ap (λ (s : Option (List ℕ) × Logged × ℕ). length s.1.history.made) same };

    ghost left_stands = { λ a b t m s same left. subst (λ (st : Option (List ℕ) × Logged × ℕ). LeftSince st.1.history t m s) same left };

    ghost opened_stands = { λ a b same. ap (λ (s : Option (List ℕ) × Logged × ℕ). s.0) same };

    ghost writing_stands = { λ a b same. ap (λ (s : Option (List ℕ) × Logged × ℕ). s.2) same };

    /// Opens the edited file `name` and its journal, which any name opens. It fails if the call must fail, or memory
    /// runs out.
    fn open_pair(&mut self, name: &str) -> Result<(), OpenFault>
        ensures exact { OpensPair (seen self.old) name.now result (seen self.new) }
        ensures cause { HasCause is_open_failure (seen self.old).reading_faults (seen self.new).reading_faults result }
    {
        if self.failing.next() {
            self.reading_faults = self.reading_faults.saturating_add(1);
            return Err(OpenFault::Failed);
        }
        let mut opened = Text::new(self.alloc);
        opened.append(name)?;
        self.opened = Some(opened);
        Ok(())
    }

    /// Writes `bytes` over the live file `file` from the offset `at` onwards. Until the file is synced, a crash may
    /// undo this.
    fn write_at(&mut self, file: FileId, at: u64, bytes: &[u8]) -> Result<(), Failed>
        requires live { IsTrue (is_live (seen self.old).opened file.n) }
        requires inside { at ≤ length (reads_in (seen self.old) file.n) }
        ensures exact { MakesChange (seen self.old) file.n (written at bytes.now) result (seen self.new) }
        ensures cause { HasCause is_failure (seen self.old).writing_faults (seen self.new).writing_faults result }
    {
        let len = bytes.len();
        self.make(file, Done::Wrote { at, len }, bytes)
    }

    /// Truncates the live file `file` to `len` bytes. Until the file is synced, a crash may undo this.
    fn cut(&mut self, file: FileId, len: u64) -> Result<(), Failed>
        requires live { IsTrue (is_live (seen self.old).opened file.n) }
        requires inside { len ≤ length (reads_in (seen self.old) file.n) }
        ensures exact { MakesChange (seen self.old) file.n (cut len) result (seen self.new) }
        ensures cause { HasCause is_failure (seen self.old).writing_faults (seen self.new).writing_faults result }
    {
        self.make(file, Done::Cut { len }, &[])
    }

    /// Makes all changes of the live file `file` permanent, so that a crash can't undo them.
    fn sync(&mut self, file: FileId) -> Result<(), Failed>
        requires { IsTrue (is_live (seen self.old).opened file.n) }
        ensures exact { MakesChange (seen self.old) file.n synced result (seen self.new) }
        ensures cause { HasCause is_failure (seen self.old).writing_faults (seen self.new).writing_faults result }
    {
        self.make(file, Done::Synced, &[])
    }
}
