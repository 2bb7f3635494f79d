//! A file that is edited in place and its journal, on the system's disk.

ghost use Rattle.std.specs.Prelude.{◌≡◌, ◌≢◌, ◌≤◌, ℕ, ◌+◌, max, Option, Some, None, IsTrue, IfOk};
ghost use Rattle.mkv_io.specs.Faults.{HasIncreased, counted};
ghost use Rattle.mkv_host.specs.OpenedPair.{is_live, name_in, size_in};
ghost use Rattle.mkv_io.specs.declared.outside.TheConstants.{LONGEST_FILE};
ghost use Rattle.sidecar_edit.specs.Name.{sidecar_of};

use crate::disk_system::{has_name, open_media, open_sidecar, settle_folder};
use crate::pair::{OpenFile, OpenPair};
use crate::sharing::{HOLDING, QUIET, share_bits};
use crate::system::{is_missing, node_of};
use crate::writer::write_from;
use mkv_disk::{Disk, MEDIA};
use mkv_io::{Failed, FileId, LONGEST_FILE, OpenFault, Reads, Text};
use sidecar_edit::sidecar_name;
use std::alloc::{AllocError, Global};
use std::fs::{File, Metadata};
use std::os::unix::fs::FileExt;
use std::{fs, io};

/// The file that is edited and its journal on the system's disk. A sync makes a file's bytes and its length durable.
/// When a pair is opened, both files are synced before anything is read, so that the bytes that are read are on the
/// disk.
#[derive(Drop)]
pub struct RealDisk<'a, R: fs::Files<File = File>> {
    alloc: Global,
    system: &'a R,
    pair: Option<OpenPair>,
    reading_faults: u64,
    writing_faults: u64,
    octets_read: u64,
}

impl<'a, R: fs::Files<File = File>> RealDisk<'a, R> {
    /// Returns a disk over the calls of `system`, without an open pair. The program makes one for each run.
    pub fn new(alloc: Global, system: &'a R) -> RealDisk<'a, R>
        ensures { result.pair ≡ None }
    {
        RealDisk {
            alloc,
            system,
            pair: None,
            reading_faults: 0,
            writing_faults: 0,
            octets_read: 0,
        }
    }
}

/// Adds 1 to `count`, a number of failed calls of the disk, up to 2^64 - 1.
fn note_failure(count: &mut u64)
    ensures exact { count.new ≡ counted count.old 1 }
    ensures risen { HasIncreased count.old count.new }
{
    *count = count.saturating_add(1);
}

/// Returns the edited file or the journal of the open pair `pair`, by its number `file`: MEDIA or SIDECAR. Each call on
/// the open pair begins with it.
fn file_of(pair: &Option<OpenPair>, file: FileId) -> &OpenFile
    requires { IsTrue (is_live pair.now file.n) }
    ensures { result.now.size ≡ size_in pair.now file.n }
{
    match pair {
        Some(open) if file == MEDIA => &open.media,
        Some(open) => &open.sidecar,
        None => unreachable!(),
    }
}

/// Checks whether `file` of the open pair `pair` may be written; `write_at` and `cut` do this first. Until this run
/// changes the edited file, that file must have its name and the length with which it was opened. After the journal has
/// its record, it is changed even if another file has its name by then.
fn is_as_opened<R: fs::Files<File = File>>(
    system: &R,
    pair: &Option<OpenPair>,
    file: FileId,
) -> bool {
    match pair {
        Some(open) if !open.is_changed => {
            let is_begun = file == MEDIA && open.is_noted;
            is_same(system, &open.media, !is_begun)
        }
        _ => true,
    }
}

/// Checks whether the open file `open` has its noted length, and its name, if `counts_name`. `is_as_opened` calls it
/// for the edited file.
fn is_same<R: fs::Files<File = File>>(system: &R, open: &OpenFile, counts_name: bool) -> bool {
    match open.file.metadata() {
        Ok(found) => {
            found.len() == open.size
                && (!counts_name || is_named(system, open.name.as_str(), &found))
        }
        Err(_) => false,
    }
}

/// Checks whether `name` is still the name of the open file with the metadata `open`. `is_same` calls it.
fn is_named<R: fs::Files<File = File>>(system: &R, name: &str, open: &Metadata) -> bool {
    node_of(open).is_ok_and(|node| has_name(system, name, node))
}

/// Lets only the owner read the journal of the open pair `pair` before the first write of a record to it; `write_at`
/// calls it. The write is to `file` and ends at the offset `end`; any other changes nothing. The record has bytes of
/// the edited file, which others may not be allowed to read.
fn hide_record(pair: &Option<OpenPair>, file: FileId, end: u64) -> io::Result<()> {
    match pair {
        Some(open) if file != MEDIA && open.sidecar.size <= 1 && end > 1 => {
            share_bits(&open.sidecar.file, &open.media.file, HOLDING)
        }
        _ => Ok(()),
    }
}

/// Lets others read the journal `sidecar` of `media` if it has no record: they look there for a pending edit.
/// `open_both` and `sync` call it, after a sync, so that the disk has no record either. Ignores a failure.
fn show_quiet(sidecar: &OpenFile, media: &OpenFile) {
    if sidecar.size <= 1 {
        let _ = share_bits(&sidecar.file, &media.file, QUIET);
    }
}

/// Notes that `file` of the open pair `pair`, the edited file or the journal, now has `size` bytes and was written.
/// `write_at` and `cut` call it last.
fn resize(pair: &mut Option<OpenPair>, file: FileId, size: u64)
    requires live { IsTrue (is_live pair.old file.n) }
    requires short { size ≤ LONGEST_FILE }
    ensures live { (n : ℕ) → is_live pair.new n ≡ is_live pair.old n }
    ensures size { size_in pair.new file.n ≡ size }
    ensures others { (n : ℕ) → n ≢ file.n → size_in pair.new n ≡ size_in pair.old n }
    ensures name { name_in pair.new ≡ name_in pair.old }
{
    if let Some(open) = pair {
        if file == MEDIA {
            open.media.size = size;
            open.is_changed = true;
        } else {
            open.sidecar.size = size;
            open.is_noted = true;
        }
    }
}

/// Returns a copy of `name`, the name of an edited file, and the name of its journal. `open_pair` calls it, since it
/// takes memory, before it opens a file.
fn names(alloc: Global, name: &str) -> Result<(Text, Text), AllocError>
    ensures { IfOk result (λ names. (names.0 ≡ name.now) × (names.1 ≡ sidecar_of name.now)) }
{
    let mut media = Text::new(alloc);
    media.append(name)?;
    Ok((media, sidecar_name(alloc, name)?))
}

/// Opens the edited file `name` and the journal `sidecar`, which is created if it doesn't exist, and syncs both and
/// their folder. `open_pair` calls it. A missing edited file is `Missing`, any other failure `Failed`.
fn open_both<R: fs::Files<File = File>>(
    system: &R,
    name: Text,
    sidecar: Text,
) -> Result<OpenPair, OpenFault>
    requires { sidecar ≡ sidecar_of name }
    ensures { IfOk result (λ pair. pair.media.name ≡ name) }
{
    let (media, found) = match open_media(system, name) {
        Ok(answer) => answer,
        Err(error) if is_missing(&error) => return Err(OpenFault::Missing),
        Err(_) => return Err(OpenFault::Failed),
    };
    let Ok(sidecar) = open_sidecar(system, sidecar, &found) else {
        return Err(OpenFault::Failed);
    };
    let is_sure = media.file.sync_all().is_ok()
        && sidecar.file.sync_all().is_ok()
        && settle_folder(system, media.name.as_str()).is_ok();
    if !is_sure {
        return Err(OpenFault::Failed);
    }
    show_quiet(&sidecar, &media);
    Ok(OpenPair {
        media,
        sidecar,
        is_changed: false,
        is_noted: false,
    })
}

impl<'a, R: fs::Files<File = File>> Reads for RealDisk<'a, R> {
    ghost use Rattle.std.specs.Prelude.{Option, ℕ};
    ghost use Rattle.mkv_host.specs.OpenedPair.{live_in, short-of_size};
    ghost use Rattle.mkv_host.specs.declared.pair.OpenPair.{OpenPair};

    ghost Standing = { Option OpenPair × ℕ };

    ghost standing = { λ disk. (disk.pair, disk.writing_faults) };

    ghost files = { λ s. live_in s.0 };

    ghost reading_faults = { λ disk. disk.reading_faults };

    ghost octets_read = { λ disk. disk.octets_read };

    ghost told_size = { λ s file bytes told. cc };

    ghost short = { λ disk file live. short-of_size disk.pair file };

    /// Returns the length of `file`, the edited file or the journal, in bytes, as noted in the open pair.
    fn size(&self, file: FileId) -> u64 {
        file_of(&self.pair, file).size
    }

    /// Fills `into` with the bytes of `file`, the edited file or the journal, from the offset `at` on, by reads of the
    /// system. An edit in place reads both files with it.
    fn read_at(&mut self, file: FileId, at: u64, into: &mut [u8]) -> Result<(), Failed> {
        let length = into.len() as u64;
        if file_of(&self.pair, file)
            .file
            .read_exact_at(into, at)
            .is_err()
        {
            note_failure(&mut self.reading_faults);
            return Err(Failed);
        }
        self.octets_read = self.octets_read.saturating_add(length);
        Ok(())
    }
}

impl<'a, R: fs::Files<File = File>> Disk for RealDisk<'a, R> {
    ghost use Rattle.std.specs.Prelude.{[], false, Option, ℕ};
    ghost use Rattle.std.proofs.Common.{ap, refl};
    ghost use Rattle.std.proofs.lemmas.Bool.{false≢true};
    ghost use Rattle.mkv_disk.specs.Pair.{both};
    ghost use Rattle.mkv_host.specs.OpenedPair.{name_in};
    ghost use Rattle.mkv_host.specs.declared.pair.OpenPair.{OpenPair};

    ghost told = { false };

    ghost pair = { λ _. both [] [] };

    ghost opened = { λ disk. name_in disk.pair };

    ghost is_there = { λ _ _. false };

    ghost moment = { λ _. 0 };

    ghost left_since = { λ _ _ _ _. ⊥ };

    ghost writing_faults = { λ disk. disk.writing_faults };

    ghost contents = { λ x told. absurd (false≢true told) };

    ghost counts_now = { λ x t m s told. absurd (false≢true told) };

    ghost only_now = { λ x m s told. absurd (false≢true told) };

    ghost pair_stands = { λ a b same. refl };

    ghost moment_stands = { λ a b same. refl };

    ghost left_stands = { λ a b t m s same left. left };

    ghost opened_stands = { λ a b same. ap (λ (s : Option OpenPair × ℕ). name_in s.0) same };

    ghost writing_stands = { λ a b same. ap (λ (s : Option OpenPair × ℕ). s.1) same };

    /// Opens the edited file `name` and its journal, which is created if there is none, for `propedit`, `reindex` and
    /// `recover`. Another pair that is open is closed.
    fn open_pair(&mut self, name: &str) -> Result<(), OpenFault> {
        let (media, sidecar) = names(self.alloc, name)?;
        match open_both(self.system, media, sidecar) {
            Ok(pair) => {
                self.pair = Some(pair);
                Ok(())
            }
            Err(OpenFault::Missing) => Err(OpenFault::Missing),
            Err(_) => {
                note_failure(&mut self.reading_faults);
                Err(OpenFault::Failed)
            }
        }
    }

    /// Writes `bytes` to `file`, the edited file or the journal, from the offset `at` on, for an edit in place. Fails
    /// if its name has become another file.
    fn write_at(&mut self, file: FileId, at: u64, bytes: &[u8]) -> Result<(), Failed> {
        let open = file_of(&self.pair, file);
        let len = bytes.len() as u64;
        if at > LONGEST_FILE
            || len > LONGEST_FILE - at
            || !is_as_opened(self.system, &self.pair, file)
            || hide_record(&self.pair, file, at + len).is_err()
        {
            note_failure(&mut self.writing_faults);
            return Err(Failed);
        }
        let size = open.size.max(at + len);
        if write_from(&mut &open.file, at, bytes) < bytes.len() {
            note_failure(&mut self.writing_faults);
            return Err(Failed);
        }
        resize(&mut self.pair, file, size);
        Ok(())
    }

    /// Truncates `file`, the edited file or the journal, to `len` bytes, for an edit in place. Fails if its name has
    /// become another file.
    fn cut(&mut self, file: FileId, len: u64) -> Result<(), Failed> {
        if len > LONGEST_FILE
            || !is_as_opened(self.system, &self.pair, file)
            || file_of(&self.pair, file).file.set_len(len).is_err()
        {
            note_failure(&mut self.writing_faults);
            return Err(Failed);
        }
        resize(&mut self.pair, file, len);
        Ok(())
    }

    /// Syncs `file`, the edited file or the journal, with the device. An edit in place does this after it has written a
    /// record, a reset or the new bytes.
    fn sync(&mut self, file: FileId) -> Result<(), Failed> {
        if file_of(&self.pair, file).file.sync_all().is_err() {
            note_failure(&mut self.writing_faults);
            return Err(Failed);
        }
        match &self.pair {
            Some(open) if file != MEDIA => show_quiet(&open.sidecar, &open.media),
            _ => {}
        }
        Ok(())
    }
}
