//! A file with pending writes, and the contents that a crash may leave of it.

ghost use Rattle.std.specs.Prelude.{◌≡◌, length, OnOk, IfOk};
ghost use Rattle.mkv_disk.specs.Image.{DiskFile, clean};
ghost use Rattle.mkv_memory.specs.Changes.{CanChange};
ghost use Rattle.mkv_memory.specs.LogIn.{change_of, octets_done};

use crate::done::{Done, apply};
use std::alloc::{AllocError, Global};

/// Choice of the content that a crash leaves of a file.
#[derive(Clone, Copy)]
pub enum CrashImage {
    /// Content that reads return
    AsRead,
    /// Content at the last sync
    AsSynced,
    /// Content that reads return, with FF in each byte that was written since the last sync
    Blotted,
    /// Content with the least length since the last sync. Bytes at odd offsets are as at that sync, the others as read.
    Mixed,
}

/// Range of offsets in a file, from `from` up to but excluding `to`.
#[derive(Clone, Copy)]
pub struct Span {
    pub from: u64,
    pub to: u64,
}

/// File with pending writes: its content as read, its content at the last sync, its least length since, and the ranges
/// written since.
#[derive(Drop)]
pub struct Pending {
    pub reads: Vec<u8>,
    pub synced: Vec<u8>,
    pub least: u64,
    pub written: Vec<Span>,
}

impl Pending {
    ghost use Rattle.mkv_memory.specs.Images.{ff_where, image_of, mix};
    ghost use Rattle.mkv_memory.specs.Shows.{IsChanged, Shows, is_noted};

    /// Returns a file with the content `octets` and no pending write. The log is replayed on it.
    pub fn new(alloc: Global, octets: &[u8]) -> Result<Pending, AllocError>
        ensures { IfOk result (λ file. Shows file (clean octets.now)) }
    {
        Ok(Pending {
            reads: octets.to_vec(alloc)?,
            synced: octets.to_vec(alloc)?,
            least: octets.len() as u64,
            written: Vec::new(alloc),
        })
    }

    /// Changes the file by `done`: writes `bytes`, truncates it, or syncs it. Until a sync, it notes the changes that a
    /// crash may undo. Called for each logged call on the file.
    pub fn make(&mut self, done: Done, bytes: &[u8]) -> Result<(), AllocError>
        requires count { length bytes.now ≡ octets_done done }
        requires inside { CanChange (change_of done bytes.now) self.old.reads.items }
        ensures { OnOk result (IsChanged self.old self.new (change_of done bytes.now)) }
    {
        apply(&mut self.reads, done, bytes)?;
        match done {
            Done::Wrote { at, len } => {
                let to = at + len as u64;
                self.written.push(Span { from: at, to })?;
            }
            Done::Cut { len } => self.least = self.least.min(len),
            Done::Synced => {
                self.synced.clear();
                self.synced.extend_from_slice(&self.reads)?;
                self.least = self.reads.len() as u64;
                self.written.clear();
            }
        }
        Ok(())
    }

    /// Returns the content that a crash leaves of the file, chosen by `left`. `MemDisk::crashed` calls it.
    pub fn image(&self, alloc: Global, left: CrashImage) -> Result<Vec<u8>, AllocError>
        ensures { IfOk result (λ octets. (f : DiskFile) → Shows self.now f → octets.items ≡ image_of left f) }
    {
        match left {
            CrashImage::AsRead => self.reads.to_vec(alloc),
            CrashImage::AsSynced => self.synced.to_vec(alloc),
            CrashImage::Blotted => self.blotted(alloc),
            CrashImage::Mixed => self.mixed(alloc),
        }
    }

    /// Checks whether the byte at the offset `k` of the file was written since the last sync. `blotted` calls it.
    fn is_written(&self, k: u64) -> bool
        ensures { result ≡ is_noted self.now.written.items k }
    {
        self.written
            .iter()
            .any(|span| span.from <= k && k < span.to)
    }

    /// Returns the content of the file as read, with the byte FF at each offset that was written since the last sync.
    /// `image` calls it.
    fn blotted(&self, alloc: Global) -> Result<Vec<u8>, AllocError>
        ensures { IfOk result (λ octets. octets.items ≡ ff_where (is_noted self.now.written.items) self.now.reads.items) }
    {
        self.reads
            .iter()
            .enumerate()
            .map(|(k, octet)| if self.is_written(k as u64) {
                0xFF
            } else {
                *octet
            })
            .collect(alloc)
    }

    /// Returns the content of the file with the least length since the last sync. Bytes at odd offsets are as at that
    /// sync, the others as read. `image` calls it.
    fn mixed(&self, alloc: Global) -> Result<Vec<u8>, AllocError>
        ensures { IfOk result (λ octets. octets.items ≡ mix self.now.least self.now.reads.items self.now.synced.items) }
    {
        self.reads
            .iter()
            .zip(&self.synced)
            .take(self.least as usize)
            .enumerate()
            .map(|(k, (read, synced))| if k % 2 == 1 { *synced } else { *read })
            .collect(alloc)
    }
}
