//! The two files of a disk in memory, with a log of all calls that changed them.

ghost use Rattle.std.specs.Prelude.{◌≡◌, ◌+◌, ◌≤◌, ℕ, [], length, vec_capacity, IfOk, IsTrue};
ghost use Rattle.mkv_disk.specs.Pair.{both, file_of};
ghost use Rattle.mkv_memory.specs.Changes.{CanChange, CanReplay, pair_of};
ghost use Rattle.mkv_memory.specs.Logged.{and_then, has_room, unchanged};
ghost use Rattle.mkv_memory.specs.LogIn.{change_of, file_replayed, is_same, made_in, octets_by, octets_done};
ghost use Rattle.mkv_memory.specs.Shows.{Shows};

use crate::done::{Call, Done, apply, octets_done};
use crate::pending::Pending;
use mkv_disk::MEDIA;
use mkv_io::FileId;
use std::alloc::{AllocError, Global};
use std::marker::Model;

/// Room for calls that change a file, and for the bytes that they write, in the log.
#[derive(Clone, Copy)]
pub struct CallBudget {
    pub calls: u32,
    pub octets: u64,
}

/// The two files of a disk as they were at first, their contents now, and a log of all calls in between. All memory for
/// the log is reserved at first.
#[derive(Drop)]
pub struct LoggedPair {
    first_media: Vec<u8>,
    first_sidecar: Vec<u8>,
    media: Vec<u8>,
    sidecar: Vec<u8>,
    calls: Vec<Call>,
    /// Bytes that the calls wrote, concatenated.
    octets: Vec<u8>,
    room: CallBudget,
}

impl Model for LoggedPair {
    ghost use Rattle.mkv_memory.specs.Logged.{Logged};
    ghost use Rattle.mkv_memory.specs.LogIn.{IsLogOf, logged};

    ghost Value = { Logged };

    ghost view = { λ p. logged p.first_media.items p.first_sidecar.items p.calls.items p.octets.items p.room };

    ghost invariant = { λ p. IsLogOf (logged p.first_media.items p.first_sidecar.items p.calls.items p.octets.items p.room) p.media p.sidecar p.octets p.calls };
}

impl LoggedPair {
    /// Returns the edited file with the content `media` and the journal with the content `sidecar`, with room for
    /// `room` calls and bytes. `MemDisk::new` calls it.
    pub fn new(
        alloc: Global,
        media: &[u8],
        sidecar: &[u8],
        room: CallBudget,
    ) -> Result<LoggedPair, AllocError>
        ensures { IfOk result (λ pair. pair ≡ unchanged media.now sidecar.now room) }
    {
        Ok(LoggedPair {
            first_media: media.to_vec(alloc)?,
            first_sidecar: sidecar.to_vec(alloc)?,
            media: with_room(alloc, media, room.octets)?,
            sidecar: with_room(alloc, sidecar, room.octets)?,
            calls: Vec::with_capacity(alloc, room.calls as usize)?,
            octets: Vec::with_capacity(alloc, room.octets as usize)?,
            room,
        })
    }

    /// Returns the room for calls and bytes that was reserved at first. A disk after a crash gets the same. Used by
    /// `new`, `with_room` and others.
    pub fn room(&self) -> CallBudget
        ensures { result ≡ self.now.room }
    {
        self.room
    }

    /// Returns the content of `file`, as reads return it: the edited file for MEDIA, and the journal otherwise.
    /// `MemDisk::read_at` and `size` call it.
    pub fn reads(&self, file: FileId) -> &[u8]
        ensures { result.now ≡ (file_of file.n (pair_of self.now.history)).reads }
    {
        if file == MEDIA {
            self.media.as_slice()
        } else {
            self.sidecar.as_slice()
        }
    }

    /// Checks whether there is room for one more call that writes `octets` bytes. `MemDisk::make` calls it before it
    /// makes a change.
    pub fn has_room(&self, octets: usize) -> bool
        ensures { result ≡ has_room self.now octets }
    {
        self.calls.len() < self.room.calls as usize
            && octets as u64 <= self.room.octets - self.octets.len() as u64
    }

    /// Returns the file `file` with its pending writes, the ones that a crash may undo. `MemDisk::crashed` calls it for
    /// both files.
    pub fn pending(&self, alloc: Global, file: FileId) -> Result<Pending, AllocError>
        ensures { IfOk result (λ pending. Shows pending (file_of file.n (pair_of self.now.history))) }
    {
        let (media, sidecar) = (self.first_media.as_slice(), self.first_sidecar.as_slice());
        replayed(alloc, media, sidecar, &self.calls, &self.octets, file)
    }

    /// Applies the effect `done` with the bytes `bytes` to `file`, and logs it. `MemDisk::make` calls it if the call
    /// doesn't fail and there is room.
    pub fn make(&mut self, file: FileId, done: Done, bytes: &[u8])
        requires count { length bytes.now ≡ octets_done done }
        requires inside { CanChange (change_of done bytes.now) (file_of file.n (pair_of self.old.history)).reads }
        requires room { IsTrue (has_room self.old (length bytes.now)) }
        ensures { self.new ≡ and_then self.old file.n (change_of done bytes.now) }
    {
        self.octets.extend_from_slice(bytes).unwrap();
        self.calls.push(Call { file, done }).unwrap();
        if file == MEDIA {
            apply(&mut self.media, done, bytes).unwrap();
        } else {
            apply(&mut self.sidecar, done, bytes).unwrap();
        }
    }
}

/// Returns the file `file`, after the calls `calls`, which wrote the bytes `octets` in sequence. The two files had the
/// contents `media` and `sidecar` at first. `pending` calls it.
fn replayed(
    alloc: Global,
    media: &[u8],
    sidecar: &[u8],
    calls: &[Call],
    octets: &[u8],
    file: FileId,
) -> Result<Pending, AllocError>
    requires count { length octets.now ≡ octets_by calls.now }
    requires can { CanReplay (made_in calls.now octets.now) (both media.now sidecar.now) }
    ensures { IfOk result (λ pending. Shows pending (file_replayed file.n media.now sidecar.now calls.now octets.now)) }
{
    let mut pending = Pending::new(alloc, if file == MEDIA { media } else { sidecar })?;
    let mut rest = octets;
    for call in calls {
        let (bytes, behind) = rest.split_at(octets_done(call.done));
        if is_same(call.file, file) {
            pending.make(call.done, bytes)?;
        }
        rest = behind;
    }
    Ok(pending)
}

/// Checks whether the numbers `file` and `other` name one file of the two: 0 the edited file, another number the
/// journal. `replayed` calls it.
fn is_same(file: FileId, other: FileId) -> bool
    ensures { result ≡ is_same file.n other.n }
{
    (file == MEDIA) == (other == MEDIA)
}

/// Returns a copy of `bytes` with room for `more` bytes after them. `LoggedPair::new` calls it for each file.
fn with_room(alloc: Global, bytes: &[u8], more: u64) -> Result<Vec<u8>, AllocError>
    ensures items { IfOk result (λ octets. octets.items ≡ bytes.now) }
    ensures room { IfOk result (λ octets. length bytes.now + more ≤ vec_capacity octets) }
{
    let Some(room) = bytes.len().checked_add(more as usize) else {
        return Err(AllocError);
    };
    let mut octets = Vec::with_capacity(alloc, room)?;
    octets.extend_from_slice(bytes).unwrap();
    Ok(octets)
}
