//! The part of a file that a buffer holds, and reading ahead into it.

ghost use Rattle.std.specs.Prelude.{◌≡◌, ◌+◌, ◌-◌, ◌≤◌, ◌⊎◌, length, take, IfOk, OnOk, OnErr, IsTrue, ◌↔◌};
ghost use Rattle.mkv_io.specs.Contents.{octets_from};
ghost use Rattle.mkv_io.specs.Faults.{HasCause, is_failure};
ghost use Rattle.mkv_io.specs.Sources.{IfTold, IsLive, OnlyReads, file_size};
ghost use Rattle.mkv_schema.specs.Element.{element_at};
ghost use Rattle.elements.specs.Parent.{setting_of};
ghost use Rattle.elements.specs.Held.{BeginsWith};
ghost use Rattle.elements.specs.Looks.{FindsAt, IsFound};
ghost use Rattle.elements.specs.Window.{HasRange, front_from, header_room, held_from, kept_from, wanted_at};
ghost use Rattle.mkv_io.specs.Bounds.{ReadsOf};

use crate::LITTLE;
use crate::header::read_header;
use crate::parent::Parent;
use mkv_io::{Damage, Failed, FileId, Reads};
use mkv_schema::Header;
use mkv_schema::limits::MAX_ELEMENT_HEADER_LEN;

/// Byte range of a file that the start of a buffer holds.
#[derive(Clone, Copy)]
pub struct BufferedRange {
    /// Offset in bytes of the range from the start of the file.
    pub at: u64,
    /// Number of bytes in the range.
    pub len: usize,
}

impl BufferedRange {
    ghost use Rattle.elements.specs.Held.{GoesIn, HoldsIn, HoldsWanted, KeepsFrom, LooksHeader, LooksIn, ReadsBehind, held_in};

    /// Checks whether `buffer` holds the `len` bytes from the offset `at` of the file. For `hold` and `Window::has`,
    /// when a reader looks up bytes of a file.
    pub fn has(self, at: u64, len: usize, buffer: &[u8]) -> bool
        requires { self.len ≤ length buffer.now }
        ensures { IsTrue result ↔ HasRange (held_in self buffer.now) at len }
    {
        self.at <= at
            && at - self.at <= self.len as u64
            && len <= self.len - (at - self.at) as usize
    }

    /// Returns the `len` bytes from the offset `at` of the file, which `buffer` holds. For `element` and
    /// `Window::octets_at`, when a reader looks up bytes of a file.
    pub fn octets_at(self, at: u64, len: usize, buffer: &[u8]) -> &[u8]
        requires inside { self.len ≤ length buffer.now }
        requires range { HasRange (held_in self buffer.now) at len }
        ensures { result.now ≡ octets_from (held_in self buffer.now).octets (at - self.at) len }
    {
        let start = (at - self.at) as usize;
        &buffer[start..start + len]
    }

    /// Returns the bytes that `buffer` holds from the offset `at` of the file on, at most `most` of them. For
    /// `Window::front_at`, when a reader looks up bytes of a file.
    pub fn front_at(self, at: u64, most: usize, buffer: &[u8]) -> &[u8]
        requires { self.len ≤ length buffer.now }
        ensures exact { result.now ≡ take most (front_from (held_in self buffer.now) at) }
    {
        if at < self.at {
            return &buffer[..0];
        }
        let start = (at - self.at).min(self.len as u64) as usize;
        let count = most.min(self.len - start);
        &buffer[start..start + count]
    }

    // Returns the number of bytes to hold from the offset `at` on if `len` bytes are requested, for a buffer of `room`
    // bytes. A walk in small steps gets more with each read, and a long jump only a few. For `hold`, when a reader
    // looks up bytes of a file.
    fn wanted_at(self, room: usize, at: u64, len: usize, buffer: &[u8]) -> usize
        requires { self.len ≤ length buffer.now }
        ensures exact { result ≡ wanted_at room (held_in self buffer.now) at len }
        ensures least { len ≤ room → len ≤ result }
        ensures most { result ≤ room }
    {
        let jump = at.saturating_sub(self.at).saturating_sub(self.len as u64);
        let least = len.saturating_add(LITTLE);
        if jump > self.len as u64 {
            room.min(least)
        } else {
            room.min(least.max(self.len.saturating_mul(2)))
        }
    }

    /// Returns the number of bytes that `buffer` holds from the offset `at` of a file of `total` bytes on, and so
    /// needn't be read again. For `move_to`, and for windows that copy what they hold.
    pub fn kept_at(self, at: u64, total: u64, buffer: &[u8]) -> usize
        requires fits { self.len ≤ length buffer.now }
        requires inside { at ≤ total }
        ensures exact { result ≡ length (kept_from (held_in self buffer.now) total at) }
        ensures held { (result ≡ 0) ⊎ HasRange (held_in self buffer.now) at result }
        ensures within { result ≤ total - at }
    {
        if at < self.at {
            return 0;
        }
        let kept = (self.len as u64).saturating_sub(at - self.at);
        if kept > total - at { 0 } else { kept as usize }
    }

    // Moves the range to the offset `at` of a file of `total` bytes, and keeps the bytes that `buffer` holds from there
    // on. For `hold`, when a reader looks up bytes of a file.
    fn move_to(&mut self, at: u64, total: u64, buffer: &mut [u8])
        requires fits { self.old.len ≤ length buffer.old }
        requires inside { at ≤ total }
        ensures keeps { KeepsFrom at total self.old buffer.old self.new buffer.new }
        ensures place { self.new.at ≡ at }
        ensures count { self.new.len ≡ length (kept_from (held_in self.old buffer.old) total at) }
        ensures held { (self.new.len ≡ 0) ⊎ HasRange (held_in self.old buffer.old) at self.new.len }
        ensures within { self.new.len ≤ total - at }
        ensures fits { self.new.len ≤ length buffer.new }
        ensures room { length buffer.new ≡ length buffer.old }
    {
        let kept = self.kept_at(at, total, buffer);
        let end = self.len;
        buffer.copy_within(end - kept..end, 0);
        *self = BufferedRange { at, len: kept };
    }

    // Reads bytes of `file` after the range into `buffer`, until it has `wanted` bytes or reaches the end of the file.
    // After a failed read nothing is held. For `hold`, when a reader looks up bytes of a file.
    fn read_on<R: Reads>(
        &mut self,
        buffer: &mut [u8],
        src: &mut R,
        file: FileId,
        wanted: usize,
    ) -> Result<(), Failed>
        requires live { IsLive R.Reads src.old file }
        requires inside { self.old.at + self.old.len ≤ file_size R.Reads src.old file }
        requires more { self.old.len ≤ wanted }
        requires room { wanted ≤ length buffer.old }
        requires holds { HoldsIn R.Reads file src.old self.old buffer.old }
        ensures ok { OnOk result (HoldsWanted wanted (file_size R.Reads src.old file) self.old self.new) }
        ensures err { OnErr result (self.new ≡ record { at = self.old.at; len = 0 }) }
        ensures holds { HoldsIn R.Reads file src.old self.new buffer.new }
        ensures room { length buffer.new ≡ length buffer.old }
        ensures same { OnlyReads R.Reads src.old src.new }
        ensures cause { HasCause is_failure (R.reading_faults src.old) (R.reading_faults src.new) result }
        ensures octets { ReadsBehind R.Reads file wanted self.old src.old src.new }
    {
        let BufferedRange { at, len } = *self;
        *self = BufferedRange { at, len: 0 };
        let count = read_ahead(src, file, at + len as u64, &mut buffer[len..wanted])?;
        *self = BufferedRange {
            at,
            len: len + count,
        };
        Ok(())
    }

    /// Copies `octets`, which are at the offset `at` of the file, to the start of `buffer`, and returns their range.
    /// For `Window::set`, with the bytes that were read after an Element's data.
    pub fn put(at: u64, octets: &[u8], buffer: &mut [u8]) -> BufferedRange
        requires { length octets.now ≤ length buffer.old }
        ensures exact { held_in result buffer.new ≡ record { at = at; octets = octets.now } }
        ensures fits { result.len ≤ length buffer.new }
        ensures room { length buffer.new ≡ length buffer.old }
    {
        buffer[..octets.len()].copy_from_slice(octets);
        BufferedRange {
            at,
            len: octets.len(),
        }
    }

    /// Makes `buffer` hold the `len` bytes from the offset `at` of `file`. Bytes that it holds already aren't read
    /// again. For `element` and the window of 65,536 bytes.
    pub fn hold<R: Reads>(
        &mut self,
        buffer: &mut [u8],
        src: &mut R,
        file: FileId,
        at: u64,
        len: usize,
    ) -> Result<(), Failed>
        requires live { IsLive R.Reads src.old file }
        requires few { len ≤ length buffer.old }
        requires range { at + len ≤ file_size R.Reads src.old file }
        requires holds { HoldsIn R.Reads file src.old self.old buffer.old }
        ensures looks { LooksIn R.Reads file at len self.old buffer.old self.new buffer.new src.old src.new result }
        ensures holds { HoldsIn R.Reads file src.old self.new buffer.new }
        ensures same { OnlyReads R.Reads src.old src.new }
        ensures cause { HasCause is_failure (R.reading_faults src.old) (R.reading_faults src.new) result }
        ensures goes { GoesIn R.Reads file at self.old buffer.old self.new buffer.new src.old src.new result }
    {
        if self.has(at, len, buffer) {
            return Ok(());
        }
        let wanted = self.wanted_at(buffer.len(), at, len, buffer);
        self.move_to(at, src.size(file), buffer);
        self.read_on(buffer, src, file, wanted)
    }

    /// Returns the header of the Element at the offset `at` of `file`, in a parent that ends at the offset `end`. The
    /// inner error is its damage. The bytes are read through `buffer`. For windows that look up headers.
    pub fn element<R: Reads>(
        &mut self,
        buffer: &mut [u8],
        src: &mut R,
        file: FileId,
        parent: Parent,
        at: u64,
        end: u64,
    ) -> Result<Result<Header, Damage>, Failed>
        requires live { IsLive R.Reads src.old file }
        requires few { MAX_ELEMENT_HEADER_LEN ≤ length buffer.old }
        requires place { at ≤ end }
        requires within { end ≤ file_size R.Reads src.old file }
        requires holds { HoldsIn R.Reads file src.old self.old buffer.old }
        ensures ok { FindsAt R.Reads src.old file (setting_of parent) at end result }
        ensures placed { IfOk result (λ found. IfOk found (IsFound (setting_of parent) at end)) }
        ensures looks { LooksHeader R.Reads file at end self.old buffer.old self.new buffer.new src.old src.new result }
        ensures holds { HoldsIn R.Reads file src.old self.new buffer.new }
        ensures same { OnlyReads R.Reads src.old src.new }
        ensures cause { HasCause is_failure (R.reading_faults src.old) (R.reading_faults src.new) result }
        ensures goes { GoesIn R.Reads file at self.old buffer.old self.new buffer.new src.old src.new result }
    {
        let len = header_room(at, end) as usize;
        self.hold(buffer, src, file, at, len)?;
        let total = src.size(file);
        let octets = self.octets_at(at, len, buffer);
        Ok(read_header(octets, parent, total, at, end))
    }
}

// Returns the greatest length in bytes of a header at the offset `at`, in a parent that ends at the offset `end`. For
// `element`, when a reader looks up bytes of a file.
fn header_room(at: u64, end: u64) -> u64
    requires { at ≤ end }
    ensures { result ≡ header_room at end }
{
    (end - at).min(MAX_ELEMENT_HEADER_LEN)
}

// Fills `buffer` with bytes of `file` from the offset `at` on, up to the end of the file at most. Returns the number of
// bytes. For `read_on`, when a reader looks up bytes of a file.
#[tactic(auto, using(std::proofs::lemmas::List::take_at))]
fn read_ahead<R: Reads>(
    src: &mut R,
    file: FileId,
    at: u64,
    buffer: &mut [u8],
) -> Result<usize, Failed>
    requires live { IsLive R.Reads src.old file }
    requires inside { at ≤ file_size R.Reads src.old file }
    ensures count { IfOk result (λ count. count ≡ held_from (length buffer.old) (file_size R.Reads src.old file) at) }
    ensures ok { IfOk result (BeginsWith R.Reads src.old file at buffer.new) }
    ensures same { OnlyReads R.Reads src.old src.new }
    ensures cause { HasCause is_failure (R.reading_faults src.old) (R.reading_faults src.new) result }
    ensures octets { ReadsOf R.Reads src.old src.new file (λ size. held_from (length buffer.old) size at) }
{
    let left = src.size(file) - at;
    let count = left.min(buffer.len() as u64) as usize;
    src.read_at(file, at, &mut buffer[..count])?;
    Ok(count)
}
