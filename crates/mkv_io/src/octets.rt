//! Bytes and text in memory, which contracts see as lists of bytes.

ghost use Rattle.std.specs.Prelude.{◌≡◌, ◌+◌, ◌<◌, ◌≤◌, ◌^◌, [], ◌++◌, length, take, drop, OnOk, OnErr, IfOk, IsTrue, ◌↔◌};
ghost use Rattle.std.specs.String.{string_bytes};
ghost use Rattle.std.specs.Str.{IsUtf8};

use std::alloc::{AllocError, Global};
use std::marker::Model;

/// Bytes that grow at the end.
#[derive(Clone, Debug, Drop)]
pub struct Bytes {
    octets: Vec<u8>,
}

impl Model for Bytes {
    ghost use Rattle.std.specs.Prelude.{List, ℕ};

    ghost Value = { List ℕ };

    ghost view = { λ b. b.octets.items };
}

impl Bytes {
    /// Returns a buffer without bytes. Doesn't allocate. Used by all crates for bytes in memory.
    pub fn new(alloc: Global) -> Self
        ensures { result ≡ [] }
    {
        Bytes {
            octets: Vec::new(alloc),
        }
    }

    /// Returns an empty buffer with memory for `room` bytes, for an output that is written or a journal that is
    /// planned.
    pub fn with_room(alloc: Global, room: usize) -> Result<Bytes, AllocError>
        ensures { IfOk result (λ bytes. bytes ≡ []) }
    {
        Ok(Bytes {
            octets: Vec::with_capacity(alloc, room)?,
        })
    }

    /// Makes a buffer of the bytes of `octets`, which it takes, without allocating. Used for contents that were read.
    pub fn from_vec(octets: Vec<u8>) -> Self
        ensures { result ≡ octets.items }
    {
        Bytes { octets }
    }

    /// Returns the bytes of the buffer, which it takes, as a vector, without allocating. Used to append without a copy.
    pub fn into_vec(self) -> Vec<u8>
        ensures { result.items ≡ self }
    {
        self.octets
    }

    /// Returns the number of bytes in the buffer. Used by all crates.
    pub fn len(&self) -> usize
        ensures exact { result ≡ length self.now }
        ensures most { result < 2 ^ 63 }
    {
        self.octets.len()
    }

    /// Checks whether the buffer has no bytes. Used by all crates.
    pub fn is_empty(&self) -> bool
        ensures { IsTrue result ↔ (self.now ≡ []) }
    {
        self.octets.is_empty()
    }

    /// Returns a reference to the bytes of the buffer, to read or to write them to a file.
    pub fn as_slice(&self) -> &[u8]
        ensures { result.now ≡ self.now }
    {
        self.octets.as_slice()
    }

    /// Appends `bytes` to the buffer. If memory runs out, the buffer stays as it was. Used by all writers.
    pub fn append(&mut self, bytes: &[u8]) -> Result<(), AllocError>
        ensures ok { OnOk result (self.new ≡ self.old ++ bytes.now) }
        ensures err { OnErr result (self.new ≡ self.old) }
    {
        self.octets.extend_from_slice(bytes)
    }

    /// Writes `bytes` over the same number of bytes of the buffer, from the offset `at`. Used by files in memory.
    pub fn overwrite(&mut self, at: usize, bytes: &[u8])
        requires { at + length bytes.now ≤ length self.old }
        ensures { self.new ≡ take at self.old ++ (bytes.now ++ drop (at + length bytes.now) self.old) }
    {
        self.octets[at..at + bytes.len()].copy_from_slice(bytes);
    }

    /// Keeps only the first `len` bytes of the buffer, to reuse it. The memory stays reserved.
    pub fn truncate(&mut self, len: usize)
        requires { len ≤ length self.old }
        ensures { self.new ≡ take len self.old }
    {
        self.octets.truncate(len);
    }

    /// Removes all bytes of the buffer, to reuse it. The memory stays reserved.
    pub fn clear(&mut self)
        ensures { self.new ≡ [] }
    {
        self.octets.clear();
    }
}

/// UTF-8 text that grows at the end. Contracts see its bytes.
#[derive(Clone, Debug, Drop)]
pub struct Text {
    text: String,
}

impl Model for Text {
    ghost use Rattle.std.specs.Prelude.{List, ℕ};
    ghost use Rattle.std.specs.String.{string_bytes};

    ghost Value = { List ℕ };

    ghost view = { λ t. string_bytes t.text };
}

impl Text {
    /// Returns an empty text. Doesn't allocate. Used by all crates for names, titles and other UTF-8 text in memory.
    pub fn new(alloc: Global) -> Self
        ensures { result ≡ [] }
    {
        Text {
            text: String::new(alloc),
        }
    }

    /// Makes a text of `text`, which it takes, without allocating. Used for titles, printed lines, and the names of
    /// parts.
    pub fn from_string(text: String) -> Self
        ensures { result ≡ string_bytes text }
    {
        Text { text }
    }

    /// Returns the number of bytes of the text, not of its characters. Used by all crates.
    pub fn len(&self) -> usize
        ensures exact { result ≡ length self.now }
        ensures most { result < 2 ^ 63 }
    {
        self.text.len()
    }

    /// Checks whether the text is empty. Used by all crates.
    pub fn is_empty(&self) -> bool
        ensures { IsTrue result ↔ (self.now ≡ []) }
    {
        self.text.is_empty()
    }

    /// Returns a reference to the text, to compare it, print it or copy it to an output. Used by `apply` of
    /// `edit_changes` and others.
    pub fn as_str(&self) -> &str
        ensures same { result.now ≡ self.now }
        ensures utf8 { IsUtf8 self.now }
    {
        self.text.as_str()
    }

    /// Appends `text` to the text. If memory runs out, the text stays as it was. Used by all crates.
    pub fn append(&mut self, text: &str) -> Result<(), AllocError>
        ensures ok { OnOk result (self.new ≡ self.old ++ text.now) }
        ensures err { OnErr result (self.new ≡ self.old) }
    {
        self.text.push_str(text)
    }
}
