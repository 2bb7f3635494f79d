//! Files that are read.

ghost use Rattle.std.specs.Prelude.{◌≡◌, ℕ, ◌+◌, ◌≤◌, Bool, true, List, length, Option, OnOk, IsTrue};
ghost use Rattle.mkv_io.specs.Faults.{HasCause, is_failure};
ghost use Rattle.mkv_io.specs.LiveFiles.{LiveFiles};
ghost use Rattle.mkv_io.specs.Told.{AreOctetsFrom, Counts, IfVisible};
ghost use Rattle.mkv_io.specs.declared.outside.TheConstants.{LONGEST_FILE};

use crate::outside::{Failed, FileId};

/// Live files, each with a number, whose bytes can be read at any offset.
///
/// The value `standing` is all that reading doesn't change. The numbers of the live files, their sizes and their
/// contents are functions of it. So are the additions of traits that extend this one. A content may be visible to the
/// proof or not: the content of a file in memory is, the content of a real file isn't.
pub trait Reads {
    /// Everything that reading doesn't change.
    ghost Standing: { Type 0 };

    ghost standing: { Self → Standing };

    /// Numbers of the live files, their lengths in bytes, and their contents if these are visible to the proof.
    ghost files: { Standing → LiveFiles };

    /// Number of calls that failed to open or read a file.
    ghost reading_faults: { Self → ℕ };

    /// Number of bytes that were read.
    ghost octets_read: { Self → ℕ };

    /// Returns the length of the live file `file`, in bytes. Readers use it to stay within the file.
    fn size(&self, file: FileId) -> u64
        requires { IsTrue ((files (standing self.now)).live file.n) }
        ensures exact { result ≡ (files (standing self.now)).size file.n }
        ensures most { result ≤ LONGEST_FILE };

    /// Fills `into` with the bytes of the live file `file` from the offset `at`. All readers use it. After `Failed` the
    /// bytes of `into` may be anything.
    fn read_at(&mut self, file: FileId, at: u64, into: &mut [u8]) -> Result<(), Failed>
        requires live { IsTrue ((files (standing self.old)).live file.n) }
        requires range { at + length into.old ≤ (files (standing self.old)).size file.n }
        ensures standing { standing self.new ≡ standing self.old }
        ensures ok { OnOk result (AreOctetsFrom ((files (standing self.old)).content file.n) at into.old into.new) }
        ensures cause { HasCause is_failure (reading_faults self.old) (reading_faults self.new) result }

        // The count of bytes never falls. It grows by the length of `into` if the content is visible to the proof.
        ensures octets_least { octets_read self.old ≤ octets_read self.new }
        ensures octets_most { octets_read self.new ≤ octets_read self.old + length into.old }
        ensures octets { OnOk result (Counts (files (standing self.old)) file octets_read self.old self.new into.old) };

    /// A content that is visible to the proof has the file's length.
    ghost told_size: { (s : Standing) (file : ℕ) → IfVisible ((files s).content file) (λ bytes. length bytes ≡ (files s).size file) };

    /// No live file is longer than 2^48 bytes.
    ghost short: { (x : Self) (file : ℕ) → (files (standing x)).live file ≡ true → (files (standing x)).size file ≤ LONGEST_FILE };
}
