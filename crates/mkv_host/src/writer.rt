//! Writing of all bytes at an offset of a file, although the system may write less than was passed.

ghost use Rattle.std.specs.Prelude.{◌≡◌, ℕ, ◌≤◌, List, length, take, Option, unwrap_or, IfOk, IfSome, OnErr};
ghost use Rattle.mkv_io.specs.Contents.{with_overwritten};
ghost use Rattle.mkv_io.specs.Told.{IfVisible};
ghost use Rattle.mkv_host.specs.Written.{IsOverwritten};
ghost use Rattle.mkv_io.specs.declared.outside.TheConstants.{LONGEST_FILE};

use std::fs::File;
use std::io;
use std::io::ErrorKind;
use std::os::unix::fs::FileExt;

/// File that can be written at an offset. A call may write only the first of the bytes.
pub trait WriteAt {
    /// Bytes of the file, if they are visible to the proof.
    ghost content: { Self → Option (List ℕ) };

    /// Writes the first of `bytes` at the offset `at`, and returns their number. `write_some` calls it.
    fn write_at(&mut self, bytes: &[u8], at: u64) -> io::Result<usize>
        ensures most { IfOk result (λ count. count ≤ length bytes.now) }
        ensures ok { IfOk result (λ count. content self.new ≡ with_overwritten at (take count bytes.now) (content self.old)) }
        ensures err { OnErr result (content self.new ≡ content self.old) };
}

impl<'a> WriteAt for &'a File {
    ghost use Rattle.std.specs.Prelude.{None};

    ghost content = { λ _. None };

    /// Writes the first of `bytes` at the offset `at` of the file, by a call of the system, and returns their number.
    fn write_at(&mut self, bytes: &[u8], at: u64) -> io::Result<usize> {
        FileExt::write_at(*self, bytes, at)
    }
}

/// Writes the first of `bytes` to `file` at the offset `at`, and returns their number. It is 0 if the call was
/// interrupted, and None if another call would be in vain. `write_from` calls it until it returns None.
fn write_some<W: WriteAt>(file: &mut W, at: u64, bytes: &[u8]) -> Option<usize>
    ensures most { IfSome result (λ count. count ≤ length bytes.now) }
    ensures first { W.content file.new ≡ with_overwritten at (take (unwrap_or result 0) bytes.now) (W.content file.old) }
{
    match file.write_at(bytes, at) {
        Ok(0) => None,
        Ok(count) => Some(count),
        Err(error) if error.kind() == ErrorKind::Interrupted => Some(0),
        Err(_) => None,
    }
}

/// Writes `bytes` to `file` at the offset `at` until the system fails or writes nothing, and returns the number of
/// written bytes. All were written only if it is the length of `bytes`. Every write to an output, an edited file or a
/// journal uses it.
pub fn write_from<W: WriteAt>(file: &mut W, at: u64, bytes: &[u8]) -> usize
    requires { at ≤ LONGEST_FILE }
    ensures most { result ≤ length bytes.now }
    ensures first { IfVisible (W.content file.old) (λ was. IsOverwritten was at (take result bytes.now) (W.content file.new)) }
{
    let mut written = 0;
    for _ in 0..u64::MAX {
        if written == bytes.len() {
            break;
        }
        match write_some(file, at + written as u64, &bytes[written..]) {
            Some(count) => written += count,
            None => break,
        }
    }
    written
}
