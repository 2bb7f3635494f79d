//! Bytes that a file takes in parts.

use mkv_host::{WriteAt, write_from};
use std::cmp::min;
use std::io;
use std::io::ErrorKind;

/// File of the test `a_short_write_goes_on` that takes three bytes a call, is interrupted at every second call, and has
/// room for `room` more bytes.
#[derive(Drop)]
struct Slow {
    kept: Vec<u8>,
    room: usize,
    calls: u32,
}

impl WriteAt for Slow {
    ghost use Rattle.std.specs.Prelude.{None};

    ghost content = { λ _. None };

    /// Writes at most three of `bytes` at the offset `at`, and returns their number. Every second call is interrupted,
    /// and without room it fails.
    fn write_at(&mut self, bytes: &[u8], at: u64) -> io::Result<usize> {
        self.calls = self.calls.saturating_add(1);
        if self.calls % 2 == 0 {
            return Err(ErrorKind::Interrupted.into());
        }
        let count = min(bytes.len(), min(self.room, 3));
        if at != self.kept.len() as u64 || count == 0 {
            return Err(ErrorKind::BrokenPipe.into());
        }
        if self.kept.extend_from_slice(&bytes[..count]).is_err() {
            return Err(ErrorKind::OutOfMemory.into());
        }
        self.room -= count;
        Ok(count)
    }
}

#[test]
fn a_short_write_goes_on(rt: HostRuntime) {
    let mut file = Slow {
        kept: Vec::new(rt.alloc()),
        room: 13,
        calls: 0,
    };
    assert_eq!(rt; write_from(&mut file, 0, b"Matroska"), 8);
    assert_eq!(rt; file.kept.as_slice(), b"Matroska".as_slice());

    // The write fails after five more bytes; then there is room, and the next bytes follow.
    assert_eq!(rt; write_from(&mut file, 8, b" and WebM"), 5);
    assert_eq!(rt; file.kept.as_slice(), b"Matroska and ".as_slice());
    assert_eq!(rt; write_from(&mut file, 13, b"WebM"), 0);
    file.room = 4;
    assert_eq!(rt; write_from(&mut file, 13, b"WebM"), 4);
    assert_eq!(rt; file.kept.as_slice(), b"Matroska and WebM".as_slice());
}
