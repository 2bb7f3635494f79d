//! Writing of SubRip, in this project's grammar.

ghost use Rattle.std.specs.Prelude.{◌≡◌, ◌++◌, ◌<◌, ◌^◌, OnOk, OnErr};
ghost use Rattle.text_formats.specs.Writing as spec;

use crate::pieces::{Piece, put_pieces};
use mkv_io::Bytes;
use std::alloc::AllocError;

/// Appends to `out` an entry of SubRip: its number, its times, its text and an empty line. `extract` writes a subtitle
/// track with it. `start` and `duration` are in nanoseconds; a time before 0 is written as 0. On failure nothing is
/// appended.
#[tactic(auto, using(crate::proofs::WritingLemmas::pieces), unfolding(crate::specs::Writing::put_srt))]
pub fn put_srt(
    number: u64,
    start: i64,
    duration: u64,
    text: &[u8],
    out: &mut Bytes,
) -> Result<(), AllocError>
    ensures ok { OnOk result (out.new ≡ out.old ++ spec.put_srt number start duration text.now) }
    ensures err { OnErr result (out.new ≡ out.old) }
{
    let first = milliseconds(i128::from(start));
    let last = milliseconds(i128::from(start) + i128::from(duration));
    let pieces = [
        Piece::Number(number),
        Piece::Octets(b"\n"),
        time(first),
        Piece::Octets(b" --> "),
        time(last),
        Piece::Octets(b"\n"),
        Piece::Octets(text),
        Piece::Octets(b"\n\n"),
    ];
    put_pieces(&pieces, out)
}

// Returns a time in milliseconds as SubRip writes it, with a comma before the last three digits. `put_srt` calls it.
fn time(milliseconds: u64) -> Piece<'static>
    ensures { result ≡ spec.time milliseconds }
{
    Piece::Time {
        point: b',',
        milliseconds,
    }
}

// Returns `time`, in nanoseconds, in whole milliseconds, and 0 for a time before 0. `put_srt` calls it.
fn milliseconds(time: i128) -> u64
    requires { spec.milliseconds time < 2 ^ 64 }
    ensures { result ≡ spec.milliseconds time }
{
    if time < 0 {
        0
    } else {
        (time / 1_000_000) as u64
    }
}
