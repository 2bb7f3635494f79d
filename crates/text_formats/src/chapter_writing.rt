//! Writing of OGM simple chapters, in this project's grammar.

ghost use Rattle.std.specs.Prelude.{◌≡◌, ◌++◌, OnOk, OnErr};
ghost use Rattle.text_formats.specs.ChapterWriting as spec;

use crate::pieces::{Piece, put_pieces};
use mkv_io::Bytes;
use std::alloc::AllocError;

/// Appends to `out` the two lines of the chapter with the number `number` and the name `name`, which starts at `start`
/// nanoseconds. `extract` writes chapters as text with it. On failure nothing is appended.
#[tactic(auto, using(crate::proofs::ChapterWritingLemmas::pieces), unfolding(crate::specs::ChapterWriting::put_pair))]
pub fn put_pair(number: u64, start: u64, name: &[u8], out: &mut Bytes) -> Result<(), AllocError>
    ensures ok { OnOk result (out.new ≡ out.old ++ spec.put_pair number start name.now) }
    ensures err { OnErr result (out.new ≡ out.old) }
{
    let pieces = [
        Piece::Octets(b"CHAPTER"),
        Piece::Padded(number),
        Piece::Octets(b"="),
        time(start / 1_000_000),
        Piece::Octets(b"\nCHAPTER"),
        Piece::Padded(number),
        Piece::Octets(b"NAME="),
        Piece::Octets(name),
        Piece::Octets(b"\n"),
    ];
    put_pieces(&pieces, out)
}

// Returns a time in milliseconds as simple chapters write it, with a point before the last three digits. `put_pair`
// calls it.
fn time(milliseconds: u64) -> Piece<'static>
    ensures { result ≡ spec.time milliseconds }
{
    Piece::Time {
        point: b'.',
        milliseconds,
    }
}
