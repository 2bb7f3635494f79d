//! Writing of bytes, numbers and times to a text file.

ghost use Rattle.std.specs.Prelude.{◌≡◌, ◌++◌, length, take, flat_map, OnOk, OnErr};
ghost use Rattle.std.specs.Fmt.{decimal};
ghost use Rattle.text_formats.specs.Pieces as spec;

use itoa::Buffer;
use mkv_io::Bytes;
use std::alloc::AllocError;

/// Milliseconds in a second
const SECOND: u64 = 1_000;

/// Milliseconds in a minute
const MINUTE: u64 = 60_000;

/// Milliseconds in an hour
const HOUR: u64 = 3_600_000;

/// Piece of a text file that is written.
#[derive(Clone, Copy, Debug)]
pub enum Piece<'a> {
    /// Bytes as they are.
    Octets(&'a [u8]),
    /// Number in decimal digits.
    Number(u64),
    /// Number in two decimal digits or more.
    Padded(u64),
    /// Time in milliseconds as `HH:MM:SS`, the byte `point` and three digits. Hours have two digits or more.
    Time { point: u8, milliseconds: u64 },
}

/// Appends `pieces` to `out`, in order, for entries of SubRip and simple chapters. On failure nothing is appended.
/// `put_srt` and `put_pair` call it.
pub fn put_pieces(pieces: &[Piece<'_>], out: &mut Bytes) -> Result<(), AllocError>
    ensures ok { OnOk result (out.new ≡ out.old ++ flat_map spec.octets_of pieces.now) }
    ensures err { OnErr result (out.new ≡ out.old) }
{
    let before = out.len();
    for piece in pieces {
        if let Err(refused) = put_piece(piece, out) {
            out.truncate(before);
            return Err(refused);
        }
    }
    Ok(())
}

// Appends `piece` to `out`. `put_pieces` calls it. On failure a part may be appended; the bytes that `out` had before
// stay.
fn put_piece(piece: &Piece<'_>, out: &mut Bytes) -> Result<(), AllocError>
    ensures ok { OnOk result (out.new ≡ out.old ++ spec.octets_of piece.now) }
    ensures err { OnErr result (take (length out.old) out.new ≡ out.old) }
{
    match *piece {
        Piece::Octets(octets) => out.append(octets),
        Piece::Number(n) => put_number(n, out),
        Piece::Padded(n) => put_two_or_more(n, out),
        Piece::Time {
            point,
            milliseconds,
        } => put_time(point, milliseconds, out),
    }
}

// Appends `n` to `out` in decimal. `put_piece` and `put_two_or_more` call it. If memory runs out, nothing is appended.
fn put_number(n: u64, out: &mut Bytes) -> Result<(), AllocError>
    ensures ok { OnOk result (out.new ≡ out.old ++ decimal n) }
    ensures err { OnErr result (out.new ≡ out.old) }
{
    out.append(Buffer::new().format(n).as_bytes())
}

// Appends `n` to `out` in decimal, with at least two digits. `put_piece` and `put_time` call it. If memory runs out,
// nothing is appended.
fn put_two_or_more(n: u64, out: &mut Bytes) -> Result<(), AllocError>
    ensures ok { OnOk result (out.new ≡ out.old ++ spec.two_or_more n) }
    ensures err { OnErr result (out.new ≡ out.old) }
{
    if n < 100 {
        out.append(&two_digits(n))
    } else {
        put_number(n, out)
    }
}

// Appends a time of `ms` milliseconds to `out` as hours, minutes, seconds and milliseconds, with the byte `point`
// before the last. `put_piece` calls it. If memory runs out, a part may be appended.
#[tactic(auto, using(crate::proofs::PiecesLemmas::joins), unfolding(crate::specs::Pieces::stamp))]
fn put_time(point: u8, ms: u64, out: &mut Bytes) -> Result<(), AllocError>
    ensures ok { OnOk result (out.new ≡ out.old ++ spec.stamp point ms) }
    ensures err { OnErr result (take (length out.old) out.new ≡ out.old) }
{
    let [m, n] = two_digits(ms / MINUTE % 60);
    let [s, t] = two_digits(ms / SECOND % 60);
    let [x, y, z] = three_digits(ms % SECOND);
    put_two_or_more(ms / HOUR, out)?;
    out.append(&[b':', m, n, b':', s, t, point, x, y, z])?;
    Ok(())
}

// Returns the last two decimal digits of `n`, as ASCII, for hours, minutes and seconds. `put_time` calls it.
fn two_digits(n: u64) -> [u8; 2]
    ensures { result ≡ spec.two_digits n }
{
    [digit(n / 10), digit(n)]
}

// Returns the last three decimal digits of `n`, as ASCII, for milliseconds. `put_time` calls it.
fn three_digits(n: u64) -> [u8; 3]
    ensures { result ≡ spec.three_digits n }
{
    [digit(n / 100), digit(n / 10), digit(n)]
}

// Returns the last decimal digit of `n`, as ASCII. `two_digits` and `three_digits` call it.
fn digit(n: u64) -> u8
    ensures { result ≡ spec.digit n }
{
    b'0' + (n % 10) as u8
}
