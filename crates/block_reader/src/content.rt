//! Content of a Block or a SimpleBlock: RFC 9559, sections 10.1 (Block Structure), 10.2 (SimpleBlock Structure) and
//! 10.3 (Block Lacing).

ghost use Rattle.std.specs.Prelude.{◌≡◌, ◌≤◌, [], length, IfOk, MatchResult, OnErr};
ghost use Rattle.block_format.specs.Content.{frames_in, has_flag, lace_of, laced_frames};
ghost use Rattle.lacing.specs.Reading.{data_of};
ghost use Rattle.block_reader.specs.Spelled.{header_in, Cuts, SpellsContent, CutsWhole};

use block_format::MAX_BLOCK_LEN;
use ebml_numbers::{Size, read_int, read_size};
use lacing::{Lace, LaceEnd, split};
use mkv_io::Kind;
use smallvec::SmallVec;
use std::alloc::{AllocError, Global};

/// Parsed header of a Block or SimpleBlock
#[derive(Clone, Copy)]
pub struct BlockHeader {
    /// TrackNumber of its track
    pub track: u64,
    /// Signed ticks from the Cluster's Timestamp
    pub relative: i64,
    pub flags: u8,
    /// Length of the header in bytes
    pub len: usize,
}

/// Parsed Block or SimpleBlock, without its frames and their sizes
#[derive(Clone, Copy, Debug, PartialEq, Eq)]
pub struct Spelled {
    /// TrackNumber of its track
    pub track: u64,
    /// Signed ticks from the Cluster's Timestamp
    pub relative: i64,
    pub flags: u8,
    /// Number of bytes before the first frame
    pub start: usize,
}

/// Checks whether the bit `flag` is set in `flags`, the flags in a Block's or SimpleBlock's header. Used by
/// `simple_head` and `group_head`.
pub fn has_flag(flag: u8, flags: u8) -> bool
    ensures { result ≡ has_flag flag flags }
{
    flags & flag != 0
}

/// Returns the lacing that `flags`, the flags in a Block's or SimpleBlock's header, name. Used by `simple_head`,
/// `group_head` and others.
pub fn lace_of(flags: u8) -> Lace
    ensures { result ≡ lace_of flags }
{
    match flags & 0x06 {
        0x00 => Lace::None,
        0x02 => Lace::Xiph,
        0x04 => Lace::Fixed,
        _ => Lace::Ebml,
    }
}

// Returns the track number that was read as a variable-size integer `size` of `len` bytes. If all its bits are 1, which
// is an unknown size elsewhere, it is the number with all bits 1. Used by `header_in`.
fn data_of(size: Size, len: u8) -> u64
    requires { len ≤ 8 }
    ensures { result ≡ data_of size len }
{
    match size {
        Size::Known(number) => number,
        Size::Unknown => (1 << (7 * len)) - 1,
    }
}

/// Returns the header at the start of `octets`, the content of a Block or SimpleBlock or its first bytes, or None if it
/// is incomplete. Called for each block that is read or skipped.
pub fn header_in(octets: &[u8]) -> Option<BlockHeader>
    ensures { result ≡ header_in octets.now }
{
    let Ok(number) = read_size(octets) else {
        return None;
    };
    let width = usize::from(number.len);
    if octets.len() < width + 3 {
        return None;
    }
    Some(BlockHeader {
        track: data_of(number.size, number.len),
        relative: read_int(&octets[width..width + 2]),
        flags: octets[width + 2],
        len: width + 3,
    })
}

// Adds the length of `octets` in bytes to `sizes`, as the size of the only frame of a block without lacing. Returns the
// length of the lace's head, which is 0. Used by `cut`.
fn one_frame(octets: &[u8], sizes: &mut SmallVec<u32, 8, Global>) -> Result<usize, AllocError>
    requires short { length octets.now ≤ MAX_BLOCK_LEN }
    requires empty { sizes.old.items ≡ [] }
    ensures exact { IfOk result (CutsWhole octets.now sizes.new.items) }
    ensures empty { OnErr result (sizes.new.items ≡ []) }
{
    sizes.push(octets.len() as u32)?;
    Ok(0)
}

// Divides a lace of the kind `kind` into frames, and writes their sizes in bytes to `sizes`. `octets` begins with the
// number of frames minus one and the head of the lace. Returns the number of bytes before the first frame, or as inner
// Err the kind of damage. Used by `cut`.
fn laced_frames(
    kind: Lace,
    octets: &[u8],
    sizes: &mut SmallVec<u32, 8, Global>,
) -> Result<Result<usize, Kind>, AllocError>
    requires short { length octets.now ≤ MAX_BLOCK_LEN }
    requires empty { sizes.old.items ≡ [] }
    ensures exact { IfOk result (Cuts kind octets.now sizes.new.items (laced_frames kind octets.now)) }
    ensures empty { MatchResult result (λ found. OnErr found (sizes.new.items ≡ [])) (λ _. sizes.new.items ≡ []) }
{
    let Some((&less_one, lace)) = octets.split_first() else {
        return Ok(Err(Kind::ShortBlock));
    };
    match split(kind, u16::from(less_one) + 1, lace, sizes) {
        Ok(head) => Ok(Ok(1 + head as usize)),
        Err(LaceEnd::Bad) => Ok(Err(Kind::BadLacing)),
        Err(LaceEnd::Memory) => Err(AllocError),
    }
}

// Divides `octets`, the bytes after a block's header, into frames by the lacing `kind`, and writes their sizes in bytes
// to `sizes`. Returns the number of bytes before the first frame, or as inner Err the kind of damage. Used by `spell`.
fn cut(
    kind: Lace,
    octets: &[u8],
    sizes: &mut SmallVec<u32, 8, Global>,
) -> Result<Result<usize, Kind>, AllocError>
    requires short { length octets.now ≤ MAX_BLOCK_LEN }
    requires empty { sizes.old.items ≡ [] }
    ensures exact { IfOk result (Cuts kind octets.now sizes.new.items (frames_in kind octets.now)) }
    ensures empty { MatchResult result (λ found. OnErr found (sizes.new.items ≡ [])) (λ _. sizes.new.items ≡ []) }
{
    match kind {
        Lace::None => Ok(Ok(one_frame(octets, sizes)?)),
        Lace::Xiph | Lace::Fixed | Lace::Ebml => laced_frames(kind, octets, sizes),
    }
}

/// Parses `octets` as the content of a Block or SimpleBlock that was read whole, and writes the sizes of its frames in
/// bytes to `sizes`. The inner Err is the kind of damage: the bytes end inside the header, or don't match the lacing
/// that it names. Used by `simple` and `group`.
pub fn spell(
    octets: &[u8],
    sizes: &mut SmallVec<u32, 8, Global>,
) -> Result<Result<Spelled, Kind>, AllocError>
    requires { length octets.now ≤ MAX_BLOCK_LEN }
    ensures exact { IfOk result (SpellsContent octets.now sizes.new.items) }
    ensures empty { MatchResult result (λ found. OnErr found (sizes.new.items ≡ [])) (λ _. sizes.new.items ≡ []) }
{
    sizes.clear();
    let Some(header) = header_in(octets) else {
        return Ok(Err(Kind::ShortBlock));
    };
    Ok(
        match cut(lace_of(header.flags), &octets[header.len..], sizes)? {
            Ok(start) => Ok(Spelled {
                track: header.track,
                relative: header.relative,
                flags: header.flags,
                start: header.len + start,
            }),
            Err(kind) => Err(kind),
        },
    )
}
