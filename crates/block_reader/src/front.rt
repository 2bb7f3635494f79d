//! The head and frame count of a SimpleBlock, as far as its first bytes have them: RFC 9559, sections 10.2 (SimpleBlock
//! Structure) and 10.3 (Block Lacing).

ghost use Rattle.std.specs.Prelude.{◌≡◌, ◌≤◌, length, IfSome};
ghost use Rattle.mkv_schema.specs.Element.{known};
ghost use Rattle.block_format.specs.declared.limits.TheConstants.{MAX_BLOCK_LEN};
ghost use Rattle.block_reader.specs.Front.{frame_count, front_head, front_track, laced_count};
ghost use Rattle.block_reader.specs.Lendable.{HasSmallTimes};
ghost use Rattle.block_reader.specs.Says.{Settles};

use crate::block::simple_head;
use crate::content::{Spelled, header_in, lace_of};
use crate::head::BlockHead;
use block_format::MAX_BLOCK_LEN;
use elements::known;
use lacing::{Lace, is_settled};
use mkv_schema::Header;

/// Head and frame count of a SimpleBlock, read from its first bytes
#[derive(Clone, Copy, Debug, PartialEq, Eq)]
pub struct BlockPreview {
    /// Head of the block
    pub head: BlockHead,
    /// Number of frames
    pub frames: u16,
}

// Returns the number of frames in a lace of the kind `kind`, whose `len` bytes begin with `front`, or None if `front`
// isn't enough to know that the lace is valid. Used by `frame_count`.
fn laced_count(kind: Lace, front: &[u8], len: usize) -> Option<u16>
    requires inside { length front.now ≤ len }
    requires short { len ≤ MAX_BLOCK_LEN }
    ensures exact { result ≡ laced_count kind front.now len }
    ensures few { IfSome result (λ count. count ≤ 256) }
{
    let (&less_one, lace) = front.split_first()?;
    let count = u16::from(less_one) + 1;
    if is_settled(kind, count, lace, len - 1) {
        Some(count)
    } else {
        None
    }
}

// Returns the number of frames in the `len` bytes after a SimpleBlock's header, which begin with `front`. `kind` is its
// lacing. Returns None if `front` is too short to know it, or the bytes can't be such frames. Used by `front_head`.
fn frame_count(kind: Lace, front: &[u8], len: usize) -> Option<u16>
    requires inside { length front.now ≤ len }
    requires short { len ≤ MAX_BLOCK_LEN }
    ensures exact { result ≡ frame_count kind front.now len }
    ensures few { IfSome result (λ count. count ≤ 256) }
{
    match kind {
        Lace::None => Some(1),
        Lace::Xiph | Lace::Fixed | Lace::Ebml => laced_count(kind, front, len),
    }
}

/// Returns the TrackNumber of a SimpleBlock whose content begins with `front`, or None if its header is incomplete
/// there. The cursor decides by it whether the block can be skipped. Used by `settled` of `cluster_reader`.
pub fn front_track(front: &[u8]) -> Option<u64>
    ensures { result ≡ front_track front.now }
{
    let header = header_in(front)?;
    Some(header.track)
}

/// Returns the head and frame count of the SimpleBlock with the header `header`, whose content begins with `front`, so
/// that its frames needn't be read. Returns None if `front` isn't enough to know that the block is valid. Its Cluster
/// has the Timestamp `timestamp`, in ticks of `scale` nanoseconds.
pub fn front_head(scale: u64, timestamp: u64, header: &Header, front: &[u8]) -> Option<BlockPreview>
    requires few { known header.now.size ≤ MAX_BLOCK_LEN }
    requires front { length front.now ≤ known header.now.size }
    ensures exact { result ≡ front_head scale timestamp header.now front.now }
    ensures settles { IfSome result (Settles scale timestamp header.now front.now) }
    ensures small { IfSome result (λ found. HasSmallTimes found.head) }
    ensures few { IfSome result (λ found. found.frames ≤ 256) }
{
    let found = header_in(front)?;
    let rest = known(header.size) as usize - found.len;
    let frames = frame_count(lace_of(found.flags), &front[found.len..], rest)?;
    let spelled = Spelled {
        track: found.track,
        relative: found.relative,
        flags: found.flags,
        start: found.len,
    };
    match simple_head(scale, timestamp, header, &spelled) {
        Ok(head) => Some(BlockPreview { head, frames }),
        Err(_) => None,
    }
}
