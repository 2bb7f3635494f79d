//! Laces that are known from their first bytes: RFC 9559, section 10.3 (Block Lacing).
ghost use Rattle.std.specs.Prelude.{◌≡◌, ◌^◌, ◌≤◌, length};
ghost use Rattle.lacing.specs.Settled.{is_settled, settles_sizes};

use crate::kind::Lace;
use crate::reading::{fitting_size, is_frame_count};

/// Checks whether `front`, the first of `len` bytes, is enough to know that the bytes are a lace of `count` frames. For
/// Xiph and EBML lacing it is if the head of the lace lies in `front` and leaves the last frame a size of 0 or more;
/// for other lacing `len` decides. The reader of blocks calls it before it has read the rest of a block. Doesn't
/// allocate.
pub fn is_settled(kind: Lace, count: u16, front: &[u8], len: usize) -> bool
    requires inside { length front.now ≤ len }
    requires short { len ≤ 2 ^ 25 }
    ensures { result ≡ is_settled kind count front.now len }
{
    if !is_frame_count(count) {
        return false;
    }
    match kind {
        Lace::None => count == 1,
        Lace::Fixed => len % usize::from(count) == 0,
        Lace::Xiph | Lace::Ebml => settles_sizes(kind, usize::from(count), front, len),
    }
}

// Checks whether `front`, the first of `len` bytes, contains all sizes of `count` frames except the last, in Xiph or
// EBML lacing. They must leave the last one a size of 0 or more. `is_settled` calls it.
fn settles_sizes(kind: Lace, count: usize, front: &[u8], len: usize) -> bool
    requires inside { length front.now ≤ len }
    requires short { len ≤ 2 ^ 25 }
    requires some { 1 ≤ count }
    requires most { count ≤ 256 }
    ensures { result ≡ settles_sizes kind count front.now len }
{
    let mut head = 0;
    let mut before = None;
    let mut total = 0;
    let mut left = count - 1;
    while left > 0 {
        let Some((size, octets)) = fitting_size(kind, before, &front[head..], len - head) else {
            return false;
        };
        head += octets;
        before = Some(size);
        total += u64::from(size);
        left -= 1;
    }
    head as u64 + total <= len as u64
}
