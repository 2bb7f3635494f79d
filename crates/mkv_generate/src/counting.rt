//! The bytes of generated frames, which count up.

ghost use Rattle.std.specs.Prelude.{◌≡◌, ◌+◌, ◌<◌, ◌≤◌, ◌^◌};
ghost use Rattle.mkv_generate.specs.Blocks.{counting};

use arrayvec::ArrayVec;

/// Greatest number of bytes in a generated block.
pub(crate) const MAX_COUNTING: usize = 108;

/// Returns `count` bytes, at most 108, that count up from `first` modulo 256; 0 follows 255. They are the frames of
/// generated blocks. Used by `picture` and `sound`.
pub(crate) fn counting(first: u32, count: u32) -> ArrayVec<u8, MAX_COUNTING>
    requires few { count ≤ MAX_COUNTING }
    requires small { first + count < 2 ^ 32 }
    ensures { result.items ≡ counting first count }
{
    let mut octets = ArrayVec::new();
    for k in 0..count {
        octets.push(((first + k) % 256) as u8);
    }
    octets
}
