//! Differences between sizes in EBML lacing: RFC 9559, section 10.3 (Block Lacing).
ghost use Rattle.std.specs.Prelude.{◌≡◌, ◌≤◌, ◌<◌, ◌^◌};
ghost use Rattle.lacing.specs.Lace.{bias};
ghost use Rattle.lacing.specs.Writing.{distance, difference_width};

// Returns the value that encodes a difference of 0 in an integer of `len` bytes, in EBML lacing. The reader and the
// writer of EBML laces use it.
pub(crate) fn bias(len: u8) -> u64
    requires some { 1 ≤ len }
    requires most { len ≤ 8 }
    ensures value { result ≡ bias len }
    ensures small { result ≤ 2 ^ 55 }
{
    (1 << (7 * len - 1)) - 1
}

// Returns the smallest number of bytes that can hold the difference between the sizes `before` and `size`, in bytes, in
// EBML lacing. `difference_octets` calls it.
#[tactic(auto, unfolding(crate::specs::Writing::difference_width))]
pub(crate) fn difference_width(before: u32, size: u32) -> u8
    ensures exact { result ≡ difference_width before size }
    ensures some { 1 ≤ result }
    ensures most { result ≤ 5 }
    ensures fits { distance before size ≤ bias result }
{
    match before.abs_diff(size) {
        0..=0x3F => 1,
        0x40..=0x1FFF => 2,
        0x2000..=0xF_FFFF => 3,
        0x10_0000..=0x7FF_FFFF => 4,
        _ => 5,
    }
}
