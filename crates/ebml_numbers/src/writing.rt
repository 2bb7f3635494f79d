//! Numbers written in the fewest bytes, or in a given width: RFC 8794, sections 4 to 7.
ghost use Rattle.std.specs.Prelude.{◌≡◌, ◌+◌, ◌*◌, ◌^◌, ◌≤◌, ◌<◌, ◌-◌, IsTrue};
ghost use Rattle.std.specs.Int.{w64};
ghost use Rattle.byteorder.specs.Endian.{low_bytes};
ghost use Rattle.ebml_numbers.specs.Number.{IsLeastWidth, all_ones, least_size_width, size_octets, is_written_id, id_octets, uint_width, uint_octets, uint_of, magnitude, int_width, int_octets, int_of, ReadsAsId, ReadsAsSize};
ghost use Rattle.ebml_numbers.specs.Octets.{octets_of};

use crate::octets::Octets;
use crate::vint::marker;

/// Returns the smallest number of bytes, 1 to 8, that can hold the known size `value`. Headers are written in it,
/// unless a size is filled in later or must fill a byte that is left.
pub fn size_width(value: u64) -> u8
    requires { value < all_ones 8 }
    ensures exact { result ≡ least_size_width value }
    ensures least { IsLeastWidth (λ w. value < all_ones w) result }
{
    // Data bits that are all 1 mean an unknown size, so `value + 1` must fit.
    digits(value + 1).div_ceil(7)
}

/// Returns the bytes of the known size `value` in `width` bytes: RFC 8794, section 6 (Element Data Size). Used for each
/// header that is written, and for the Segment's size when it changes.
pub fn put_size(value: u64, width: u8) -> Octets
    requires some { 1 ≤ width }
    requires most { width ≤ 8 }
    requires fits { value < all_ones width }
    ensures exact { octets_of result ≡ size_octets value width }
    ensures len { result.len ≡ width }

    // The size is read back, whatever follows it.
    ensures read { ReadsAsSize (octets_of result) value width }
{
    Octets::big_endian(marker(width) + value, width)
}

/// Returns the bytes of the Element ID `id`, for each header that is written: RFC 8794, section 5 (Element ID). The
/// only invalid ID that is written is 0x80, since RFC 9559 gives it to ChapterDisplay.
pub fn put_id(id: u32) -> Octets
    requires { IsTrue (is_written_id id) }
    ensures exact { octets_of result ≡ id_octets id }
    ensures len { result.len ≡ uint_width id }

    // A valid ID is read back, whatever follows it.
    ensures read { ReadsAsId (octets_of result) id result.len }
{
    put_uint(u64::from(id))
}

/// Returns the number `value` in the fewest bytes, at least one: RFC 8794, section 7.2 (Unsigned Integer Element). Used
/// for each unsigned integer that is written. Used by `put_id` and others.
pub fn put_uint(value: u64) -> Octets
    ensures exact { octets_of result ≡ uint_octets value }
    ensures len { result.len ≡ uint_width value }
    ensures least { IsLeastWidth (λ w. value < 256 ^ w) result.len }
    ensures read { uint_of (octets_of result) ≡ value }
{
    Octets::big_endian(value, uint_width(value))
}

/// Returns the two's complement of `value` in the fewest bytes, at least one: RFC 8794, section 7.1 (Signed Integer
/// Element). Used for the ReferenceBlock of a BlockGroup. Used by `reference_len` of `cluster_writer`.
pub fn put_int(value: i64) -> Octets
    ensures exact { octets_of result ≡ int_octets value }
    ensures len { result.len ≡ int_width value }
    ensures least { IsLeastWidth (λ w. magnitude value < 2 ^ (8 * w - 1)) result.len }
    ensures read { int_of (octets_of result) ≡ value }
{
    let width = int_width(value);
    Octets::big_endian(low_octets(value, width), width)
}

// Returns the smallest number of bytes, at least one, that can hold `value`, for `put_uint`.
fn uint_width(value: u64) -> u8
    ensures exact { result ≡ uint_width value }
    ensures least { IsLeastWidth (λ w. value < 256 ^ w) result }
{
    digits(value.max(1)).div_ceil(8)
}

// Returns the smallest number of bytes, at least one, that can hold `value` and its sign bit, for `put_int`.
fn int_width(value: i64) -> u8
    ensures exact { result ≡ int_width value }
    ensures least { IsLeastWidth (λ w. magnitude value < 2 ^ (8 * w - 1)) result }
{
    digits(magnitude(value)) / 8 + 1
}

// Returns the last `width` bytes of the two's complement of `value`, as a number, for `put_int`.
fn low_octets(value: i64, width: u8) -> u64
    requires some { 1 ≤ width }
    requires most { width ≤ 8 }
    ensures value { result ≡ low_bytes w64 width value }
    ensures fits { result < 256 ^ width }
{
    value.cast_unsigned() & (u64::MAX >> (64 - 8 * width))
}

// Returns `value` without its sign, for `int_width`: `n` for both `n` and `-n-1`.
fn magnitude(value: i64) -> u64
    ensures value { result ≡ magnitude value }
    ensures fits { result < 2 ^ 63 }
{
    let without_sign = if value < 0 { !value } else { value };
    without_sign.cast_unsigned()
}

// Returns the number of binary digits of `value`, 0 for 0, from which the widths of sizes and integers are found. Used
// by `size_width`, `uint_width` and others.
fn digits(value: u64) -> u8
    ensures below { value < 2 ^ result }
    ensures reaches { 2 ^ result ≤ 2 * value + 1 }
{
    64 - value.leading_zeros() as u8
}
