//! Numbers read from the start of bytes: RFC 8794, sections 4 to 7.
ghost use Rattle.std.specs.Prelude.{◌≡◌, ℕ, ◌%◌, ◌≤◌, ◌<◌, ◌↔◌, ◌++◌, List, Err, ◌^◌, length, IfOk};
ghost use Rattle.byteorder.specs.Endian.{big_number};
ghost use Rattle.ebml_numbers.specs.Number.{IsCut, IsSettled, IsIdWithin, IsSizeWithin, StartsWithZero, width, marker, all_ones, is_id_data, id_of_width, id_at, size_of_data, size_at, uint_of, int_of};

use crate::number::{IdRead, NumFault, Size, SizeRead};
use crate::vint::all_ones;
use byteorder::{BigEndian, ByteOrder};

/// Reads the Element ID at the start of `bytes`, the header of an Element in a file: RFC 8794, section 5 (Element ID).
/// `More` has the number of bytes that the ID takes in all, if some are missing. Readers of headers call it for each
/// Element.
pub fn read_id(bytes: &[u8]) -> Result<IdRead, NumFault>
    ensures exact { result ≡ id_at bytes.now }
    ensures found { IfOk result (IsIdWithin (length bytes.now)) }
    ensures more { (n : ℕ) → (result ≡ Err (NumFault.More n)) ↔ IsCut 4 n bytes.now }

    // Four bytes settle an ID, and no bytes after them change a settled result.
    ensures four { 4 ≤ length bytes.now → IsSettled result }
    ensures settled { (rest : List ℕ) → IsSettled result → id_at (bytes.now ++ rest) ≡ result }
{
    first_id(bytes)
}

/// Reads the Element Data Size at the start of `bytes`, after an Element's ID: RFC 8794, section 6 (Element Data Size).
/// Also reads the track number of a block and the sizes of an EBML lace. `More` has the number of bytes that the size
/// takes in all, if some are missing.
pub fn read_size(bytes: &[u8]) -> Result<SizeRead, NumFault>
    ensures exact { result ≡ size_at bytes.now }
    ensures found { IfOk result (IsSizeWithin (length bytes.now)) }
    ensures more { (n : ℕ) → (result ≡ Err (NumFault.More n)) ↔ IsCut 8 n bytes.now }
    ensures bad { (result ≡ Err NumFault.Bad) ↔ StartsWithZero bytes.now }

    // Eight bytes settle a size, and no bytes after them change a settled result.
    ensures eight { 8 ≤ length bytes.now → IsSettled result }
    ensures settled { (rest : List ℕ) → IsSettled result → size_at (bytes.now ++ rest) ≡ result }
{
    first_size(bytes)
}

/// Returns the number that all of `bytes` encode, or 0 if `bytes` is empty: RFC 8794, section 7.2 (Unsigned Integer
/// Element). `bytes` is the content of a leaf, such as a Timestamp.
pub fn read_uint(bytes: &[u8]) -> u64
    requires { length bytes.now ≤ 8 }
    ensures exact { result ≡ uint_of bytes.now }
{
    if bytes.is_empty() {
        0
    } else {
        BigEndian::read_uint(bytes, bytes.len())
    }
}

/// Returns the two's complement value of all of `bytes`, or 0 if `bytes` is empty: RFC 8794, section 7.1 (Signed
/// Integer Element). `bytes` is the content of a leaf, or the relative timestamp in a block's header.
pub fn read_int(bytes: &[u8]) -> i64
    requires { length bytes.now ≤ 8 }
    ensures exact { result ≡ int_of bytes.now }
{
    if bytes.is_empty() {
        0
    } else {
        BigEndian::read_int(bytes, bytes.len())
    }
}

// Reads the Element ID at the start of `bytes` for `read_id`. Fails with the number of bytes that it has in all if some
// are missing, or with `Bad` if no ID begins so.
#[tactic(auto, unfolding(crate::specs::Number::id_at))]
fn first_id(bytes: &[u8]) -> Result<IdRead, NumFault>
    ensures { result ≡ id_at bytes.now }
{
    let Some(&first) = bytes.first() else {
        return Err(NumFault::More(1));
    };
    if first < 0x10 {
        return Err(NumFault::Bad);
    }
    let width = width_of(first);
    if bytes.len() < usize::from(width) {
        return Err(NumFault::More(width));
    }
    id_of_width(bytes, width)
}

// Reads the Element Data Size at the start of `bytes` for `read_size`. Fails with the number of bytes that it has in
// all if some are missing, or with `Bad` if no size begins so.
#[tactic(auto, unfolding(crate::specs::Number::size_at))]
fn first_size(bytes: &[u8]) -> Result<SizeRead, NumFault>
    ensures { result ≡ size_at bytes.now }
{
    let Some(&first) = bytes.first() else {
        return Err(NumFault::More(1));
    };
    if first == 0 {
        return Err(NumFault::Bad);
    }
    let width = width_of(first);
    if bytes.len() < usize::from(width) {
        return Err(NumFault::More(width));
    }
    let value = without_marker(number(bytes, width), width);
    Ok(SizeRead {
        size: size_of_data(width, value),
        len: width,
    })
}

// Returns the length in bytes of a variable-size integer with the first byte `first`, an ID or a size that is being
// read. `first_id` and `first_size` call it.
fn width_of(first: u8) -> u8
    ensures { result ≡ width first }
{
    first.leading_zeros() as u8 + 1
}

// Returns the Element ID in the first `width` of `bytes`, or `Bad` if they aren't a valid one. `first_id` does this
// after it has found the width.
fn id_of_width(bytes: &[u8], width: u8) -> Result<IdRead, NumFault>
    requires some { 1 ≤ width }
    requires most { width ≤ 4 }
    requires inside { width ≤ length bytes.now }
    ensures { result ≡ id_of_width width bytes.now }
{
    let id = number(bytes, width);
    if !is_id_data(width, without_marker(id, width)) {
        return Err(NumFault::Bad);
    }
    Ok(IdRead {
        id: id as u32,
        len: width,
    })
}

// Checks whether `value` can be the data of an Element ID of `width` bytes, and doesn't fit in fewer. `id_of_width`
// calls it.
fn is_id_data(width: u8, value: u64) -> bool
    requires some { 1 ≤ width }
    requires most { width ≤ 8 }
    ensures { result ≡ is_id_data width value }
{
    let least = all_ones(width - 1).max(1);
    (least..all_ones(width)).contains(&value)
}

// Returns the Element Data Size with the data `value` in `width` bytes: unknown if all bits of the data are 1.
// `first_size` does this with the bits that it has read.
fn size_of_data(width: u8, value: u64) -> Size
    requires { width ≤ 8 }
    ensures { result ≡ size_of_data width value }
{
    if value == all_ones(width) {
        Size::Unknown
    } else {
        Size::Known(value)
    }
}

// Returns the data bits of `number`, a variable-size integer of `width` bytes with its marker: an ID or a size that is
// being read. `first_size` and `id_of_width` call it.
fn without_marker(number: u64, width: u8) -> u64
    requires { width ≤ 8 }
    ensures { result ≡ number % marker width }
{
    number & all_ones(width)
}

// Returns the big-endian number in the first `width` of `bytes`, an ID or a size with its marker. If there are eight
// bytes, it reads them as one word. `first_size` and `id_of_width` call it.
fn number(bytes: &[u8], width: u8) -> u64
    requires some { 1 ≤ width }
    requires most { width ≤ 8 }
    requires inside { width ≤ length bytes.now }
    ensures value { result ≡ big_number width bytes.now }
    ensures fits { result < 256 ^ width }
{
    if bytes.len() < 8 {
        BigEndian::read_uint(bytes, usize::from(width))
    } else {
        BigEndian::read_u64(bytes) >> (64 - 8 * width)
    }
}
