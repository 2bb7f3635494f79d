//! Lacing that is written: RFC 9559, section 10.3 (Block Lacing).
ghost use Rattle.std.specs.Prelude.{◌≡◌, ◌+◌, ◌^◌, ◌<◌, ◌≤◌, ◌++◌, None, length, take, drop, sum};
ghost use Rattle.ebml_numbers.specs.Octets.{octets_of};
ghost use Rattle.lacing.specs.Lace.{explicit_sizes, IsLace};
ghost use Rattle.lacing.specs.Reading.{IsReadBack};
ghost use Rattle.lacing.specs.Writing.{CanLace, difference_octets, ebml_octets, octets_of_size, octets_of_sizes, lace_head};

use crate::difference::{bias, difference_width};
use crate::kind::Lace;
use ebml_numbers::{Octets, put_size, size_width};

/// Returns the length in bytes of the head of a lace of the kind `kind` with the frame sizes `sizes`. The writer of
/// Clusters calls it to know the size of a block.
pub fn lace_len(kind: Lace, sizes: &[u32]) -> u32
    requires { CanLace kind sizes.now }
    ensures exact { result ≡ length (lace_head kind sizes.now) }
    ensures most { result ≤ 2 ^ 19 }
{
    spelled_len(kind, explicit_sizes(sizes))
}

/// Writes the head of a lace of the kind `kind` with the frame sizes `sizes`, in bytes, to `out`, each size in the
/// fewest bytes. The writer of Clusters calls it for each laced block.
pub fn put_lace(kind: Lace, sizes: &[u32], out: &mut [u8])
    requires can { CanLace kind sizes.now }
    requires room { length out.old ≡ length (lace_head kind sizes.now) }
    ensures exact { out.new ≡ lace_head kind sizes.now }

    // It is the head of a lace, which is divided into the same sizes once its frames follow.
    ensures lace { IsLace kind out.new sizes.now (length out.new + sum sizes.now) }
    ensures read { IsReadBack kind sizes.now out.new }
{
    put_spelled(kind, explicit_sizes(sizes), out);
}

// Returns the sizes that the head of a lace contains: all of `sizes` except the last. `lace_len` and `put_lace` call
// it.
fn explicit_sizes(sizes: &[u32]) -> &[u32]
    requires { 1 ≤ length sizes.now }
    ensures { result.now ≡ explicit_sizes sizes.now }
{
    &sizes[..sizes.len() - 1]
}

// Returns the length in bytes of `sizes` as the head of a lace of the kind `kind` encodes them. `lace_len` calls it.
fn spelled_len(kind: Lace, sizes: &[u32]) -> u32
    requires { length (octets_of_sizes kind None sizes.now) < 2 ^ 32 }
    ensures { result ≡ length (octets_of_sizes kind None sizes.now) }
{
    let mut len = 0;
    let mut before = None;
    for size in sizes {
        len += size_len(kind, before, *size);
        before = Some(*size);
    }
    len
}

// Writes `sizes` in sequence to `out`, which has the length that they take, as a lace of the kind `kind` encodes them.
// `put_lace` calls it.
fn put_spelled(kind: Lace, sizes: &[u32], out: &mut [u8])
    requires { length out.old ≡ length (octets_of_sizes kind None sizes.now) }
    ensures { out.new ≡ octets_of_sizes kind None sizes.now }
{
    let mut at = 0;
    let mut before = None;
    for size in sizes {
        at = put_spelling_at(kind, before, *size, at, out);
        before = Some(*size);
    }
}

// Returns the number of bytes that encode the size `size` in a lace of the kind `kind`, after the previous size
// `before`, if any. `spelled_len` calls it for each size.
fn size_len(kind: Lace, before: Option<u32>, size: u32) -> u32
    ensures { result ≡ length (octets_of_size kind before size) }
{
    match kind {
        Lace::None | Lace::Fixed => 0,
        Lace::Xiph => size / 255 + 1,
        Lace::Ebml => u32::from(ebml_octets(before, size).len),
    }
}

// Writes the bytes that encode the size `size` to `out` at the index `at`, and returns the index after them. `before`
// is the previous size, if any. `put_spelled` calls it for each size.
fn put_spelling_at(kind: Lace, before: Option<u32>, size: u32, at: usize, out: &mut [u8]) -> usize
    requires { at + length (octets_of_size kind before size) ≤ length out.old }
    ensures place { result ≡ at + length (octets_of_size kind before size) }
    ensures inside { result ≤ length out.new }
    ensures written { take result out.new ≡ take at out.old ++ octets_of_size kind before size }
{
    at + put_spelling(kind, before, size, &mut out[at..])
}

// Writes the bytes that encode the size `size` in a lace of the kind `kind` to the start of `out`, and returns their
// number. `before` is the previous size, if any. `put_spelling_at` calls it.
fn put_spelling(kind: Lace, before: Option<u32>, size: u32, out: &mut [u8]) -> usize
    requires { length (octets_of_size kind before size) ≤ length out.old }
    ensures len { result ≡ length (octets_of_size kind before size) }
    ensures written { out.new ≡ octets_of_size kind before size ++ drop result out.old }
{
    match kind {
        Lace::None | Lace::Fixed => 0,
        Lace::Xiph => put_xiph(size, out),
        Lace::Ebml => put_ebml(before, size, out),
    }
}

// Writes the bytes that encode the size `size` in Xiph lacing to the start of `out`, and returns their number.
// `put_spelling` calls it.
fn put_xiph(size: u32, out: &mut [u8]) -> usize
    requires { length (octets_of_size Lace.Xiph None size) ≤ length out.old }
    ensures len { result ≡ length (octets_of_size Lace.Xiph None size) }
    ensures written { out.new ≡ octets_of_size Lace.Xiph None size ++ drop result out.old }
{
    let run = (size / 255) as usize;
    out[..run].fill(255);
    out[run] = (size % 255) as u8;
    run + 1
}

// Writes the bytes that encode the size `size` in EBML lacing to the start of `out`, and returns their number. `before`
// is the previous size, if any. `put_spelling` calls it.
fn put_ebml(before: Option<u32>, size: u32, out: &mut [u8]) -> usize
    requires { length (ebml_octets before size) ≤ length out.old }
    ensures len { result ≡ length (ebml_octets before size) }
    ensures written { out.new ≡ ebml_octets before size ++ drop result out.old }
{
    let octets = ebml_octets(before, size);
    let len = usize::from(octets.len);
    out[..len].copy_from_slice(octets.as_slice());
    len
}

// Returns the bytes that encode the size `size` in EBML lacing, as few as possible. They have its difference to the
// previous size `before`, or the size if it is the first. `size_len` and `put_ebml` call it.
fn ebml_octets(before: Option<u32>, size: u32) -> Octets
    ensures octets { octets_of result ≡ ebml_octets before size }
    ensures len { result.len ≡ length (ebml_octets before size) }
{
    match before {
        None => put_size(u64::from(size), size_width(u64::from(size))),
        Some(before) => difference_octets(before, size),
    }
}

// Returns the bytes that encode the difference from the size `before` to the size `size` in EBML lacing, as few as
// possible. `ebml_octets` calls it.
fn difference_octets(before: u32, size: u32) -> Octets
    ensures octets { octets_of result ≡ difference_octets before size }
    ensures len { result.len ≡ length (difference_octets before size) }
{
    let width = difference_width(before, size);
    let value = u64::from(size) + bias(width) - u64::from(before);
    put_size(value, width)
}
