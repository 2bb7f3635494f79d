//! Lacing that is read: RFC 9559, section 10.3 (Block Lacing).
ghost use Rattle.std.specs.Prelude.{◌≡◌, ◌+◌, ◌-◌, ◌*◌, ◌^◌, ◌≤◌, ◌<◌, [], Err, None, length, drop, sum, position, not, ◌==◌, ◌≢◌, IfOk, IfSome, OnOk, OnErr};
ghost use Rattle.smallvec.specs.SmallVec.{HasRoomFor};
ghost use Rattle.lacing.specs.Lace.{FindsLace, HasNoLace};
ghost use Rattle.lacing.specs.Reading.{xiph_size, data_of, ebml_size, any_size, fitting, size_in, sizes_in, with_last, frame_sizes_in, is_frame_count, lace_in, Gives, Splits};

use crate::difference::bias;
use crate::kind::{Lace, LaceEnd};
use ebml_numbers::{Size, read_size};
use smallvec::SmallVec;
use std::alloc::Global;

/// Divides `bytes`, which follow a block's frame count, into `count` frames by the lacing `kind`. The reader of blocks
/// calls it for each laced block. Writes the sizes of the frames in bytes to `sizes`, and returns the length of the
/// lace's head in bytes.
pub fn split(
    kind: Lace,
    count: u16,
    bytes: &[u8],
    sizes: &mut SmallVec<u32, 8, Global>,
) -> Result<u32, LaceEnd>
    requires { length bytes.now ≤ 2 ^ 25 }

    // The sizes are the sizes of a lace. The result is Bad if there is none.
    ensures found { IfOk result (FindsLace kind count bytes.now sizes.new.items) }
    ensures bad { result ≡ Err LaceEnd.Bad → HasNoLace kind count bytes.now }

    // On failure: up to eight frames take no memory.
    ensures empty { result ≡ Err LaceEnd.Bad → sizes.new.items ≡ [] }
    ensures same { result ≡ Err LaceEnd.Memory → sizes.new ≡ sizes.old }
    ensures memory { result ≡ Err LaceEnd.Memory → 8 < count }
    ensures capacity { sizes.old.capacity ≤ sizes.new.capacity }

    // The result and the sizes, as a function of the bytes.
    ensures read { Splits (lace_in kind count bytes.now) sizes.new.items result }
{
    if !is_frame_count(count) {
        sizes.clear();
        return Err(LaceEnd::Bad);
    }
    let count = usize::from(count);
    make_room(count, sizes)?;
    match frames(kind, count, bytes, sizes) {
        Some(head) => Ok(head),
        None => {
            sizes.clear();
            Err(LaceEnd::Bad)
        }
    }
}

/// Checks whether a block may have `count` frames, which is 1 to 256. `split` and `is_settled` call it first.
pub(crate) fn is_frame_count(count: u16) -> bool
    ensures { result ≡ is_frame_count count }
{
    (1..=256).contains(&count)
}

// Empties `sizes` and reserves room for `count` of them, for `split`. If it fails, `sizes` stays as it was.
fn make_room(count: usize, sizes: &mut SmallVec<u32, 8, Global>) -> Result<(), LaceEnd>
    ensures ok { OnOk result ((sizes.new.items ≡ []) × (count ≤ sizes.new.capacity)) }
    ensures err { OnErr result (sizes.new ≡ sizes.old) }
    ensures bad { result ≢ Err LaceEnd.Bad }
    ensures memory { OnErr result (8 < count) }
    ensures capacity { sizes.old.capacity ≤ sizes.new.capacity }
{
    let missing = count.saturating_sub(sizes.len());
    if count > sizes.capacity() && sizes.reserve(missing).is_err() {
        return Err(LaceEnd::Memory);
    }
    sizes.clear();
    Ok(())
}

// Appends the sizes of `count` frames in `bytes`, in bytes, to `sizes`, which has room for them. Returns the length of
// the lace's head in bytes, or None if `bytes` aren't a lace of the kind `kind`. `split` calls it.
fn frames(
    kind: Lace,
    count: usize,
    bytes: &[u8],
    sizes: &mut SmallVec<u32, 8, Global>,
) -> Option<u32>
    requires short { length bytes.now ≤ 2 ^ 25 }
    requires some { 1 ≤ count }
    requires most { count ≤ 256 }
    requires empty { sizes.old.items ≡ [] }
    requires room { count ≤ sizes.old.capacity }
    ensures read { Gives (frame_sizes_in kind count bytes.now) sizes.new.items result }
    ensures capacity { sizes.new.capacity ≡ sizes.old.capacity }
{
    match kind {
        Lace::None => one_frame(count, bytes, sizes),
        Lace::Fixed => equal_frames(count, bytes, sizes),
        Lace::Xiph | Lace::Ebml => spelled_frames(kind, count, bytes, sizes),
    }
}

// Appends the size of the one frame of a block without lacing to `sizes`. Returns the length of the head, which is 0,
// or None if the block states another number of frames. `frames` calls it.
fn one_frame(count: usize, bytes: &[u8], sizes: &mut SmallVec<u32, 8, Global>) -> Option<u32>
    requires short { length bytes.now ≤ 2 ^ 25 }
    requires some { 1 ≤ count }
    requires empty { sizes.old.items ≡ [] }
    requires room { count ≤ sizes.old.capacity }
    ensures read { Gives (frame_sizes_in Lace.None count bytes.now) sizes.new.items result }
    ensures capacity { sizes.new.capacity ≡ sizes.old.capacity }
{
    if count != 1 {
        return None;
    }
    sizes.push_reserved(bytes.len() as u32);
    Some(0)
}

// Appends the sizes of `count` frames of equal size to `sizes`, in fixed-size lacing. Returns the length of the head,
// which is 0, or None if the bytes can't be divided by `count`. `frames` calls it.
fn equal_frames(count: usize, bytes: &[u8], sizes: &mut SmallVec<u32, 8, Global>) -> Option<u32>
    requires short { length bytes.now ≤ 2 ^ 25 }
    requires some { 1 ≤ count }
    requires empty { sizes.old.items ≡ [] }
    requires room { count ≤ sizes.old.capacity }
    ensures read { Gives (frame_sizes_in Lace.Fixed count bytes.now) sizes.new.items result }
    ensures capacity { sizes.new.capacity ≡ sizes.old.capacity }
{
    if bytes.len() % count != 0 {
        return None;
    }
    let size = (bytes.len() / count) as u32;
    while sizes.len() < count {
        sizes.push_reserved(size);
    }
    Some(0)
}

// Appends the sizes of `count` frames in Xiph or EBML lacing to `sizes`. The head at the start of `bytes` has all
// except the last, which gets the bytes that are left. Returns the length of the head in bytes, or None if there is no
// such lace. `frames` calls it.
fn spelled_frames(
    kind: Lace,
    count: usize,
    bytes: &[u8],
    sizes: &mut SmallVec<u32, 8, Global>,
) -> Option<u32>
    requires short { length bytes.now ≤ 2 ^ 25 }
    requires some { 1 ≤ count }
    requires most { count ≤ 256 }
    requires empty { sizes.old.items ≡ [] }
    requires room { count ≤ sizes.old.capacity }
    ensures read { Gives (with_last (length bytes.now) (sizes_in kind (count - 1) None bytes.now))
        sizes.new.items result }
    ensures capacity { sizes.new.capacity ≡ sizes.old.capacity }
{
    let mut head = 0;
    let mut before = None;
    let mut total = 0;
    while sizes.len() < count - 1 {
        let (size, len) = size_in(kind, before, bytes, head)?;
        sizes.push_reserved(size);
        total += u64::from(size);
        before = Some(size);
        head += len;
    }
    let last = ((bytes.len() - head) as u64).checked_sub(total)?;
    sizes.push_reserved(last as u32);
    Some(head as u32)
}

// Returns the size at the index `at` of `bytes` and the number of bytes that encode it, if its frame fits in the rest,
// or None. `before` is the previous size, if any. `spelled_frames` calls it for each size in the head.
#[tactic(auto, unfolding(crate::specs::Reading::size_in))]
fn size_in(kind: Lace, before: Option<u32>, bytes: &[u8], at: usize) -> Option<(u32, usize)>
    requires short { length bytes.now ≤ 2 ^ 25 }
    requires inside { at ≤ length bytes.now }
    ensures read { result ≡ size_in kind before (drop at bytes.now) }
    ensures inside { IfSome result (λ front. at + front.0 + front.1 ≤ length bytes.now) }
{
    let rest = &bytes[at..];
    fitting_size(kind, before, rest, rest.len())
}

/// Returns the size at the start of `rest` and the number of bytes that encode it, if its frame fits, or None. `room`
/// bytes are left for both, and `before` is the previous size, if any. `size_in` calls it, and `settles_sizes` for the
/// check of a lace's first bytes.
pub(crate) fn fitting_size(
    kind: Lace,
    before: Option<u32>,
    rest: &[u8],
    room: usize,
) -> Option<(u32, usize)>
    requires inside { length rest.now ≤ room }
    requires short { room ≤ 2 ^ 25 }
    ensures read { result ≡ fitting room (any_size kind before rest.now) }
    ensures inside { IfSome result (λ front. front.0 + front.1 ≤ room) }
{
    let (size, len) = match kind {
        Lace::Xiph => xiph_size(rest)?,
        Lace::Ebml => ebml_size(before, rest)?,
        Lace::None | Lace::Fixed => return None,
    };
    if size + len as u64 <= room as u64 {
        Some((size as u32, len))
    } else {
        None
    }
}

// Returns the size at the start of `bytes` in Xiph lacing, and the number of bytes that encode it, or None if it isn't
// complete. It is the sum of bytes 255 and the byte after them. `fitting_size` calls it.
fn xiph_size(bytes: &[u8]) -> Option<(u64, usize)>
    requires { length bytes.now ≤ 2 ^ 25 }
    ensures read { result ≡ xiph_size bytes.now }
    ensures small { IfSome result (λ front. (front.0 < 2 ^ 57) × (front.1 < 2 ^ 57)) }
{
    let run = run_of(bytes)?;
    Some((255 * run as u64 + u64::from(bytes[run]), run + 1))
}

// Returns the number of bytes 255 at the start of `bytes`, before the first other byte, or None if there is no other.
// `xiph_size` calls it.
fn run_of(bytes: &[u8]) -> Option<usize>
    ensures read { result ≡ position (λ octet. not (octet == 255)) bytes.now }
    ensures inside { IfSome result (λ run. run < length bytes.now) }
{
    bytes.iter().position(|octet| *octet != 255)
}

// Returns the size at the start of `bytes` in EBML lacing, and the number of bytes that encode it, or None. With a
// previous size `before` they encode the difference. `fitting_size` calls it.
fn ebml_size(before: Option<u32>, bytes: &[u8]) -> Option<(u64, usize)>
    ensures read { result ≡ ebml_size before bytes.now }
    ensures small { IfSome result (λ front. (front.0 < 2 ^ 57) × (front.1 < 2 ^ 57)) }
{
    let Ok(read) = read_size(bytes) else {
        return None;
    };
    let len = usize::from(read.len);
    let Some(before) = before else {
        return match read.size {
            Size::Known(size) => Some((size, len)),
            Size::Unknown => None,
        };
    };
    let sum = u64::from(before) + data_of(read.size, read.len);
    let size = sum.checked_sub(bias(read.len))?;
    Some((size, len))
}

// Returns the value of a variable-size integer of `len` bytes that was read as a size; an unknown size has the value
// with all bits 1. `ebml_size` calls it for a difference.
fn data_of(size: Size, len: u8) -> u64
    requires { len ≤ 8 }
    ensures { result ≡ data_of size len }
{
    match size {
        Size::Known(value) => value,
        Size::Unknown => (1 << (7 * len)) - 1,
    }
}
