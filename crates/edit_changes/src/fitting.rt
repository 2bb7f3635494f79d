//! Bytes of Elements that are made as long as the room that they replace, padded by the header of a Void.

ghost use Rattle.std.specs.Prelude.{◌≡◌, ◌≤◌, ◌<◌, ◌+◌, ◌++◌, ◌^◌, IfOk, IsTrue, ℕ, List, length, option_map};
ghost use Rattle.ebml_numbers.specs.Number.{is_id, id_octets, size_octets, least_size_width, all_ones};
ghost use Rattle.output_model.specs.Element.{Element, element, octets_of};
ghost use Rattle.edit_changes.specs.Span as spec;
ghost use Rattle.edit_changes.specs.Written.{element_with};

use ebml_numbers::{put_id, put_size, size_width};
use mkv_schema::ids::VOID;
use std::alloc::{AllocError, Global};

/// Returns the header of a Void that has `total` bytes, at least 2, with its body, which isn't written. It covers what
/// is left of an old Element. Its size field takes one byte for up to 128 bytes in all, and eight for more. Used by
/// `fit`, `overwrite_or_void` and others.
#[tactic(auto, unfolding(ebml_numbers::specs::Number::is_id), using(crate::proofs::SpanLemmas::voids))]
pub fn void_header(alloc: Global, total: u64) -> Result<Vec<u8>, AllocError>
    requires { total ≤ 2 ^ 48 }
    ensures { IfOk result (λ octets. octets.items ≡ spec.void_header total) }
{
    let mut out = put_id(VOID).as_slice().to_vec(alloc)?;
    if total <= 128 {
        out.extend_from_slice(put_size(total.saturating_sub(2), 1).as_slice())?;
    } else {
        out.extend_from_slice(put_size(total - 9, 8).as_slice())?;
    }
    Ok(out)
}

/// Returns the bytes of an Element with the ID `id` and the body `body`, whose size field takes `width` bytes. `fit`
/// and `whole` build a new Element with it.
fn element(alloc: Global, id: u32, body: &[u8], width: u8) -> Result<Vec<u8>, AllocError>
    requires id { IsTrue (is_id id) }
    requires some { 1 ≤ width }
    requires most { width ≤ 8 }
    requires fits { length body.now < all_ones width }
    ensures { IfOk result (λ octets. octets.items ≡ octets_of (element_with id width body.now)) }
{
    let mut out = put_id(id).as_slice().to_vec(alloc)?;
    out.extend_from_slice(put_size(body.len() as u64, width).as_slice())?;
    out.extend_from_slice(body)?;
    Ok(out)
}

/// Returns the least number of bytes of a size field for a body of `len` bytes of a new Element. One byte more is
/// possible too, so that an Element can fill one byte that is left.
fn width_of(len: u64) -> u8
    requires { len ≤ 2 ^ 48 }
    ensures exact { result ≡ least_size_width len }
    ensures some { 1 ≤ result }
    ensures most { result ≤ 7 }
    ensures fits { len < all_ones result }
    ensures wider { len < all_ones (result + 1) }
{
    size_width(len)
}

/// Returns the length in bytes of the shortest Element with the ID `id` and a body of `len` bytes. A plan finds with it
/// whether a new Element fits its room, and how far an appended one reaches.
#[tactic(auto, using(crate::proofs::SpanLemmas::lengths))]
pub fn shortest(id: u32, len: u64) -> u64
    requires id { IsTrue (is_id id) }
    requires short { len ≤ 2 ^ 48 }
    ensures exact { (body : List ℕ) → length body ≡ len → length (octets_of (element id body)) ≡ result }
    ensures most { result ≤ len + 16 }
{
    u64::from(put_id(id).len) + u64::from(width_of(len)) + len
}

/// Returns the shortest Element with the ID `id` and the body `body`, as bytes that are appended to the file. Plans
/// call it for each Element that moves.
pub fn whole(alloc: Global, id: u32, body: &[u8]) -> Result<Vec<u8>, AllocError>
    requires id { IsTrue (is_id id) }
    requires short { length body.now ≤ 2 ^ 48 }
    ensures { IfOk result (λ octets. octets.items ≡ octets_of (element id body.now)) }
{
    element(alloc, id, body, width_of(body.len() as u64))
}

/// Returns the bytes that are written over a span of `room` bytes for an Element with the ID `id` and the body `body`.
/// They are the Element, and the header of a Void over any bytes that are left; a single byte goes to the size field.
/// It is None if the shortest Element is longer than `room`. A plan does this for the new SeekHead.
#[tactic(auto, using(crate::proofs::SpanLemmas::fits))]
pub fn fit(alloc: Global, id: u32, body: &[u8], room: u64) -> Result<Option<Vec<u8>>, AllocError>
    requires id { IsTrue (is_id id) }
    requires short { length body.now ≤ 2 ^ 48 }
    requires room { room ≤ 2 ^ 48 }
    ensures { IfOk result (λ octets. option_map (λ v. v.items) octets ≡ spec.fitted (element id body.now) room) }
{
    let len = body.len() as u64;
    let width = width_of(len);
    let shortest = shortest(id, len);
    if room < shortest {
        return Ok(None);
    }
    if room == shortest {
        return Ok(Some(element(alloc, id, body, width)?));
    }
    if room == shortest + 1 {
        return Ok(Some(element(alloc, id, body, width + 1)?));
    }
    let mut out = element(alloc, id, body, width)?;
    out.extend_from_slice(void_header(alloc, room - shortest)?.as_slice())?;
    Ok(Some(out))
}

/// Returns the bytes for a new Element with the ID `id` and the body `body` over an old one of `room` bytes. A plan
/// asks for each of its parts. The room includes the Voids after the old one. If the new one is longer, they are the
/// header of a Void, since the new one is appended to the file. Used by `octets_in_place` of `edit_plan`.
pub fn overwrite_or_void(
    alloc: Global,
    id: u32,
    body: &[u8],
    room: u64,
) -> Result<Vec<u8>, AllocError>
    requires id { IsTrue (is_id id) }
    requires short { length body.now ≤ 2 ^ 48 }
    requires most { room ≤ 2 ^ 48 }
    ensures { IfOk result (λ octets. octets.items ≡ spec.fitted_or_void (element id body.now) room) }
{
    match fit(alloc, id, body, room)? {
        Some(octets) => Ok(octets),
        None => void_header(alloc, room),
    }
}
