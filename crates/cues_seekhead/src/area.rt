//! Area of a SeekHead and a Void that fills the rest, before the other elements: RFC 9559, section 5.1.1 (SeekHead).

ghost use Rattle.std.specs.Prelude.{◌≡◌, ◌*◌, ◌<◌, ◌≤◌, ◌++◌, length, map, replicate, OnOk, IfOk, IsTrue};
ghost use Rattle.ebml_numbers.specs.Number.{all_ones, is_id, id_octets};
ghost use Rattle.output_model.specs.Element.{void_element, octets_of, joined};
ghost use Rattle.output_model.specs.SeekHead.{seek_element, area_elements};
ghost use Rattle.cues_seekhead.specs.Places.{AreIds, filled_void};

use crate::written::{element_len, put_header};
use ebml_numbers::{put_id, put_size};
use mkv_io::Bytes;
use mkv_schema::ids::{SEEK, SEEK_HEAD, SEEK_ID, SEEK_POSITION, VOID};
use output_model::{AREA, Seek};
use std::alloc::{AllocError, Global};

// Appends to `out` the Seek Element of a SeekHead for `seek`, with its position in eight bytes. Used by `put_seeks`.
#[tactic(auto, unfolding(ebml_numbers::specs::Number::is_id))]
fn put_seek(out: &mut Bytes, seek: &Seek) -> Result<(), AllocError>
    requires { IsTrue (is_id seek.now.id) }
    ensures ok { OnOk result (out.new ≡ out.old ++ octets_of (seek_element seek.now)) }
{
    let id = put_id(seek.id);
    let len = u64::from(id.len);
    put_header(
        out,
        SEEK,
        element_len(SEEK_ID, len) + element_len(SEEK_POSITION, 8),
    )?;
    put_header(out, SEEK_ID, len)?;
    out.append(id.as_slice())?;
    put_header(out, SEEK_POSITION, 8)?;
    out.append(&seek.position.to_be_bytes())?;
    Ok(())
}

/// Appends to `out` the Seek Elements for all `seeks`, in sequence: the content of the SeekHead that `merge` writes
/// last, or that an edit writes.
pub fn put_seeks(out: &mut Bytes, seeks: &[Seek]) -> Result<(), AllocError>
    requires { AreIds seeks.now }
    ensures ok { OnOk result (out.new ≡ out.old ++ joined (map seek_element seeks.now)) }
{
    for seek in seeks {
        put_seek(out, seek)?;
    }
    Ok(())
}

// Returns the length in bytes of the Element ID `id`. Used by `seek_len`.
fn id_len(id: u32) -> u64
    requires { IsTrue (is_id id) }
    ensures exact { result ≡ length (id_octets id) }
    ensures most { result ≤ 4 }
{
    u64::from(put_id(id).len)
}

// Returns the length in bytes of the Seek Element for `seek`, header included. Used by `seeks_len`.
#[tactic(auto, unfolding(ebml_numbers::specs::Number::is_id))]
fn seek_len(seek: &Seek) -> u64
    requires { IsTrue (is_id seek.now.id) }
    ensures exact { result ≡ length (octets_of (seek_element seek.now)) }
    ensures most { result ≤ 27 }
{
    let len = id_len(seek.id);
    element_len(
        SEEK,
        element_len(SEEK_ID, len) + element_len(SEEK_POSITION, 8),
    )
}

// Returns the length in bytes of the Seek Elements for `seeks`, for the size of the SeekHead. Used by `area_octets`.
fn seeks_len(seeks: &[Seek]) -> u64
    requires few { length seeks.now ≤ 6 }
    requires ids { AreIds seeks.now }
    ensures exact { result ≡ length (joined (map seek_element seeks.now)) }
    ensures most { result ≤ 162 }
{
    let mut total = 0;
    for seek in seeks {
        total += seek_len(seek);
    }
    total
}

/// Appends to `out` a Void of `total` bytes, header included: the rest of the area after a SeekHead, the whole area of
/// an output that is being written, or the place of its Duration. Used by `area_octets`, `head_octets` and others.
pub(crate) fn put_void(out: &mut Bytes, total: u64) -> Result<(), AllocError>
    requires some { 2 ≤ total }
    requires most { total ≤ AREA }
    ensures ok { OnOk result (out.new ≡ out.old ++ octets_of (void_element total)) }
{
    if total <= 128 {
        put_filled(out, total - 2, 1)
    } else {
        put_filled(out, total - 9, 8)
    }
}

// Appends to `out` a Void with `len` zeros as content and a size field of `width` bytes. Used by `put_void`.
#[tactic(auto, unfolding(ebml_numbers::specs::Number::is_id))]
fn put_filled(out: &mut Bytes, len: u64, width: u8) -> Result<(), AllocError>
    requires some { 1 ≤ width }
    requires most { width ≤ 8 }
    requires fits { len < all_ones width }
    requires few { len ≤ AREA }
    ensures ok { OnOk result (out.new ≡ out.old ++ octets_of (filled_void len width)) }
{
    out.append(put_id(VOID).as_slice())?;
    out.append(put_size(len, width).as_slice())?;
    put_zeros(out, len)
}

// Appends `count` zero bytes to `out`, the content of a Void. Used by `put_filled`.
fn put_zeros(out: &mut Bytes, count: u64) -> Result<(), AllocError>
    requires { count ≤ AREA }
    ensures ok { OnOk result (out.new ≡ out.old ++ replicate count 0) }
{
    let zeros = [0; AREA as usize];
    out.append(&zeros[..count as usize])?;
    Ok(())
}

/// Returns the bytes of the area at the start of a Segment, which `finish` writes over the Void there. It has the
/// SeekHead with at most six `seeks`, and a Void that fills the rest.
#[tactic(auto, unfolding(ebml_numbers::specs::Number::is_id))]
pub fn area_octets(alloc: Global, seeks: &[Seek]) -> Result<Bytes, AllocError>
    requires few { length seeks.now ≤ 6 }
    requires ids { AreIds seeks.now }
    ensures ok { IfOk result (λ out. out ≡ joined (area_elements seeks.now)) }
    ensures len { IfOk result (λ out. length out ≡ AREA) }
{
    let mut out = Bytes::new(alloc);
    let inside = seeks_len(seeks);
    put_header(&mut out, SEEK_HEAD, inside)?;
    put_seeks(&mut out, seeks)?;
    put_void(&mut out, AREA - element_len(SEEK_HEAD, inside))?;
    Ok(out)
}
