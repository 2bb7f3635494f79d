//! The EBML header of a file: RFC 8794, section 8.1 (EBML Header).

ghost use Rattle.std.specs.Prelude.{◌≡◌, ℕ, ◌+◌, ◌≤◌, List, length, None, IfOk, OnErr};
ghost use Rattle.mkv_io.specs.Faults.{HasCause, is_failure, is_read_fault};
ghost use Rattle.mkv_io.specs.Sources.{IfTold, IsLive, OnlyReads, file_size};
ghost use Rattle.mkv_schema.specs.Element.{known, stated_end};
ghost use Rattle.mkv_schema.specs.Outline.{ebml_header, first_damage, first_element, header_causes, header_children};
ghost use Rattle.elements.specs.Looks.{Goes};
ghost use Rattle.elements.specs.Window.{Holds, nothing_at};
ghost use Rattle.elements.specs.Body.{IfBody, IsBody};
ghost use Rattle.element_reader.specs.EbmlChildren.{IfSound, child_refusal, children, header_refusal, in_body, value_causes, value_refusal};
ghost use Rattle.element_reader.specs.Ways.{GoesBesides};
ghost use Rattle.mkv_io.specs.declared.outside.TheConstants.{LONGEST_FILE};

use crate::ebml_children::child_refusal;
use crate::ebml_values::{above, wrong_doc_type};
use crate::limits::over;
use elements::{Parent, Window, damage, known, read_header};
use mkv_io::{Damage, Failed, FileId, Kind, ReadEnd, Reads};
use mkv_schema::Header;
use mkv_schema::ids::{
    DOC_TYPE_READ_VERSION, EBML_MAX_ID_LENGTH, EBML_MAX_SIZE_LENGTH, EBML_READ_VERSION,
};
use mkv_schema::limits::{MAX_ELEMENT_HEADER_LEN, MAX_HEADER_LEN};
use std::alloc::Global;

/// Element ID of the EBML header, the first bytes of a file.
const EBML_MARK: [u8; 4] = [0x1A, 0x45, 0xDF, 0xA3];

// Returns the damage for which the values of an EBML header are refused, or None: its DocType, versions or maximum
// lengths. Its data is `body`, at the offset `base` of a file of `total` bytes. Used by `header_refusal`.
fn value_refusal(body: &[u8], base: u64, total: u64) -> Option<Damage>
    requires { base + length body.now ≤ LONGEST_FILE }
    ensures { IfSound base total body.now (λ bytes. result ≡ value_refusal bytes (in_body bytes base body.now)) }
{
    let doc_type = wrong_doc_type(body, base, total);
    let version = above(body, base, total, EBML_READ_VERSION, 1, Kind::ReadVersion);
    let doc_version = above(
        body,
        base,
        total,
        DOC_TYPE_READ_VERSION,
        4,
        Kind::ReadVersion,
    );
    let id_length = above(body, base, total, EBML_MAX_ID_LENGTH, 4, Kind::MaxLengths);
    let size_length = above(body, base, total, EBML_MAX_SIZE_LENGTH, 8, Kind::MaxLengths);
    doc_type
        .or(version)
        .or(doc_version)
        .or(id_length)
        .or(size_length)
}

/// Returns the damage for which the EBML header `header` is refused, or None. Its data is `body`, which isn't longer
/// than the limit, and `total` is the length of the file in bytes. Used by `ebml_header`.
pub fn header_refusal(body: &[u8], header: &Header, total: u64) -> Option<Damage>
    requires few { header.now.body + length body.now ≤ LONGEST_FILE }
    requires whole { length body.now ≡ known header.now.size }
    requires most { known header.now.size ≤ MAX_HEADER_LEN }
    ensures { IfBody header.now.body total body.now (λ bytes. result ≡ header_refusal bytes header.now) }
{
    if let Some(damage) = child_refusal(body, header.body, total) {
        return Some(damage);
    }
    value_refusal(body, header.body, total)
}

// Returns the header of the Element at the start of `file`, which has `total` bytes, read through `window`. The inner
// error is the damage of a file that doesn't begin with the EBML header's ID, or whose first Element isn't valid. Used
// by `ebml_header`.
fn first_element<R: Reads>(
    window: &mut Window,
    src: &mut R,
    file: FileId,
    total: u64,
) -> Result<Result<Header, Damage>, Failed>
    requires live { IsLive R.Reads src.old file }
    requires whole { total ≡ file_size R.Reads src.old file }
    requires holds { IfTold R.Reads src.old file (λ bytes. Holds bytes window.old) }
    ensures ok { IfOk result (λ found. IfTold R.Reads src.old file (λ bytes. found ≡ first_element bytes)) }
    ensures inside { IfOk result (λ found. IfOk found (λ h. stated_end h ≤ total)) }
    ensures holds { IfTold R.Reads src.old file (λ bytes. Holds bytes window.new) }
    ensures err { OnErr result (window.new ≡ nothing_at 0) }
    ensures same { OnlyReads R.Reads src.old src.new }
    ensures cause { HasCause is_failure (R.reading_faults src.old) (R.reading_faults src.new) result }
    ensures goes { Goes R.Reads file 0 (λ _. 0) window.old window.new src.old src.new result }
{
    let len = total.min(MAX_ELEMENT_HEADER_LEN) as u16;
    window.hold(src, file, 0, len)?;
    let octets = window.octets_at(0, usize::from(len));
    if !octets.starts_with(&EBML_MARK) {
        return Ok(Err(damage(Kind::NotEbml, 0, 0)));
    }
    Ok(read_header(octets, Parent::File, total, 0, total))
}

/// Reads the EBML header of `file`, which has `total` bytes, through `window`, and returns its header. The inner error
/// is the damage for which the file is refused there. The first step of reading an outline.
pub fn ebml_header<R: Reads>(
    alloc: Global,
    window: &mut Window,
    src: &mut R,
    file: FileId,
    total: u64,
) -> Result<Result<Header, Damage>, ReadEnd>
    requires live { IsLive R.Reads src.old file }
    requires whole { total ≡ file_size R.Reads src.old file }
    requires holds { IfTold R.Reads src.old file (λ bytes. Holds bytes window.old) }
    ensures ok { IfOk result (λ found. IfTold R.Reads src.old file (λ bytes. found ≡ ebml_header bytes)) }
    ensures inside { IfOk result (λ found. IfOk found (λ h. stated_end h ≤ total)) }
    ensures holds { IfTold R.Reads src.old file (λ bytes. Holds bytes window.new) }
    ensures same { OnlyReads R.Reads src.old src.new }
    ensures cause { HasCause is_read_fault (R.reading_faults src.old) (R.reading_faults src.new) result }
    ensures goes { GoesBesides R.Reads file total 0 (λ _. 0) window.old window.new src.old src.new result }
{
    let header = match first_element(window, src, file, total)? {
        Ok(header) => header,
        Err(damage) => return Ok(Err(damage)),
    };
    if let Some(damage) = over(MAX_HEADER_LEN, &header) {
        return Ok(Err(damage));
    }
    let mut body = vec![in alloc; 0; known(header.size) as usize]?;
    window.fill(src, file, header.body, &mut body)?;
    match header_refusal(&body, &header, total) {
        Some(damage) => Ok(Err(damage)),
        None => Ok(Ok(header)),
    }
}
