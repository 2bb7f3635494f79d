//! Elements before the Clusters

ghost use Rattle.std.specs.Prelude.{◌≡◌, ◌+◌, ◌≤◌, ◌++◌, length, sum_by, OnOk, IfOk, IfSome};
ghost use Rattle.ebml_numbers.specs.Number.{id_octets};
ghost use Rattle.mkv_schema.specs.declared.ids.TheConstants.{SEGMENT, INFO as INFO_ID, TRACKS as TRACKS_ID};
ghost use Rattle.tree_format.specs.Node.{id_of};
ghost use Rattle.tree_format.specs.NormalForm.{longest};
ghost use Rattle.output_model.specs.Element.{octets_of};
ghost use Rattle.output_model.specs.SeekHead.{open_area};
ghost use Rattle.output_model.specs.Document.{ebml_element, unknown_size, file_with};
ghost use Rattle.cues_seekhead.specs.Attached.{attached_total, attachments_header, attachments_seeks, seeks_behind};
ghost use Rattle.cues_seekhead.specs.Front.{IsOpening, body_start};
ghost use Rattle.cues_seekhead.specs.Places.{AreIds};

use crate::area::put_void;
use crate::attached::attached_len;
use crate::info::put_info;
use crate::places::{add_seek, add_tree, sized};
use crate::written::put_header;
use mkv_io::Bytes;
use mkv_schema::ids::{ATTACHMENTS, INFO, TRACKS};
use output_model::{AREA, Attachment, DURATION_LEN, Front, Seek};
use std::alloc::{AllocError, Global};

/// Start of an output, which is written first
#[derive(Drop)]
pub struct Opening {
    /// First bytes, up to the first AttachedFile or else up to the first Cluster
    pub octets: Bytes,
    /// Positions of the Elements before the first Cluster, for the SeekHead
    pub seeks: Vec<Seek>,
    /// Length in bytes of the Segment's content before the first Cluster, AttachedFiles included
    pub len: u64,
    /// Offset in bytes of the Void in the Duration's place from the start of the Segment's body, if there is one
    pub place: Option<u64>,
}

const MATROSKA: [u8; 40] = [
    0x1A, 0x45, 0xDF, 0xA3, 0xA3, 0x42, 0x86, 0x81, 0x01, 0x42, 0xF7, 0x81, 0x01, 0x42, 0xF2, 0x81,
    0x04, 0x42, 0xF3, 0x81, 0x08, 0x42, 0x82, 0x88, 0x6D, 0x61, 0x74, 0x72, 0x6F, 0x73, 0x6B, 0x61,
    0x42, 0x87, 0x81, 0x04, 0x42, 0x85, 0x81, 0x02,
];

const WEBM: [u8; 36] = [
    0x1A, 0x45, 0xDF, 0xA3, 0x9F, 0x42, 0x86, 0x81, 0x01, 0x42, 0xF7, 0x81, 0x01, 0x42, 0xF2, 0x81,
    0x04, 0x42, 0xF3, 0x81, 0x08, 0x42, 0x82, 0x84, 0x77, 0x65, 0x62, 0x6D, 0x42, 0x87, 0x81, 0x04,
    0x42, 0x85, 0x81, 0x02,
];

// the Segment's ID and an unknown size
const SEGMENT_HEADER: [u8; 12] = [
    0x18, 0x53, 0x80, 0x67, 0x01, 0xFF, 0xFF, 0xFF, 0xFF, 0xFF, 0xFF, 0xFF,
];

// Appends to `out` the EBML header of an output, which is WebM if `webm` is true, and otherwise Matroska. Used by
// `head_octets`.
#[tactic(auto, unfolding(ebml_numbers::specs::Number::uint_width, ebml_numbers::specs::Number::least_size_width))]
fn put_ebml(out: &mut Bytes, webm: bool) -> Result<(), AllocError>
    ensures ok { OnOk result (out.new ≡ out.old ++ octets_of (ebml_element webm)) }
{
    if webm {
        out.append(&WEBM)?;
    } else {
        out.append(&MATROSKA)?;
    }
    Ok(())
}

// Appends to `out`, the first bytes of an output of `merge`, the ID of its Segment and an unknown size in eight bytes.
// `finish` later writes the size over these. Used by `open_octets`.
#[tactic(auto, unfolding(ebml_numbers::specs::Number::uint_width))]
fn put_segment(out: &mut Bytes) -> Result<(), AllocError>
    ensures ok { OnOk result (out.new ≡ out.old ++ (id_octets SEGMENT ++ unknown_size)) }
{
    out.append(&SEGMENT_HEADER)?;
    Ok(())
}

/// Returns the number of bytes of an output before its Segment's content: the EBML header, the Segment's ID and its
/// size. `webm` is true if the output is WebM. `finish` adds it to the offsets of its last writes.
pub fn body_start(webm: bool) -> u64
    ensures { result ≡ body_start webm }
{
    let ebml = if webm { WEBM.len() } else { MATROSKA.len() };
    (ebml + SEGMENT_HEADER.len()) as u64
}

// Returns the length in bytes of the AttachedFiles of all `attachments`, with their data, for the size of the
// Attachments. Fails as if memory ran out if a size can't express it. Used by `add_attachments`.
fn attachments_len(attachments: &[Attachment]) -> Result<u64, AllocError>
    ensures exact { IfOk result (λ len. len ≡ sum_by attached_total attachments.now) }
    ensures most { IfOk result (λ len. len ≤ longest) }
{
    let mut total = 0;
    for attachment in attachments {
        total = sized(total + attached_len(attachment)?)?;
    }
    Ok(total)
}

// Appends the header of Attachments to `out`, and its Seek to `seeks`, or nothing without `attachments`. `out` has the
// Elements of an output before its Clusters, and begins `at` bytes inside the Segment's content. Returns the length in
// bytes of the AttachedFiles, which are written later. Used by `open_octets`.
#[tactic(auto, unfolding(ebml_numbers::specs::Number::is_id))]
fn add_attachments(
    out: &mut Bytes,
    seeks: &mut Vec<Seek>,
    at: u64,
    attachments: &[Attachment],
) -> Result<u64, AllocError>
    ensures octets { OnOk result (out.new ≡ out.old ++ attachments_header attachments.now) }
    ensures places { OnOk result (seeks.new.items ≡ seeks.old.items ++ seeks_behind at out.old attachments.now) }
    ensures len { IfOk result (λ len. len ≡ sum_by attached_total attachments.now) }
    ensures most { IfOk result (λ len. len ≤ longest) }
{
    if attachments.is_empty() {
        return Ok(0);
    }
    let len = attachments_len(attachments)?;
    add_seek(seeks, ATTACHMENTS, at, out)?;
    put_header(out, ATTACHMENTS, len)?;
    Ok(len)
}

// Returns the first bytes of an output while it is being written: the EBML header, the Segment's ID with an unknown
// size, a Void in the area for the SeekHead, and then `rest`. `webm` is true if the output is WebM. Used by
// `open_octets`.
fn head_octets(alloc: Global, webm: bool, rest: &Bytes) -> Result<Bytes, AllocError>
    ensures { IfOk result (λ out. out ≡ file_with webm unknown_size open_area rest.now) }
{
    let mut out = Bytes::new(alloc);
    put_ebml(&mut out, webm)?;
    put_segment(&mut out)?;
    put_void(&mut out, AREA)?;
    out.append(rest.as_slice())?;
    Ok(out)
}

/// Returns the start of an output with the Elements `front` before its first Cluster, without the AttachedFiles. An
/// output longer than a size can express fails as if memory ran out. Used by `begin`.
pub fn open_octets(alloc: Global, front: &Front) -> Result<Opening, AllocError>
    requires info { id_of front.now.info ≡ INFO_ID }
    requires tracks { id_of front.now.tracks ≡ TRACKS_ID }
    ensures opening { IfOk result (IsOpening front.now) }
    ensures ids { IfOk result (λ o. AreIds o.seeks.items) }
    ensures few { IfOk result (λ o. length o.seeks.items ≤ 3) }
    ensures area { IfOk result (λ o. AREA ≤ o.len) }
    ensures place { IfOk result (λ o. IfSome o.place (λ at. at + DURATION_LEN ≤ o.len)) }
{
    let mut seeks = Vec::new(alloc);
    let mut rest = Bytes::new(alloc);
    add_seek(&mut seeks, INFO, AREA, &rest)?;
    let place = put_info(&mut rest, &front.info, front.duration)?;
    add_tree(&mut rest, &mut seeks, AREA, &front.tracks, TRACKS)?;
    let attached = add_attachments(&mut rest, &mut seeks, AREA, front.attachments.as_slice())?;
    let octets = head_octets(alloc, front.webm, &rest)?;
    let len = AREA + rest.len() as u64 + attached;
    Ok(Opening {
        octets,
        seeks,
        len,
        place,
    })
}
