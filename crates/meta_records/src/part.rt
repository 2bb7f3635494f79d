//! Child of an AttachedFile: RFC 9559, section 5.1.6 (Attachments).

ghost use Rattle.std.specs.Prelude.{◌≡◌, ◌+◌, ◌^◌, ◌<◌, ◌≤◌, IfOk};
ghost use Rattle.mkv_io.specs.Bounds.{ReadsUpTo};
ghost use Rattle.mkv_io.specs.Faults.{HasCause, is_read_fault};
ghost use Rattle.mkv_io.specs.Sources.{IfTold, IsLive, file_size};
ghost use Rattle.mkv_schema.specs.Element.{known, stated_end};
ghost use Rattle.mkv_schema.specs.Value.{body_of};
ghost use Rattle.meta_records.specs.Attachments.{counted_of};
ghost use Rattle.meta_records.specs.Walk.{IsChild, IsPart, IsPartLeaf, Meets, Pays, ReadsAs, behind_part, is_attachments_fault, leaf_in, octets_of, part_met};

use crate::counts::Counts;
use crate::end::MetaEnd;
use crate::header::child_header;
use ebml_tree::Tree;
use elements::{damage_at, is_known_value, known};
use mkv_io::{Bytes, FileId, Kind, ReadEnd, Reads};
use mkv_schema::Header;
use mkv_schema::ids::{ATTACHED_FILE, FILE_DATA};
use std::alloc::Global;

/// Child of an AttachedFile: its header, and its tree, which is empty for FileData
#[derive(Drop)]
pub(crate) struct Part {
    pub header: Header,
    pub leaf: Tree,
}

// Returns the number of bytes of `part`, a child of an AttachedFile, that count towards the limit: all, or only the
// header of FileData. For `read_part`, when the attached files of a file are read.
fn counted_of(part: &Header) -> u64
    requires behind { part.now.offset ≤ part.now.body }
    requires short { stated_end part.now < 2 ^ 64 }
    ensures { result ≡ counted_of part.now }
{
    let header = part.body - part.offset;
    if part.id == FILE_DATA {
        header
    } else {
        header + known(part.size)
    }
}

// Reads the content of the Element with the header `header` into memory. A limit on counted bytes was checked before.
// For `leaf_of`, when the attached files of a file are read.
fn body_of<R: Reads>(
    alloc: Global,
    src: &mut R,
    file: FileId,
    header: &Header,
) -> Result<Bytes, ReadEnd>
    requires live { IsLive R.Reads src.old file }
    requires inside { stated_end header.now ≤ file_size R.Reads src.old file }
    ensures ok { IfOk result (λ body. IfTold R.Reads src.old file (λ bytes. body ≡ body_of bytes header.now)) }
    ensures standing { R.standing src.new ≡ R.standing src.old }
    ensures cause { HasCause is_read_fault (R.reading_faults src.old) (R.reading_faults src.new) result }
    ensures octets { ReadsUpTo R.Reads src.old src.new (known header.now.size) }
{
    let mut body = vec![in alloc; 0; known(header.size) as usize]?;
    src.read_at(file, header.body, &mut body)?;
    Ok(Bytes::from_vec(body))
}

// Reads the child of an AttachedFile with the header `part` as a tree. Its content must be a valid value; the data stay
// unread. For `read_part`, when the attached files of a file are read.
fn leaf_of<R: Reads>(
    alloc: Global,
    src: &mut R,
    file: FileId,
    part: &Header,
) -> Result<Tree, MetaEnd>
    requires live { IsLive R.Reads src.old file }
    requires child { IsChild part.now.offset (file_size R.Reads src.old file) part.now }
    ensures exact { IfTold R.Reads src.old file (λ bytes. ReadsAs (leaf_in bytes part.now) result) }
    ensures leaf { IfOk result IsPartLeaf }
    ensures standing { R.standing src.new ≡ R.standing src.old }
    ensures cause { HasCause is_attachments_fault (R.reading_faults src.old) (R.reading_faults src.new) result }
    ensures octets { ReadsUpTo R.Reads src.old src.new (octets_of part.now) }
{
    if part.id == FILE_DATA {
        return Ok(Tree::leaf(alloc, FILE_DATA, &[])?);
    }
    let body = body_of(alloc, src, file, part)?;
    if !is_known_value(ATTACHED_FILE, part.id, body.as_slice()) {
        return Err(MetaEnd::Refused(damage_at(Kind::BadValue, part)));
    }
    Ok(Tree::leaf(alloc, part.id, body.as_slice())?)
}

/// Reads the child at offset `at` of an AttachedFile that ends at `end`, and adds it to `counts`. Both are offsets in
/// `file`. `read_parts` calls it for each child.
pub(crate) fn read_part<R: Reads>(
    alloc: Global,
    src: &mut R,
    file: FileId,
    counts: &mut Counts,
    at: u64,
    end: u64,
) -> Result<Part, MetaEnd>
    requires live { IsLive R.Reads src.old file }
    requires place { at < end }
    requires inside { end ≤ file_size R.Reads src.old file }
    ensures meets { IfTold R.Reads src.old file (λ bytes. Meets (part_met bytes at end) counts.old counts.new result) }
    ensures exact { IfOk result (λ part. IfTold R.Reads src.old file (λ bytes. IsPart bytes at end part)) }
    ensures child { IfOk result (λ part. IsChild at end part.header) }
    ensures leaf { IfOk result (λ part. IsPartLeaf part.leaf) }
    ensures standing { R.standing src.new ≡ R.standing src.old }
    ensures cause { HasCause is_attachments_fault (R.reading_faults src.old) (R.reading_faults src.new) result }
    ensures pays { Pays at behind_part end counts.old counts.new (R.octets_read src.old) (R.octets_read src.new) result }
{
    let header = child_header(src, file, at, end)?;
    counts.add(&header, counted_of(&header))?;
    let leaf = leaf_of(alloc, src, file, &header)?;
    Ok(Part { header, leaf })
}
