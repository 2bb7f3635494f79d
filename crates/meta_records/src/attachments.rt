//! Attached files of a file: RFC 9559, section 5.1.6 (Attachments).

ghost use Rattle.std.specs.Prelude.{◌≡◌, ◌+◌, ◌*◌, ◌<◌, ◌≤◌, false, All, IfOk, OnOk};
ghost use Rattle.mkv_io.specs.Bounds.{ReadsUpTo};
ghost use Rattle.mkv_io.specs.Faults.{HasCause};
ghost use Rattle.mkv_io.specs.Sources.{IfTold, IsLive, file_size};
ghost use Rattle.mkv_schema.specs.Element.{is_unknown, known, stated_end};
ghost use Rattle.meta_records.specs.declared.limits.TheConstants.{MAX_ATTACHMENTS_LEN};
ghost use Rattle.meta_records.specs.Attachments.{attachments_in, child_of};
ghost use Rattle.meta_records.specs.Walk.{AreAttachedIn, IsAttachedIn, Meets, PaysUpTo, ReadsAs, ReadsChild, WalksAll, child_met, good_files, is_attachments_fault};

use crate::attached::{Attached, read_attached};
use crate::counts::Counts;
use crate::end::MetaEnd;
use crate::header::child_header;
use crate::limits::MAX_ATTACHMENTS;
use elements::{damage, known};
use mkv_io::{Damage, FileId, Kind, List, Reads};
use mkv_schema::Header;
use mkv_schema::ids::ATTACHED_FILE;
use output_model::Attachment;
use std::alloc::Global;

/// Attached files that were read up to now, and the damage of the first one without data
#[derive(Drop)]
pub(crate) struct AttachmentScan {
    pub attachments: List<Attachment>,
    pub missing: Option<Damage>,
}

// Returns the number of bytes of `child`, a child of Attachments, that count towards the limit: the header of an
// AttachedFile, or else 0. For `read_child`, when the attached files of a file are read.
fn counted_of(child: &Header) -> u64
    requires { child.now.offset ≤ child.now.body }
    ensures { result ≡ (child_of child.now).counted }
{
    if child.id == ATTACHED_FILE {
        child.body - child.offset
    } else {
        0
    }
}

// Reads the child at offset `at` of an Attachments that ends at `end`, and adds it to `counts`. An AttachedFile is also
// added to `found`. Returns the offset of the next child; offsets are from the start of the file. For `read_children`,
// when the attached files of a file are read.
fn read_child<R: Reads>(
    alloc: Global,
    src: &mut R,
    file: FileId,
    counts: &mut Counts,
    found: &mut AttachmentScan,
    at: u64,
    end: u64,
) -> Result<u64, MetaEnd>
    requires live { IsLive R.Reads src.old file }
    requires place { at < end }
    requires inside { end ≤ file_size R.Reads src.old file }
    ensures meets { IfTold R.Reads src.old file (λ bytes. Meets (child_met bytes at end) counts.old counts.new result) }
    ensures adds { IfOk result (λ n. IfTold R.Reads src.old file (λ b. ReadsChild b file at end n found.old found.new)) }
    ensures next { IfOk result (λ next. (at < next) × (next ≤ end)) }
    ensures sound { AreAttachedIn file end found.old → OnOk result (AreAttachedIn file end found.new) }
    ensures standing { R.standing src.new ≡ R.standing src.old }
    ensures cause { HasCause is_attachments_fault (R.reading_faults src.old) (R.reading_faults src.new) result }
    ensures pays { PaysUpTo at end counts.old counts.new (R.octets_read src.old) (R.octets_read src.new) result }
{
    let child = child_header(src, file, at, end)?;
    counts.add(&child, counted_of(&child))?;
    let next = child.body + known(child.size);
    if child.id != ATTACHED_FILE {
        return Ok(next);
    }
    let Attached {
        attachment,
        missing,
    } = read_attached(alloc, src, file, counts, &child)?;
    found.attachments.push(attachment)?;
    found.missing = found.missing.or(missing);
    Ok(next)
}

// Reads the children of the Attachments with the header `header`: all its AttachedFiles without data. For
// `read_attachments`, when the attached files of a file are read.
fn read_children<R: Reads>(
    alloc: Global,
    src: &mut R,
    file: FileId,
    header: &Header,
) -> Result<AttachmentScan, MetaEnd>
    requires live { IsLive R.Reads src.old file }
    requires known { is_unknown header.now.size ≡ false }
    requires inside { stated_end header.now ≤ file_size R.Reads src.old file }
    ensures exact { IfTold R.Reads src.old file (λ bytes. WalksAll bytes file header.now result) }
    ensures sound { IfOk result (AreAttachedIn file (stated_end header.now)) }
    ensures standing { R.standing src.new ≡ R.standing src.old }
    ensures cause { HasCause is_attachments_fault (R.reading_faults src.old) (R.reading_faults src.new) result }
    ensures octets { ReadsUpTo R.Reads src.old src.new (16 * known header.now.size) }
    ensures few { ReadsUpTo R.Reads src.old src.new (2 * MAX_ATTACHMENTS_LEN) }
{
    let end = header.body + known(header.size);
    let mut counts = Counts::new();
    let mut found = AttachmentScan {
        attachments: List::new(alloc),
        missing: None,
    };
    let mut at = header.body;
    while at < end {
        at = read_child(alloc, src, file, &mut counts, &mut found, at, end)?;
    }
    Ok(found)
}

// Returns the attached files in `found`, which were read, or damage. The first one without data is damage, and so are
// more than 1,024. For `read_attachments`, when the attached files of a file are read.
fn good_files(found: AttachmentScan) -> Result<List<Attachment>, Damage>
    ensures exact { result ≡ good_files found }
    ensures same { IfOk result (λ files. files ≡ found.attachments) }
{
    let AttachmentScan {
        attachments,
        missing,
    } = found;
    if let Some(missing) = missing {
        return Err(missing);
    }
    match attachments.get(MAX_ATTACHMENTS) {
        Some(one) => Err(damage(Kind::TooMany, ATTACHED_FILE, one.entry.offset())),
        None => Ok(attachments),
    }
}

/// Reads the attached files of the Attachments with the header `header` in `file`, without their data, or returns the
/// first damage (RFC 9559, section 5.1.6, Attachments).
///
/// Fails if the Attachments isn't made of valid Elements, or an AttachedFile has no FileData. Fails also above
/// `MAX_ATTACHMENTS_LEN` bytes without data, 65,536 Elements or 1,024 attached files. Damage of the Elements is
/// reported first. Used by `first_attachments`.
pub fn read_attachments<R: Reads>(
    alloc: Global,
    src: &mut R,
    file: FileId,
    header: &Header,
) -> Result<List<Attachment>, MetaEnd>
    requires live { IsLive R.Reads src.old file }
    requires known { is_unknown header.now.size ≡ false }
    requires inside { stated_end header.now ≤ file_size R.Reads src.old file }
    ensures exact { IfTold R.Reads src.old file (λ bytes. ReadsAs (attachments_in bytes file header.now) result) }

    // Their entries can be written and read again, and their data are in the file.
    ensures sound { IfOk result (All (IsAttachedIn file (stated_end header.now))) }
    ensures standing { R.standing src.new ≡ R.standing src.old }
    ensures cause { HasCause is_attachments_fault (R.reading_faults src.old) (R.reading_faults src.new) result }

    // The data don't add to the bytes that are read.
    ensures octets { ReadsUpTo R.Reads src.old src.new (16 * known header.now.size) }
    ensures few { ReadsUpTo R.Reads src.old src.new (2 * MAX_ATTACHMENTS_LEN) }
{
    let found = read_children(alloc, src, file, header)?;
    let attachments = good_files(found)?;
    Ok(attachments)
}
