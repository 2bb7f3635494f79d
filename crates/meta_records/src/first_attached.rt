//! Attached files of the first Attachments: RFC 9559, section 5.1.6 (Attachments).

ghost use Rattle.std.specs.Prelude.{◌≡◌, ◌*◌, List, Ok, IfOk};
ghost use Rattle.std.specs.List.{All};
ghost use Rattle.mkv_io.specs.Bounds.{ReadsUpTo};
ghost use Rattle.mkv_io.specs.Faults.{HasCause};
ghost use Rattle.mkv_io.specs.Sources.{IfTold, IsLive, file_size};
ghost use Rattle.element_reader.specs.Outline.{is_outline_fault, outline_in};
ghost use Rattle.meta_records.specs.declared.limits.TheConstants.{MAX_ATTACHMENTS_LEN};
ghost use Rattle.meta_records.specs.Walk.{IsAttachedIn};
ghost use Rattle.meta_records.specs.Attached.{ReadsAttached, first_attached};
ghost use Rattle.meta_records.specs.Records.{IfOutlinedAs};

use crate::attachments::read_attachments;
use crate::end::MetaEnd;
use element_reader::{Outline, OutlineEnd};
use mkv_io::{FileId, List, Reads};
use mkv_schema::ids::ATTACHMENTS;
use output_model::Attachment;
use std::alloc::Global;

/// Reads the attached files of the first Attachments of `file`, without their data, or returns its damage. Without
/// Attachments the list is empty. `outline` has the headers of level 1. Used by `read_records`, and by edits that must
/// keep attached files.
pub fn first_attachments<R: Reads>(
    alloc: Global,
    outline: &Outline,
    src: &mut R,
    file: FileId,
) -> Result<List<Attachment>, OutlineEnd>
    requires live { IsLive R.Reads src.old file }
    requires whole { outline.now.total ≡ file_size R.Reads src.old file }
    ensures exact { IfOutlinedAs R.Reads src.old file outline.now first_attached (λ found. ReadsAttached found result) }
    ensures sound { IfOk result (All (IsAttachedIn file outline.now.total)) }
    ensures standing { R.standing src.new ≡ R.standing src.old }
    ensures cause { HasCause is_outline_fault (R.reading_faults src.old) (R.reading_faults src.new) result }
    ensures octets { ReadsUpTo R.Reads src.old src.new (16 * file_size R.Reads src.old file) }
    ensures few { ReadsUpTo R.Reads src.old src.new (2 * MAX_ATTACHMENTS_LEN) }
{
    let Some(header) = outline.first(ATTACHMENTS) else {
        return Ok(List::new(alloc));
    };
    match read_attachments(alloc, src, file, &header) {
        Ok(attachments) => Ok(attachments),
        Err(MetaEnd::Refused(damage)) => Err(OutlineEnd::Refused(damage)),
        Err(MetaEnd::ReadFault) => Err(OutlineEnd::ReadFault),
        Err(MetaEnd::Memory) => Err(OutlineEnd::Memory),
    }
}
