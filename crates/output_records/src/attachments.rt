//! Attached files of an output: RFC 9559, section 5.1.6 (Attachments).

ghost use Rattle.std.specs.Prelude.{◌≡◌, ◌≤◌, length, All, IfOk};
ghost use Rattle.output_records.specs.Attachments.{files_of, file_numbers, with_uid, with_uids};
ghost use Rattle.output_records.specs.Inputs.{IsAttached, IsInput};

use crate::inputs::InputRecords;
use crate::uids::push_file_uids;
use ebml_tree::uint_leaf;
use mkv_io::List;
use mkv_schema::ids::FILE_UID;
use output_model::Attachment;
use record_changes::renumber;
use std::alloc::{AllocError, Global};

/// Returns the output's FileUIDs for the attached files of all inputs, in their order. Used by `numbers_of`, for
/// `merge_records`.
pub(crate) fn file_numbers(alloc: Global, inputs: &[InputRecords]) -> Result<List<u64>, AllocError>
    ensures { IfOk result (λ numbers. numbers ≡ file_numbers inputs.now) }
{
    let mut uids = List::new(alloc);
    for input in inputs {
        push_file_uids(input.attachments.as_slice(), &mut uids)?;
    }
    renumber(alloc, uids.as_slice())
}

// Returns a copy of the attached file `file` with the FileUID `uid`, also in its AttachedFile. Used by
// `attachments_of`.
fn with_uid(alloc: Global, uid: u64, file: &Attachment) -> Result<Attachment, AllocError>
    requires { IsAttached file.now }
    ensures exact { IfOk result (λ written. written ≡ with_uid uid file.now) }
    ensures sound { IfOk result IsAttached }
{
    let mut entry = file.entry.copy(alloc)?;
    entry.set(uint_leaf(alloc, FILE_UID, uid)?)?;
    Ok(Attachment {
        uid,
        file: file.file,
        at: file.at,
        len: file.len,
        entry,
    })
}

/// Returns the attached files of all inputs, input after input, with the output's FileUIDs `numbers`, one for each.
/// Used by `merge_records`.
pub(crate) fn attachments_of(
    alloc: Global,
    inputs: &[InputRecords],
    numbers: &[u64],
) -> Result<List<Attachment>, AllocError>
    requires inputs { All IsInput inputs.now }
    requires enough { length (files_of inputs.now) ≤ length numbers.now }
    ensures exact { IfOk result (λ written. written ≡ with_uids numbers.now (files_of inputs.now)) }
    ensures sound { IfOk result (All IsAttached) }
{
    let mut written = List::new(alloc);
    for input in inputs {
        for file in input.attachments.as_slice() {
            let uid = numbers[written.len()];
            written.push(with_uid(alloc, uid, file)?)?;
        }
    }
    Ok(written)
}
