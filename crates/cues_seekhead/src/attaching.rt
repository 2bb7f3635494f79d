//! Attached files, written with their data

ghost use Rattle.std.specs.Prelude.{[], ◌≤◌, All, length, map, sum_by};
ghost use Rattle.mkv_io.specs.Sources.{IsLive, live_files};
ghost use Rattle.output_model.specs.declared.attachment.Attachment.{Attachment as AttachmentSeen};
ghost use Rattle.output_model.specs.Attached.{attached_file};
ghost use Rattle.output_model.specs.Element.{joined, octets_of};
ghost use Rattle.output_model.specs.Document.{tree_element};
ghost use Rattle.cues_seekhead.specs.Appending.{AppendsAttached, AppendsAttachment, AppendsOnly};
ghost use Rattle.cues_seekhead.specs.OpenOutput.{CanAttach};

use crate::attached::{octets_before_data, octets_behind_data};
use crate::copying::{append, copy_data};
use mkv_io::{FileId, Files, Reads, RemuxEnd as OutEnd};
use output_model::Attachment;
use std::alloc::Global;

// Number of bytes of data that are copied at once
const CHUNK: usize = 65_536;

/// Appends the AttachedFile of `attachment` to the output `file`. Its data are copied from the input in `files` that
/// has them, through `buffer`. Used by `add_each`.
fn add_attachment<F: Files>(
    alloc: Global,
    files: &mut F,
    file: FileId,
    attachment: &Attachment,
    buffer: &mut [u8],
) -> Result<(), OutEnd>
    requires live { IsLive F.Reads files.old file }
    requires attached { CanAttach F.Reads F.Files.own files.old (F.holder files.old file.n) attachment.now }
    requires buffer { 1 ≤ length buffer.old }
    ensures { AppendsAttachment F.Reads F.Files.own file attachment.now files.old files.new result }
{
    let before = octets_before_data(alloc, attachment)?;
    let behind = octets_behind_data(alloc, attachment)?;
    append(files, file, before.as_slice())?;
    copy_data(
        files,
        attachment.file,
        attachment.at,
        attachment.len,
        file,
        buffer,
    )?;
    append(files, file, behind.as_slice())
}

// Appends the AttachedFiles of all `attachments`, with their data, to the output `file`, through `buffer`. Used by
// `add_attachments`.
fn add_each<F: Files>(
    alloc: Global,
    files: &mut F,
    file: FileId,
    attachments: &[Attachment],
    buffer: &mut [u8],
) -> Result<(), OutEnd>
    requires live { IsLive F.Reads files.old file }
    requires attached { All (CanAttach F.Reads F.Files.own files.old (F.holder files.old file.n)) attachments.now }
    requires buffer { 1 ≤ length buffer.old }
    ensures { AppendsAttached F.Reads F.Files.own file [] attachments.now files.old files.new result }
{
    for attachment in attachments {
        add_attachment(alloc, files, file, attachment, buffer)?;
    }
    Ok(())
}

/// Appends the AttachedFiles of all `attachments`, with their data, in sequence, to the output `file`. `merge` does
/// this after the header of Attachments. The data are copied from their files in `files`, 64 KiB at once.
pub(crate) fn add_attachments<F: Files>(
    alloc: Global,
    files: &mut F,
    file: FileId,
    attachments: &[Attachment],
) -> Result<(), OutEnd>
    requires live { IsLive F.Reads files.old file }
    requires attached { All (CanAttach F.Reads F.Files.own files.old (F.holder files.old file.n)) attachments.now }
    ensures { AppendsAttached F.Reads F.Files.own file [] attachments.now files.old files.new result }
{
    if attachments.is_empty() {
        return Ok(());
    }
    let mut buffer = vec![in alloc; 0u8; CHUNK]?;
    add_each(alloc, files, file, attachments, &mut buffer)
}
