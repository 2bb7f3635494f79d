//! Extraction of attached files, each to its own file.

ghost use Rattle.std.specs.Prelude.{◌≡◌, ◌≤◌, ◌∷◌, [], length, option_map};
ghost use Rattle.mkv_io.specs.Bounds.{ReadsUpTo};
ghost use Rattle.mkv_io.specs.Names.{AreOthers};
ghost use Rattle.mkv_io.specs.Sources.{IsLive, file_size};
ghost use Rattle.mkv_io.specs.Writing.{KeepsOthers};
ghost use Rattle.mkv_io.specs.Ends.{HasRemuxCause};
ghost use Rattle.extractors.specs.Job.{names_of};
ghost use Rattle.extractors.specs.Attached.{HasAttached, ReadsTimes, WritesAttached, WritesAttachment, attached_at};

use crate::source::Source;
use crate::whole::copy_file;
use mkv_io::{Files, List, RemuxEnd};
use output_model::Attachment;
use requests::Target;
use std::alloc::Global;

/// Size in bytes of the buffer through which the data of attached files is copied.
const CHUNK: usize = 65_536;

/// Returns the attached file of `list` with the ID `number`, counted from 1 in the order of the Attachments. Returns
/// None for 0 or a number past the last. Used by `write_attachment`.
fn attached_at(list: &List<Attachment>, number: u64) -> Option<&Attachment>
    ensures { option_map (λ a. a.now) result ≡ attached_at list.now number }
{
    if number == 0 {
        return None;
    }
    list.get((number - 1) as usize)
}

/// Creates or replaces the file of `target`, and copies the data of the attached file that it names from `source`
/// through `buffer`. If the source has no such attached file, nothing is created. Used by `write_each`.
fn write_attachment<F: Files>(
    files: &mut F,
    source: &Source,
    target: &Target,
    buffer: &mut [u8],
) -> Result<(), RemuxEnd>
    requires live { IsLive F.Reads files.old source.now.file }
    requires attached { HasAttached F.Reads files.old source.now }
    requires other { AreOthers (F.holder files.old source.now.file.n) (target.now.name ∷ []) }
    requires buffer { 1 ≤ length buffer.old }
    ensures writes { WritesAttachment F.Reads F.Files.own source.now target.now files.old files.new result }
    ensures kept { KeepsOthers F.Reads F.Files.own (target.now.name ∷ []) files.old files.new }
    ensures cause { HasRemuxCause F.Reads F.Files.own files.old files.new result }
    ensures reads { ReadsUpTo F.Reads files.old files.new (file_size F.Reads files.old source.now.file) }
{
    let Some(attachment) = attached_at(&source.attachments, target.id) else {
        return Ok(());
    };
    copy_file(
        files,
        target.name.as_str(),
        attachment.file,
        attachment.at,
        attachment.len,
        buffer,
    )
}

/// Writes the file of each target in `targets`, in order, from `source`, for `write_attachments`. The data goes through
/// `buffer`, and the first failure ends it.
fn write_each<F: Files>(
    files: &mut F,
    source: &Source,
    targets: &[Target],
    buffer: &mut [u8],
) -> Result<(), RemuxEnd>
    requires live { IsLive F.Reads files.old source.now.file }
    requires attached { HasAttached F.Reads files.old source.now }
    requires other { AreOthers (F.holder files.old source.now.file.n) (names_of targets.now) }
    requires buffer { 1 ≤ length buffer.old }
    ensures writes { WritesAttached F.Reads F.Files.own source.now targets.now files.old files.new result }
    ensures kept { KeepsOthers F.Reads F.Files.own (names_of targets.now) files.old files.new }
    ensures cause { HasRemuxCause F.Reads F.Files.own files.old files.new result }
    ensures reads { ReadsTimes F.Reads (length targets.now) source.now.file files.old files.new }
{
    for target in targets {
        write_attachment(files, source, target, buffer)?;
    }
    Ok(())
}

/// Extracts attached files, for `extract FILE attachments`: it creates or replaces the file of each target in `targets`
/// whose number the source has, in order. At most 64 KiB of data are in memory at once. Each file is closed before the
/// next is created. On failure the files of the first targets are complete, and the last file that was created may have
/// only the start of its data.
pub fn write_attachments<F: Files>(
    alloc: Global,
    files: &mut F,
    source: &Source,
    targets: &[Target],
) -> Result<(), RemuxEnd>
    requires live { IsLive F.Reads files.old source.now.file }
    requires attached { HasAttached F.Reads files.old source.now }
    requires other { AreOthers (F.holder files.old source.now.file.n) (names_of targets.now) }
    ensures writes { WritesAttached F.Reads F.Files.own source.now targets.now files.old files.new result }
    ensures kept { KeepsOthers F.Reads F.Files.own (names_of targets.now) files.old files.new }
    ensures cause { HasRemuxCause F.Reads F.Files.own files.old files.new result }
    ensures reads { ReadsTimes F.Reads (length targets.now) source.now.file files.old files.new }
{
    let mut buffer = vec![in alloc; 0u8; CHUNK]?;
    write_each(files, source, targets, &mut buffer)
}
