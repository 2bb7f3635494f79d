//! Copies of bytes from one file to another

ghost use Rattle.std.specs.Prelude.{◌≢◌, ◌+◌, ◌≤◌, length};
ghost use Rattle.mkv_io.specs.Sources.{IsLive, file_size, live_files};
ghost use Rattle.output_model.specs.Attached.{octets_told};
ghost use Rattle.cues_seekhead.specs.Appending.{AppendsCopy, AppendsOnly};

use mkv_io::{FileId, Files, Reads, RemuxEnd as OutEnd};

/// Appends `octets` to the open file `file`. The writers of an output's front and of attached files use it, so that a
/// failure ends them. After a failure `file` may have a prefix of `octets`.
pub fn append<F: Files>(files: &mut F, file: FileId, octets: &[u8]) -> Result<(), OutEnd>
    requires { IsLive F.Reads files.old file }
    ensures { AppendsOnly F.Reads F.Files.own file octets.now 0 files.old files.new result }
{
    files.append(file, octets)?;
    Ok(())
}

// Fills `chunk` from the file `from`, starting at the offset `at` in bytes, and appends it to the file `to`. Used by
// `copy_data`.
fn copy_chunk<F: Files>(
    files: &mut F,
    from: FileId,
    at: u64,
    to: FileId,
    chunk: &mut [u8],
) -> Result<(), OutEnd>
    requires from { IsLive F.Reads files.old from }
    requires to { IsLive F.Reads files.old to }
    requires inside { at + length chunk.old ≤ file_size F.Reads files.old from }
    ensures { AppendsCopy F.Reads F.Files.own to from at (length chunk.old) files.old files.new result }
{
    match files.read_at(from, at, chunk) {
        Ok(()) => append(files, to, chunk),
        Err(_) => Err(OutEnd::ReadFault),
    }
}

/// Copies `len` bytes of the file `from`, starting at the offset `at`, to the end of the file `to`, through `buffer`.
/// `merge` copies the data of attached files so, and `extract` writes them to their own files.
pub fn copy_data<F: Files>(
    files: &mut F,
    from: FileId,
    at: u64,
    len: u64,
    to: FileId,
    buffer: &mut [u8],
) -> Result<(), OutEnd>
    requires from { IsLive F.Reads files.old from }
    requires to { IsLive F.Reads files.old to }
    requires apart { F.holder files.old from.n ≢ F.holder files.old to.n }
    requires inside { at + len ≤ file_size F.Reads files.old from }
    requires buffer { 1 ≤ length buffer.old }
    ensures { AppendsCopy F.Reads F.Files.own to from at len files.old files.new result }
{
    let mut done = 0;
    while done < len {
        let count = (len - done).min(buffer.len() as u64);
        copy_chunk(files, from, at + done, to, &mut buffer[..count as usize])?;
        done += count;
    }
    Ok(())
}
