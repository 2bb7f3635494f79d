//! Files that are created, written and closed by one call.

ghost use Rattle.std.specs.Prelude.{◌≢◌, ◌+◌, ◌≤◌, length};
ghost use Rattle.mkv_io.specs.Sources.{IsLive, file_size};
ghost use Rattle.extractors.specs.Whole.{CopiesFile, WritesFile};

use cues_seekhead::{append, copy_data};
use mkv_io::{FileId, Files, RemuxEnd as OutEnd};

/// Creates or replaces the file `name` with the bytes `octets`, when `extract` writes chapters and cue points. It is
/// closed again in any case.
pub fn write_file<F: Files>(files: &mut F, name: &str, octets: &[u8]) -> Result<(), OutEnd>
    ensures { WritesFile F.Reads F.Files.own name.now octets.now 0 files.old files.new result }
{
    let file = files.create(name)?;
    let ended = append(files, file, octets);
    files.close(file);
    ended
}

/// Creates or replaces the file `name` with `len` bytes of the open file `from`, starting at the offset `at`, when
/// `extract` writes an attached file. The bytes go through `buffer`; the new file is closed again in any case.
pub fn copy_file<F: Files>(
    files: &mut F,
    name: &str,
    from: FileId,
    at: u64,
    len: u64,
    buffer: &mut [u8],
) -> Result<(), OutEnd>
    requires live { IsLive F.Reads files.old from }
    requires other { F.holder files.old from.n ≢ name.now }
    requires inside { at + len ≤ file_size F.Reads files.old from }
    requires buffer { 1 ≤ length buffer.old }
    ensures { CopiesFile F.Reads F.Files.own name.now from at len files.old files.new result }
{
    let file = files.create(name)?;
    let ended = copy_data(files, from, at, len, file, buffer);
    files.close(file);
    ended
}
