//! Cases of a file in memory with given bytes (`level1` and `blocks`).

ghost use Rattle.std.specs.Prelude.{◌≡◌};
ghost use Rattle.mkv_io.specs.Sources.{IsLive};

use crate::case::Case;
use crate::{blocks, level_one};
use mkv_io::{FileId, Files, LONGEST_FILE, Reads};
use mkv_memory::MemFiles;
use std::alloc::{AllocError, Global};

/// Makes a file `a.mkv` with the bytes `octets` in memory. If `failing` isn't 0, the call on the files with this
/// number, counted from 0, fails. `tell_file` calls it for a case.
fn files_of(alloc: Global, octets: &[u8], failing: u64) -> Result<MemFiles, AllocError> {
    let mut files = MemFiles::new(alloc)?;
    if octets.len() as u64 <= LONGEST_FILE {
        files.put("a.mkv", octets)?;
    }
    if failing > 0 {
        files.fail_at(failing, 0)?;
    }
    Ok(files)
}

/// Appends to `text` the result of the case with the name `word`, `level1` or `blocks`. If the number of `case` isn't
/// 0, the call on the files with this number, counted from 0, fails.
pub fn tell_file(
    alloc: Global,
    word: &str,
    case: &Case,
    text: &mut String,
) -> Result<(), AllocError> {
    let mut files = files_of(alloc, case.octets.as_slice(), case.number)?;
    match files.open_file("a.mkv") {
        Ok(file) => tell_open(alloc, word, &mut files, file, text),
        Err(_) => text.push_str("  no file\n"),
    }
}

/// Appends to `text` the result of the test case `word`, `level1` or `blocks`, for the open file `file`, which it reads
/// through `src`. `tell_file` calls it.
fn tell_open<R: Reads>(
    alloc: Global,
    word: &str,
    src: &mut R,
    file: FileId,
    text: &mut String,
) -> Result<(), AllocError>
    requires { IsLive R.Reads src.old file }
{
    match word {
        "level1" => level_one::tell(alloc, src, file, text),
        _ => blocks::tell(alloc, src, file, text),
    }
}
