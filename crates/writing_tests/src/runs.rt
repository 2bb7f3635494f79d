//! Files in memory, opened.

ghost use Rattle.std.specs.Prelude.{IfOk};
ghost use Rattle.std.specs.List.{All};
ghost use Rattle.mkv_io.specs.Sources.{IsLive};

use mkv_io::{FileId, Files};
use mkv_memory::MemFiles;
use std::alloc::Global;
use std::test::Fail;

/// Names of the two files.
const NAMES: [&str; 2] = ["a.mkv", "b.mkv"];

/// Makes two files in memory with the bytes `contents`. It fails if one has more than 100,000 bytes. The test of failed
/// reads uses it.
pub fn files_of(alloc: Global, contents: [&[u8]; 2]) -> Result<MemFiles, Fail> {
    let mut files = MemFiles::new(alloc)?;
    for (name, content) in NAMES.iter().zip(contents) {
        if content.len() > 100_000 {
            return Err(Fail::from("a file is too long"));
        }
        files.put(name, content)?;
    }
    Ok(files)
}

/// Opens both files of `files_of`, and returns their file numbers in order. The test of failed reads uses it.
pub fn open_both<F: Files>(alloc: Global, files: &mut F) -> Result<Vec<FileId>, Fail>
    ensures { IfOk result (λ opened. All (λ file. IsLive F.Reads files.new file) opened.items) }
{
    let mut opened = Vec::new(alloc);
    for name in NAMES {
        opened.push(files.open_file(name)?)?;
    }
    Ok(opened)
}
