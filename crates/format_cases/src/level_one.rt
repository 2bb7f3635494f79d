//! Cases of the Elements at level 1 of a file (`level1`).

ghost use Rattle.mkv_io.specs.Sources.{IsLive, live_files};
ghost use Rattle.element_reader.specs.LevelOne.{CanRead};

use element_reader::{Header, LevelOne, Outline};
use mkv_io::{Failed, FileId, Reads};
use std::alloc::{AllocError, Global};
use std::fmt::Write;

/// Appends to `text` a line for each Element at level 1 of `file`, in a test case `level1`. At the end it asks once
/// more, which must be the end again. Reads `file` through `src`.
pub fn tell<R: Reads>(
    alloc: Global,
    src: &mut R,
    file: FileId,
    text: &mut String,
) -> Result<(), AllocError>
    requires { IsLive R.Reads src.old file }
{
    match Outline::read(alloc, src, file) {
        Ok(outline) => {
            let mut elements = LevelOne::start(&outline, file);
            tell_elements(&mut elements, src, text)
        }
        Err(_) => text.push_str("  no outline\n"),
    }
}

/// Appends to `text` a line for each Element that `elements` returns, up to its second end or 1000 calls. `tell` calls
/// it for a test case `level1`. Reads the file through `src`.
fn tell_elements<R: Reads>(
    elements: &mut LevelOne,
    src: &mut R,
    text: &mut String,
) -> Result<(), AllocError>
    requires { CanRead (live_files R.Reads src.old) elements.old }
{
    let mut ends: u8 = 0;
    for _ in 0..1000 {
        let found = elements.next(src);
        if found == Ok(None) {
            ends = ends.saturating_add(1);
        }
        tell_found(found, text)?;
        if ends >= 2 {
            break;
        }
    }
    Ok(())
}

/// Appends to `text` the line of one call of the walk over level 1, which returned `found`: a header, the end, or a
/// failed read. Used by `tell_elements`.
fn tell_found(found: Result<Option<Header>, Failed>, text: &mut String) -> Result<(), AllocError> {
    match found {
        Ok(Some(header)) => tell_header(&header, text),
        Ok(None) => text.push_str("  end\n"),
        Err(Failed) => text.push_str("  fault\n"),
    }
}

/// Appends to `text` the line of the Element with this `header`: its ID, its offset, and the offset of its data, in
/// bytes. `tell_found` calls it.
fn tell_header(header: &Header, text: &mut String) -> Result<(), AllocError> {
    let id = header.id;
    let offset = header.offset;
    let body = header.body;
    write!(text, "  {id:X} at {offset}, body at {body}\n")
}
