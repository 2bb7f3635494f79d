//! Cases of the blocks of a file, as a cursor reads them (`blocks`).

ghost use Rattle.mkv_io.specs.Sources.{IsLive, live_files};
ghost use Rattle.cluster_reader.specs.Reading.{CanRead};

use cluster_reader::{Cursor, Step};
use element_reader::Outline;
use mkv_io::{Damage, FileId, ReadEnd, Reads};
use std::alloc::{AllocError, Global};
use std::fmt::Write;

/// Nanoseconds per tick of the blocks in the cases.
const SCALE: u64 = 1_000_000;

/// Appends to `text` a line for each step of a cursor over the blocks of `file`, in a test case `blocks`. At the end it
/// makes one more step, which must be the end again. Reads `file` through `src`.
pub fn tell<R: Reads>(
    alloc: Global,
    src: &mut R,
    file: FileId,
    text: &mut String,
) -> Result<(), AllocError>
    requires { IsLive R.Reads src.old file }
{
    match Outline::read(alloc, src, file) {
        Ok(outline) => {
            let mut cursor = Cursor::start(alloc, &outline, file, SCALE)?;
            tell_steps(&mut cursor, src, text)
        }
        Err(_) => text.push_str("  no outline\n"),
    }
}

/// Appends a line for each step of `cursor` to `text`, up to its second end or 1000 steps. `tell` calls it for a test
/// case `blocks`. Reads the file through `src`.
fn tell_steps<R: Reads>(
    cursor: &mut Cursor,
    src: &mut R,
    text: &mut String,
) -> Result<(), AllocError>
    requires { CanRead (live_files R.Reads src.old) cursor.old }
{
    let mut ends: u8 = 0;
    for _ in 0..1000 {
        let step = cursor.advance(src);
        if step == Ok(Step::End) {
            ends = ends.saturating_add(1);
        }
        tell_step(cursor, step, text)?;
        if ends >= 2 {
            break;
        }
    }
    Ok(())
}

/// Appends the line of one step of `cursor` to `text`: a block, damage, the end, or a failure. `tell_steps` calls it;
/// `step` is the result of `advance`.
fn tell_step(
    cursor: &Cursor,
    step: Result<Step, ReadEnd>,
    text: &mut String,
) -> Result<(), AllocError> {
    match step {
        Ok(Step::Block) => tell_block(cursor, text),
        Ok(Step::End) => text.push_str("  end\n"),
        Ok(Step::Damaged(damage)) => tell_damaged(damage, cursor.stopped(), text),
        Err(ReadEnd::ReadFault) => text.push_str("  fault\n"),
        Err(ReadEnd::Memory) => text.push_str("  memory\n"),
    }
}

/// Appends to `text` the kind, ID and offset in bytes of `damage`, and whether reading stops at it (`stopped`), for a
/// step of a test case `blocks`.
fn tell_damaged(damage: Damage, stopped: bool, text: &mut String) -> Result<(), AllocError> {
    let kind = damage.kind;
    let id = damage.id;
    let offset = damage.offset;
    let stops = if stopped { " stops" } else { "" };
    write!(text, "  {kind:?} {id:X} {offset}{stops}\n")
}

/// Appends the line of the cursor's block to `text`: its offset, track and time in nanoseconds, flags, frames, and
/// other children, for a step of a test case `blocks`.
fn tell_block(cursor: &Cursor, text: &mut String) -> Result<(), AllocError> {
    let head = cursor.head();
    let offset = head.offset;
    let track = head.track;
    let time = head.time;
    write!(text, "  {offset}: track {track} at {time}")?;
    tell_flags(cursor, text)?;
    tell_frames(cursor, text)?;
    tell_rest(cursor, text)?;
    text.push_str("\n")
}

/// Appends the flags of the cursor's block that are set to `text`, for the line of `tell_block`.
fn tell_flags(cursor: &Cursor, text: &mut String) -> Result<(), AllocError> {
    let head = cursor.head();
    tell_flag(head.key, " key", text)?;
    tell_flag(head.invisible, " invisible", text)?;
    tell_flag(head.discardable, " discardable", text)?;
    tell_flag(head.group, " group", text)
}

/// Appends `word` to `text` if `flag` is true, for the line of `tell_block`.
fn tell_flag(flag: bool, word: &str, text: &mut String) -> Result<(), AllocError> {
    if flag { text.push_str(word) } else { Ok(()) }
}

/// Appends the lacing of the cursor's block to `text`, the sizes of its frames in bytes, and their bytes if there are
/// at most 16, for the line of `tell_block`.
fn tell_frames(cursor: &Cursor, text: &mut String) -> Result<(), AllocError> {
    let lace = cursor.head().lace;
    let sizes = cursor.sizes();
    write!(text, " {lace:?} {sizes:?}")?;
    let body = cursor.body();
    if body.len() > 16 {
        return Ok(());
    }
    write!(text, " {body:?}")
}

/// Appends the children of the cursor's BlockGroup other than its Block to `text`: duration in nanoseconds, references
/// and the rest, for the line of `tell_block`.
fn tell_rest(cursor: &Cursor, text: &mut String) -> Result<(), AllocError> {
    if let Some(duration) = cursor.head().duration {
        write!(text, " for {duration}")?;
    }
    tell_references(cursor.refs(), text)?;
    tell_extra(cursor.extra(), text)
}

/// Appends `references`, the references of a BlockGroup in nanoseconds, to `text`, if it has any, for the line of
/// `tell_block`. Used by `tell_rest`.
fn tell_references(references: &[i64], text: &mut String) -> Result<(), AllocError> {
    if references.is_empty() {
        return Ok(());
    }
    write!(text, " refs {references:?}")
}

/// Appends `extra`, the bytes of the other children of a BlockGroup, to `text`, if it has any, for the line of
/// `tell_block`. Used by `tell_rest`.
fn tell_extra(extra: &[u8], text: &mut String) -> Result<(), AllocError> {
    if extra.is_empty() {
        return Ok(());
    }
    write!(text, " extra {extra:?}")
}
