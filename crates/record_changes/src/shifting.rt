//! Chapters of an appended input, moved by its append offset: RFC 9559, section 5.1.7 (Chapters).

ghost use Rattle.std.specs.Prelude.{◌≡◌, IfOk, OnOk, OnErr};
ghost use Rattle.mkv_schema.specs.declared.ids.TheConstants as ids;
ghost use Rattle.tree_format.specs.Node.{children};
ghost use Rattle.tree_format.specs.Standing.{StandsIn, KeepsLimits};
ghost use Rattle.ebml_tree.specs.Building.{IsInPlace, IsRead};
ghost use Rattle.record_changes.specs.Shift.{is_time, has_start, shifted_part, shifted_in_edition, shifted_edition, shifted};
ghost use Rattle.record_changes.specs.Standing.{IsReadIf, MayReplace};

use ebml_tree::{Tree, empty, uint_leaf};
use mkv_schema::ids::{
    CHAPTER_ATOM, CHAPTER_TIME_END, CHAPTER_TIME_START, CHAPTERS, EDITION_ENTRY,
};
use std::alloc::{AllocError, Global};

// Checks whether `id` is the ID of the start or the end of an atom. `shifted_part` makes such a time later.
fn is_time(id: u32) -> bool
    ensures { result ≡ is_time id }
{
    id == CHAPTER_TIME_START || id == CHAPTER_TIME_END
}

// Checks whether `atom` has a ChapterTimeStart. `shifted_atom` adds one if not.
fn has_start(atom: &Tree) -> bool
    ensures { result ≡ has_start (children atom.now) }
{
    atom.children()
        .iter()
        .any(|child| child.id() == CHAPTER_TIME_START)
}

// Returns `atom` with all its times later by `by` nanoseconds, for `shift`; without a start it gets one.
#[cycle(shifting)]
fn shifted_atom(alloc: Global, atom: &Tree, by: u64) -> Result<Tree, AllocError>
    requires { IsRead ids.CHAPTER_ATOM atom.now }
    ensures exact { IfOk result (λ tree. tree ≡ shifted_part by atom.now) }
    ensures place { IfOk result (MayReplace atom.now) }
{
    let mut shifted = empty(alloc, CHAPTER_ATOM, atom.offset())?;
    for part in atom.children() {
        shifted.push(shifted_part(alloc, part, by)?)?;
    }
    if has_start(atom) {
        return Ok(shifted);
    }
    shifted.push(uint_leaf(alloc, CHAPTER_TIME_START, by)?)?;
    Ok(shifted)
}

// Returns `part`, a child of an atom: later by `by` nanoseconds if it is a time or an atom, and otherwise unchanged.
// `shifted_atom` does this for each child.
#[cycle(shifting)]
fn shifted_part(alloc: Global, part: &Tree, by: u64) -> Result<Tree, AllocError>
    requires { StandsIn ids.CHAPTER_ATOM part.now }
    ensures exact { IfOk result (λ tree. tree ≡ shifted_part by part.now) }
    ensures place { IfOk result (IsInPlace ids.CHAPTER_ATOM part.now) }
{
    let id = part.id();
    if id == CHAPTER_ATOM {
        return shifted_atom(alloc, part, by);
    }
    if is_time(id) {
        return uint_leaf(alloc, id, part.uint().saturating_add(by));
    }
    part.copy(alloc)
}

// Returns `child`, a child of an edition: later by `by` nanoseconds if it is an atom, and otherwise unchanged.
// `shifted_edition` does this for each child.
fn shifted_in_edition(alloc: Global, child: &Tree, by: u64) -> Result<Tree, AllocError>
    requires { IsReadIf ids.CHAPTER_ATOM child.now }
    ensures exact { IfOk result (λ tree. tree ≡ shifted_in_edition by child.now) }
    ensures place { IfOk result (MayReplace child.now) }
{
    if child.id() == CHAPTER_ATOM {
        shifted_atom(alloc, child, by)
    } else {
        child.copy(alloc)
    }
}

// Returns `child`, a child of Chapters: later by `by` nanoseconds if it is an edition, and otherwise unchanged. `shift`
// does this for each child.
fn shifted_edition(alloc: Global, child: &Tree, by: u64) -> Result<Tree, AllocError>
    requires { IsReadIf ids.EDITION_ENTRY child.now }
    ensures exact { IfOk result (λ tree. tree ≡ shifted_edition by child.now) }
    ensures place { IfOk result (MayReplace child.now) }
{
    if child.id() != EDITION_ENTRY {
        return child.copy(alloc);
    }
    let mut shifted = empty(alloc, EDITION_ENTRY, child.offset())?;
    for inner in child.children() {
        shifted.push(shifted_in_edition(alloc, inner, by)?)?;
    }
    Ok(shifted)
}

/// Adds `by` nanoseconds, the append offset of an input, to each start and end of `chapters`, up to the greatest 64-bit
/// time. A merge does this before it joins the chapters of its inputs. A chapter without a start gets `by` as its
/// start. If it fails, the chapters are unchanged.
pub fn shift(alloc: Global, chapters: &mut Tree, by: u64) -> Result<(), AllocError>
    requires { IsRead ids.CHAPTERS chapters.old }
    ensures ok { OnOk result (chapters.new ≡ shifted by chapters.old) }
    ensures err { OnErr result (chapters.new ≡ chapters.old) }

    // The result is a sound master, and can be read again after it is written.
    ensures read { IsRead ids.CHAPTERS chapters.new }
    ensures limits { OnOk result (KeepsLimits chapters.new) }
{
    let mut shifted = empty(alloc, CHAPTERS, chapters.offset())?;
    for child in chapters.children() {
        shifted.push(shifted_edition(alloc, child, by)?)?;
    }
    *chapters = shifted;
    Ok(())
}
