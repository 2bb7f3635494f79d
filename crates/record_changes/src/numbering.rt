//! Chapters that get the identifiers of an output: RFC 9559, section 5.1.7 (Chapters).

ghost use Rattle.std.specs.Prelude.{◌≡◌, ◌+◌, ◌≤◌, length, IfOk, OnOk};
ghost use Rattle.mkv_schema.specs.declared.ids.TheConstants as ids;
ghost use Rattle.tree_format.specs.Standing.{KeepsLimits};
ghost use Rattle.ebml_tree.specs.Building.{IsRead};
ghost use Rattle.record_changes.specs.Atoms.{atoms_at, atoms_inside, edition_uids, chapter_uids};
ghost use Rattle.record_changes.specs.ChapterIdentifiers.{numbered, numbered_edition, with_identifiers};
ghost use Rattle.record_changes.specs.Standing.{IsReadIf, MayReplace};

use ebml_tree::{Tree, empty, uint_leaf};
use mkv_schema::ids::{CHAPTER_ATOM, CHAPTER_UID, CHAPTERS, EDITION_ENTRY, EDITION_UID};
use std::alloc::{AllocError, Global};

// Returns `child`, a child of an edition or atom, with new identifiers, for `numbered_edition`. If it is an atom, it
// gets the one at the index `next` in `uids`, and the atoms inside it get the following ones. `next` is advanced.
fn numbered(alloc: Global, child: &Tree, uids: &[u64], next: &mut usize) -> Result<Tree, AllocError>
    requires atom { IsReadIf ids.CHAPTER_ATOM child.now }
    requires enough { next.old + length (atoms_at child.now) ≤ length uids.now }
    ensures exact { IfOk result (λ tree. tree ≡ numbered uids.now next.old child.now) }
    ensures next { OnOk result (next.new ≡ next.old + length (atoms_at child.now)) }
    ensures place { IfOk result (MayReplace child.now) }
{
    if child.id() != CHAPTER_ATOM {
        return child.copy(alloc);
    }
    let uid = uids[*next];
    *next += 1;
    let mut atom = empty(alloc, CHAPTER_ATOM, child.offset())?;
    for inner in child.children() {
        atom.push(numbered(alloc, inner, uids, next)?)?;
    }
    atom.set(uint_leaf(alloc, CHAPTER_UID, uid)?)?;
    Ok(atom)
}

// Returns `edition` with the EditionUID `uid`, for `with_identifiers`. Its atoms get the identifiers in `uids` from the
// index `next` on, which is advanced.
fn numbered_edition(
    alloc: Global,
    edition: &Tree,
    uid: u64,
    uids: &[u64],
    next: &mut usize,
) -> Result<Tree, AllocError>
    requires read { IsRead ids.EDITION_ENTRY edition.now }
    requires enough { next.old + length (atoms_inside edition.now) ≤ length uids.now }
    ensures exact { IfOk result (λ tree. tree ≡ numbered_edition uid uids.now next.old edition.now) }
    ensures next { OnOk result (next.new ≡ next.old + length (atoms_inside edition.now)) }
    ensures place { IfOk result (MayReplace edition.now) }
{
    let mut written = empty(alloc, EDITION_ENTRY, edition.offset())?;
    for child in edition.children() {
        written.push(numbered(alloc, child, uids, next)?)?;
    }
    written.set(uint_leaf(alloc, EDITION_UID, uid)?)?;
    Ok(written)
}

/// Returns `tree`, the joined Chapters of a merge, with the EditionUIDs `editions` and the ChapterUIDs `chapters`,
/// given in reading order. Children other than editions are left out. Used by `merge_records` of `output_records`.
pub fn with_identifiers(
    alloc: Global,
    tree: &Tree,
    editions: &[u64],
    chapters: &[u64],
) -> Result<Tree, AllocError>
    requires read { IsRead ids.CHAPTERS tree.now }
    requires editions { length (edition_uids tree.now) ≤ length editions.now }
    requires chapters { length (chapter_uids tree.now) ≤ length chapters.now }
    ensures exact { IfOk result (λ written. written ≡ with_identifiers editions.now chapters.now tree.now) }

    // The result is a sound master, and can be read again after it is written.
    ensures read { IfOk result (IsRead ids.CHAPTERS) }
    ensures limits { IfOk result KeepsLimits }
{
    let mut written = empty(alloc, CHAPTERS, tree.offset())?;
    let mut edition = 0;
    let mut next = 0;
    for child in tree.children() {
        if child.id() != EDITION_ENTRY {
            continue;
        }
        let uid = editions[edition];
        edition += 1;
        written.push(numbered_edition(alloc, child, uid, chapters, &mut next)?)?;
    }
    Ok(written)
}
