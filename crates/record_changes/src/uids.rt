//! Identifiers of editions and chapters, in the order of renumbering: RFC 9559, section 5.1.7 (Chapters).

ghost use Rattle.std.specs.Prelude.{◌≡◌, ◌++◌, map, OnOk};
ghost use Rattle.mkv_schema.specs.declared.ids.TheConstants as ids;
ghost use Rattle.tree_format.specs.Node.{id_of};
ghost use Rattle.tree_format.specs.Standing.{IsSound};
ghost use Rattle.tree_format.specs.Values.{HasUint};
ghost use Rattle.ebml_tree.specs.Building.{IsRead};
ghost use Rattle.record_changes.specs.Atoms.{value_in, atoms_at, own_uids, inner_uids, edition_uids, chapter_uids};
ghost use Rattle.record_changes.specs.Standing.{IsReadIf};

use ebml_tree::Tree;
use mkv_io::List;
use mkv_schema::ids::{CHAPTER_ATOM, CHAPTER_UID, EDITION_ENTRY, EDITION_UID};
use std::alloc::AllocError;

/// Returns the unsigned integer of the first child of `tree`, a chapter or edition, with the ID `id`, or 0 if it is
/// absent. Identifiers and starts are read with it.
pub(crate) fn value_in(tree: &Tree, id: u32) -> u64
    requires sound { IsSound tree.now }
    requires uint { HasUint (id_of tree.now) id }
    ensures { result ≡ value_in id tree.now }
{
    match tree.child(id) {
        Some(uid) => uid.uint(),
        None => 0,
    }
}

// Appends the EditionUID of `child`, a child of Chapters, to `uids`, if it is an edition, for `push_edition_uids`.
fn push_edition_uid(child: &Tree, uids: &mut List<u64>) -> Result<(), AllocError>
    requires { IsReadIf ids.EDITION_ENTRY child.now }
    ensures { OnOk result (uids.new ≡ uids.old ++ own_uids child.now) }
{
    if child.id() != EDITION_ENTRY {
        return Ok(());
    }
    uids.push(value_in(child, EDITION_UID))
}

/// Appends the EditionUIDs of all editions of `chapters` to `uids`, in their order; an absent one is 0. A merge
/// collects the identifiers of its inputs so. If memory runs out, some may have been appended.
pub fn push_edition_uids(chapters: &Tree, uids: &mut List<u64>) -> Result<(), AllocError>
    requires { IsRead ids.CHAPTERS chapters.now }
    ensures { OnOk result (uids.new ≡ uids.old ++ edition_uids chapters.now) }
{
    for child in chapters.children() {
        push_edition_uid(child, uids)?;
    }
    Ok(())
}

// Appends the ChapterUIDs of `child`, a child of an edition or atom, and of the atoms inside it, to `uids`. A child
// that isn't an atom has none. `push_uids_inside` calls it.
fn push_atom_uids(child: &Tree, uids: &mut List<u64>) -> Result<(), AllocError>
    requires { IsReadIf ids.CHAPTER_ATOM child.now }
    ensures { OnOk result (uids.new ≡ uids.old ++ map (value_in ids.CHAPTER_UID) (atoms_at child.now)) }
{
    if child.id() != CHAPTER_ATOM {
        return Ok(());
    }
    uids.push(value_in(child, CHAPTER_UID))?;
    for inner in child.children() {
        push_atom_uids(inner, uids)?;
    }
    Ok(())
}

// Appends the ChapterUIDs of the atoms in `child`, a child of Chapters, to `uids`, if it is an edition, for
// `push_chapter_uids`.
fn push_uids_inside(child: &Tree, uids: &mut List<u64>) -> Result<(), AllocError>
    requires { IsReadIf ids.EDITION_ENTRY child.now }
    ensures { OnOk result (uids.new ≡ uids.old ++ inner_uids child.now) }
{
    if child.id() != EDITION_ENTRY {
        return Ok(());
    }
    for inner in child.children() {
        push_atom_uids(inner, uids)?;
    }
    Ok(())
}

/// Appends the ChapterUIDs of all chapters of `chapters` to `uids`, edition by edition, each atom before the atoms
/// inside it. A merge collects the identifiers of its inputs so. An absent identifier is 0. If memory runs out, some
/// may have been appended.
pub fn push_chapter_uids(chapters: &Tree, uids: &mut List<u64>) -> Result<(), AllocError>
    requires { IsRead ids.CHAPTERS chapters.now }
    ensures { OnOk result (uids.new ≡ uids.old ++ chapter_uids chapters.now) }
{
    for child in chapters.children() {
        push_uids_inside(child, uids)?;
    }
    Ok(())
}
