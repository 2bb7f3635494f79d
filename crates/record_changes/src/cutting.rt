//! The chapters of one part of a split merge: RFC 9559, section 5.1.7 (Chapters).

ghost use Rattle.std.specs.Prelude.{◌≡◌, ◌≤◌, ◌==◌, ◌∷◌, [], All, find, IfOk, IfSome, OnOk};
ghost use Rattle.std.specs.Option.{option_copied, option_to_list};
ghost use Rattle.mkv_schema.specs.declared.ids.TheConstants as ids;
ghost use Rattle.tree_format.specs.Node.{id_of};
ghost use Rattle.tree_format.specs.Standing.{KeepsLimits};
ghost use Rattle.tree_format.specs.Values.{integer_in};
ghost use Rattle.tree_format.specs.Children.{uint_leaf};
ghost use Rattle.ebml_tree.specs.Building.{IsRead};
ghost use Rattle.ebml_tree.specs.Leaves.{IsUintIn};
ghost use Rattle.record_changes.specs.Cut.{start_of, next_start, end_of, end_within, cut_at, cut_inside, has_atom, edition_within, cut};
ghost use Rattle.record_changes.specs.Standing.{HoldsAtoms, IsReadIf, MayReplace, SetsTimes};

use crate::stretch::Stretch;
use crate::uids::value_in;
use ebml_tree::{Tree, empty, uint_leaf};
use mkv_schema::ids::{
    CHAPTER_ATOM, CHAPTER_TIME_END, CHAPTER_TIME_START, CHAPTERS, EDITION_ENTRY,
};
use std::alloc::{AllocError, Global};

// Returns the ChapterTimeStart of `atom`, a ChapterAtom, in nanoseconds, or 0 if it is absent. Used to cut chapters and
// to find the chapters that a merge is split at.
pub(crate) fn start_of(atom: &Tree) -> u64
    requires { IsRead ids.CHAPTER_ATOM atom.now }
    ensures { result ≡ start_of atom.now }
{
    value_in(atom, CHAPTER_TIME_START)
}

// Returns the ChapterTimeEnd of `atom`, a ChapterAtom, in nanoseconds, or None if it is absent. `cut_child` and
// `end_of` call it.
fn own_end(atom: &Tree) -> Option<u64>
    requires { IsRead ids.CHAPTER_ATOM atom.now }
    ensures { result ≡ integer_in ids.CHAPTER_TIME_END atom.now }
{
    let end = atom.child(CHAPTER_TIME_END)?;
    Some(end.uint())
}

// Returns the first ChapterAtom among `trees`, the siblings after an atom, or None if there is none, for `next_start`.
fn first_atom(trees: &[Tree]) -> Option<&Tree>
    ensures { option_copied result ≡ find (λ n. id_of n == ids.CHAPTER_ATOM) trees.now }
{
    trees.iter().find(|tree| tree.id() == CHAPTER_ATOM)
}

// Returns the start in nanoseconds of the first atom in `behind`, the siblings after an atom, or None if there is none.
// An atom without an end ends there. Used by `end_of`.
fn next_start(behind: &[Tree]) -> Option<u64>
    requires { All (IsReadIf ids.CHAPTER_ATOM) behind.now }
    ensures { result ≡ next_start behind.now }
{
    let atom = first_atom(behind)?;
    Some(start_of(atom))
}

// Returns the end of `atom` in nanoseconds, for `cut_child`: its ChapterTimeEnd, or the start of the next atom in
// `behind`, the siblings after it. Returns None if it has neither.
fn end_of(atom: &Tree, behind: &[Tree]) -> Option<u64>
    requires atom { IsRead ids.CHAPTER_ATOM atom.now }
    requires behind { All (IsReadIf ids.CHAPTER_ATOM) behind.now }
    ensures { result ≡ end_of atom.now (next_start behind.now) }
{
    match own_end(atom) {
        Some(end) => Some(end),
        None => next_start(behind),
    }
}

// Sets the child `id` of `atom`, its start or end, to `time` nanoseconds, after the atom was cut. `cut_child` and
// `set_end` call it.
fn set_time(alloc: Global, atom: &mut Tree, id: u32, time: u64) -> Result<(), AllocError>
    requires id { IsUintIn ids.CHAPTER_ATOM id }
    requires read { IsRead ids.CHAPTER_ATOM atom.old }
    ensures { OnOk result (SetsTimes (uint_leaf id time ∷ []) atom.old atom.new) }
{
    atom.set(uint_leaf(alloc, id, time)?)
}

// Sets the ChapterTimeEnd of `atom` to `end` nanoseconds, limited to the period `stretch`, if `end` is present.
// `cut_child` ends with it.
fn set_end(
    alloc: Global,
    atom: &mut Tree,
    end: Option<u64>,
    stretch: Stretch,
) -> Result<(), AllocError>
    requires read { IsRead ids.CHAPTER_ATOM atom.old }
    requires stretch { IfSome stretch.to (λ to. stretch.from ≤ to) }
    ensures { OnOk result (SetsTimes (end_within stretch end) atom.old atom.new) }
{
    match end {
        Some(end) => set_time(alloc, atom, CHAPTER_TIME_END, stretch.within(end)),
        None => Ok(()),
    }
}

// Returns `child`, a child of an edition or atom, cut to the period `stretch`, or None if it is outside. `behind` has
// the siblings after it. A child that isn't an atom is copied. `cut_inside` does this for each child.
#[cycle(cutting)]
fn cut_child(
    alloc: Global,
    child: &Tree,
    behind: &[Tree],
    stretch: Stretch,
) -> Result<Option<Tree>, AllocError>
    requires atom { IsReadIf ids.CHAPTER_ATOM child.now }
    requires behind { All (IsReadIf ids.CHAPTER_ATOM) behind.now }
    requires stretch { IfSome stretch.to (λ to. stretch.from ≤ to) }
    ensures exact { IfOk result (λ o. option_to_list o ≡ cut_at stretch child.now (next_start behind.now)) }
    ensures place { IfOk result (λ o. IfSome o (MayReplace child.now)) }
{
    if child.id() != CHAPTER_ATOM {
        return Ok(Some(child.copy(alloc)?));
    }
    let start = start_of(child);
    if !stretch.takes(start, end_of(child, behind)) {
        return Ok(None);
    }
    let mut atom = cut_inside(alloc, child, stretch)?;
    set_time(alloc, &mut atom, CHAPTER_TIME_START, stretch.within(start))?;
    set_end(alloc, &mut atom, own_end(child), stretch)?;
    Ok(Some(atom))
}

// Returns `parent`, an edition or atom, with its children cut to the period `stretch`, which is in nanoseconds. Atoms
// outside are left out, and the times of the others are limited to it and relative to its start. Other children are
// copied. `cut_edition` begins with it.
#[cycle(cutting)]
fn cut_inside(alloc: Global, parent: &Tree, stretch: Stretch) -> Result<Tree, AllocError>
    requires holds { HoldsAtoms parent.now }
    requires stretch { IfSome stretch.to (λ to. stretch.from ≤ to) }
    ensures exact { IfOk result (λ tree. tree ≡ cut_inside stretch parent.now) }
    ensures read { IfOk result (IsRead (id_of parent.now)) }
    ensures place { IfOk result (MayReplace parent.now) }
{
    let mut written = empty(alloc, parent.id(), parent.offset())?;
    let children = parent.children();
    for (k, child) in children.iter().enumerate() {
        match cut_child(alloc, child, &children[k + 1..], stretch)? {
            Some(part) => written.push(part)?,
            None => {}
        }
    }
    Ok(written)
}

// Checks whether `edition`, cut to a period, has a ChapterAtom; without one it is left out of the part. `cut_edition`
// calls it.
fn has_atom(edition: &Tree) -> bool
    ensures { result ≡ has_atom edition.now }
{
    edition
        .children()
        .iter()
        .any(|child| child.id() == CHAPTER_ATOM)
}

// Returns `child`, a child of Chapters, cut to the period `stretch`, which is in nanoseconds, or None if it isn't an
// edition with a chapter in the period. It is one step of `cut`, which makes the Chapters of a part.
fn cut_edition(alloc: Global, child: &Tree, stretch: Stretch) -> Result<Option<Tree>, AllocError>
    requires edition { IsReadIf ids.EDITION_ENTRY child.now }
    requires stretch { IfSome stretch.to (λ to. stretch.from ≤ to) }
    ensures exact { IfOk result (λ o. option_to_list o ≡ edition_within stretch child.now) }
    ensures place { IfOk result (λ o. IfSome o (MayReplace child.now)) }
{
    if child.id() != EDITION_ENTRY {
        return Ok(None);
    }
    let edition = cut_inside(alloc, child, stretch)?;
    if !has_atom(&edition) {
        return Ok(None);
    }
    Ok(Some(edition))
}

/// Returns the chapters of one part of a split, from the Chapters `chapters` of the whole merge. They are the ones in
/// the period from `from` to `to` nanoseconds, with times relative to `from`. Without `to` the period has no end. A
/// chapter is kept if it starts in the period, or starts before it and ends after `from`. Its times are limited to the
/// period.
///
/// A chapter without an end ends at the start of the next one beside it, or never. Editions without such chapters are
/// left out; without editions the result is None. A merge with `--split` calls it for each part.
pub fn cut(
    alloc: Global,
    chapters: &Tree,
    from: u64,
    to: Option<u64>,
) -> Result<Option<Tree>, AllocError>
    requires read { IsRead ids.CHAPTERS chapters.now }
    requires stretch { IfSome to (λ to. from ≤ to) }
    ensures exact { IfOk result (λ part. part ≡ cut (record { from = from; to = to }) chapters.now) }

    // The result is a sound master, and can be read again after it is written.
    ensures read { IfOk result (λ part. IfSome part (IsRead ids.CHAPTERS)) }
    ensures limits { IfOk result (λ part. IfSome part KeepsLimits) }
{
    let stretch = Stretch { from, to };
    let mut part = empty(alloc, CHAPTERS, chapters.offset())?;
    for child in chapters.children() {
        match cut_edition(alloc, child, stretch)? {
            Some(edition) => part.push(edition)?,
            None => {}
        }
    }
    if part.children().is_empty() {
        return Ok(None);
    }
    Ok(Some(part))
}
