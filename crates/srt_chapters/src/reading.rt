//! Reading of a file of simple chapters as a Chapters Element.

ghost use Rattle.std.specs.Prelude.{◌≡◌, IfOk, IsTrue};
ghost use Rattle.mkv_schema.specs.Schema.{is_master};
ghost use Rattle.text_formats.specs.Ends.{Reads};
ghost use Rattle.tree_format.specs.Node.{master, none};
ghost use Rattle.tree_format.specs.Standing.{IsSound, IsSoundOf, StandsIn};
ghost use Rattle.mkv_schema.specs.declared.ids.TheConstants.{CHAPTERS as CHAPTERS_ID, EDITION_ENTRY as EDITION_ID};
ghost use Rattle.srt_chapters.specs.Chapters as spec;

use ebml_tree::{Tree, uint_leaf};
use mkv_schema::ids::{
    CHAP_LANGUAGE, CHAP_STRING, CHAPTER_ATOM, CHAPTER_DISPLAY, CHAPTER_TIME_START, CHAPTER_UID,
    CHAPTERS, EDITION_ENTRY, EDITION_UID,
};
use std::alloc::{AllocError, Global};
use text_formats::{Chapter, TextEnd, read_pairs};

// Returns a master with the ID `id` and no children, to which the functions for a file of simple chapters append. Used
// by `display`, `atom` and others.
#[tactic(auto, using(crate::proofs::ChaptersLemmas::empty), unfolding(tree_format::specs::Reading::grove, tree_format::specs::Reading::grove_within))]
fn empty_master(alloc: Global, id: u32) -> Result<Tree, AllocError>
    requires { IsTrue (is_master id) }
    ensures { IfOk result (λ tree. tree ≡ master id 0 none) }
{
    match Tree::parse(alloc, id, 0, &[], 0, 1) {
        Ok(tree) => Ok(tree),
        Err(_) => Err(AllocError),
    }
}

// Returns a ChapterDisplay with the name `name`, in an undetermined language. Used by `atom`.
#[tactic(auto, using(crate::proofs::ChaptersLemmas::known))]
fn display(alloc: Global, name: &str) -> Result<Tree, AllocError>
    ensures { IfOk result (λ tree. tree ≡ spec.display name.now) }
{
    let mut display = empty_master(alloc, CHAPTER_DISPLAY)?;
    display.push(Tree::leaf(alloc, CHAP_STRING, name.as_bytes())?)?;
    display.push(Tree::leaf(alloc, CHAP_LANGUAGE, b"und")?)?;
    Ok(display)
}

// Returns the ChapterAtom for the simple chapter `chapter`, with its start in nanoseconds. Its ChapterUID is 0 until a
// merge gives one. Used by `edition`.
#[tactic(auto, using(crate::proofs::ChaptersLemmas::known, crate::proofs::SoundLemmas::stands))]
fn atom(alloc: Global, chapter: &Chapter) -> Result<Tree, AllocError>
    ensures exact { IfOk result (λ tree. tree ≡ spec.atom chapter.now) }
    ensures stands { IfOk result (StandsIn EDITION_ID) }
{
    let mut atom = empty_master(alloc, CHAPTER_ATOM)?;
    atom.push(uint_leaf(alloc, CHAPTER_UID, 0)?)?;
    atom.push(uint_leaf(alloc, CHAPTER_TIME_START, chapter.start)?)?;
    atom.push(display(alloc, chapter.name.as_str())?)?;
    Ok(atom)
}

// Returns the EditionEntry with an atom for each of `chapters`. Its EditionUID is 0 until a merge gives one. Used by
// `chapters_tree`.
#[tactic(auto, using(crate::proofs::ChaptersLemmas::known))]
fn edition(alloc: Global, chapters: &[Chapter]) -> Result<Tree, AllocError>
    ensures exact { IfOk result (λ tree. tree ≡ spec.edition chapters.now) }
    ensures sound { IfOk result IsSound }
{
    let mut edition = empty_master(alloc, EDITION_ENTRY)?;
    edition.push(uint_leaf(alloc, EDITION_UID, 0)?)?;
    for chapter in chapters {
        edition.push(atom(alloc, chapter)?)?;
    }
    Ok(edition)
}

/// Returns a Chapters Element with one edition that has an atom for each of `chapters` (RFC 9559, section 5.1.7,
/// Chapters Element). Its identifiers are 0 until a merge gives them. Used by `read_simple`.
#[tactic(auto, using(crate::proofs::ChaptersLemmas::known, crate::proofs::SoundLemmas::chapters_sound))]
pub fn chapters_tree(alloc: Global, chapters: &[Chapter]) -> Result<Tree, AllocError>
    ensures exact { IfOk result (λ tree. tree ≡ spec.chapters_of chapters.now) }
    ensures sound { IfOk result (IsSoundOf CHAPTERS_ID) }
{
    let mut tree = empty_master(alloc, CHAPTERS)?;
    tree.push(edition(alloc, chapters)?)?;
    Ok(tree)
}

/// Reads `bytes`, the content of a file of simple chapters, as a Chapters Element, for `merge --chapters`. It fails
/// with the number of the first bad line, from 1. The identifiers are 0 until a merge gives them.
pub fn read_simple(alloc: Global, bytes: &[u8]) -> Result<Tree, TextEnd>
    ensures exact { Reads result (spec.simple_chapters bytes.now) }

    // The table allows each element at its place, so the written tree can be read again.
    ensures sound { IfOk result (IsSoundOf CHAPTERS_ID) }
{
    match read_pairs(alloc, bytes) {
        Ok(chapters) => Ok(chapters_tree(alloc, chapters.as_slice())?),
        Err(end) => Err(end),
    }
}
