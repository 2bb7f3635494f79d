//! Writing of a Chapters Element as simple chapters.

ghost use Rattle.std.specs.Prelude.{◌≡◌, ◌++◌, OnOk, OnErr};
ghost use Rattle.mkv_schema.specs.declared.ids.TheConstants as ids;
ghost use Rattle.tree_format.specs.Standing.{IsSoundOf};
ghost use Rattle.tree_format.specs.Node.{children};
ghost use Rattle.srt_chapters.specs.Extracted as spec;

use ebml_tree::Tree;
use mkv_io::Bytes;
use mkv_schema::ids::{
    CHAP_STRING, CHAPTER_ATOM, CHAPTER_DISPLAY, CHAPTER_TIME_START, EDITION_ENTRY,
};
use std::alloc::AllocError;
use text_formats::put_pair;

// Returns the ChapterTimeStart of `atom` in nanoseconds, or 0 if it is absent. Used by `put_atoms`.
fn start_of(atom: &Tree) -> u64
    requires { IsSoundOf ids.CHAPTER_ATOM atom.now }
    ensures { result ≡ spec.start_of atom.now }
{
    match atom.child(CHAPTER_TIME_START) {
        Some(start) => start.uint(),
        None => 0,
    }
}

// Returns the ChapString in the first ChapterDisplay of `atom`, or no bytes if one is absent. Used by `put_atoms`.
fn name_of(atom: &Tree) -> &[u8]
    ensures { result.now ≡ spec.name_of atom.now }
{
    let Some(display) = atom.child(CHAPTER_DISPLAY) else {
        return &[];
    };
    match display.child(CHAP_STRING) {
        Some(name) => name.text(),
        None => &[],
    }
}

/// Appends the simple chapters of `chapters` to `out`, for `extract FILE chapters`: two lines for each top atom of the
/// first edition, numbered from 1. Times are in whole milliseconds, and the name is in the first display. On failure
/// nothing is appended.
pub fn put_simple(chapters: &Tree, out: &mut Bytes) -> Result<(), AllocError>
    requires { IsSoundOf ids.CHAPTERS chapters.now }
    ensures ok { OnOk result (out.new ≡ out.old ++ spec.put_simple chapters.now) }
    ensures err { OnErr result (out.new ≡ out.old) }
{
    match chapters.child(EDITION_ENTRY) {
        Some(edition) => put_atoms(edition, out),
        None => Ok(()),
    }
}

// Appends the atoms directly in `edition` to `out` as simple chapters, numbered from 1. If memory runs out, nothing is
// appended. Used by `put_simple`.
fn put_atoms(edition: &Tree, out: &mut Bytes) -> Result<(), AllocError>
    requires { IsSoundOf ids.EDITION_ENTRY edition.now }
    ensures ok { OnOk result (out.new ≡ out.old ++ spec.put_atoms 1 (spec.atoms_in (children edition.now))) }
    ensures err { OnErr result (out.new ≡ out.old) }
{
    let before = out.len();
    let children = edition.children();
    let mut number = 1;
    for child in children {
        if child.id() != CHAPTER_ATOM {
            continue;
        }
        if let Err(refused) = put_pair(number, start_of(child), name_of(child), out) {
            out.truncate(before);
            return Err(refused);
        }
        number += 1;
    }
    Ok(())
}
