//! Chapters of an output: RFC 9559, section 5.1.7 (Chapters).

ghost use Rattle.std.specs.Prelude.{◌≡◌, ◌++◌, All, IfOk, OnOk};
ghost use Rattle.mkv_schema.specs.declared.ids.TheConstants.{CHAPTERS as CHAPTERS_ID};
ghost use Rattle.tree_format.specs.Node.{children, with_children};
ghost use Rattle.ebml_tree.specs.Building.{IsRead};
ghost use Rattle.output_model.specs.Sound.{IsRecord};
ghost use Rattle.record_changes.specs.Identifiers.{renumbered};
ghost use Rattle.record_changes.specs.Atoms.{edition_uids, chapter_uids};
ghost use Rattle.output_records.specs.Chapters.{later, chapters_in, joined_chapters};
ghost use Rattle.output_records.specs.Inputs.{IsInput};

use crate::inputs::InputRecords;
use crate::records::push_all;
use ebml_tree::{Tree, empty};
use mkv_io::List;
use mkv_schema::ids::CHAPTERS;
use record_changes::{push_chapter_uids, push_edition_uids, renumber, shift};
use std::alloc::{AllocError, Global};

// Returns a copy of an input's Chapters `chapters`, with times that are later by `by` nanoseconds, the append offset,
// or unchanged if the input isn't appended (None). Used by `push_chapters`.
fn later(alloc: Global, chapters: &Tree, by: Option<u64>) -> Result<Tree, AllocError>
    requires { IsRead CHAPTERS_ID chapters.now }
    ensures exact { IfOk result (λ tree. tree ≡ later by chapters.now) }
    ensures read { IfOk result (IsRead CHAPTERS_ID) }
{
    let Some(by) = by else {
        return chapters.copy(alloc);
    };
    let mut later = chapters.copy(alloc)?;
    shift(alloc, &mut later, by)?;
    Ok(later)
}

// Appends the editions of the Chapters of `input` to `joined`, the Chapters of the output. Used by `joined_chapters`.
fn push_chapters(alloc: Global, input: &InputRecords, joined: &mut Tree) -> Result<(), AllocError>
    requires input { IsInput input.now }
    requires joined { IsRecord CHAPTERS_ID joined.old }
    ensures exact { OnOk result (joined.new ≡ with_children joined.old (children joined.old ++ chapters_in input.now)) }
    ensures own { OnOk result (IsRecord CHAPTERS_ID joined.new) }
{
    match &input.chapters {
        Some(chapters) => push_all(joined, later(alloc, chapters, input.shift)?),
        None => Ok(()),
    }
}

/// Returns one Chapters with the editions of all inputs, input after input, and still with the inputs' identifiers.
/// Used by `merge_records`.
pub(crate) fn joined_chapters(alloc: Global, inputs: &[InputRecords]) -> Result<Tree, AllocError>
    requires { All IsInput inputs.now }
    ensures exact { IfOk result (λ joined. joined ≡ joined_chapters inputs.now) }
    ensures own { IfOk result (IsRecord CHAPTERS_ID) }
{
    let mut joined = empty(alloc, CHAPTERS, 0)?;
    for input in inputs {
        push_chapters(alloc, input, &mut joined)?;
    }
    Ok(joined)
}

/// Returns the output's EditionUIDs for the editions in `joined`, the Chapters of all inputs, in their order. Used by
/// `numbers_of`, for `merge_records`.
pub(crate) fn edition_numbers(alloc: Global, joined: &Tree) -> Result<List<u64>, AllocError>
    requires { IsRead CHAPTERS_ID joined.now }
    ensures { IfOk result (λ numbers. numbers ≡ renumbered (edition_uids joined.now)) }
{
    let mut uids = List::new(alloc);
    push_edition_uids(joined, &mut uids)?;
    renumber(alloc, uids.as_slice())
}

/// Returns the output's ChapterUIDs for the chapters in `joined`, the Chapters of all inputs, in their order. Used by
/// `numbers_of`, for `merge_records`.
pub(crate) fn chapter_numbers(alloc: Global, joined: &Tree) -> Result<List<u64>, AllocError>
    requires { IsRead CHAPTERS_ID joined.now }
    ensures { IfOk result (λ numbers. numbers ≡ renumbered (chapter_uids joined.now)) }
{
    let mut uids = List::new(alloc);
    push_chapter_uids(joined, &mut uids)?;
    renumber(alloc, uids.as_slice())
}
