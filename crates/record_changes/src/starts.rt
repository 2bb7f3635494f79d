//! Start times of chapters, which a merge may be split at: RFC 9559, section 5.1.7 (Chapters).

ghost use Rattle.std.specs.Prelude.{◌≡◌, ◌++◌, IfOk, OnOk};
ghost use Rattle.mkv_schema.specs.declared.ids.TheConstants as ids;
ghost use Rattle.ebml_tree.specs.Building.{IsRead};
ghost use Rattle.record_changes.specs.Starts.{own_starts, starts_inside, top_starts};
ghost use Rattle.record_changes.specs.Standing.{IsReadIf};

use crate::cutting::start_of;
use ebml_tree::Tree;
use mkv_io::List;
use mkv_schema::ids::{CHAPTER_ATOM, EDITION_ENTRY};
use std::alloc::{AllocError, Global};

// Appends the start of `child`, a child of an edition, in nanoseconds, to `starts`, if it is an atom, for
// `push_starts`.
fn push_start(child: &Tree, starts: &mut List<u64>) -> Result<(), AllocError>
    requires { IsReadIf ids.CHAPTER_ATOM child.now }
    ensures { OnOk result (starts.new ≡ starts.old ++ own_starts child.now) }
{
    if child.id() != CHAPTER_ATOM {
        return Ok(());
    }
    starts.push(start_of(child))
}

// Appends the starts of the top atoms of `edition`, in nanoseconds, to `starts`, for `top_starts`.
fn push_starts(edition: &Tree, starts: &mut List<u64>) -> Result<(), AllocError>
    requires { IsRead ids.EDITION_ENTRY edition.now }
    ensures { OnOk result (starts.new ≡ starts.old ++ starts_inside edition.now) }
{
    for child in edition.children() {
        push_start(child, starts)?;
    }
    Ok(())
}

/// Returns the starts, in nanoseconds, of the top chapters in the first edition of `chapters`, in their order, at which
/// a merge may be split. A chapter without a start starts at 0. Used by `starts_in` of `merge_plan`.
pub fn top_starts(alloc: Global, chapters: &Tree) -> Result<List<u64>, AllocError>
    requires { IsRead ids.CHAPTERS chapters.now }
    ensures { IfOk result (λ starts. starts ≡ top_starts chapters.now) }
{
    let mut starts = List::new(alloc);
    if let Some(edition) = chapters.child(EDITION_ENTRY) {
        push_starts(edition, &mut starts)?;
    }
    Ok(starts)
}
