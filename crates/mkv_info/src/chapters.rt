//! Count of the chapters in the JSON of `merge -J`: RFC 9559, section 5.1.7 (Chapters Element).

ghost use Rattle.std.specs.Prelude.{◌≡◌, IfOk};
ghost use Rattle.serde_json.specs.View.{view};
ghost use Rattle.mkv_info.specs.Chapters.{chapter_count, entries_value};

use crate::values::with_children;
use ebml_tree::Tree;
use mkv_schema::ids::{CHAPTER_ATOM, EDITION_ENTRY};
use serde_json::{Value, json};
use std::alloc::{AllocError, Global};

/// Makes the value of the keys `chapters` and `global_tags` in the JSON of `merge -J`: a list with one object that has
/// the number of entries, `count`. It is empty if `count` is 0.
pub(crate) fn entries_value(alloc: Global, count: usize) -> Result<Value, AllocError>
    ensures { IfOk result (λ value. view value ≡ entries_value count) }
{
    if count == 0 {
        return Ok(Value::Array(Vec::new(alloc)));
    }
    json!(in alloc; [{"num_entries": count}])
}

/// Returns the number of ChapterAtoms directly in an EditionEntry of `chapters`, the file's first Chapters, for the key
/// `chapters` of `merge -J`; nested ones don't count. It is 0 without a Chapters.
pub(crate) fn chapter_count(chapters: &Option<Tree>) -> Result<usize, AllocError>
    ensures { IfOk result (λ count. count ≡ chapter_count chapters.now) }
{
    let Some(chapters) = chapters else {
        return Ok(0);
    };
    let mut count = 0;
    for edition in chapters.children() {
        if edition.id() == EDITION_ENTRY {
            count = with_children(count, edition, CHAPTER_ATOM)?;
        }
    }
    Ok(count)
}
