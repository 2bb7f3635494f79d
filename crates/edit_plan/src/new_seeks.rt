//! The new Seeks of a SeekHead after an edit, each with the position of an Element in the Segment's data.

ghost use Rattle.std.specs.Prelude.{◌≡◌, ◌==◌, false, IfOk, find, map};
ghost use Rattle.mkv_schema.specs.declared.ids.TheConstants.{CLUSTER};
ghost use Rattle.edit_changes.specs.Plan as spec;
ghost use Rattle.edit_plan.specs.Sought.{AreSought};
ghost use Rattle.edit_plan.specs.Shown.{shown};

use crate::appended::moving_seeks;
use crate::part::Part;
use element_reader::Outline;
use output_model::Seek;
use std::alloc::{AllocError, Global};

/// Checks whether one of `parts` removes the Element with the ID `id`, so that it gets no Seek from `standing_seek`.
fn goes(parts: &[Part], id: u32) -> bool
    ensures { result ≡ spec.goes (map shown parts.now) id }
{
    for part in parts {
        if part.id == id && part.body.is_none() {
            return true;
        }
    }
    false
}

/// Returns the Seek for the ID `id` in `moved`, or None if it isn't there. `moved` has the Seeks of the Elements that
/// are appended to the file. `seek_for` asks for it first.
fn appended_seek(moved: &[Seek], id: u32) -> Option<Seek>
    ensures { result ≡ find (λ s. s.id == id) moved.now }
{
    for seek in moved {
        if seek.id == id {
            return Some(*seek);
        }
    }
    None
}

/// Returns the Seek of the first existing Element with the ID `id` at level 1 of `outline`, for `seek_for`. Returns
/// None if there is none, or if one of `parts` removes it.
fn standing_seek(outline: &Outline, parts: &[Part], id: u32) -> Option<Seek>
    requires { (id == CLUSTER) ≡ false }
    ensures { result ≡ spec.standing_seek outline.now (map shown parts.now) id }
{
    if goes(parts, id) {
        return None;
    }
    let header = outline.first(id)?;
    Some(Seek {
        id: header.id,
        position: header.offset.saturating_sub(outline.segment().body),
    })
}

/// Returns the Seek for the ID `id` in the new SeekHead. It is in `moved`, the Seeks of the appended Elements, or else
/// points to the first existing Element in `outline`. It is None if there is neither, or if one of `parts` removes the
/// Element. `seeks_for` calls it.
fn seek_for(outline: &Outline, parts: &[Part], moved: &[Seek], id: u32) -> Option<Seek>
    requires { (id == CLUSTER) ≡ false }
    ensures { result ≡ spec.seek_for moved.now outline.now (map shown parts.now) id }
{
    match appended_seek(moved, id) {
        Some(seek) => Some(seek),
        None => standing_seek(outline, parts, id),
    }
}

/// Returns the Seeks for `ids`, in this order, for `seeks`. IDs that have no Element in `outline` after `parts` are
/// written are left out. `moved` has the Seeks of the appended Elements.
fn seeks_for(
    alloc: Global,
    ids: &[u32],
    outline: &Outline,
    parts: &[Part],
    moved: &[Seek],
) -> Result<Vec<Seek>, AllocError>
    requires { AreSought ids.now }
    ensures { IfOk result (λ seeks. seeks.items ≡ spec.seeks_beside moved.now outline.now (map shown parts.now) ids.now) }
{
    let mut seeks = Vec::new(alloc);
    for id in ids {
        if let Some(seek) = seek_for(outline, parts, moved, *id) {
            seeks.push(seek)?;
        }
    }
    Ok(seeks)
}

/// Returns the new Seeks for `ids`, in this order, after `parts` are written, for the new SeekHead. An ID without an
/// Element has none. `outline` is the file's. `new_seek_head` calls it.
pub fn seeks(
    alloc: Global,
    ids: &[u32],
    outline: &Outline,
    parts: &[Part],
) -> Result<Vec<Seek>, AllocError>
    requires { AreSought ids.now }
    ensures { IfOk result (λ seeks. seeks.items ≡ spec.seeks ids.now outline.now (map shown parts.now)) }
{
    let from = outline.total().saturating_sub(outline.segment().body);
    let moved = moving_seeks(alloc, from, parts)?;
    seeks_for(alloc, ids, outline, parts, moved.as_slice())
}
