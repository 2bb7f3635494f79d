//! The rewritten Elements that are appended to the file, because they are longer than the room of the old ones.

ghost use Rattle.std.specs.Prelude.{◌≡◌, false, IfOk, MatchOption, map};
ghost use Rattle.std.specs.List.{list_any};
ghost use Rattle.output_model.specs.SeekHead.{seeks_from};
ghost use Rattle.edit_changes.specs.Plan as spec;
ghost use Rattle.edit_plan.specs.Shown.{shown};
ghost use Rattle.edit_plan.specs.Made.{MovesWith};

use crate::counting::sum;
use crate::part::Part;
use edit_changes::{Refusal, shortest, twin_refusal, whole};
use element_reader::Outline;
use output_model::Seek;
use std::alloc::{AllocError, Global};

/// Returns the body of the new Element of `part`, if it is appended to the file since it is longer than its room.
/// Returns None if it stays at its place or is removed. The helpers that append Elements or make their Seeks call it.
/// Used by `moves`, `moving_seeks` and others.
fn moving_body(part: &Part) -> Option<&[u8]>
    ensures { MatchOption result (spec.moves (shown part.now) ≡ false) (λ body. MovesWith part.now body.now) }
{
    let body = part.body.as_ref()?.as_slice();
    if shortest(part.id, body.len() as u64) <= part.room {
        return None;
    }
    Some(body)
}

/// Checks whether the new Element of `part` is longer than its room, so that it is appended to the file. `any_moves`
/// and `duplicates` call it for each part of a plan.
fn moves(part: &Part) -> bool
    ensures { result ≡ spec.moves (shown part.now) }
{
    moving_body(part).is_some()
}

/// Checks whether the new Element of one of `parts` is appended to the file. A plan then writes the SeekHead and the
/// Segment's size too, and checks the file's end.
pub fn any_moves(parts: &[Part]) -> bool
    ensures { result ≡ list_any spec.moves (map shown parts.now) }
{
    for part in parts {
        if moves(part) {
            return true;
        }
    }
    false
}

/// Returns the Seeks of the Elements in `parts` that are appended to the file, for the new SeekHead. The first of them
/// is at offset `from` in the Segment's data, in bytes. An offset that exceeds 64 bits fails as out of memory. Used by
/// `seeks`.
pub fn moving_seeks(alloc: Global, from: u64, parts: &[Part]) -> Result<Vec<Seek>, AllocError>
    ensures { IfOk result (λ seeks. seeks.items ≡ seeks_from from (spec.elements_moving (map shown parts.now))) }
{
    let mut seeks = Vec::new(alloc);
    let mut position = from;
    for part in parts {
        if let Some(body) = moving_body(part) {
            seeks.push(Seek {
                id: part.id,
                position,
            })?;
            position = sum(position, shortest(part.id, body.len() as u64))?;
        }
    }
    Ok(seeks)
}

/// Returns the bytes that `moving_writes` appends to the file: the new Elements in `parts` that are longer than their
/// room, in sequence.
pub fn appended(alloc: Global, parts: &[Part]) -> Result<Vec<u8>, AllocError>
    ensures { IfOk result (λ octets. octets.items ≡ spec.appended (map shown parts.now)) }
{
    let mut out = Vec::new(alloc);
    for part in parts {
        if let Some(body) = moving_body(part) {
            let octets = whole(alloc, part.id, body)?;
            out.extend_from_slice(octets.as_slice())?;
        }
    }
    Ok(out)
}

/// Returns the refusal for the first of `parts` that moves to the file's end and has a twin in `outline`, or None. A
/// twin is another Element with the same ID. `moving_refusal` asks for it.
pub fn duplicates(outline: &Outline, parts: &[Part]) -> Option<Refusal>
    ensures { result ≡ spec.twin_refusal outline.now.others (spec.moving (map shown parts.now)) }
{
    for part in parts {
        if moves(part) {
            if let Some(refusal) = twin_refusal(outline, part.id) {
                return Some(refusal);
            }
        }
    }
    None
}

/// Returns the greatest number of Elements that one of `parts`, the Elements at level 1 that an edit rewrites or
/// removes, writes with itself included; 0 without parts. `too_large` refuses an edit if it exceeds `MAX_NODES`.
pub fn most_nodes(parts: &[Part]) -> u64
    ensures { result ≡ spec.most_nodes (map shown parts.now) }
{
    let mut most = 0;
    for part in parts {
        most = part.nodes.max(most);
    }
    most
}
