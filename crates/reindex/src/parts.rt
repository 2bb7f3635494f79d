//! The new Cues, as an Element at level 1 that replaces the old one.

ghost use Rattle.std.specs.Prelude.{◌≡◌, ◌≤◌, ◌^◌, length, map, option_map, IfOk, IfSome};
ghost use Rattle.mkv_schema.specs.declared.ids.TheConstants.{CUES as CUES_ID};
ghost use Rattle.output_model.specs.Element.{element};
ghost use Rattle.edit_plan.specs.Shown.{shown};
ghost use Rattle.reindex.specs.Plan as spec;
ghost use Rattle.reindex.specs.Reading.{cues_of};

use crate::cues::cues_body;
use crate::point::Point;
use edit_changes::span_of;
use edit_plan::Part;
use element_reader::Outline;
use mkv_io::Bytes;
use mkv_schema::ids::CUES;
use std::alloc::{AllocError, Global};

// Returns the part that writes a Cues with the body `body`, or removes the old Cues if there is no body. The old Cues
// is at the offset `place` in the file and has `room` bytes with the Voids after it; both are 0 if there is none. Used
// by `cues_parts`.
#[tactic(auto, unfolding(ebml_numbers::specs::Number::is_id))]
fn cues_part(place: u64, room: u64, body: Option<Bytes>) -> Part
    requires short { IfSome body (λ octets. length octets ≤ 2 ^ 48) }
    requires room { room ≤ 2 ^ 48 }
    ensures { shown result ≡ spec.cues_part place room (option_map (element CUES_ID) body) }
{
    Part {
        id: CUES,
        place,
        room,
        nodes: 0,
        body,
    }
}

/// Returns the part of an edit that writes a Cues with `points` over the old Cues in `outline`, or appends it if there
/// is none. Without points the old Cues is removed. The list is empty if there is neither an old nor a new Cues. The
/// plan of `reindex` begins with it.
pub fn cues_parts(
    alloc: Global,
    outline: &Outline,
    points: &[Point],
) -> Result<Vec<Part>, AllocError>
    requires { outline.now.total ≤ 2 ^ 48 }
    ensures { IfOk result (λ parts. map shown parts.items ≡ spec.index_parts outline.now (cues_of points.now)) }
{
    let mut parts = Vec::new(alloc);
    let body = cues_body(alloc, points)?;
    if let Some(old) = outline.first(CUES) {
        parts.push(cues_part(old.offset, span_of(outline, &old), body))?;
    } else if body.is_some() {
        parts.push(cues_part(0, 0, body))?;
    }
    Ok(parts)
}
