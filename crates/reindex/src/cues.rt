//! The bytes of a new Cues (RFC 9559, section 5.1.5, Cues Element). TrackNumbers may have up to 56 bits here.

ghost use Rattle.std.specs.Prelude.{◌≡◌, ◌≤◌, ◌^◌, ◌++◌, length, map, option_map, IfOk, IfSome, IsTrue, OnOk};
ghost use Rattle.mkv_schema.specs.declared.ids.TheConstants.{CUES as CUES_ID};
ghost use Rattle.ebml_numbers.specs.Number.{is_id};
ghost use Rattle.output_model.specs.Cues.{point_element, positions_element};
ghost use Rattle.output_model.specs.Element.{element, joined, octets_of, uint_element};
ghost use Rattle.reindex.specs.Plan.{new_cues};
ghost use Rattle.reindex.specs.Reading.{cue_of, cues_of};

use crate::point::Point;
use ebml_numbers::{put_id, put_size, put_uint, size_width};
use mkv_io::{Bytes, LONGEST_FILE};
use mkv_schema::ids::{
    CUE_CLUSTER_POSITION, CUE_POINT, CUE_RELATIVE_POSITION, CUE_TIME, CUE_TRACK,
    CUE_TRACK_POSITIONS,
};
use std::alloc::{AllocError, Global};

// Appends the Element of a new Cues with the ID `id` and the body `body` to `out`, in its fewest bytes. A body that is
// too long for a file fails as out of memory. Used by `put_uint_element`, `point_body` and others.
fn put_element(out: &mut Bytes, id: u32, body: &[u8]) -> Result<(), AllocError>
    requires { IsTrue (is_id id) }
    ensures { OnOk result (out.new ≡ out.old ++ octets_of (element id body.now)) }
{
    let len = body.len() as u64;
    if len > LONGEST_FILE {
        return Err(AllocError);
    }
    out.append(put_id(id).as_slice())?;
    out.append(put_size(len, size_width(len)).as_slice())?;
    out.append(body)?;
    Ok(())
}

// Appends the Element of a new Cues with the ID `id` and the unsigned integer `value` to `out`, in its fewest bytes.
// Used by `positions_body` and `point_body`.
fn put_uint_element(out: &mut Bytes, id: u32, value: u64) -> Result<(), AllocError>
    requires { IsTrue (is_id id) }
    ensures { OnOk result (out.new ≡ out.old ++ octets_of (uint_element id value)) }
{
    put_element(out, id, put_uint(value).as_slice())
}

// Returns the body of the CueTrackPositions for `point`: track number and both positions. Used by `point_body`.
#[tactic(auto, unfolding(ebml_numbers::specs::Number::is_id))]
fn positions_body(alloc: Global, point: &Point) -> Result<Bytes, AllocError>
    ensures { IfOk result (λ body. body ≡ (positions_element (cue_of point.now)).body) }
{
    let mut body = Bytes::new(alloc);
    put_uint_element(&mut body, CUE_TRACK, point.track)?;
    put_uint_element(&mut body, CUE_CLUSTER_POSITION, point.cluster)?;
    put_uint_element(&mut body, CUE_RELATIVE_POSITION, point.relative)?;
    Ok(body)
}

// Returns the body of the CuePoint for `point`: its time in ticks and its CueTrackPositions. Used by `put_point`.
#[tactic(auto, unfolding(ebml_numbers::specs::Number::is_id))]
fn point_body(alloc: Global, point: &Point) -> Result<Bytes, AllocError>
    ensures { IfOk result (λ body. body ≡ (point_element (cue_of point.now)).body) }
{
    let mut body = Bytes::new(alloc);
    let positions = positions_body(alloc, point)?;
    put_uint_element(&mut body, CUE_TIME, point.tick)?;
    put_element(&mut body, CUE_TRACK_POSITIONS, positions.as_slice())?;
    Ok(body)
}

// Appends the CuePoint for `point` to `out`. Used by `points_body`.
#[tactic(auto, unfolding(ebml_numbers::specs::Number::is_id))]
fn put_point(alloc: Global, out: &mut Bytes, point: &Point) -> Result<(), AllocError>
    ensures { OnOk result (out.new ≡ out.old ++ octets_of (point_element (cue_of point.now))) }
{
    let body = point_body(alloc, point)?;
    put_element(out, CUE_POINT, body.as_slice())
}

// Returns the CuePoints for `points`, in this order: the body of the Cues. Used by `cues_body`.
fn points_body(alloc: Global, points: &[Point]) -> Result<Bytes, AllocError>
    ensures { IfOk result (λ body. body ≡ joined (map point_element (cues_of points.now))) }
{
    let mut body = Bytes::new(alloc);
    for point in points {
        put_point(alloc, &mut body, point)?;
    }
    Ok(body)
}

/// Returns the body of the new Cues of `reindex` with a CuePoint for each of `points`, or None without points. A body
/// that is too long for a file fails as out of memory. Used by `cues_parts`.
pub fn cues_body(alloc: Global, points: &[Point]) -> Result<Option<Bytes>, AllocError>
    ensures exact { IfOk result (λ body. option_map (element CUES_ID) body ≡ new_cues (cues_of points.now)) }
    ensures short { IfOk result (λ body. IfSome body (λ octets. length octets ≤ 2 ^ 48)) }
{
    if points.is_empty() {
        return Ok(None);
    }
    let body = points_body(alloc, points)?;
    if body.len() as u64 > LONGEST_FILE {
        return Err(AllocError);
    }
    Ok(Some(body))
}
