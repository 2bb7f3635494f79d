//! Cues: RFC 9559, section 5.1.5 (Cues).

ghost use Rattle.std.specs.Prelude.{◌≡◌, ◌^◌, ◌≤◌, ◌++◌, length, map, OnOk};
ghost use Rattle.output_model.specs.Element.{octets_of, joined};
ghost use Rattle.output_model.specs.Cues.{positions_element, point_element, cues_elements};

use crate::written::{element_len, put_header, put_uint_element, uint_len};
use mkv_io::Bytes;
use mkv_schema::ids::{
    CUE_CLUSTER_POSITION, CUE_POINT, CUE_RELATIVE_POSITION, CUE_TIME, CUE_TRACK,
    CUE_TRACK_POSITIONS, CUES,
};
use output_model::CuePoint;
use std::alloc::AllocError;

// Returns the length in bytes of the content of the CueTrackPositions for `point`, for its header. Used by
// `point_body_len` and `put_positions`.
#[tactic(auto, unfolding(ebml_numbers::specs::Number::is_id))]
fn positions_len(point: &CuePoint) -> u64
    ensures exact { result ≡ length (positions_element point.now).body }
    ensures most { result ≤ 60 }
{
    uint_len(CUE_TRACK, u64::from(point.lane))
        + uint_len(CUE_CLUSTER_POSITION, point.cluster)
        + uint_len(CUE_RELATIVE_POSITION, point.relative)
}

// Returns the length in bytes of the content of the CuePoint for `point`, for its header. Used by `point_len` and
// `put_point`.
#[tactic(auto, unfolding(ebml_numbers::specs::Number::is_id))]
fn point_body_len(point: &CuePoint) -> u64
    ensures exact { result ≡ length (point_element point.now).body }
    ensures most { result ≤ 92 }
{
    uint_len(CUE_TIME, point.tick) + element_len(CUE_TRACK_POSITIONS, positions_len(point))
}

// Returns the length in bytes of the CuePoint Element for `point`, header included. Used by `points_len`.
#[tactic(auto, unfolding(ebml_numbers::specs::Number::is_id))]
fn point_len(point: &CuePoint) -> u64
    ensures exact { result ≡ length (octets_of (point_element point.now)) }
    ensures most { result ≤ 128 }
{
    element_len(CUE_POINT, point_body_len(point))
}

// Appends to `out` the CueTrackPositions for `point`, the second child of its CuePoint. Used by `put_point`.
#[tactic(auto, unfolding(ebml_numbers::specs::Number::is_id))]
fn put_positions(out: &mut Bytes, point: &CuePoint) -> Result<(), AllocError>
    ensures ok { OnOk result (out.new ≡ out.old ++ octets_of (positions_element point.now)) }
{
    put_header(out, CUE_TRACK_POSITIONS, positions_len(point))?;
    put_uint_element(out, CUE_TRACK, u64::from(point.lane))?;
    put_uint_element(out, CUE_CLUSTER_POSITION, point.cluster)?;
    put_uint_element(out, CUE_RELATIVE_POSITION, point.relative)?;
    Ok(())
}

// Appends to `out` the CuePoint Element for `point`, with its time in ticks and its CueTrackPositions. Used by
// `put_points`.
#[tactic(auto, unfolding(ebml_numbers::specs::Number::is_id))]
fn put_point(out: &mut Bytes, point: &CuePoint) -> Result<(), AllocError>
    ensures ok { OnOk result (out.new ≡ out.old ++ octets_of (point_element point.now)) }
{
    put_header(out, CUE_POINT, point_body_len(point))?;
    put_uint_element(out, CUE_TIME, point.tick)?;
    put_positions(out, point)?;
    Ok(())
}

// Returns the length in bytes of the CuePoint Elements for `points`, for the size of the Cues. Used by `put_cues`.
fn points_len(points: &[CuePoint]) -> u64
    requires { length points.now ≤ 2 ^ 20 }
    ensures exact { result ≡ length (joined (map point_element points.now)) }
    ensures most { result ≤ 2 ^ 27 }
{
    let mut total = 0;
    for point in points {
        total += point_len(point);
    }
    total
}

// Appends to `out` the CuePoint Elements for `points`, in sequence. Used by `put_cues`.
fn put_points(out: &mut Bytes, points: &[CuePoint]) -> Result<(), AllocError>
    ensures ok { OnOk result (out.new ≡ out.old ++ joined (map point_element points.now)) }
{
    for point in points {
        put_point(out, point)?;
    }
    Ok(())
}

/// Appends to `out` the Cues with `points`, or nothing if there are none, when an output is finished. Used by
/// `add_cues`.
#[tactic(auto, unfolding(ebml_numbers::specs::Number::is_id))]
pub(crate) fn put_cues(out: &mut Bytes, points: &[CuePoint]) -> Result<(), AllocError>
    requires { length points.now ≤ 2 ^ 20 }
    ensures ok { OnOk result (out.new ≡ out.old ++ joined (cues_elements points.now)) }
{
    if points.is_empty() {
        return Ok(());
    }
    put_header(out, CUES, points_len(points))?;
    put_points(out, points)
}
