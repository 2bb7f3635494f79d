//! The cue points of a track as lines of text: `timestamp=.. cluster_position=.. relative_position=..`.

ghost use Rattle.std.specs.Prelude.{◌≡◌, ◌++◌, OnOk};
ghost use Rattle.std.specs.String.{string_bytes};
ghost use Rattle.mkv_schema.specs.declared.ids.TheConstants as ids;
ghost use Rattle.tree_format.specs.Node.{id_of};
ghost use Rattle.tree_format.specs.Standing.{IsSound, IsSoundOf};
ghost use Rattle.tree_format.specs.Values.{HasUint, integer_in};
ghost use Rattle.extractors.specs.Lines as spec;

use ebml_tree::{Tree, integer_in};
use mkv_schema::ids::{
    CUE_CLUSTER_POSITION, CUE_POINT, CUE_RELATIVE_POSITION, CUE_TIME, CUE_TRACK,
    CUE_TRACK_POSITIONS,
};
use std::alloc::AllocError;
use std::fmt::Write;

/// Appends a line to `out` for each CueTrackPositions of the track with TrackNumber `track`, in the order of `cues`. A
/// line has the time in nanoseconds, at `scale` nanoseconds per tick, and the two positions as the Cues has them.
/// CueClusterPosition is in bytes from the start of the Segment's data, CueRelativePosition from the start of the
/// Cluster's data. Used by `cues_text`, for `extract FILE cues`.
pub fn put_cues(cues: &Tree, track: u64, scale: u64, out: &mut String) -> Result<(), AllocError>
    requires { IsSoundOf ids.CUES cues.now }
    ensures { OnOk result (string_bytes out.new ≡ string_bytes out.old ++ spec.cue_lines scale track cues.now) }
{
    for point in cues.children() {
        if point.id() == CUE_POINT {
            put_point(point, track, scale, out)?;
        }
    }
    Ok(())
}

/// Appends to `out` the lines of one CuePoint, `point`, for the track with TrackNumber `track`, at `scale` nanoseconds
/// per tick. Used by `put_cues`.
fn put_point(point: &Tree, track: u64, scale: u64, out: &mut String) -> Result<(), AllocError>
    requires { IsSoundOf ids.CUE_POINT point.now }
    ensures { OnOk result (string_bytes out.new ≡ string_bytes out.old ++ spec.point_lines scale track point.now) }
{
    let time = time_of(point, scale);
    for place in point.children() {
        if place.id() == CUE_TRACK_POSITIONS {
            put_place(time, place, track, out)?;
        }
    }
    Ok(())
}

/// Returns the CueTime of the CuePoint `point` in nanoseconds, at `scale` nanoseconds per tick; None if it has no
/// CueTime. Used by `put_point`.
fn time_of(point: &Tree, scale: u64) -> Option<u128>
    requires { IsSoundOf ids.CUE_POINT point.now }
    ensures { result ≡ spec.point_time scale point.now }
{
    let ticks = integer_in(point, CUE_TIME)?;
    Some(u128::from(ticks) * u128::from(scale))
}

/// Appends to `out` the line of `place`, a CueTrackPositions of a CuePoint at `time` nanoseconds, if its CueTrack is
/// `track`. Used by `put_point`.
fn put_place(
    time: Option<u128>,
    place: &Tree,
    track: u64,
    out: &mut String,
) -> Result<(), AllocError>
    requires { IsSoundOf ids.CUE_TRACK_POSITIONS place.now }
    ensures { OnOk result (string_bytes out.new ≡ string_bytes out.old ++ spec.place_lines time track place.now) }
{
    match integer_in(place, CUE_TRACK) {
        Some(own) if own == track => put_line(time, place, out),
        _ => Ok(()),
    }
}

/// Appends one line to `out`: `time` in nanoseconds, and the positions in `place`, a CueTrackPositions. An absent
/// number is `-`. Used by `put_place`.
fn put_line(time: Option<u128>, place: &Tree, out: &mut String) -> Result<(), AllocError>
    requires { IsSoundOf ids.CUE_TRACK_POSITIONS place.now }
    ensures { OnOk result (string_bytes out.new ≡ string_bytes out.old ++ spec.cue_line time place.now) }
{
    put_number("timestamp=", time, out)?;
    put_integer(" cluster_position=", place, CUE_CLUSTER_POSITION, out)?;
    put_integer(" relative_position=", place, CUE_RELATIVE_POSITION, out)?;
    out.push_str("\n")
}

/// Appends to `out` the label `name`, and the first child of `tree` with this `id` in decimal, or `-` if it is absent.
/// The child is an unsigned integer. Used by `put_line`.
fn put_integer(name: &str, tree: &Tree, id: u32, out: &mut String) -> Result<(), AllocError>
    requires sound { IsSound tree.now }
    requires uint { HasUint (id_of tree.now) id }
    ensures { OnOk result (string_bytes out.new ≡ string_bytes out.old ++ spec.labelled name.now (integer_in id tree.now)) }
{
    match integer_in(tree, id) {
        Some(number) => put_number(name, Some(u128::from(number)), out),
        None => put_number(name, None, out),
    }
}

/// Appends to `out`, a line of a cue point, the label `name`, and `number` in decimal, or `-` if it is None. Used by
/// `put_line` and `put_integer`.
fn put_number(name: &str, number: Option<u128>, out: &mut String) -> Result<(), AllocError>
    ensures { OnOk result (string_bytes out.new ≡ string_bytes out.old ++ spec.labelled name.now number) }
{
    out.push_str(name)?;
    match number {
        Some(number) => {
            write!(out, "{number}")?;
            Ok(())
        }
        None => out.push_str("-"),
    }
}
