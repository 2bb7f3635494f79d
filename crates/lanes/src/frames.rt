//! Frames of a track, counted from 0, and their times

ghost use Rattle.std.specs.Prelude.{◌≡◌, ◌≤◌};
ghost use Rattle.block_reader.specs.Time.{IsSmallTime};
ghost use Rattle.merge_model.specs.FileLinks.{listing_of};
ghost use Rattle.merge_model.specs.Timed.{time_for};
ghost use Rattle.lanes.specs.Frames.{by_head, frames_of};

use cluster_reader::Cursor;
use merge_model::TrackLink;

/// Returns the number of frames of `track` in the block at `cursor`, or 0 if it is another track's block. An output
/// track and the survey of a file count frames by it. Used by `link_frames` and `turn_track`.
pub fn frames_of(track: &TrackLink, cursor: &Cursor) -> u64
    ensures exact { result ≡ frames_of track.now (by_head cursor.now.block) }
    ensures few { result ≤ 256 }
{
    if cursor.head().track == track.number {
        u64::from(cursor.frames())
    } else {
        0
    }
}

/// Returns the time in nanoseconds of a block that `before` frames of `track` precede, without delay and append offset.
/// It is its `own` time, or its first frame's time in a timestamp file. Called for each block that is placed or
/// surveyed.
pub fn time_of(track: &TrackLink, before: u64, own: i64) -> i64
    requires { IsSmallTime own }
    ensures exact { result ≡ time_for (listing_of track.now) before own }
    ensures small { IsSmallTime result }
{
    match &track.times {
        Some(times) => times.at(before),
        None => own,
    }
}
