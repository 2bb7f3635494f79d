//! Choice of the blocks that get a cue point, and their points.

ghost use Rattle.std.specs.Prelude.{◌≡◌, ◌≤◌, ◌==◌, is_some, not, unwrap_or};
ghost use Rattle.std.specs.List.{list_any};
ghost use Rattle.block_reader.specs.Buffered.{block_of};
ghost use Rattle.output_model.specs.Ticks.{since_start};
ghost use Rattle.reindex.specs.Points as spec;
ghost use Rattle.reindex.specs.Reading.{cue_of};

use crate::point::Point;
use cluster_reader::Cursor;
use element_reader::Header;
use mkv_io::List;

/// Properties of a file that determine its cue points.
#[derive(Drop)]
pub struct Indexing {
    /// TrackNumbers of its video and subtitle tracks, whose keyframes get cue points.
    pub tracks: List<u64>,
    /// Duration of a tick in nanoseconds.
    pub scale: u64,
    /// Offset of the Segment's body in the file, in bytes.
    pub base: u64,
}

// Returns the time `time` in nanoseconds, or 0 if it is before the start of the file. Used by `point`.
fn since_start(time: i64) -> u64
    ensures { result ≡ unwrap_or (since_start time) 0 }
{
    if time < 0 { 0 } else { time as u64 }
}

// Checks whether the time `time`, in nanoseconds, is before the start of the file; such a block gets no cue point. Used
// by `is_indexed`.
fn is_before_start(time: i64) -> bool
    ensures { result ≡ not (is_some (since_start time)) }
{
    time < 0
}

impl Indexing {
    // Checks whether keyframes of the track with TrackNumber `number` get cue points. Used by `is_indexed`.
    fn has(&self, number: u64) -> bool
        ensures { result ≡ list_any (λ n. n == number) self.now.tracks }
    {
        self.tracks.as_slice().iter().any(|n| *n == number)
    }

    /// Checks whether the current block of `cursor` gets a cue point: a keyframe of an indexed track that isn't before
    /// the start. Used by `add_point`.
    pub fn is_indexed(&self, cursor: &Cursor) -> bool
        ensures { result ≡ spec.is_indexed self.now.tracks (block_of cursor.now.block) }
    {
        let head = cursor.head();
        head.key && !is_before_start(head.time) && self.has(head.track)
    }

    /// Returns the cue point of the current block of `cursor`, which is in the Cluster with the header `cluster`. Used
    /// by `add_point`.
    pub fn point(&self, cursor: &Cursor, cluster: &Header) -> Point
        requires { 1 ≤ self.now.scale }
        ensures { cue_of result ≡ spec.point_in self.now.scale self.now.base (block_of cursor.now.block) cluster.now }
    {
        let head = cursor.head();
        Point {
            tick: since_start(head.time) / self.scale,
            track: head.track,
            cluster: cluster.offset.saturating_sub(self.base),
            relative: head.offset.saturating_sub(cluster.body),
        }
    }
}
