//! Reading of the blocks of a file for its cue points.

ghost use Rattle.std.specs.Prelude.{◌≡◌, ◌≤◌, ◌*◌, max, length, IfOk};
ghost use Rattle.mkv_io.specs.Bounds.{ReadsUpTo};
ghost use Rattle.mkv_io.specs.Faults.{HasCause, is_read_fault};
ghost use Rattle.mkv_io.specs.Sources.{IsLive, OnlyReads, file_size, live_files};
ghost use Rattle.element_reader.specs.Outline.{is_outline_fault};
ghost use Rattle.cluster_reader.specs.Reading.{CanRead};
ghost use Rattle.edit_changes.specs.Trees.{AreSound};
ghost use Rattle.reindex.specs.Clusters.{IsReady, StaysReady, PaysOn, IsWindowIn};
ghost use Rattle.reindex.specs.Reading.{AddsPointOf, ReadsAll, ReadsLeft};

use crate::clusters::Clusters;
use crate::indexing::Indexing;
use crate::point::Point;
use crate::scale::scale_of;
use crate::tracks::indexed_tracks;
use cluster_reader::{BlockFilter, Cursor, Step};
use edit_changes::Trees;
use element_reader::{Outline, OutlineEnd};
use mkv_io::{FileId, List, ReadEnd, Reads};
use output_model::MAX_CUES;
use std::alloc::Global;

// Appends the cue point of the current block of `cursor` to `points`, if it gets one by `by` and there are fewer than
// 1,048,576. `clusters` is advanced to the block, and has its Cluster. Both read the same file. Used by `collect`.
fn add_point<R: Reads>(
    points: &mut List<Point>,
    by: &Indexing,
    clusters: &mut Clusters,
    src: &mut R,
    cursor: &Cursor,
) -> Result<(), ReadEnd>
    requires scale { 1 ≤ by.now.scale }
    requires few { length points.old ≤ MAX_CUES }
    requires ready { IsReady (live_files R.Reads src.old) clusters.old }
    ensures adds { AddsPointOf R.Reads src.old by.now cursor.now points.old points.new clusters.old clusters.new result }
    ensures few { length points.new ≤ MAX_CUES }
    ensures reached { clusters.new.reached ≤ max clusters.old.reached cursor.now.block.head.offset }
    ensures ready { StaysReady (live_files R.Reads src.new) clusters.old clusters.new }
    ensures same { OnlyReads R.Reads src.old src.new }
    ensures cause { HasCause is_read_fault (R.reading_faults src.old) (R.reading_faults src.new) result }
    ensures goes { PaysOn R.Reads src.old src.new clusters.old clusters.new result }
{
    if points.len() >= MAX_CUES || !by.is_indexed(cursor) {
        return Ok(());
    }
    clusters.go_to(src, cursor.head().offset)?;
    if let Some(cluster) = clusters.last {
        points.push(by.point(cursor, &cluster))?;
    }
    Ok(())
}

// Returns the cue points of the remaining blocks of `cursor` by the properties `by` of the file, or fails with the
// first damage. `clusters` follows the cursor in the same file. Used by `read_points`.
fn collect<R: Reads>(
    alloc: Global,
    by: &Indexing,
    clusters: &mut Clusters,
    cursor: &mut Cursor,
    src: &mut R,
) -> Result<List<Point>, OutlineEnd>
    requires scale { 1 ≤ by.now.scale }
    requires file { clusters.old.level.file ≡ cursor.old.file }
    requires stands { CanRead (live_files R.Reads src.old) cursor.old }
    requires ready { IsReady (live_files R.Reads src.old) clusters.old }
    requires window { IsWindowIn R.Reads src.old cursor.old.file clusters.old }
    ensures exact { ReadsLeft R.Reads src.old by.now clusters.old cursor.old result }
    ensures few { IfOk result (λ points. length points ≤ MAX_CUES) }
    ensures standing { R.standing src.new ≡ R.standing src.old }
    ensures cause { HasCause is_outline_fault (R.reading_faults src.old) (R.reading_faults src.new) result }
    ensures octets { ReadsUpTo R.Reads src.old src.new (3 * file_size R.Reads src.old cursor.old.file) }
{
    let mut points = List::new(alloc);
    'steps: loop {
        match cursor.advance_for(src, BlockFilter::Heads)? {
            Step::Block => add_point(&mut points, by, clusters, src, cursor)?,
            Step::Damaged(damage) => return Err(OutlineEnd::Refused(damage)),
            Step::End => return Ok(points),
        }
    }
}

/// Reads the cue points of `file`, which has this `outline` and the records `trees`, in the order of its blocks. It
/// fails with the first damage. After 1,048,576 points it only checks for damage. Frames aren't read. Used by `find`,
/// when `reindex` plans.
pub fn read_points<R: Reads>(
    alloc: Global,
    outline: &Outline,
    trees: &Trees,
    src: &mut R,
    file: FileId,
) -> Result<List<Point>, OutlineEnd>
    requires live { IsLive R.Reads src.old file }
    requires whole { outline.now.total ≡ file_size R.Reads src.old file }
    requires sound { AreSound trees.now }
    ensures exact { ReadsAll R.Reads src.old file outline.now trees.now result }
    ensures few { IfOk result (λ points. length points ≤ MAX_CUES) }
    ensures standing { R.standing src.new ≡ R.standing src.old }
    ensures cause { HasCause is_outline_fault (R.reading_faults src.old) (R.reading_faults src.new) result }
    ensures octets { ReadsUpTo R.Reads src.old src.new (3 * file_size R.Reads src.old file) }
{
    let by = Indexing {
        tracks: indexed_tracks(alloc, trees.tracks.as_slice())?,
        scale: scale_of(&trees.info),
        base: outline.segment().body,
    };
    let mut cursor = Cursor::start(alloc, outline, file, by.scale)?;
    let mut clusters = Clusters::start(outline, file);
    collect(alloc, &by, &mut clusters, &mut cursor, src)
}
