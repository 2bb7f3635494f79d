//! Steps of a walk, from one block or damaged place to the next

ghost use Rattle.std.specs.Prelude.{◌≡◌};
ghost use Rattle.mkv_io.specs.Faults.{HasCause, is_read_fault};
ghost use Rattle.mkv_io.specs.Sources.{IfTold, live_files};
ghost use Rattle.cluster_reader.specs.Reading.{GivesWanted};
ghost use Rattle.cluster_reader.specs.Walks.{GivesIn, IsReady, PaysFor, TakesStep, TakesTurn, Turns, shown};

use crate::at_level_1::turn_at_level_1;
use crate::filter::BlockFilter;
use crate::in_cluster::turn_in_cluster;
use crate::step::Step;
use crate::walk::Walk;
use mkv_io::{ReadEnd, Reads};

/// Advances `walk` to the next block or damaged place of its file in `src`, or to the end of the Segment. `takes`
/// chooses the blocks that are read whole. `advance` and `advance_for` of a cursor call it.
pub fn next_step<R: Reads>(
    walk: &mut Walk,
    src: &mut R,
    takes: BlockFilter,
) -> Result<Step, ReadEnd>
    requires { IsReady (live_files R.Reads src.old) walk.old }
    ensures gives { GivesIn R.Reads src.old takes walk.old walk.new result }
    ensures takes { TakesStep takes walk.old walk.new result }
    ensures ready { IsReady (live_files R.Reads src.new) walk.new }
    ensures standing { R.standing src.new ≡ R.standing src.old }
    ensures cause { HasCause is_read_fault (R.reading_faults src.old) (R.reading_faults src.new) result }
    ensures pays { PaysFor R.Reads src.old src.new walk.old walk.new result }
{
    loop {
        if let Some(step) = turn(walk, src, takes)? {
            return Ok(step);
        }
    }
}

// Advances `walk` by the Element at its place, in a Cluster or at level 1. Returns None unless a block, damage or the
// end was found. Used by `next_step`.
fn turn<R: Reads>(walk: &mut Walk, src: &mut R, takes: BlockFilter) -> Result<Option<Step>, ReadEnd>
    requires { IsReady (live_files R.Reads src.old) walk.old }
    ensures gives { IfTold R.Reads src.old walk.old.file (λ bytes. Turns takes bytes walk.old walk.new result) }
    ensures takes { TakesTurn takes walk.old walk.new result }
    ensures ready { IsReady (live_files R.Reads src.new) walk.new }
    ensures standing { R.standing src.new ≡ R.standing src.old }
    ensures cause { HasCause is_read_fault (R.reading_faults src.old) (R.reading_faults src.new) result }
    ensures pays { PaysFor R.Reads src.old src.new walk.old walk.new result }
{
    match walk.place.cluster {
        None => turn_at_level_1(walk, src),
        Some(cluster) => turn_in_cluster(walk, src, cluster, takes),
    }
}
