//! Elements of level 1: RFC 9559, section 5.1 (Segment).

ghost use Rattle.std.specs.Prelude.{◌≡◌, None};
ghost use Rattle.mkv_io.specs.Faults.{HasCause, is_read_fault};
ghost use Rattle.mkv_io.specs.Sources.{IfTold, live_files};
ghost use Rattle.cluster_reader.specs.Walks.{IsReady, PaysFor, TakesTurn, TurnsForAll};
ghost use Rattle.cluster_reader.specs.declared.filter.BlockFilter.{BlockFilter};

use crate::step::Step;
use crate::walk::Walk;
use elements::{Parent, ends_segment, id_of};
use mkv_io::{ReadEnd, Reads};
use mkv_schema::ids::CLUSTER;

/// Advances `walk` by the Element of level 1 at its place in `src`: enters a Cluster, skips another Element, or finds
/// damage or the end. Returns None if neither damage nor the end was found. `turn` calls it outside of Clusters.
pub fn turn_at_level_1<R: Reads>(walk: &mut Walk, src: &mut R) -> Result<Option<Step>, ReadEnd>
    requires ready { IsReady (live_files R.Reads src.old) walk.old }
    requires outside { walk.old.place.cluster ≡ None }
    ensures gives { IfTold R.Reads src.old walk.old.file (λ bytes. TurnsForAll bytes walk.old walk.new result) }
    ensures takes { (takes : BlockFilter) → TakesTurn takes walk.old walk.new result }
    ensures ready { IsReady (live_files R.Reads src.new) walk.new }
    ensures standing { R.standing src.new ≡ R.standing src.old }
    ensures cause { HasCause is_read_fault (R.reading_faults src.old) (R.reading_faults src.new) result }
    ensures pays { PaysFor R.Reads src.old src.new walk.old walk.new result }
{
    if walk.place.at >= walk.place.end {
        return Ok(Some(Step::End));
    }
    let end = walk.place.end;
    let found = walk.element(src, Parent::Segment, end)?;
    if ends_segment(walk.place.size, id_of(&found)) {
        walk.place = walk.place.outside(end);
        return Ok(Some(Step::End));
    }
    match found {
        Ok(header) => {
            if header.id == CLUSTER {
                let total = src.size(walk.file);
                walk.place = walk.place.entered(&header, total);
                return Ok(None);
            }
            walk.place = walk.place.behind(&header);
            Ok(None)
        }
        Err(damage) => {
            walk.stop();
            Ok(Some(Step::Damaged(damage)))
        }
    }
}
