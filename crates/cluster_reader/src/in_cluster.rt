//! Children of a Cluster, one turn at a time: RFC 9559, section 5.1.3 (Cluster).

ghost use Rattle.std.specs.Prelude.{◌≡◌, ◌≤◌, ◌<◌, Some, Ok, false};
ghost use Rattle.mkv_io.specs.Faults.{HasCause, is_read_fault};
ghost use Rattle.mkv_io.specs.Sources.{IfTold, live_files};
ghost use Rattle.mkv_schema.specs.Element.{element_at, in_master, is_unknown, stated_end};
ghost use Rattle.cluster_reader.specs.Left.{ends_children};
ghost use Rattle.cluster_reader.specs.Walks.{IsReady, PaysFor, StandsInCluster, TakesTurn, Turns};

use crate::child::read_child;
use crate::filter::BlockFilter;
use crate::place::OpenCluster;
use crate::step::Step;
use crate::turn::Child;
use crate::walk::Walk;
use elements::{Parent, ends_cluster, id_of};
use mkv_io::{ReadEnd, Reads};
use mkv_schema::Header;

// Checks whether an Element with the ID `id` ends the children of a Cluster. Only a Cluster of unknown size (`unknown`)
// ends this way, at an Element of level 1 or 0. Used by `turn_in_cluster`.
fn ends_children(unknown: bool, id: u32) -> bool
    ensures { result ≡ ends_children unknown id }
{
    unknown && ends_cluster(id)
}

/// Advances `walk` by the Element at its place in `cluster` in `src`: reads a child, leaves the Cluster, or finds
/// damage. `takes` chooses the blocks that are read whole. Returns None unless a block or damage was found. `turn`
/// calls it inside of Clusters.
pub fn turn_in_cluster<R: Reads>(
    walk: &mut Walk,
    src: &mut R,
    cluster: OpenCluster,
    takes: BlockFilter,
) -> Result<Option<Step>, ReadEnd>
    requires ready { IsReady (live_files R.Reads src.old) walk.old }
    requires inside { walk.old.place.cluster ≡ Some cluster }
    ensures gives { IfTold R.Reads src.old walk.old.file (λ bytes. Turns takes bytes walk.old walk.new result) }
    ensures takes { TakesTurn takes walk.old walk.new result }
    ensures ready { IsReady (live_files R.Reads src.new) walk.new }
    ensures standing { R.standing src.new ≡ R.standing src.old }
    ensures cause { HasCause is_read_fault (R.reading_faults src.old) (R.reading_faults src.new) result }
    ensures pays { PaysFor R.Reads src.old src.new walk.old walk.new result }
{
    let at = walk.place.at;
    if at >= cluster.end {
        walk.place = walk.place.outside(cluster.end);
        return Ok(None);
    }
    let found = walk.element(src, Parent::Master, cluster.end)?;
    if ends_children(cluster.unknown, id_of(&found)) {
        walk.place = walk.place.outside(at);
        return Ok(None);
    }
    match found {
        Ok(header) => turn_child(walk, src, cluster, &header, takes),
        Err(damage) => {
            walk.break_off(&cluster);
            Ok(Some(Step::Damaged(damage)))
        }
    }
}

// Advances `walk` by the child of `cluster` with the header `header`. `takes` chooses the blocks that are read whole.
// Returns None for a child that isn't a block. Used by `turn_in_cluster`.
fn turn_child<R: Reads>(
    walk: &mut Walk,
    src: &mut R,
    cluster: OpenCluster,
    header: &Header,
    takes: BlockFilter,
) -> Result<Option<Step>, ReadEnd>
    requires ready { IsReady (live_files R.Reads src.old) walk.old }
    requires inside { walk.old.place.cluster ≡ Some cluster }
    requires later { walk.old.place.at < header.now.body }
    requires whole { is_unknown header.now.size ≡ false }
    requires within { stated_end header.now ≤ cluster.end }
    requires found { StandsInCluster R.Reads src.old walk.old cluster.end header.now }
    requires goes { ends_children cluster.unknown header.now.id ≡ false }
    ensures gives { IfTold R.Reads src.old walk.old.file (λ bytes. Turns takes bytes walk.old walk.new result) }
    ensures takes { TakesTurn takes walk.old walk.new result }
    ensures ready { IsReady (live_files R.Reads src.new) walk.new }
    ensures standing { R.standing src.new ≡ R.standing src.old }
    ensures cause { HasCause is_read_fault (R.reading_faults src.old) (R.reading_faults src.new) result }
    ensures pays { PaysFor R.Reads src.old src.new walk.old walk.new result }
{
    let child = match read_child(walk, src, cluster.timestamp, header, takes) {
        Ok(child) => child,
        Err(end) => {
            walk.window.forget();
            return Err(end);
        }
    };
    match child {
        Child::Passed(timestamp) => {
            walk.place = walk.place.passed(cluster, header, timestamp);
            Ok(None)
        }
        Child::Block => {
            walk.place = walk.place.passed(cluster, header, cluster.timestamp);
            Ok(Some(Step::Block))
        }
        Child::Damaged(damage) => {
            walk.break_off(&cluster);
            Ok(Some(Step::Damaged(damage)))
        }
    }
}
