//! The blocks of a merge.

ghost use Rattle.mkv_io.specs.Sources.{live_files};
ghost use Rattle.time_merge.specs.Merge.{IsReady};

use lanes::{Lane, LinkDamage};
use mkv_io::Reads;
use std::alloc::{AllocError, Global};
use time_merge::Merge;

/// Block: index of its output track, its tick, the number of bytes of its frames, and the last byte.
pub type Given = (usize, u64, usize, Option<u8>);

/// Blocks of a merge, the first damage of the output track of the last block, and the number of failed calls.
#[derive(Drop)]
pub struct Told {
    pub blocks: Vec<Given>,
    pub damage: Option<LinkDamage>,
    pub faults: u64,
}

/// Returns the current block of `lane`, the output track with the index `k`, as `tell_merge` records it.
fn given(k: usize, lane: &Lane) -> Given {
    let body = lane.lent().body;
    (k, lane.head().tick, body.len(), body.last().copied())
}

/// Returns the blocks of `merge`, which goes on after a call that fails, with the first damage of the last output track
/// and the number of failed calls. The test of failed reads uses it; it stops after 1000 steps.
pub fn tell_merge<R: Reads>(
    alloc: Global,
    merge: &mut Merge,
    src: &mut R,
) -> Result<Told, AllocError>
    requires { IsReady (live_files R.Reads src.old) merge.old }
{
    let mut blocks = Vec::new(alloc);
    let mut damage = None;
    let mut faults: u64 = 0;
    for _ in 0..1000 {
        match merge.step(src) {
            Ok(Some(k)) => {
                let lane = merge.lane(k);
                damage = lane.damage(0);
                blocks.push(given(k, lane))?;
            }
            Ok(None) => break,
            Err(_) => faults = faults.saturating_add(1),
        }
    }
    Ok(Told {
        blocks,
        damage,
        faults,
    })
}
