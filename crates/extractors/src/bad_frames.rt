//! The report of frames in a block that can't be written in the form of their codec, such as a damaged H.264 frame.

ghost use Rattle.std.specs.Prelude.{◌≡◌, replicate};
ghost use Rattle.block_reader.specs.Buffered.{block_of};
ghost use Rattle.extractors.specs.BadFrames.{TellsMore, bad_frame};

use cluster_reader::{Cursor, Damages};
use mkv_io::{Damage, Kind};
use mkv_schema::ids::{BLOCK, SIMPLE_BLOCK};

/// Adds a damaged place to `bad` for each of the `count` frames of the cursor's block that couldn't be written in the
/// form of their codec, after `extract` wrote the block. Used by `take_block`.
pub fn add_bad_frames(count: u64, cursor: &Cursor, bad: &mut Damages)
    ensures { TellsMore bad.old bad.new (replicate count (bad_frame (block_of cursor.now.block))) }
{
    for _ in 0..count {
        bad.add(bad_frame(cursor));
    }
}

/// Returns the damaged place that is reported for a bad frame at `cursor`: kind BadFrame, with the ID and file offset
/// of the cursor's block. Used by `add_bad_frames`.
fn bad_frame(cursor: &Cursor) -> Damage
    ensures { result ≡ bad_frame (block_of cursor.now.block) }
{
    let head = cursor.head();
    Damage {
        kind: Kind::BadFrame,
        id: if head.group { BLOCK } else { SIMPLE_BLOCK },
        offset: head.offset,
    }
}
