//! Output track as a part of a merge

ghost use Rattle.std.specs.Prelude.{◌≡◌, true};
ghost use Rattle.mkv_io.specs.Faults.{HasCause, is_read_fault};
ghost use Rattle.mkv_io.specs.Sources.{live_files};
ghost use Rattle.lanes.specs.Lane.{IsReady, PaysFor};
ghost use Rattle.time_merge.specs.Queues.{Fills, KeepsWaiting, StaysQueue, is_due};

use lanes::{Lane, LaneStep};
use mkv_io::{ReadEnd, Reads};

/// State of the next block of an output track in a merge
#[derive(Clone, Copy)]
pub enum Head {
    /// Not read yet
    Due,
    /// Read but not returned, with this order number
    Waits(u64),
    /// No block is left
    Ended,
}

/// Output track in a merge, with the state of its next block
#[derive(Drop)]
pub struct Queue {
    pub lane: Lane,
    pub head: Head,
}

impl Queue {
    /// Reads the next block of the output track, which is due, and returns its order number, or None if no block is
    /// left. `Queues::fill` does this for each output track that is due.
    pub fn fill<R: Reads>(&mut self, src: &mut R) -> Result<Option<u64>, ReadEnd>
        requires ready { IsReady (live_files R.Reads src.old) self.old.lane }
        requires due { is_due self.old ≡ true }
        ensures waiting { KeepsWaiting (live_files R.Reads src.old) self.old self.new }
        ensures fills { Fills self.old self.new result }
        ensures stays { StaysQueue self.old self.new }
        ensures ready { IsReady (live_files R.Reads src.new) self.new.lane }
        ensures standing { R.standing src.new ≡ R.standing src.old }
        ensures cause { HasCause is_read_fault (R.reading_faults src.old) (R.reading_faults src.new) result }
        ensures pays { PaysFor R.Reads src.old src.new self.old.lane self.new.lane result }
    {
        match self.lane.advance(src)? {
            LaneStep::Block => {
                let order = self.lane.head().order;
                self.head = Head::Waits(order);
                Ok(Some(order))
            }
            LaneStep::End => {
                self.head = Head::Ended;
                Ok(None)
            }
        }
    }
}
