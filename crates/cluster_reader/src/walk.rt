//! Walk over the elements of a file

ghost use Rattle.std.specs.Prelude.{◌≡◌, ◌≤◌, ◌<◌, true, not, None, IfOk};
ghost use Rattle.mkv_io.specs.Faults.{HasCause, is_read_fault};
ghost use Rattle.mkv_io.specs.Sources.{IfRead, IfTold, live_files};
ghost use Rattle.mkv_schema.specs.Element.{element_at};
ghost use Rattle.elements.specs.Looks.{IsFound};
ghost use Rattle.elements.specs.Parent.{setting_of};
ghost use Rattle.cluster_reader.specs.Places.{behind_damage};
ghost use Rattle.cluster_reader.specs.Walks.{FindsHere, IsReady, PaysFor, broken_off, ended};

use crate::place::{OpenCluster, Place};
use block_reader::BlockBuffer;
use elements::{Lookahead, Parent, Window};
use mkv_io::{Damage, Failed, FileId, ReadEnd, Reads};
use mkv_schema::Header;

/// Walk over the Elements of a Segment and the children of its Clusters, which a cursor makes
#[derive(Drop)]
pub struct Walk {
    /// Bytes of the file that were read ahead
    pub window: Window,
    /// File that is read
    pub file: FileId,
    /// Nanoseconds per tick
    pub scale: u64,
    /// Place of the next element
    pub place: Place,
    /// Block that was read last
    pub block: BlockBuffer,
    /// The last damaged place ended the reading
    pub stopped: bool,
}

impl Walk {
    /// Reads the header of the Element at the place of the walk from `src`; the inner Err is its damage. Its parent is
    /// `parent`, and ends at the offset `end`. Each turn begins with it.
    pub fn element<R: Reads>(
        &mut self,
        src: &mut R,
        parent: Parent,
        end: u64,
    ) -> Result<Result<Header, Damage>, ReadEnd>
        requires ready { IsReady (live_files R.Reads src.old) self.old }
        requires before { self.old.place.at < end }
        requires within { end ≤ self.old.place.end }
        ensures ok { FindsHere R.Reads src.old self.old (setting_of parent) end result }
        ensures found { IfOk result (λ found. IfOk found (IsFound (setting_of parent) self.old.place.at end)) }
        ensures only { self.new ≡ record self.old { window = self.new.window } }
        ensures ready { IsReady (live_files R.Reads src.new) self.new }
        ensures standing { R.standing src.new ≡ R.standing src.old }
        ensures cause { HasCause is_read_fault (R.reading_faults src.old) (R.reading_faults src.new) result }
        ensures pays { PaysFor R.Reads src.old src.new self.old self.new result }
    {
        match self
            .window
            .element(src, self.file, parent, self.place.at, end)
        {
            Ok(found) => Ok(found),
            Err(Failed) => Err(ReadEnd::ReadFault),
        }
    }

    /// Leaves `cluster` after damage in it: moves after the Cluster if it is closed, and otherwise to the end of the
    /// Segment, which ends the reading. Used by `turn_in_cluster` and `turn_child`.
    pub fn break_off(&mut self, cluster: &OpenCluster)
        ensures { self.new ≡ broken_off cluster.now self.old }
    {
        let at = if cluster.closed {
            cluster.end
        } else {
            self.place.end
        };
        self.place = self.place.outside(at);
        self.stopped = !cluster.closed;
    }

    /// Moves to the end of the Segment after damage at level 1: the last damage ends the reading. Used by
    /// `turn_at_level_1`.
    pub fn stop(&mut self)
        ensures { self.new ≡ ended self.old }
    {
        self.place = self.place.outside(self.place.end);
        self.stopped = true;
    }
}
