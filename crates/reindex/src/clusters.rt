//! Search for the Cluster that contains a block: RFC 9559, section 5.1.3 (Cluster Element).

ghost use Rattle.std.specs.Prelude.{◌≡◌, max, IfOk, OnOk};
ghost use Rattle.mkv_io.specs.Faults.{HasCause, is_failure};
ghost use Rattle.mkv_io.specs.Sources.{IfRead, OnlyReads, live_files};
ghost use Rattle.element_reader.specs.LevelOne.{first_place};
ghost use Rattle.reindex.specs.Clusters.{HoldsNext, IsReady, StaysReady, PaysOn, HasReachedIn, LooksAtIn, StandsAtStart, passed};

use element_reader::{Header, LevelOne, Outline};
use mkv_io::{Failed, FileId, Reads};
use mkv_schema::ids::CLUSTER;

/// Walk over the Elements at level 1 of a file, which follows the walk over its blocks and keeps the last Cluster
/// before them.
#[derive(Drop)]
pub struct Clusters {
    pub level: LevelOne,
    /// Last Cluster that was passed.
    pub last: Option<Header>,
    /// Element that was read and isn't passed yet.
    pub next: Option<Header>,
    /// Offset in the file, in bytes, that the walk has reached: it must pass every Cluster before it.
    pub reached: u64,
}

impl Clusters {
    /// Returns a walk that begins at the first Element of `file` at level 1; `outline` is the file's. `read_points` has
    /// it beside its walk over the blocks.
    pub fn start(outline: &Outline, file: FileId) -> Clusters
        ensures place { result.level ≡ first_place outline.now.segment outline.now.total file }
        ensures reached { result.reached ≡ 0 }
        ensures come { StandsAtStart outline.now result }
    {
        Clusters {
            level: LevelOne::start(outline, file),
            last: None,
            next: None,
            reached: 0,
        }
    }

    // Returns the header of the next Element at level 1 without passing it, or None at the end. After `Failed` the next
    // call reads the same Element. Used by `go_to`.
    fn look<R: Reads>(&mut self, src: &mut R) -> Result<Option<Header>, Failed>
        requires { IsReady (live_files R.Reads src.old) self.old }
        ensures exact { IfOk result (LooksAtIn R.Reads src.old self.old self.new) }
        ensures next { IfOk result (HoldsNext self.old self.new) }
        ensures ready { StaysReady (live_files R.Reads src.new) self.old self.new }
        ensures kept { (self.new.last ≡ self.old.last) × (self.new.reached ≡ self.old.reached) }
        ensures same { OnlyReads R.Reads src.old src.new }
        ensures cause { HasCause is_failure (R.reading_faults src.old) (R.reading_faults src.new) result }
        ensures goes { PaysOn R.Reads src.old src.new self.old self.new result }
    {
        if self.next.is_none() {
            self.next = self.level.next(src)?;
        }
        Ok(self.next)
    }

    // Passes the Element with the header `header`, which `look` returned, and keeps it as the last Cluster if it is
    // one. Used by `go_to`.
    fn pass(&mut self, header: Header)
        ensures { self.new ≡ passed header self.old }
    {
        self.next = None;
        if header.id == CLUSTER {
            self.last = Some(header);
        }
    }

    /// Advances the walk to the offset `at` of a block in the file, so that `last` is the last Cluster that begins
    /// before it. It never goes back. After `Failed` the walk may continue. `add_point` calls it for each block that
    /// gets a cue point.
    pub fn go_to<R: Reads>(&mut self, src: &mut R, at: u64) -> Result<(), Failed>
        requires { IsReady (live_files R.Reads src.old) self.old }
        ensures exact { OnOk result (HasReachedIn R.Reads src.old self.old self.new) }
        ensures reached { self.new.reached ≡ max self.old.reached at }
        ensures ready { StaysReady (live_files R.Reads src.new) self.old self.new }
        ensures same { OnlyReads R.Reads src.old src.new }
        ensures cause { HasCause is_failure (R.reading_faults src.old) (R.reading_faults src.new) result }
        ensures goes { PaysOn R.Reads src.old src.new self.old self.new result }
    {
        self.reached = self.reached.max(at);
        'passing: while let Some(header) = self.look(src)? {
            if header.offset >= self.reached {
                break;
            }
            self.pass(header);
        }
        Ok(())
    }
}
