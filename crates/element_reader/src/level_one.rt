//! An iterator over the Elements at level 1: RFC 9559, section 5.1 (Segment Element).

ghost use Rattle.std.specs.Prelude.{◌≡◌, ℕ, ◌≤◌, List, length, IfOk, OnErr};
ghost use Rattle.mkv_io.specs.Faults.{HasCause, is_failure};
ghost use Rattle.mkv_io.specs.Sources.{IfRead, IfTold, OnlyReads, live_files};
ghost use Rattle.mkv_schema.specs.Outline.{segment_run};
ghost use Rattle.elements.specs.Window.{nothing_at};
ghost use Rattle.element_reader.specs.LevelOne.{CanRead, GivesNext, GoesAlong, GoesOn, HasAllElementsLeft, StandsOn, first_place, left};

use crate::level::segment_bound;
use crate::outline::Outline;
use ebml_numbers::Size;
use elements::{Level1Step, SmallWindow, next_of_segment};
use mkv_io::{Failed, FileId, Reads};
use mkv_schema::Header;
use std::marker::Model;

/// Iterator over the Elements at level 1 of a Segment, Clusters included, in the order of the file. It takes no memory.
#[derive(Drop)]
pub struct LevelOne {
    window: SmallWindow,
    file: FileId,
    size: Size,
    at: u64,
    end: u64,
}

impl Model for LevelOne {
    ghost use Rattle.std.specs.Prelude.{◌≤◌};
    ghost use Rattle.element_reader.specs.LevelOne.{Listing};

    ghost Value = { Listing };

    ghost view = { λ l. record { file = l.file; size = l.size; at = l.at; end = l.end; ahead = l.window } };

    ghost invariant = { λ l. l.at ≤ l.end };
}

impl LevelOne {
    /// Returns an iterator over the Elements at level 1 of `file`, which has the outline `outline`. `reindex` finds the
    /// Clusters with it.
    pub fn start(outline: &Outline, file: FileId) -> LevelOne
        ensures place { result ≡ first_place outline.now.segment outline.now.total file }
        ensures left { HasAllElementsLeft outline.now result }
    {
        LevelOne::over(&outline.segment(), outline.total(), file)
    }

    // Returns an iterator over the Elements of `segment` in `file`, which has `total` bytes. Used by `start`.
    fn over(segment: &Header, total: u64, file: FileId) -> LevelOne
        requires { segment.now.body ≤ total }
        ensures place { result ≡ first_place segment.now total file }
        ensures left { (bytes : List ℕ) → total ≡ length bytes → left bytes result ≡ (segment_run bytes segment.now).list }
    {
        LevelOne {
            window: SmallWindow::new(),
            file,
            size: segment.size,
            at: segment.body,
            end: segment_bound(segment, total),
        }
    }

    /// Returns the header of the next Element, or None at the Segment's end or at damage, and None again after that.
    /// After `Failed` nothing is buffered, and the next call looks for the same Element again. `reindex` goes on to the
    /// next Cluster so.
    pub fn next<R: Reads>(&mut self, src: &mut R) -> Result<Option<Header>, Failed>
        requires { CanRead (live_files R.Reads src.old) self.old }
        ensures ok { IfRead R.Reads src.old self.old.file result (λ found bytes. GivesNext bytes self.old self.new found) }
        ensures place { IfOk result (λ found. GoesOn found self.old.at self.new.at) }
        ensures err { OnErr result (self.new ≡ record self.old { ahead = nothing_at 0 }) }
        ensures stands { StandsOn (live_files R.Reads src.new) self.old self.new }
        ensures same { OnlyReads R.Reads src.old src.new }
        ensures cause { HasCause is_failure (R.reading_faults src.old) (R.reading_faults src.new) result }
        ensures goes { GoesAlong R.Reads self.old self.new src.old src.new result }
    {
        let window = &mut self.window;
        let Ok(step) = next_of_segment(window, src, self.file, self.size, self.at, self.end) else {
            self.window.forget();
            return Err(Failed);
        };
        match step {
            Level1Step::Element { header, next } => {
                self.at = next.unwrap_or(self.end);
                Ok(Some(header))
            }
            Level1Step::Damaged(_) | Level1Step::End => Ok(None),
        }
    }
}
