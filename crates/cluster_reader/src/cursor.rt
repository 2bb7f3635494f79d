//! Reader of a file's blocks

ghost use Rattle.std.specs.Prelude.{◌≡◌, ◌≤◌, ◌⊎◌, true, ℕ, List, [], length, sum, IfOk};
ghost use Rattle.mkv_io.specs.Faults.{HasCause, is_read_fault};
ghost use Rattle.mkv_io.specs.LiveFiles.{LiveFiles};
ghost use Rattle.mkv_io.specs.Sources.{IfTold, live_files};
ghost use Rattle.std.specs.List.{All};
ghost use Rattle.lacing.specs.Writing.{FitsKind};
ghost use Rattle.block_reader.specs.Lendable.{HasSmallTimes};
ghost use Rattle.block_reader.specs.Time.{IsSmallTime};
ghost use Rattle.block_format.specs.Elements.{with_limits};
ghost use Rattle.block_format.specs.Events.{events_of};
ghost use Rattle.cluster_reader.specs.Reading.{Begins, CanRead, CanReadWhereLive, Counts, Gives, GivesWanted, HasAllLeft, Moves, MovesWanted, SpendsIn, left_of, with_given};
ghost use Rattle.block_format.specs.declared.limits.TheConstants.{MAX_REFERENCES};

use crate::filter::BlockFilter;
use crate::next_step::next_step;
use crate::place::Place;
use crate::step::Step;
use crate::walk::Walk;
use block_reader::{BlockBuffer, BlockHead, MAX_BLOCK_LEN};
use elements::{HasSegment, Window};
use mkv_io::{FileId, ReadEnd, Reads};
use std::alloc::{AllocError, Global};
use std::marker::Model;

/// Iterator over the blocks and damaged places of a file in file order, which keeps one block
#[derive(Drop)]
pub struct Cursor {
    walk: Walk,
    blocks: u64,
    damages: u64,
}

impl Model for Cursor {
    ghost use Rattle.std.specs.Prelude.{◌≤◌};
    ghost use Rattle.cluster_reader.specs.Places.{IsPlace};
    ghost use Rattle.cluster_reader.specs.Reading.{Reading};

    ghost Value = { Reading };

    ghost view = { λ c. record {
      file = c.walk.file;
      scale = c.walk.scale;
      place = c.walk.place;
      ahead = c.walk.window;
      block = c.walk.block;
      blocks = c.blocks;
      damages = c.damages;
      stopped = c.walk.stopped;
    } };

    ghost invariant = { λ c. (1 ≤ c.walk.scale) × IsPlace c.walk.place };
}

impl Cursor {
    /// Returns a cursor at the first Cluster of the open file `file`, which has the outline `outline`. A tick has
    /// `scale` nanoseconds. `merge`, `extract` and `reindex` read a file's blocks with it.
    pub fn start<O: HasSegment>(
        alloc: Global,
        outline: &O,
        file: FileId,
        scale: u64,
    ) -> Result<Cursor, AllocError>
        requires { 1 ≤ scale }
        ensures begins { IfOk result (Begins file scale (O.segment outline.now) (O.total outline.now)) }
        ensures left { HasAllLeft scale (O.segment outline.now) (O.total outline.now) result }

        // `advance` may be called if the file is live and has the outline's length.
        ensures stands { CanReadWhereLive file (O.total outline.now) result }
    {
        let walk = Walk {
            window: Window::new(alloc)?,
            file,
            scale,
            place: Place::first(&outline.segment(), outline.total()),
            block: BlockBuffer::new(alloc),
            stopped: false,
        };
        Ok(Cursor {
            walk,
            blocks: 0,
            damages: 0,
        })
    }

    /// Reads the next block or damaged place of the file, with all frames. Returns `End` after the last one, at each
    /// call. After an error the same block is due. Used by test programs; the commands call `advance_for`.
    pub fn advance<R: Reads>(&mut self, src: &mut R) -> Result<Step, ReadEnd>
        requires { CanRead (live_files R.Reads src.old) self.old }
        ensures gives { IfTold R.Reads src.old self.old.file (λ bytes. Gives bytes self.old self.new result) }
        ensures counts { Counts self.old self.new result }

        // The cursor stays in the same file and ready for the next call.
        ensures moves { Moves self.old self.new result }
        ensures stands { CanRead (live_files R.Reads src.new) self.new }
        ensures standing { R.standing src.new ≡ R.standing src.old }
        ensures cause { HasCause is_read_fault (R.reading_faults src.old) (R.reading_faults src.new) result }

        // No byte is read twice, except bytes that a failed call has read.
        ensures spends { SpendsIn R.Reads src.old src.new self.old self.new result }
    {
        let step = next_step(&mut self.walk, src, BlockFilter::All)?;
        self.count(step);
        Ok(step)
    }

    /// Reads the next block or damaged place of the file, as `advance`, but the frames of blocks that the filter
    /// `takes` doesn't want may stay unread. `merge` wants one track, `reindex` none.
    pub fn advance_for<R: Reads>(
        &mut self,
        src: &mut R,
        takes: BlockFilter,
    ) -> Result<Step, ReadEnd>
        requires { CanRead (live_files R.Reads src.old) self.old }
        ensures gives { IfTold R.Reads src.old self.old.file (λ bytes. GivesWanted takes bytes self.old self.new result) }
        ensures counts { Counts self.old self.new result }
        ensures moves { MovesWanted takes self.old self.new result }
        ensures stands { CanRead (live_files R.Reads src.new) self.new }
        ensures standing { R.standing src.new ≡ R.standing src.old }
        ensures cause { HasCause is_read_fault (R.reading_faults src.old) (R.reading_faults src.new) result }
        ensures spends { SpendsIn R.Reads src.old src.new self.old self.new result }
    {
        let step = next_step(&mut self.walk, src, takes)?;
        self.count(step);
        Ok(step)
    }

    // Adds the block or damaged place in `step` to the cursor's counts. Used by `advance` and `advance_for`.
    fn count(&mut self, step: Step)
        ensures { self.new ≡ with_given step self.old }
    {
        match step {
            Step::Block => self.blocks = self.blocks.saturating_add(1),
            Step::Damaged(_) => self.damages = self.damages.saturating_add(1),
            Step::End => {}
        }
    }

    /// Returns the head of the last block that the cursor read or skipped. Used by all readers of blocks.
    pub fn head(&self) -> &BlockHead
        ensures exact { result.now ≡ self.now.block.head }
        ensures small { HasSmallTimes result.now }
    {
        self.walk.block.head()
    }

    /// Returns the number of frames of the last block, even if the frames weren't read. Used by all readers of blocks.
    pub fn frames(&self) -> u16
        ensures exact { result ≡ self.now.block.frames }
        ensures most { result ≤ 256 }
    {
        self.walk.block.frames()
    }

    /// Returns the bytes of the frames of the last block, in sequence; they are empty if the frames weren't read.
    /// `merge` and `extract` copy them.
    pub fn body(&self) -> &[u8]
        ensures exact { result.now ≡ self.now.block.body }
        ensures cut { sum self.now.block.sizes ≡ length result.now }
        ensures most { length result.now ≤ MAX_BLOCK_LEN }
    {
        self.walk.block.body()
    }

    /// Returns the size of each frame of the last block in bytes; the slice is empty if no block is available. `merge`
    /// and `extract` cut the frames by it.
    pub fn sizes(&self) -> &[u32]
        ensures exact { result.now ≡ self.now.block.sizes }
        ensures sum { sum result.now ≡ length self.now.block.body }
        ensures most { length result.now ≤ 256 }
        ensures fits { (result.now ≡ []) ⊎ FitsKind self.now.block.head.lace result.now }
    {
        self.walk.block.sizes()
    }

    /// Returns the bytes of the kept children of the last block, if it is a BlockGroup, in file order. `merge` copies
    /// them unchanged.
    pub fn extra(&self) -> &[u8]
        ensures exact { result.now ≡ self.now.block.kept }
        ensures most { length result.now ≤ MAX_BLOCK_LEN }
    {
        self.walk.block.kept()
    }

    /// Returns the times of the blocks that the last block references, relative to its own, in nanoseconds. `merge`
    /// writes them as ReferenceBlocks.
    pub fn refs(&self) -> &[i64]
        ensures exact { result.now ≡ self.now.block.references }
        ensures small { All IsSmallTime result.now }
        ensures most { length result.now ≤ MAX_REFERENCES }
    {
        self.walk.block.references()
    }

    /// Returns the number of damaged places that the cursor found in the file up to now.
    pub fn damages(&self) -> u64
        ensures { result ≡ self.now.damages }
    {
        self.damages
    }

    /// Checks whether the last damaged place ended the reading of the file, so that its later blocks are lost. `merge`
    /// then by default also leaves out the files that are appended to it.
    pub fn stopped(&self) -> bool
        ensures { result ≡ self.now.stopped }
    {
        self.walk.stopped
    }
}
