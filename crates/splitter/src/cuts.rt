//! State of cutting a merged list into parts at times, block by block

ghost use Rattle.std.specs.Prelude.{◌≡◌, ◌&&◌, ℕ};
ghost use Rattle.splitter.specs.Steps.{is_kept, is_over_at, new_cuts, place_of, stepped};

use crate::spec::SplitSpec;
use output_model::OutHead;
use std::marker::Model;

/// Place of a block of a merged list, as the parts of the output are cut
#[derive(Clone, Copy, Debug, PartialEq, Eq)]
pub enum Place {
    /// In the same part as the previous block
    Same,
    /// First block of a new part, which starts at the tick `start` of the whole output
    Next { start: u64 },
    /// In no part: the section isn't written
    Out,
}

/// State of cutting a merged list into parts at times, block by block; `PartCuts` also cuts by size
#[derive(Drop)]
pub struct Cuts {
    spec: SplitSpec,
    scale: u64,
    // tick at the start of the last block's section; none before the first block
    start: Option<u64>,
    // time at the end of that section, and whether it is written
    end: Option<u128>,
    kept: bool,
}

impl Model for Cuts {
    ghost use Rattle.std.specs.Prelude.{None};
    ghost use Rattle.splitter.specs.Steps.{CutsSeen};
    ghost use Rattle.splitter.specs.Set.{IsSet};

    ghost Value = { CutsSeen };

    ghost view = { λ c. record { spec = c.spec; size = None; scale = c.scale; start = c.start; load = 0 } };

    ghost invariant = { λ c. IsSet c };
}

impl Cuts {
    /// Returns the state before the first block, for the cuts of `spec` and an output with `scale` nanoseconds per
    /// tick. Allocates no memory. `PartCuts` makes one for a merge whose parts end at times.
    pub fn new(spec: SplitSpec, scale: u64) -> Cuts
        ensures { result ≡ new_cuts spec None scale }
    {
        let end = spec.end_behind(0);
        let kept = spec.keeps(0);
        Cuts {
            spec,
            scale,
            start: None,
            end,
            kept,
        }
    }

    /// Checks whether the section with the last block is written. Before the first block this is the section at tick 0,
    /// which is a part without blocks if the output has no block. `merge` asks it if there is no block at all.
    pub fn is_kept(&self) -> bool
        ensures { result ≡ is_kept self.now }
    {
        self.kept
    }

    // Starts a section at the tick `start` of the whole output: a run of blocks up to the next cut. For `assign`, when
    // `merge` cuts its output.
    fn begin(&mut self, start: u64)
        ensures { self.new ≡ record self.old { start = Some start } }
    {
        let time = u128::from(start) * u128::from(self.scale);
        self.end = self.spec.end_behind(time);
        self.kept = self.spec.keeps(time);
        self.start = Some(start);
    }

    // Checks whether the section with the last block is over at the tick `tick`. The next keyframe that allows a cut
    // then begins a new one. For `assign`, when `merge` cuts its output.
    fn is_over(&self, tick: u64) -> bool
        ensures { result ≡ is_over_at self.now tick }
    {
        let time = u128::from(tick) * u128::from(self.scale);
        self.end.is_some_and(|end| end <= time)
    }

    /// Returns the place of the next block of a merged list, whose head is `head`. `drives` is true if keyframes of its
    /// output track allow a cut. Allocates no memory. `merge` calls it for each block that it has read.
    pub fn assign(&mut self, head: &OutHead, drives: bool) -> Place
        ensures place { result ≡ place_of self.old (head.now.key && drives) head.now.tick }
        ensures steps { (len : ℕ) → self.new ≡ stepped self.old (head.now.key && drives) head.now.tick len }
    {
        let cut = head.key && drives && self.is_over(head.tick);
        let first = self.start.is_none();
        if cut {
            self.begin(head.tick);
        } else if first {
            self.begin(0);
        }
        match self.start {
            Some(start) if self.kept && (cut || first) => Place::Next { start },
            _ if self.kept => Place::Same,
            _ => Place::Out,
        }
    }
}
