//! Blocks of a part that are written to an output, in sequence

ghost use Rattle.std.specs.Prelude.{◌≡◌, ◌+◌, ◌<◌, ◌≤◌, OnOk};
ghost use Rattle.std.specs.List.{slice_get};
ghost use Rattle.std.specs.Option.{unwrap_or};
ghost use Rattle.mkv_io.specs.Ends.{HasRemuxCause};
ghost use Rattle.output_model.specs.declared.TheConstants.{MAX_LANES};
ghost use Rattle.output_model.specs.OutputBlock.{IsLent, lent_block};
ghost use Rattle.merge_model.specs.Merged.{in_lane};
ghost use Rattle.lanes.specs.Lane.{lent};
ghost use Rattle.splitter.specs.Sections.{in_part};
ghost use Rattle.cluster_writer.specs.Lent.{CanBePut, block_of};
ghost use Rattle.output_model.specs.Cued.{is_cue_by};
ghost use Rattle.output_model.specs.Duration.{end_of_block};
ghost use Rattle.output_model.specs.declared.rule.CueRule.TheVariants as cue_rule;

use crate::counts::Counts;
use crate::placed::PlacedBlocks;
use crate::run::add_block;
use cluster_writer::{BlockRef, ClusterBuf};
use cues_seekhead::OutFile;
use lanes::Lane;
use mkv_io::{Files, Reads, RemuxEnd as OutEnd};
use output_model::{CueRule, Durations};

// Checks whether a block of the output track `k`, counted from 0, gets a cue point by the track's rule in `rules`.
// `key` is true for a keyframe. Without a rule it gets none. For `add_lent`, while `merge` writes an output.
fn is_cued(rules: &[CueRule], k: usize, key: bool) -> bool
    ensures { result ≡ is_cue_by (unwrap_or (slice_get rules.now k) cue_rule.Never) key }
{
    match rules.get(k) {
        Some(rule) => rule.takes(key),
        None => false,
    }
}

// Returns the last block of `lane`, the output track `k`, counted from 0, as it is written to a part that starts at the
// tick `start`. In the output, track numbers count from 1. Borrows the block for `add_lent`.
fn lent_by(lane: &Lane, k: usize, start: u64) -> BlockRef<'_>
    requires lent { IsLent (lent lane.now) }
    requires number { k < MAX_LANES }
    ensures block { block_of result ≡ in_part start (in_lane (k + 1) (lent_block (lent lane.now))) }
    ensures can { CanBePut result }
{
    let block = lane.lent();
    BlockRef {
        lane: k as u8 + 1,
        tick: block.head.tick.saturating_sub(start),
        head: block.head,
        prefix: block.prefix,
        body: block.body,
        sizes: block.sizes,
        references: block.references,
        kept: block.kept,
    }
}

// Returns the end of `block` as a tick of its part, by its BlockDuration or the durations of frames in `durations`.
// `add_lent` keeps the greatest one for the Duration.
fn end_of(durations: &Durations, block: &BlockRef<'_>) -> u64
    requires block { CanBePut block.now }
    requires scale { 1 ≤ durations.now.scale }
    ensures { result ≡ end_of_block durations.now (block_of block.now) }
{
    durations.end_at(
        block.lane,
        block.tick,
        block.sizes.len(),
        block.head.duration,
    )
}

/// Output that takes blocks: its file, the Cluster that the next block may join, the number of its blocks, and its
/// counts. It also has the durations of frames on its tracks, and the greatest end of a block in ticks.
#[derive(Drop)]
pub(crate) struct BlockWriter {
    pub(crate) out: OutFile,
    pub(crate) buffer: ClusterBuf,
    pub(crate) blocks: u64,
    pub(crate) counts: Counts,
    pub(crate) durations: Durations,
    pub(crate) end: u64,
}

impl BlockWriter {
    ghost use Rattle.cues_seekhead.specs.OpenOutput.{IsOpen};
    ghost use Rattle.remuxer.specs.Places.{IsPartBegun, lent_in};
    ghost use Rattle.remuxer.specs.Taking.{CanTake, EndsAfter, Goes, IsOver, StaysSmall, TakesLent, TakesMore, TakesPart, WritesInto};

    // Adds to the output the last block of `lane`, the output track `k`, counted from 0. Its part starts at the tick
    // `start`, and `rules` has each output track's rule for cue points. Updates the counts and the end of the output.
    // For `add_part`, while `merge` writes an output.
    fn add_lent<F: Files>(
        &mut self,
        files: &mut F,
        lane: &Lane,
        k: usize,
        rules: &[CueRule],
        start: u64,
    ) -> Result<(), OutEnd>
        requires lent { IsLent (lent lane.now) }
        requires number { k < MAX_LANES }
        requires open { IsOpen F.Reads files.old self.old.out }
        requires scale { 1 ≤ self.old.durations.scale }
        ensures takes { TakesLent F.Reads F.Files.own rules.now start k lane.now files.old files.new self.old self.new result }
        ensures count { TakesMore 1 self.old self.new result }
        ensures end { EndsAfter (lent_in start k lane.now) self.old self.new result }
        ensures writes { WritesInto F.Reads F.Files.own files.old files.new self.old self.new result }
        ensures held { StaysSmall self.old self.new result }
        ensures octets { F.octets_read files.new ≡ F.octets_read files.old }
        ensures cause { HasRemuxCause F.Reads F.Files.own files.old files.new result }
    {
        let block = lent_by(lane, k, start);
        let cued = is_cued(rules, k, block.head.key);
        let begins = add_block(files, &mut self.out, &mut self.buffer, &block, cued)?;
        let end = end_of(&self.durations, &block);
        self.end = self.end.max(end);
        self.blocks = self.blocks.saturating_add(1);
        self.counts.add(begins, cued);
        Ok(())
    }

    /// Adds all blocks that are left of the current part of `blocks` to the output, reading the inputs in `files` as it
    /// goes. `rules` has each output track's rule for cue points. For `fill`, while `merge` writes an output.
    pub(crate) fn add_part<F: Files>(
        &mut self,
        files: &mut F,
        blocks: &mut PlacedBlocks,
        rules: &[CueRule],
    ) -> Result<(), OutEnd>
        requires can { CanTake F.Reads F.Files.own files.old self.old blocks.old }
        requires begun { IsPartBegun blocks.old }
        ensures takes { TakesPart F.Reads F.Files.own rules.now files.old files.new self.old self.new blocks.old blocks.new result }
        ensures writes { WritesInto F.Reads F.Files.own files.old files.new self.old self.new result }
        ensures held { StaysSmall self.old self.new result }
        ensures goes { Goes F.Reads 0 files.old files.new blocks.old blocks.new result }
        ensures over { OnOk result (IsOver blocks.old blocks.new) }
        ensures cause { HasRemuxCause F.Reads F.Files.own files.old files.new result }
    {
        'steps: while let Some(lane) = blocks.lane_within() {
            self.add_lent(files, blocks.merge.lane(lane), lane, rules, blocks.start)?;
            blocks.advance(files)?;
        }
        Ok(())
    }
}
