//! Buffer for one Cluster that is being filled

ghost use Rattle.std.specs.Prelude.{◌≡◌, ◌^◌, ◌≤◌, Some, None, OnOk, IfOk, length};
ghost use Rattle.std.specs.Borrow.{sem};
ghost use Rattle.output_model.specs.Element.{octets_of};
ghost use Rattle.output_model.specs.Cluster.{OutputCluster, cluster_element, timestamp_element};
ghost use Rattle.cluster_writer.specs.Lent.{AreLengths, block_of, lent, lent_of};
ghost use Rattle.cluster_writer.specs.Gathered.{AddsBlock, AddsLent, AreFew, CanPut, Holds, HoldsLent, HoldsNext, HoldsSame, HoldsSmall, TellsJoining, cluster_with, has_place, is_empty, place_in, timestamp_for};
ghost use Rattle.cluster_writer.specs.Staying.{StaysAsItIs};

use crate::block::add_element;
use crate::front::{FRONT, put_front, timestamp_len};
use crate::joining::may_have;
use crate::lent::{BlockLengths, BlockRef};
use output_model::{ClusterLimits, OutHead};
use std::alloc::{AllocError, Global};
use std::marker::Model;

/// One Cluster, filled block by block; its memory is reused for the next one
#[derive(Drop)]
pub struct ClusterBuf {
    limits: ClusterLimits,
    timestamp: Option<u64>,
    // length in bytes of the Timestamp, if there is one
    timestamp_len: u64,
    count: u32,
    // first the room for the Cluster's header and Timestamp, then the blocks
    octets: Vec<u8>,
}

impl Model for ClusterBuf {
    ghost use Rattle.std.specs.Prelude.{◌-◌, drop, vec_len};
    ghost use Rattle.std.specs.Vec.{vec_capacity};
    ghost use Rattle.cluster_writer.specs.declared.front.TheConstants.{FRONT};
    ghost use Rattle.cluster_writer.specs.Gathered.{Gathered};

    ghost Value = { Gathered };

    ghost use Rattle.cluster_writer.specs.Buffer.{IsFronted};

    ghost view = { λ b. record {
      limits = b.limits;
      timestamp = b.timestamp;
      count = b.count;
      elements = drop FRONT b.octets.items;
      spare = vec_capacity b.octets - vec_len b.octets;
    } };

    ghost invariant = { λ b. IsFronted b };
}

impl ClusterBuf {
    /// Returns a buffer without a block, for Clusters within `limits`. `merge` makes one for each output. Fails if
    /// memory runs out.
    pub fn new(alloc: Global, limits: ClusterLimits) -> Result<ClusterBuf, AllocError>
        ensures empty { IfOk result (Holds None) }
        ensures limits { IfOk result (λ b. b.limits ≡ limits) }
    {
        let mut octets = Vec::new(alloc);
        octets.resize(FRONT, 0)?;
        Ok(ClusterBuf {
            limits,
            timestamp: None,
            timestamp_len: 0,
            count: 0,
            octets,
        })
    }

    /// Checks whether a block at the tick `tick`, whose Element has `len` bytes, may join the Cluster in the buffer. A
    /// first block always may. If not, `merge` writes the Cluster to its file before it puts the block.
    pub fn fits(&self, tick: u64, len: u64) -> bool
        ensures exact { result ≡ has_place self.now tick len }
        ensures joins { TellsJoining self.now tick len result }
    {
        match self.timestamp {
            None => true,
            Some(timestamp) => may_have(
                self.limits,
                timestamp,
                self.count,
                tick,
                self.place(tick),
                len,
            ),
        }
    }

    /// Reserves memory for the Element of the next block, of `len` bytes, so that it is added without allocating.
    /// `merge` calls it before it puts a block.
    pub fn reserve(&mut self, len: u64) -> Result<(), AllocError>
        ensures ok { OnOk result (len ≤ self.new.spare) }
        ensures same { self.new ≡ record self.old { spare = self.new.spare } }
        ensures holds { HoldsSame self.old self.new }
    {
        self.octets.reserve(len as usize)
    }

    /// Appends a block that fits to the Cluster, of the output track number `lane`, counted from 1, at the tick `tick`
    /// of its part. It has the head `head`, and frames with the bytes `body` and the sizes `sizes` in bytes, each after
    /// `prefix`. Its references `refs` are in ticks from the block, and `extra` has the bytes of kept children. Returns
    /// the offset of its Element in the Cluster's content, for its cue point. Allocates no memory. It is for callers
    /// that have the parts of a block; `put_block` takes a `BlockRef`.
    pub fn put(
        &mut self,
        lane: u8,
        tick: u64,
        head: &OutHead,
        prefix: &[u8],
        body: &[u8],
        sizes: &[u32],
        refs: &[i64],
        extra: &[u8],
    ) -> u64
        requires { CanPut self.old lane tick (lent head.now prefix.now body.now sizes.now refs.now extra.now) }
        ensures added { AddsLent lane tick head.now prefix.now body.now sizes.now refs.now extra.now self.old self.new }
        ensures holds { HoldsLent lane tick head.now prefix.now body.now sizes.now refs.now extra.now self.old self.new }
        ensures place { result ≡ place_in self.old tick }
        ensures most { HoldsSmall self.new }
    {
        self.put_block(&BlockRef {
            lane,
            tick,
            head,
            prefix,
            body,
            sizes,
            references: refs,
            kept: extra,
        })
    }

    /// Appends `block`, which fits, to the Cluster, and returns the offset of its Element in the Cluster's content, for
    /// its cue point. Measures the block first; `put_measured` takes lengths that are known. Allocates no memory. For
    /// callers that haven't measured it.
    pub fn put_block(&mut self, block: &BlockRef<'_>) -> u64
        requires { CanPut self.old block.now.lane block.now.tick (lent_of block.now) }
        ensures added { AddsBlock (block_of block.now) self.old self.new }
        ensures holds { HoldsNext (block_of block.now) self.old self.new }
        ensures place { result ≡ place_in self.old block.now.tick }
        ensures most { HoldsSmall self.new }
    {
        self.put_measured(block, block.lengths())
    }

    /// Appends `block`, which fits and whose lengths are `lengths`, to the Cluster. Returns the offset of its Element
    /// in the Cluster's content, for its cue point. Allocates no memory. `merge` puts each block into its output so.
    pub fn put_measured(&mut self, block: &BlockRef<'_>, lengths: BlockLengths) -> u64
        requires can { CanPut self.old block.now.lane block.now.tick (lent_of block.now) }
        requires lengths { AreLengths block.now lengths }
        ensures added { AddsBlock (block_of block.now) self.old self.new }
        ensures holds { HoldsNext (block_of block.now) self.old self.new }
        ensures place { result ≡ place_in self.old block.now.tick }
        ensures most { HoldsSmall self.new }
    {
        let timestamp = self.timestamp.unwrap_or(block.tick);
        let place = self.place(block.tick);
        self.timestamp_len = self.timestamp_len_at(block.tick);
        add_element(&mut self.octets, timestamp, block, lengths);
        self.timestamp = Some(timestamp);
        self.count += 1;
        place
    }

    /// Removes all blocks for the next Cluster, without freeing memory. `merge` calls it when it has written the
    /// Cluster to its file.
    pub fn clear(&mut self)
        ensures empty { Holds None self.new }
        ensures limits { self.new.limits ≡ self.old.limits }
        ensures spare { self.old.spare ≤ self.new.spare }
    {
        self.octets.truncate(FRONT);
        self.timestamp = None;
        self.count = 0;
    }

    /// Checks whether the buffer has no block. `merge` asks it before it puts a block, to count Clusters.
    pub fn is_empty(&self) -> bool
        ensures { result ≡ is_empty self.now }
    {
        self.timestamp.is_none()
    }

    /// Returns the bytes of the Cluster, or none without a block, which `merge` writes to its file. Writes the
    /// Cluster's header and Timestamp before the blocks in the buffer for this.
    pub fn octets(&mut self) -> &[u8]
        ensures* stays { sem 𝓛 (StaysAsItIs self.entry) }
        ensures exact { result.now ≡ cluster_with self.old.timestamp self.old.elements }
        ensures cluster { (c : OutputCluster) → Holds (Some c) self.old → result.now ≡ octets_of (cluster_element c) }
        ensures most { AreFew self.old.count result.now }
    {
        let start = put_front(&mut self.octets, self.timestamp);
        &self.octets[start..]
    }

    // Returns the length in bytes of the Cluster's Timestamp Element after a block at the tick `tick` is added: a first
    // block sets the Timestamp. For `place` and `put_measured`, while `merge` fills a Cluster.
    fn timestamp_len_at(&self, tick: u64) -> u64
        ensures exact { result ≡ length (octets_of (timestamp_element (timestamp_for self.now tick))) }
        ensures most { result ≤ 24 }
    {
        match self.timestamp {
            Some(_) => self.timestamp_len,
            None => timestamp_len(tick),
        }
    }

    // Returns the length in bytes of the Cluster's content before the next block, which is at the tick `tick`: the
    // offset of that block. For `fits` and `put_measured`, while `merge` fills a Cluster.
    fn place(&self, tick: u64) -> u64
        ensures exact { result ≡ place_in self.now tick }
        ensures most { result ≤ 2 ^ 40 }
    {
        self.timestamp_len_at(tick) + (self.octets.len() - FRONT) as u64
    }
}
