//! Blocks of the two files that `generate` makes: pictures and sounds with bytes that follow a rule.

ghost use Rattle.std.specs.Prelude.{◌≡◌, ◌==◌, ◌+◌, ◌*◌, ◌%◌, ◌<◌, ◌≤◌, ◌^◌, ◌∷◌, [], true};
ghost use Rattle.lacing.specs.declared.kind.Lace.TheVariants as lace_kind;
ghost use Rattle.merge_model.specs.Merged.{in_lane};
ghost use Rattle.output_model.specs.OutputBlock.{IsLent, lent_block};
ghost use Rattle.cluster_writer.specs.Lent.{CanBePut, block_of as block_put};
ghost use Rattle.mkv_generate.specs.Blocks.{block_of, count_of, counting, picture, picture_size, sound};
ghost use Rattle.mkv_generate.specs.Made.{HasParts, IsMade, lent_made, simple_head};

use crate::counting::{MAX_COUNTING, counting};
use arrayvec::ArrayVec;
use cluster_writer::BlockRef;
use lacing::Lace;
use output_model::OutHead;

/// Generated block: its head, the bytes of its frames, and their sizes in bytes.
#[derive(Drop)]
pub(crate) struct Made {
    head: OutHead,
    octets: ArrayVec<u8, MAX_COUNTING>,
    sizes: ArrayVec<u32, 2>,
}

impl Made {
    /// Returns the block by reference, as the Clusters take blocks, on output track 1. `add_one` calls it for each
    /// block.
    pub(crate) fn lent(&self) -> BlockRef<'_>
        requires { IsLent (lent_made self.now) }
        ensures block { block_put result ≡ in_lane 1 (lent_block (lent_made self.now)) }
        ensures can { CanBePut result }
    {
        BlockRef {
            lane: 1,
            tick: self.head.tick,
            head: &self.head,
            prefix: &[],
            body: self.octets.as_slice(),
            sizes: self.sizes.as_slice(),
            references: &[],
            kept: &[],
        }
    }

    /// Checks whether the block is a keyframe, which decides whether it gets a cue point. `add_one` calls it.
    pub(crate) fn is_key(&self) -> bool
        ensures { result ≡ self.now.head.key }
    {
        self.head.key
    }
}

// Returns the head of a SimpleBlock at `time` milliseconds from the start, a keyframe if `key`, with the lacing `lace`;
// a tick of the files is a millisecond. `picture` and `sound` call it.
fn simple_head(time: u32, key: bool, lace: Lace) -> OutHead
    ensures { result ≡ simple_head time key lace }
{
    let tick = time as u64;
    OutHead {
        tick,
        order: tick,
        duration: None,
        key,
        invisible: false,
        discardable: false,
        group: false,
        lace,
    }
}

// Returns a block with the head `head` and one frame: the first `size` bytes of `octets`. `picture` and `sound` call
// it.
fn single(head: OutHead, octets: ArrayVec<u8, MAX_COUNTING>, size: u32) -> Made
    ensures { HasParts head octets.items (size ∷ []) result }
{
    let mut sizes = ArrayVec::new();
    sizes.push(size);
    Made {
        head,
        octets,
        sizes,
    }
}

// Returns a block with the head `head` and a lace of two frames of `first` and `second` bytes, which follow each other
// in `octets`. `sound` calls it for every third block.
fn laced(head: OutHead, octets: ArrayVec<u8, MAX_COUNTING>, first: u32, second: u32) -> Made
    ensures { HasParts head octets.items (first ∷ second ∷ []) result }
{
    let mut sizes = ArrayVec::new();
    sizes.push(first);
    sizes.push(second);
    Made {
        head,
        octets,
        sizes,
    }
}

/// Returns the block of picture `i`, counted from 0: 8 to 108 bytes. Pictures follow each other by 40 ms, and every
/// 25th is a keyframe. It is a block of the first file of `generate`.
pub(crate) fn picture(i: u32) -> Made
    requires { i < 2 ^ 20 }
    ensures { IsMade (picture i) result }
{
    let size = 8 + 37 * i % 101;
    let head = simple_head(40 * i, i % 25 == 0, Lace::None);
    single(head, counting(i, size), size)
}

/// Returns the block of sound `i`, counted from 0: frames of 4 to 6 bytes. Sounds follow each other by 20 ms, and every
/// third is a lace of two frames. It is a block of the second file of `generate`.
pub(crate) fn sound(i: u32) -> Made
    requires { i < 2 ^ 20 }
    ensures { IsMade (sound i) result }
{
    if i % 3 == 0 {
        laced(
            simple_head(20 * i, true, Lace::Xiph),
            counting(3 * i, 10),
            4,
            6,
        )
    } else {
        single(simple_head(20 * i, true, Lace::None), counting(3 * i, 5), 5)
    }
}

/// Kind of the blocks in a generated file: `PREFIX-a.mkv` has pictures, `PREFIX-b.mkv` sounds.
#[derive(Clone, Copy, Debug, PartialEq, Eq)]
pub enum MediaKind {
    Pictures,
    Sounds,
}

impl MediaKind {
    /// Returns the number of blocks in the file of this kind for `n` pictures. There are two sounds for each picture.
    /// `add_all` calls it.
    pub(crate) fn count(self, n: u32) -> u32
        requires { n < 2 ^ 20 }
        ensures { result ≡ count_of self n }
    {
        match self {
            MediaKind::Pictures => n,
            MediaKind::Sounds => 2 * n,
        }
    }

    /// Returns the block number `i`, counted from 0, of the file of this kind. `add_one` calls it.
    pub(crate) fn block(self, i: u32) -> Made
        requires { i < 2 ^ 20 }
        ensures { IsMade (block_of self i) result }
    {
        match self {
            MediaKind::Pictures => picture(i),
            MediaKind::Sounds => sound(i),
        }
    }
}
