//! Block that is put into a Cluster, and the lengths of its Element

ghost use Rattle.std.specs.Prelude.{◌≡◌, ◌≤◌, ◌^◌, ℕ, length};
ghost use Rattle.output_model.specs.OutputBlock.{CanBeLent, IsLent};
ghost use Rattle.cluster_writer.specs.Lent.{AreLengths, IsLenOf, lent_of};
ghost use Rattle.cluster_writer.specs.Lengths.{block_len, body_len, prefixed_sizes, taken_len};

use crate::block::block_len;
use crate::element::element_len as whole_len;
use crate::group::group_len;
use mkv_schema::ids::{BLOCK_GROUP, SIMPLE_BLOCK};
use output_model::OutHead;

/// Borrowed block that is put into a Cluster, of the output track number `lane`, counted from 1, at the tick `tick` of
/// its part. `body` is cut into frames of the sizes `sizes` in bytes, each after `prefix`. A group also has its
/// references in ticks and the bytes of its kept children.
#[derive(Clone, Copy)]
pub struct BlockRef<'a> {
    pub lane: u8,
    pub tick: u64,
    pub head: &'a OutHead,
    pub prefix: &'a [u8],
    pub body: &'a [u8],
    pub sizes: &'a [u32],
    pub references: &'a [i64],
    pub kept: &'a [u8],
}

/// Lengths in bytes of a block as it is written: its Block, the content of its SimpleBlock or BlockGroup, and this
/// Element
#[derive(Clone, Copy)]
pub struct BlockLengths {
    pub block: u64,
    pub body: u64,
    pub whole: u64,
}

impl BlockRef<'_> {
    /// Returns the lengths of the block's Element and its parts, which are the same in each Cluster. `merge` measures a
    /// block before it asks whether the block fits in the Cluster.
    pub fn lengths(&self) -> BlockLengths
        requires { IsLent (lent_of self.now) }
        ensures { AreLengths self.now result }
    {
        lengths_of(
            self.head,
            self.prefix.len(),
            self.sizes,
            self.references,
            self.kept.len(),
        )
    }
}

/// Returns the length in bytes of the SimpleBlock or BlockGroup for a block. It has the head `head`, and frames of the
/// sizes `sizes`, in bytes, after prefixes of `prefix` bytes. `refs` are its references, and `extra` is the number of
/// bytes of kept children. It is the same in each output track and Cluster. `merge` divides parts by size with it,
/// before blocks are written.
pub fn element_len(head: &OutHead, prefix: usize, sizes: &[u32], refs: &[i64], extra: usize) -> u64
    requires { CanBeLent head.now.lace prefix sizes.now (length refs.now) extra }
    ensures exact { IsLenOf head.now prefix sizes.now refs.now extra result }
    ensures most { result ≤ 2 ^ 27 }
{
    lengths_of(head, prefix, sizes, refs, extra).whole
}

// Returns the lengths in bytes of a block's Element and its parts. The frames have the sizes `sizes` after prefixes of
// `prefix` bytes, `references` are in ticks, and `kept` is the number of bytes of kept children. For `lengths` and
// `element_len`, while `merge` fills a Cluster.
#[tactic(auto, unfolding(ebml_numbers::specs::Number::is_id))]
fn lengths_of(
    head: &OutHead,
    prefix: usize,
    sizes: &[u32],
    references: &[i64],
    kept: usize,
) -> BlockLengths
    requires { CanBeLent head.now.lace prefix sizes.now (length references.now) kept }
    ensures block { result.block ≡ block_len head.now.lace (prefixed_sizes prefix sizes.now) }
    ensures body { result.body ≡ body_len head.now result.block references.now kept }
    ensures whole { result.whole ≡ taken_len head.now prefix sizes.now references.now kept }
    ensures most { result.whole ≤ 2 ^ 27 }
{
    let block = block_len(head.lace, prefix as u32, sizes);
    if head.group {
        let body = group_len(head, block, references, kept as u64);
        let whole = whole_len(BLOCK_GROUP, body);
        BlockLengths { block, body, whole }
    } else {
        let whole = whole_len(SIMPLE_BLOCK, block);
        BlockLengths {
            block,
            body: block,
            whole,
        }
    }
}
