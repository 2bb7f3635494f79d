//! Children of a BlockGroup other than its Block: RFC 9559, section 5.1.3 (Cluster).

ghost use Rattle.std.specs.Prelude.{◌≡◌, ◌+◌, ◌*◌, ◌^◌, ◌<◌, ◌≤◌, ◌++◌, length, map};
ghost use Rattle.output_model.specs.Element.{joined, octets_of};
ghost use Rattle.cluster_writer.specs.Room.{Adds, HasRoom};
ghost use Rattle.output_model.specs.Block.{duration_elements, reference_element};
ghost use Rattle.cluster_writer.specs.Lent.{block_of, behind_put};
ghost use Rattle.cluster_writer.specs.Lengths.{duration_len, references_len, group_len, behind_octets};

use crate::element::{add, add_header, add_uint, element_len, uint_len};
use crate::lent::BlockRef;
use ebml_numbers::put_int;
use mkv_schema::ids::{BLOCK, BLOCK_DURATION, REFERENCE_BLOCK};
use output_model::OutHead;

/// Returns the length in bytes of a BlockGroup's content. It has a Block of `block` bytes, the BlockDuration of `head`,
/// the references `references`, and `kept` bytes of kept children. `lengths_of` measures a block of a group so.
#[tactic(auto, unfolding(ebml_numbers::specs::Number::is_id))]
pub(crate) fn group_len(head: &OutHead, block: u64, references: &[i64], kept: u64) -> u64
    requires block { block ≤ 2 ^ 26 + 2 ^ 21 }
    requires references { length references.now ≤ 64 }
    requires kept { kept ≤ 2 ^ 25 }
    ensures exact { result ≡ group_len head.now block references.now kept }
    ensures most { result ≤ 2 ^ 26 + 2 ^ 25 + 2 ^ 22 }
{
    element_len(BLOCK, block) + duration_len(head.duration) + references_len(references) + kept
}

// Returns the length in bytes of the BlockDuration Element for a duration in ticks, or 0 without one. For `group_len`,
// while `merge` fills a Cluster.
#[tactic(auto, unfolding(ebml_numbers::specs::Number::is_id))]
fn duration_len(duration: Option<u64>) -> u64
    ensures exact { result ≡ duration_len duration }
    ensures most { result ≤ 24 }
{
    match duration {
        None => 0,
        Some(ticks) => uint_len(BLOCK_DURATION, ticks),
    }
}

/// Appends to `out`, the buffer of the Cluster, the children of the BlockGroup of `block` after its Block:
/// BlockDuration, ReferenceBlocks and kept children. `add_group` calls it after the Block.
pub(crate) fn add_behind(out: &mut Vec<u8>, block: &BlockRef<'_>)
    requires { HasRoom out.old (behind_put block.now) }
    ensures { Adds out.old out.new (behind_octets (block_of block.now)) }
{
    add_duration(out, block.head.duration);
    add_references(out, block.references);
    add(out, block.kept);
}

// Appends a BlockDuration of `duration` ticks, if there is one. For `add_behind`, while `merge` fills a Cluster.
#[tactic(auto, unfolding(ebml_numbers::specs::Number::is_id))]
fn add_duration(out: &mut Vec<u8>, duration: Option<u64>)
    requires { HasRoom out.old (duration_len duration) }
    ensures { Adds out.old out.new (joined (duration_elements duration)) }
{
    if let Some(ticks) = duration {
        add_uint(out, BLOCK_DURATION, ticks);
    }
}

// Returns the length in bytes of the ReferenceBlock Element with the value `ticks`, the signed distance in ticks to the
// referenced block. For `references_len`, while `merge` fills a Cluster.
#[tactic(auto, unfolding(ebml_numbers::specs::Number::is_id))]
fn reference_len(ticks: i64) -> u64
    ensures exact { result ≡ length (octets_of (reference_element ticks)) }
    ensures most { result ≤ 24 }
{
    element_len(REFERENCE_BLOCK, u64::from(put_int(ticks).len))
}

// Appends the ReferenceBlock with the value `ticks`, the signed distance in ticks to the referenced block, to `out`,
// which has room for it. For `add_references`, while `merge` fills a Cluster.
#[tactic(auto, unfolding(ebml_numbers::specs::Number::is_id))]
fn add_reference(out: &mut Vec<u8>, ticks: i64)
    requires { HasRoom out.old (length (octets_of (reference_element ticks))) }
    ensures { Adds out.old out.new (octets_of (reference_element ticks)) }
{
    let octets = put_int(ticks);
    add_header(out, REFERENCE_BLOCK, u64::from(octets.len));
    add(out, octets.as_slice());
}

// Returns the length in bytes of the ReferenceBlock Elements for all `references` of a group, in ticks. For
// `group_len`, while `merge` fills a Cluster.
fn references_len(references: &[i64]) -> u64
    requires { length references.now ≤ 64 }
    ensures exact { result ≡ references_len references.now }
    ensures most { result ≤ 2048 }
{
    let mut total = 0;
    for ticks in references {
        total += reference_len(*ticks);
    }
    total
}

// Appends to `out` a ReferenceBlock for each of the `references`, which are in ticks from the block. For `add_behind`,
// while `merge` fills a Cluster.
fn add_references(out: &mut Vec<u8>, references: &[i64])
    requires { HasRoom out.old (references_len references.now) }
    ensures { Adds out.old out.new (joined (map reference_element references.now)) }
{
    for ticks in references {
        add_reference(out, *ticks);
    }
}
