//! Element of one block: RFC 9559, sections 10.1 (Block Structure) and 10.2 (SimpleBlock Structure).

ghost use Rattle.std.specs.Prelude.{◌≡◌, ◌+◌, ◌-ℤ◌, ◌^◌, ◌≤◌, ◌<◌, ◌++◌, pos, true, length, sum, IsTrue};
ghost use Rattle.byteorder.specs.Endian.{big_bytes};
ghost use Rattle.ebml_numbers.specs.Number.{int_octets_in, is_id};
ghost use Rattle.lacing.specs.Writing.{CanLace};
ghost use Rattle.tree_format.specs.NormalForm.{header_octets};
ghost use Rattle.output_model.specs.Element.{element, octets_of};
ghost use Rattle.cluster_writer.specs.Room.{Adds, HasRoom};
ghost use Rattle.output_model.specs.Block.{flag, lace_bits, block_flags, simple_block_flags, flags_of, block_header, block_octets, group_octets, block_element};
ghost use Rattle.output_model.specs.Cluster.{is_near};
ghost use Rattle.cluster_writer.specs.Lent.{AreLengths, CanBePut, CanStand, block_of, sizes_put};
ghost use Rattle.cluster_writer.specs.Lengths.{block_len, group_len, prefixed_sizes, whole_len};

use crate::element::{add, add_header, is_short};
use crate::group::add_behind;
use crate::lace::{add_frames, add_lace, lace_octets_len};
use crate::lent::{BlockLengths, BlockRef};
use lacing::Lace;
use mkv_schema::ids::{BLOCK, BLOCK_GROUP, SIMPLE_BLOCK};
use output_model::OutHead;

/// Returns the length in bytes of a Block whose frames have the sizes `sizes`, each after a prefix of `prefix` bytes.
/// The lacing is `kind`. `lengths_of` calls it before a block is put into a Cluster.
pub(crate) fn block_len(kind: Lace, prefix: u32, sizes: &[u32]) -> u64
    requires { CanLace kind (prefixed_sizes prefix sizes.now) }
    ensures exact { result ≡ block_len kind (prefixed_sizes prefix sizes.now) }
    ensures most { result ≤ 2 ^ 26 + 2 ^ 21 }
{
    4 + lace_octets_len(kind, prefix, sizes) + prefixed_total(prefix, sizes)
}

// Returns for `block_len` the total length in bytes of frames of the sizes `sizes`, each after a prefix of `prefix`
// bytes. The block is measured so before `merge` puts it into a Cluster.
fn prefixed_total(prefix: u32, sizes: &[u32]) -> u64
    requires { sum (prefixed_sizes prefix sizes.now) ≤ 2 ^ 26 }
    ensures { result ≡ sum (prefixed_sizes prefix sizes.now) }
{
    u64::from(prefix) * sizes.len() as u64 + total(sizes)
}

// Returns the sum of the frame sizes `sizes`, in bytes, without prefixes. For `prefixed_total`, while `merge` fills a
// Cluster.
fn total(sizes: &[u32]) -> u64
    requires { sum sizes.now ≤ 2 ^ 26 }
    ensures { result ≡ sum sizes.now }
{
    let mut total = 0;
    for size in sizes {
        total += u64::from(*size);
    }
    total
}

// ---- the header of a Block

// Returns the bit `value` for the flags of a block's header if `set`, and 0 otherwise. For `flags_of`, while `merge`
// fills a Cluster.
fn flag(value: u8, set: bool) -> u8
    ensures { result ≡ flag value set }
{
    if set { value } else { 0 }
}

// Returns the bits of the lacing `kind` in the flags of a block: RFC 9559, section 10.1 (Block Structure). For
// `flags_of`, while `merge` fills a Cluster.
fn lace_bits(kind: Lace) -> u8
    ensures exact { result ≡ lace_bits kind }
    ensures most { result ≤ 0x06 }
{
    match kind {
        Lace::None => 0x00,
        Lace::Xiph => 0x02,
        Lace::Fixed => 0x04,
        Lace::Ebml => 0x06,
    }
}

// Returns the flags byte of `block` for its header. A Block in a group only has the flags of invisibility and lacing.
// `add_headers` writes it, while `merge` fills a Cluster.
fn flags_of(block: &BlockRef<'_>) -> u8
    ensures { result ≡ flags_of (block_of block.now) }
{
    let head = block.head;
    let block_flags = flag(0x08, head.invisible) + lace_bits(head.lace);
    if head.group {
        block_flags
    } else {
        flag(0x80, head.key) + flag(0x01, head.discardable) + block_flags
    }
}

// Returns the signed distance in ticks from the Timestamp of the Cluster, `timestamp`, to the block's `tick`, as 16
// bits for its header. For `add_headers`, while `merge` fills a Cluster.
fn relative(timestamp: u64, tick: u64) -> u16
    requires { is_near timestamp tick ≡ true }
    ensures { big_bytes 2 result ≡ int_octets_in 2 (pos tick -ℤ pos timestamp) }
{
    if timestamp <= tick {
        (tick - timestamp) as u16
    } else {
        (0x1_0000 - (timestamp - tick)) as u16
    }
}

// ---- the Element

// Appends to `out` an Element header with the ID `id` for `len` bytes of content, and the header of the Block of
// `block`. `out` is the buffer of a Cluster with the Timestamp `timestamp`, in ticks. The first step of
// `add_block_element`.
fn add_headers(out: &mut Vec<u8>, id: u32, timestamp: u64, block: &BlockRef<'_>, len: u64)
    requires id { IsTrue (is_id id) }
    requires near { is_near timestamp block.now.tick ≡ true }
    requires lane { block.now.lane < 128 }
    requires most { len ≤ 2 ^ 27 }
    requires room { HasRoom out.old (length (header_octets id len) + 4) }
    ensures { Adds out.old out.new (header_octets id len ++ block_header timestamp (block_of block.now)) }
{
    let track = 0x80 + block.lane;
    let [high, low] = relative(timestamp, block.tick).to_be_bytes();
    let flags = flags_of(block);
    if is_short(id, len) {
        add(out, &[id as u8, 0x80 + len as u8, track, high, low, flags]);
    } else {
        add_header(out, id, len);
        add(out, &[track, high, low, flags]);
    }
}

// Appends `block` to `out` as an Element with the ID `id` and `len` bytes of content: a SimpleBlock, or the Block of a
// group. `out` is the buffer of a Cluster with the Timestamp `timestamp`, in ticks. For `add_element` and `add_group`,
// while `merge` fills a Cluster.
fn add_block_element(out: &mut Vec<u8>, id: u32, timestamp: u64, block: &BlockRef<'_>, len: u64)
    requires id { IsTrue (is_id id) }
    requires block { CanStand timestamp block.now }
    requires len { len ≡ block_len block.now.head.now.lace (sizes_put block.now) }
    requires most { len ≤ 2 ^ 27 }
    requires room { HasRoom out.old (whole_len id len) }
    ensures { Adds out.old out.new (octets_of (element id (block_octets timestamp (block_of block.now)))) }
{
    add_headers(out, id, timestamp, block, len);
    add_lace(out, block.head.lace, block.prefix.len() as u32, block.sizes);
    add_frames(out, block.prefix, block.body, block.sizes);
}

// Appends `block` to `out` as a BlockGroup with `body` bytes of content, with a Block of `len` bytes. `out` is the
// buffer of a Cluster with the Timestamp `timestamp`, in ticks. For `add_element`, while `merge` fills a Cluster.
#[tactic(auto, unfolding(ebml_numbers::specs::Number::is_id))]
fn add_group(out: &mut Vec<u8>, timestamp: u64, block: &BlockRef<'_>, len: u64, body: u64)
    requires block { CanStand timestamp block.now }
    requires len { len ≡ block_len block.now.head.now.lace (sizes_put block.now) }
    requires body { body ≡ group_len block.now.head.now len block.now.references.now (length block.now.kept.now) }
    requires most { body ≤ 2 ^ 27 }
    requires room { HasRoom out.old (whole_len BLOCK_GROUP body) }
    ensures { Adds out.old out.new (octets_of (element BLOCK_GROUP (group_octets timestamp (block_of block.now)))) }
{
    add_header(out, BLOCK_GROUP, body);
    add_block_element(out, BLOCK, timestamp, block, len);
    add_behind(out, block);
}

/// Appends `block`, whose lengths are `lengths`, to `out` as a SimpleBlock or BlockGroup. `out` is the buffer of the
/// Cluster with the Timestamp `timestamp`, in ticks. Allocates no memory. `put_measured` adds each block so.
#[tactic(auto, unfolding(ebml_numbers::specs::Number::is_id))]
pub(crate) fn add_element(
    out: &mut Vec<u8>,
    timestamp: u64,
    block: &BlockRef<'_>,
    lengths: BlockLengths,
)
    requires block { CanBePut block.now }
    requires near { is_near timestamp block.now.tick ≡ true }
    requires lengths { AreLengths block.now lengths }
    requires room { HasRoom out.old lengths.whole }
    ensures { Adds out.old out.new (octets_of (block_element timestamp (block_of block.now))) }
{
    if block.head.group {
        add_group(out, timestamp, block, lengths.block, lengths.body);
    } else {
        add_block_element(out, SIMPLE_BLOCK, timestamp, block, lengths.block);
    }
}
