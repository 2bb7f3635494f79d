//! Frames of a block: RFC 9559, section 10.3 (Block Lacing).

ghost use Rattle.std.specs.Prelude.{◌≡◌, ◌+◌, ◌^◌, ◌≤◌, ◌++◌, length, take, sum};
ghost use Rattle.std.specs.List.{concat};
ghost use Rattle.lacing.specs.Writing.{CanLace, lace_head};
ghost use Rattle.block_format.specs.Content.{frames_cut};
ghost use Rattle.cluster_writer.specs.Room.{Adds, HasRoom};
ghost use Rattle.output_model.specs.OutputBlock.{prefixed};
ghost use Rattle.output_model.specs.Block.{lace_octets, count_and_head};
ghost use Rattle.cluster_writer.specs.Lengths.{prefixed_sizes};

use crate::element::add;
use arrayvec::ArrayVec;
use lacing::{Lace, lace_len, put_lace};

// Returns the sizes in bytes of frames with their prefixes, as a lace stores them. `sizes` are the frames' sizes
// without the prefix of `prefix` bytes each. For laces whose frames have a prefix. Used by `prefixed_head_len` and
// `add_prefixed`.
fn prefixed_sizes(prefix: u32, sizes: &[u32]) -> ArrayVec<u32, 256>
    requires few { length sizes.now ≤ 256 }
    requires total { sum (prefixed_sizes prefix sizes.now) ≤ 2 ^ 26 }
    ensures exact { result.items ≡ prefixed_sizes prefix sizes.now }
{
    let mut all = ArrayVec::new();
    for size in sizes {
        all.push(prefix + *size);
    }
    all
}

/// Returns the number of bytes of the lace `kind` before its frames: their number, and the head with their sizes.
/// `sizes` are the frames' sizes without the prefix of `prefix` bytes each. For the length of a Block.
pub(crate) fn lace_octets_len(kind: Lace, prefix: u32, sizes: &[u32]) -> u64
    requires { CanLace kind (prefixed_sizes prefix sizes.now) }
    ensures exact { result ≡ length (lace_octets kind (prefixed_sizes prefix sizes.now)) }
    ensures most { result ≤ 2 ^ 20 }
{
    match kind {
        Lace::None => 0,
        Lace::Xiph | Lace::Fixed | Lace::Ebml => 1 + u64::from(head_len(kind, prefix, sizes)),
    }
}

// Returns the length in bytes of the head of a lace, which stores the sizes of frames. `sizes` are without the prefix
// of `prefix` bytes each. For `lace_octets_len`, while `merge` fills a Cluster.
fn head_len(kind: Lace, prefix: u32, sizes: &[u32]) -> u32
    requires { CanLace kind (prefixed_sizes prefix sizes.now) }
    ensures exact { result ≡ length (lace_head kind (prefixed_sizes prefix sizes.now)) }
    ensures most { result ≤ 2 ^ 19 }
{
    if prefix == 0 {
        return lace_len(kind, sizes);
    }
    prefixed_head_len(kind, prefix, sizes)
}

// Returns the length in bytes of the head of a lace whose frames of the sizes `sizes` have a prefix of `prefix` bytes
// each. For `head_len`; it is a function of its own, so that memory for 256 sizes is used only then.
fn prefixed_head_len(kind: Lace, prefix: u32, sizes: &[u32]) -> u32
    requires { CanLace kind (prefixed_sizes prefix sizes.now) }
    ensures exact { result ≡ length (lace_head kind (prefixed_sizes prefix sizes.now)) }
    ensures most { result ≤ 2 ^ 19 }
{
    lace_len(kind, &prefixed_sizes(prefix, sizes))
}

/// Appends to `out`, the buffer of the Cluster, the bytes of a Block before its frames: their number, and the head of
/// the lace `kind`. Without lacing there are none. `sizes` are the frames' sizes in bytes, without the prefix of
/// `prefix` bytes each. A step of `add_block_element`.
pub(crate) fn add_lace(out: &mut Vec<u8>, kind: Lace, prefix: u32, sizes: &[u32])
    requires can { CanLace kind (prefixed_sizes prefix sizes.now) }
    requires room { HasRoom out.old (length (lace_octets kind (prefixed_sizes prefix sizes.now))) }
    ensures { Adds out.old out.new (lace_octets kind (prefixed_sizes prefix sizes.now)) }
{
    match kind {
        Lace::None => {}
        Lace::Xiph | Lace::Fixed | Lace::Ebml => add_laced(out, kind, prefix, sizes),
    }
}

// Appends the number of frames minus one, and the head of their lace, to `out`, which has room for them. `sizes` are
// without the prefix of `prefix` bytes each. For `add_lace`, if there is lacing.
fn add_laced(out: &mut Vec<u8>, kind: Lace, prefix: u32, sizes: &[u32])
    requires can { CanLace kind (prefixed_sizes prefix sizes.now) }
    requires room { HasRoom out.old (length (count_and_head kind (prefixed_sizes prefix sizes.now))) }
    ensures { Adds out.old out.new (count_and_head kind (prefixed_sizes prefix sizes.now)) }
{
    if prefix == 0 {
        return add_count_and_head(out, kind, sizes);
    }
    add_prefixed(out, kind, prefix, sizes);
}

// Appends to `out` the number of frames minus one, and the head of their lace. The frames have the sizes `sizes`, each
// without its prefix of `prefix` bytes. For `add_laced`; it is a function of its own, so that memory for 256 sizes is
// used only then.
fn add_prefixed(out: &mut Vec<u8>, kind: Lace, prefix: u32, sizes: &[u32])
    requires can { CanLace kind (prefixed_sizes prefix sizes.now) }
    requires room { HasRoom out.old (length (count_and_head kind (prefixed_sizes prefix sizes.now))) }
    ensures { Adds out.old out.new (count_and_head kind (prefixed_sizes prefix sizes.now)) }
{
    add_count_and_head(out, kind, &prefixed_sizes(prefix, sizes));
}

// Appends the number of frames minus one, and the head of their lace, to `out`, which has room for them. The frames
// have the sizes `sizes` in bytes, prefixes included. For `add_laced`, while `merge` fills a Cluster.
fn add_count_and_head(out: &mut Vec<u8>, kind: Lace, sizes: &[u32])
    requires can { CanLace kind sizes.now }
    requires room { HasRoom out.old (length (count_and_head kind sizes.now)) }
    ensures { Adds out.old out.new (count_and_head kind sizes.now) }
{
    add(out, &[(sizes.len() - 1) as u8]);
    add_head(out, kind, sizes);
}

// Appends the head of the lace `kind` for frames of the sizes `sizes`, in bytes, to `out`, which has room for it. For
// `add_count_and_head`, while `merge` fills a Cluster.
fn add_head(out: &mut Vec<u8>, kind: Lace, sizes: &[u32])
    requires can { CanLace kind sizes.now }
    requires room { HasRoom out.old (length (lace_head kind sizes.now)) }
    ensures { Adds out.old out.new (lace_head kind sizes.now) }
{
    let at = out.len();
    let _ = out.resize(at + lace_len(kind, sizes) as usize, 0);
    fill_head(out, at, kind, sizes);
}

// Writes the head of the lace `kind` for frames of the sizes `sizes` over `out`, from the offset `at` to its end. For
// `add_head`, while `merge` fills a Cluster.
fn fill_head(out: &mut [u8], at: usize, kind: Lace, sizes: &[u32])
    requires can { CanLace kind sizes.now }
    requires room { length out.old ≡ at + length (lace_head kind sizes.now) }
    ensures { out.new ≡ take at out.old ++ lace_head kind sizes.now }
{
    put_lace(kind, sizes, &mut out[at..]);
}

/// Appends to `out`, the buffer of the Cluster, the frames in `body`, which have the sizes `sizes` in bytes, each after
/// `prefix`. The last step of `add_block_element`.
pub(crate) fn add_frames(out: &mut Vec<u8>, prefix: &[u8], body: &[u8], sizes: &[u32])
    requires whole { length body.now ≡ sum sizes.now }
    requires room { HasRoom out.old (length (concat (prefixed prefix.now (frames_cut sizes.now body.now)))) }
    ensures { Adds out.old out.new (concat (prefixed prefix.now (frames_cut sizes.now body.now))) }
{
    if prefix.is_empty() {
        add(out, body);
    } else {
        add_each(out, prefix, body, sizes);
    }
}

// Appends to `out` the frames in `body`, which have the sizes `sizes` in bytes, one by one after `prefix`. For
// `add_frames`, if there is a prefix.
fn add_each(out: &mut Vec<u8>, prefix: &[u8], body: &[u8], sizes: &[u32])
    requires whole { length body.now ≡ sum sizes.now }
    requires room { HasRoom out.old (length (concat (prefixed prefix.now (frames_cut sizes.now body.now)))) }
    ensures { Adds out.old out.new (concat (prefixed prefix.now (frames_cut sizes.now body.now))) }
{
    let mut rest = body;
    for size in sizes {
        let (frame, behind) = rest.split_at(*size as usize);
        add(out, prefix);
        add(out, frame);
        rest = behind;
    }
}
