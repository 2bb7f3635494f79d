//! Start of a Cluster: its header, whose size is known last, and its Timestamp

ghost use Rattle.std.specs.Prelude.{◌≡◌, ◌+◌, ◌^◌, ◌≤◌, ◌++◌, ℕ, [], length, drop, None, Some};
ghost use Rattle.output_model.specs.Element.{octets_of};
ghost use Rattle.output_model.specs.Cluster.{timestamp_element};
ghost use Rattle.cluster_writer.specs.Gathered.{cluster_with};

use crate::element::uint_len;
use ebml_numbers::{put_id, put_size, put_uint, size_width};
use mkv_schema::ids::{CLUSTER, TIMESTAMP};

/// Number of bytes that are reserved for the header and the Timestamp of a Cluster
pub(crate) const FRONT: usize = 40;

// Writes `part` into `octets` so that it ends before the offset `at`, and returns its offset. The start of a Cluster is
// written so, backwards, by `put_timestamp` and `put_header`. `octets` is the buffer of the Cluster.
fn put_before(octets: &mut [u8], at: usize, part: &[u8]) -> usize
    requires inside { at ≤ length octets.old }
    requires room { length part.now ≤ at }
    ensures place { result + length part.now ≡ at }
    ensures written { drop result octets.new ≡ part.now ++ drop at octets.old }
    ensures same { (k : ℕ) → at ≤ k → drop k octets.new ≡ drop k octets.old }
{
    let start = at - part.len();
    octets[start..at].copy_from_slice(part);
    start
}

/// Returns the length in bytes of the Timestamp Element with the value `timestamp`. The buffer calls it for the first
/// block of a Cluster and keeps it. Used by `timestamp_len_at`.
#[tactic(auto, unfolding(ebml_numbers::specs::Number::is_id))]
pub(crate) fn timestamp_len(timestamp: u64) -> u64
    ensures exact { result ≡ length (octets_of (timestamp_element timestamp)) }
    ensures most { result ≤ 24 }
{
    uint_len(TIMESTAMP, timestamp)
}

// Writes the Timestamp Element with the value `timestamp`, in ticks, into the Cluster's buffer `octets`, directly
// before the blocks, which begin at `FRONT`. Returns its offset. For `put_header`, while `merge` fills a Cluster.
#[tactic(auto, unfolding(ebml_numbers::specs::Number::is_id))]
fn put_timestamp(octets: &mut [u8], timestamp: u64) -> usize
    requires { FRONT ≤ length octets.old }
    ensures place { FRONT ≤ result + 24 }
    ensures inside { result ≤ FRONT }
    ensures written { drop result octets.new ≡ octets_of (timestamp_element timestamp) ++ drop FRONT octets.old }
    ensures same { (k : ℕ) → FRONT ≤ k → drop k octets.new ≡ drop k octets.old }
{
    let value = put_uint(timestamp);
    let len = u64::from(value.len);
    let at = put_before(octets, FRONT, value.as_slice());
    let at = put_before(octets, at, put_size(len, size_width(len)).as_slice());
    put_before(octets, at, put_id(TIMESTAMP).as_slice())
}

// Writes the header of a Cluster and its Timestamp, `timestamp` ticks, into the Cluster's buffer `octets`, directly
// before the blocks, which begin at `FRONT`. Returns the offset of the header. For `put_front`, while `merge` fills a
// Cluster.
#[tactic(auto, unfolding(ebml_numbers::specs::Number::is_id))]
fn put_header(octets: &mut [u8], timestamp: u64) -> usize
    requires front { FRONT ≤ length octets.old }
    requires most { length octets.old ≤ 2 ^ 29 }
    ensures inside { result ≤ FRONT }
    ensures written { drop result octets.new ≡ cluster_with (Some timestamp) (drop FRONT octets.old) }
    ensures same { drop FRONT octets.new ≡ drop FRONT octets.old }
{
    let at = put_timestamp(octets, timestamp);
    let len = (octets.len() - at) as u64;
    let at = put_before(octets, at, put_size(len, size_width(len)).as_slice());
    put_before(octets, at, put_id(CLUSTER).as_slice())
}

/// Writes the header of a Cluster and its Timestamp, in ticks, into the Cluster's buffer `octets`, directly before the
/// blocks, which begin at `FRONT`. Returns the offset of the header. Without a `timestamp` there is no block, and
/// nothing is written. `ClusterBuf::octets` calls it before the Cluster is written to a file.
pub(crate) fn put_front(octets: &mut [u8], timestamp: Option<u64>) -> usize
    requires front { FRONT ≤ length octets.old }
    requires most { length octets.old ≤ 2 ^ 29 }
    requires empty { timestamp ≡ None → drop FRONT octets.old ≡ [] }
    ensures inside { result ≤ FRONT }
    ensures written { drop result octets.new ≡ cluster_with timestamp (drop FRONT octets.old) }
    ensures same { drop FRONT octets.new ≡ drop FRONT octets.old }
{
    match timestamp {
        Some(timestamp) => put_header(octets, timestamp),
        None => FRONT,
    }
}
