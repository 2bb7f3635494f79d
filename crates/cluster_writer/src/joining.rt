//! Test whether a block may join a Cluster

ghost use Rattle.std.specs.Prelude.{◌≡◌, ◌≤◌, ◌+◌, ◌^◌};
ghost use Rattle.output_model.specs.Cluster.{is_near, may_have};

use output_model::{ClusterLimits, MAX_CLUSTER_LEN};

// Checks whether the distance in ticks from the Cluster's Timestamp to a block's `tick` fits in 16 signed bits. A Block
// stores it in them: RFC 9559, section 10.1. For `may_have`, while `merge` fills a Cluster.
fn is_near(timestamp: u64, tick: u64) -> bool
    ensures { result ≡ is_near timestamp tick }
{
    if timestamp <= tick {
        tick - timestamp <= 32767
    } else {
        timestamp - tick <= 32768
    }
}

/// Checks whether a block at the tick `tick`, whose Element has `len` bytes, may join a Cluster within `limits`. The
/// Cluster has the Timestamp `timestamp` in ticks, `count` blocks, and `size` bytes of content. `ClusterBuf::fits` asks
/// it for each block that `merge` writes.
pub(crate) fn may_have(
    limits: ClusterLimits,
    timestamp: u64,
    count: u32,
    tick: u64,
    size: u64,
    len: u64,
) -> bool
    requires { size ≤ 2 ^ 40 }
    ensures { result ≡ may_have limits timestamp (count + 1) tick (size + len) }
{
    if count >= limits.blocks || !is_near(timestamp, tick) {
        return false;
    }
    let nanoseconds = u128::from(tick.saturating_sub(timestamp)) * u128::from(limits.scale);
    if nanoseconds > u128::from(limits.span) {
        return false;
    }
    len <= MAX_CLUSTER_LEN && size + len <= MAX_CLUSTER_LEN
}
