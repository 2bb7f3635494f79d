//! Times of blocks: RFC 9559, section 11 (Timestamps).

ghost use Rattle.std.specs.Prelude.{◌≡◌, pos, ◌+ℤ◌, map, not, IsTrue};
ghost use Rattle.std.specs.List.{list_any};
ghost use Rattle.block_format.specs.Block.{nanoseconds};
ghost use Rattle.block_reader.specs.Time.{scaled, scaled_duration, is_too_large_at};

use block_format::TOO_LARGE_TIME;

// Returns `ticks` ticks of `scale` nanoseconds in nanoseconds, or None if that is 2^56 or more in size. Used for a
// block's time and its references.
fn scaled(ticks: i128, scale: u64) -> Option<i64>
    ensures { result ≡ scaled scale ticks }
{
    let size = ticks.unsigned_abs().checked_mul(u128::from(scale))?;
    if size >= u128::from(TOO_LARGE_TIME) {
        return None;
    }
    let nanoseconds = size as i64;
    Some(if ticks < 0 { -nanoseconds } else { nanoseconds })
}

/// Returns the time of a SimpleBlock or BlockGroup in nanoseconds, or None if it is 2^56 or more in size. It is
/// `relative` ticks after `timestamp`, the Timestamp of its Cluster; a tick has `scale` nanoseconds. Used by
/// `simple_head` and `times_of`.
pub fn block_time(scale: u64, timestamp: u64, relative: i64) -> Option<i64>
    ensures { result ≡ scaled scale (pos timestamp +ℤ relative) }
{
    scaled(i128::from(timestamp) + i128::from(relative), scale)
}

/// Converts `times`, the references of a BlockGroup, from ticks of `scale` nanoseconds to nanoseconds. Returns false if
/// one is 2^56 or more in size; some are converted then. Used by `times_of`.
pub fn scale_all(times: &mut [i64], scale: u64) -> bool
    ensures fits { list_any (is_too_large_at scale) times.old ≡ not result }
    ensures scaled { IsTrue result → times.new ≡ map (nanoseconds scale) times.old }
{
    for time in times.iter_mut() {
        let Some(nanoseconds) = scaled(i128::from(*time), scale) else {
            return false;
        };
        *time = nanoseconds;
    }
    true
}

/// Returns the duration of a BlockGroup of `ticks` ticks in nanoseconds, or None if it is 2^56 or more. One tick is
/// `scale` nanoseconds. Used by `times_of`.
pub fn scaled_duration(ticks: u64, scale: u64) -> Option<u64>
    ensures { result ≡ scaled_duration scale ticks }
{
    let nanoseconds = ticks.checked_mul(scale)?;
    if nanoseconds >= TOO_LARGE_TIME {
        return None;
    }
    Some(nanoseconds)
}
