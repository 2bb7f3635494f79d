//! Times of an output's blocks, in nanoseconds and in ticks of `scale` nanoseconds

ghost use Rattle.std.specs.Prelude.{◌≡◌, ◌+◌, ◌+ℤ◌, ◌*◌, ◌<◌, ◌≤◌, ◌^◌, nat_abs, IfSome};
ghost use Rattle.block_reader.specs.Time.{IsSmallTime};
ghost use Rattle.output_model.specs.Ticks.{since_start, tick_of, ticks_for, ticks_to};
ghost use Rattle.merge_model.specs.declared.limits.TheConstants.{MAX_SHIFT, TOO_LARGE_DELAY};
ghost use Rattle.lanes.specs.Times.{output_time, most_time, ticks_back};

/// Returns `time` with `delay`, both in nanoseconds, or None if that is before time 0. Used for the placing of blocks
/// and for their ends.
pub fn delayed(time: i64, delay: i64) -> Option<u64>
    requires time { IsSmallTime time }
    requires delay { nat_abs delay < TOO_LARGE_DELAY }
    ensures exact { result ≡ since_start (time +ℤ delay) }
    ensures small { IfSome result (λ t. t < 2 ^ 57) }
{
    let delayed = time + delay;
    if delayed < 0 {
        return None;
    }
    Some(delayed as u64)
}

/// Returns the time in the output of a block at `time` in its file, or None if it is before time 0. `delay` comes from
/// the options, and `shift` is the append offset; all are in nanoseconds. `place_block` and `place_entry` call it.
pub fn output_time(time: i64, delay: i64, shift: u64) -> Option<u64>
    requires time { IsSmallTime time }
    requires delay { nat_abs delay < TOO_LARGE_DELAY }
    requires shift { shift ≤ MAX_SHIFT }
    ensures exact { result ≡ output_time delay shift time }
    ensures small { IfSome result (λ t. t < most_time) }
{
    Some(delayed(time, delay)? + shift)
}

/// Returns the tick nearest to the time `t` in nanoseconds, if a tick has `scale` nanoseconds. If two ticks are equally
/// near, it is the later. Every block of an output has its time from it. Used by `place_block`, `place_entry` and
/// others.
pub fn tick_of(scale: u64, t: u64) -> u64
    requires { 1 ≤ scale }
    ensures { result ≡ tick_of scale t }
{
    match t.checked_add(scale / 2) {
        Some(from) => from / scale,
        None => {
            let from = u128::from(t) + u128::from(scale / 2);
            (from / u128::from(scale)) as u64
        }
    }
}

/// Returns the duration in ticks of `duration` nanoseconds from the time `t`, in nanoseconds: the distance of the ticks
/// nearest to start and end. A tick has `scale` nanoseconds. Used for durations and references of blocks.
#[tactic(auto, using(crate::proofs::TickLemmas::small))]
pub fn ticks_for(scale: u64, t: u64, duration: u64) -> u64
    requires scale { 1 ≤ scale }
    requires fits { t + duration < 2 ^ 64 }
    ensures exact { result ≡ ticks_for scale t duration }
    ensures small { result ≤ duration }
{
    tick_of(scale, t + duration) - tick_of(scale, t)
}

// Returns the distance in ticks from the time `t` to the time `size` nanoseconds before it, between the ticks nearest
// to both. A tick has `scale` nanoseconds. That time may be before time 0. `ticks_to` calls it.
#[tactic(auto, using(crate::proofs::TickLemmas::small))]
fn ticks_back(scale: u64, t: u64, size: u64) -> u64
    requires { 1 ≤ scale }
    ensures exact { result ≡ ticks_back scale t size }
    ensures small { result ≤ size }
{
    let scale = u128::from(scale);
    let from = u128::from(t) + scale / 2;
    let size = u128::from(size);
    let back = if size <= from {
        from / scale - (from - size) / scale
    } else {
        from / scale + (size - from - 1) / scale + 1
    };
    back as u64
}

/// Returns the distance in ticks from the time `t` to the time `away` nanoseconds after it, or before it if `away` is
/// negative. It is the distance of the ticks nearest to both; a tick has `scale` nanoseconds. `put_references` calls
/// it.
pub fn ticks_to(scale: u64, t: u64, away: i64) -> i64
    requires scale { 1 ≤ scale }
    requires early { t < most_time }
    requires small { IsSmallTime away }
    ensures exact { result ≡ ticks_to scale t away }
    ensures small { IsSmallTime result }
{
    let size = away.unsigned_abs();
    if away >= 0 {
        ticks_for(scale, t, size) as i64
    } else {
        -(ticks_back(scale, t, size) as i64)
    }
}
