//! The end of a block, from which the Duration of an output follows.

ghost use Rattle.std.specs.Prelude.{◌≡◌, ◌≤◌, min};
ghost use Rattle.mkv_io.specs.Faults.{last_count};
ghost use Rattle.output_model.specs.Duration.{end_at, frame_duration, ticks_of_frames};

use mkv_io::List;

// Durations in nanoseconds below this one leave room for 256 frames in 64 bits.
const SHORT: u64 = 1 << 48;

/// Duration of a frame on each output track: RFC 9559, section 5.1.4.1.13 (DefaultDuration).
#[derive(Drop)]
pub struct Durations {
    /// Nanoseconds per tick of the output.
    pub scale: u64,
    /// Nanoseconds of a frame, for each output track from 1 on, if they are known.
    pub frames: List<Option<u64>>,
}

// Returns the duration in ticks of `scale` nanoseconds of `frames` frames of `duration` nanoseconds each, rounded to
// the nearest tick, or up if two are equally near. Returns 0 if the duration isn't known, and 2^64 - 1 for more ticks
// than that. Used by `end_at`.
fn ticks_of(scale: u64, frames: u64, duration: Option<u64>) -> u64
    requires scale { 1 ≤ scale }
    requires frames { frames ≤ 256 }
    ensures { result ≡ min (ticks_of_frames scale frames duration) last_count }
{
    let Some(duration) = duration else {
        return 0;
    };
    if duration < SHORT {
        return (frames * duration + scale / 2) / scale;
    }
    let ticks = (u128::from(frames) * u128::from(duration) + u128::from(scale / 2))
        / u128::from(scale);
    ticks.min(u128::from(u64::MAX)) as u64
}

impl Durations {
    // Returns the nanoseconds of a frame on the output track `lane`, counted from 1, or None if they aren't known. Used
    // by `end_at`.
    fn of_frame(&self, lane: u8) -> Option<u64>
        ensures { result ≡ frame_duration self.now lane }
    {
        let k = usize::from(lane).saturating_sub(1);
        match self.frames.as_slice().get(k) {
            Some(duration) => *duration,
            None => None,
        }
    }

    /// Returns the tick at which a block ends that begins at `tick`, at most 2^64 - 1. It has `frames` frames on the
    /// output track `lane`, counted from 1, and the BlockDuration `duration` in ticks, if it has one. `merge` calls it
    /// for each block: the greatest end is the Duration of the output.
    pub fn end_at(&self, lane: u8, tick: u64, frames: usize, duration: Option<u64>) -> u64
        requires scale { 1 ≤ self.now.scale }
        requires frames { frames ≤ 256 }
        ensures { result ≡ end_at self.now lane tick frames duration }
    {
        let shown = match duration {
            Some(ticks) => ticks,
            None => ticks_of(self.scale, frames as u64, self.of_frame(lane)),
        };
        tick.saturating_add(shown)
    }
}
