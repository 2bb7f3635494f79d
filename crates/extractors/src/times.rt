//! Timestamps of frames, and their text.

ghost use Rattle.std.specs.Prelude.{◌≡◌, ◌++◌, ◌<◌, ◌*◌, ◌^◌, pos, ◌+ℤ◌, OnOk};
ghost use Rattle.std.specs.String.{string_bytes};
ghost use Rattle.block_reader.specs.Time.{IsSmallTime};
ghost use Rattle.extractors.specs.Times.{time_line};

use cluster_reader::BlockHead;
use std::alloc::AllocError;
use std::fmt::Write;

/// Returns the time in nanoseconds of frame `i`, from 0, of the lace in the block with the head `head`, when `extract`
/// writes it. It is the block's time and `i` times `step`, the track's DefaultDuration in nanoseconds or 0.
pub fn frame_time(head: &BlockHead, i: usize, step: u64) -> i64
    requires small { IsSmallTime head.now.time }
    requires few { i < 256 }
    requires short { step < 2 ^ 48 }
    ensures { result ≡ head.now.time +ℤ pos (i * step) }
{
    head.time + (i as u64 * step) as i64
}

/// Appends to `text` the line of a timestamp file for `time`, in nanoseconds: milliseconds, with six decimals unless it
/// is whole. Used by `give_time`.
pub fn push_time(text: &mut String, time: i64) -> Result<(), AllocError>
    ensures { OnOk result (string_bytes text.new ≡ string_bytes text.old ++ time_line time) }
{
    if time < 0 {
        text.push_str("-")?;
    }
    let size = time.unsigned_abs();
    let (whole, rest) = (size / 1_000_000, size % 1_000_000);
    if rest == 0 {
        write!(text, "{whole}\n")?;
        return Ok(());
    }
    let (a, b, c) = (rest / 100_000, rest / 10_000 % 10, rest / 1_000 % 10);
    let (d, e, f) = (rest / 100 % 10, rest / 10 % 10, rest % 10);
    write!(text, "{whole}.{a}{b}{c}{d}{e}{f}\n")?;
    Ok(())
}
