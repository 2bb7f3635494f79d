//! Cuts of an output at times

ghost use Rattle.std.specs.Prelude.{◌≡◌, ◌≤◌, ◌*◌, ◌-◌, ◌^◌, ℕ, ◌||◌};
ghost use Rattle.std.specs.List.{list_any};
ghost use Rattle.splitter.specs.Split.{has_come, holds, is_over, is_within, keeps, passes};

use mkv_io::List;
use requests::SpanWords;

/// Cuts of an output as by mkvmerge's `--split`; times are in nanoseconds from the start of the output
#[derive(Debug, Drop)]
pub enum SplitSpec {
    /// No cut
    Whole,
    /// Cut `by` nanoseconds after the start of each section
    Duration { by: u64 },
    /// Cuts at the times `at`; 0 has no effect
    Times { at: List<u64> },
    /// Cuts at the bounds of `spans`; only sections that start in a span are written as parts
    Parts { spans: List<SpanWords> },
}

// Returns the earlier of the times `end` and `bound`, which are in nanoseconds. The bound counts only if it is after
// `start`, the start of a section. For the first cut after it.
fn sooner(end: Option<u128>, bound: u64, start: u128) -> Option<u128>
    ensures { (time : ℕ) → has_come result time ≡ (has_come end time || is_within start time bound) }
{
    let bound = u128::from(bound);
    if bound <= start {
        return end;
    }
    match end {
        Some(end) if end <= bound => Some(end),
        _ => Some(bound),
    }
}

// Returns the first of the times `at` after `start`, the start of a section, or None; all are in nanoseconds. For
// `end_behind`, when `merge` cuts its output.
fn first_time(at: &[u64], start: u128) -> Option<u128>
    ensures { (time : ℕ) → has_come result time ≡ list_any (is_within start time) at.now }
{
    let mut end = None;
    for bound in at {
        end = sooner(end, *bound, start);
    }
    end
}

// Returns the first bound of `spans` after `start`, the start of a section, or None; all are in nanoseconds. For
// `end_behind`, when `merge` cuts its output.
fn first_bound(spans: &[SpanWords], start: u128) -> Option<u128>
    ensures { (time : ℕ) → has_come result time ≡ list_any (passes start time) spans.now }
{
    let mut end = None;
    for span in spans {
        end = sooner(end, span.start, start);
        if let Some(bound) = span.end {
            end = sooner(end, bound, start);
        }
    }
    end
}

// Checks whether the time `time` is in the span `span`, which may have no end; all are in nanoseconds. For `keeps`,
// when `merge` cuts its output.
fn holds(span: &SpanWords, time: u128) -> bool
    ensures { result ≡ holds time span.now }
{
    u128::from(span.start) <= time && span.end.is_none_or(|end| time < u128::from(end))
}

impl SplitSpec {
    /// Returns the time at the end of a section that starts at `start`, or None if it doesn't end; both are in
    /// nanoseconds. The next keyframe from then on that allows a cut begins a new section. For the state of the cuts,
    /// when a section begins.
    pub(crate) fn end_behind(&self, start: u128) -> Option<u128>
        requires { start ≤ (2 ^ 64 - 1) * (2 ^ 64 - 1) }
        ensures { (time : ℕ) → has_come result time ≡ is_over self.now start time }
    {
        match self {
            SplitSpec::Whole => None,
            SplitSpec::Duration { by } => Some(start + u128::from(*by)),
            SplitSpec::Times { at } => first_time(at.as_slice(), start),
            SplitSpec::Parts { spans } => first_bound(spans.as_slice(), start),
        }
    }

    /// Checks whether a section that starts at `start`, in nanoseconds, is written as a part. For the state of the
    /// cuts, when a section begins.
    pub(crate) fn keeps(&self, start: u128) -> bool
        ensures { result ≡ keeps self.now start }
    {
        match self {
            SplitSpec::Parts { spans } => spans.as_slice().iter().any(|span| holds(span, start)),
            _ => true,
        }
    }
}
