//! Period of time of one part of a split merge

ghost use Rattle.std.specs.Prelude.{◌≡◌, ◌≤◌, IfSome};
ghost use Rattle.record_changes.specs.Before.{is_before};

/// Period of time in nanoseconds, from `from` up to but excluding `to`, if present
#[derive(Clone, Copy)]
pub struct Stretch {
    pub from: u64,
    pub to: Option<u64>,
}

impl Stretch {
    ghost use Rattle.record_changes.specs.Cut.{takes, within};

    /// Checks whether a chapter from `start` to `end` nanoseconds is in the period. It starts in it, or starts before
    /// it and ends after its start. Without `end` it never ends. `cut_child` leaves out any other.
    pub(crate) fn takes(self, start: u64, end: Option<u64>) -> bool
        ensures { result ≡ takes self start end }
    {
        if start < self.from {
            is_before(self.from, end)
        } else {
            is_before(start, self.to)
        }
    }

    /// Returns `time`, in nanoseconds, limited to the period and relative to its start, as a part of a split has it.
    /// `cut_child` calls it.
    pub(crate) fn within(self, time: u64) -> u64
        requires { IfSome self.to (λ to. self.from ≤ to) }
        ensures { result ≡ within self time }
    {
        let late = time.max(self.from);
        match self.to {
            Some(to) => late.min(to) - self.from,
            None => late - self.from,
        }
    }
}

// Checks whether `time` is before `limit`, both in nanoseconds; it is if there is no limit. `takes` calls it.
fn is_before(time: u64, limit: Option<u64>) -> bool
    ensures { result ≡ is_before limit time }
{
    match limit {
        Some(limit) => time < limit,
        None => true,
    }
}
