//! Calls of a disk that must fail.

ghost use Rattle.std.specs.Prelude.{◌≡◌, OnOk, OnErr};

use std::alloc::{AllocError, Global};
use std::collections::BTreeSet;

/// Set of calls that must fail, by their numbers, counted from 0, and the number of calls up to now.
#[derive(Drop)]
pub struct Failing {
    single: BTreeSet<u64>,
    /// First of the calls that all fail, if there is one
    stop: Option<u64>,
    made: u64,
}

impl Failing {
    ghost use Rattle.mkv_memory.specs.Failing.{called, is_to_fail, no_failures, with_failure, with_stop};
    ghost use Rattle.mkv_memory.specs.FailingIn.{failures_in};

    /// Returns a set without calls that must fail; no call was made yet. A disk in memory begins with it.
    pub fn new(alloc: Global) -> Failing
        ensures { failures_in result ≡ no_failures }
    {
        Failing {
            single: BTreeSet::new(alloc),
            stop: None,
            made: 0,
        }
    }

    /// Sets the call with the number `call`, counted from 0, to fail. `MemDisk::fail_at` calls it.
    pub fn fail_at(&mut self, call: u64) -> Result<(), AllocError>
        ensures ok { OnOk result (failures_in self.new ≡ with_failure (failures_in self.old) call) }
        ensures err { OnErr result (failures_in self.new ≡ failures_in self.old) }
    {
        self.single.insert(call)?;
        Ok(())
    }

    /// Sets the call with the number `call`, counted from 0, and all later ones to fail. `MemDisk::stop_at` calls it.
    pub fn stop_at(&mut self, call: u64)
        ensures { failures_in self.new ≡ with_stop (failures_in self.old) call }
    {
        self.stop = Some(self.stop.map_or(call, |stop| stop.min(call)));
    }

    /// Counts a call, and returns true if it must fail. Each call of a disk in memory begins with it. Used by `make`,
    /// `read_at` and others.
    pub fn next(&mut self) -> bool
        ensures fails { result ≡ is_to_fail (failures_in self.old) }
        ensures counted { failures_in self.new ≡ called (failures_in self.old) }
    {
        let fails = self.single.contains(&self.made)
            || self.stop.is_some_and(|stop| stop <= self.made);
        self.made = self.made.saturating_add(1);
        fails
    }
}
