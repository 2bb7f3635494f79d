//! Standard output, as the report of a run.

ghost use Rattle.std.specs.Prelude.{◌≡◌, ℕ};

use mkv_io::{Failed, Report};
use std::io::Print;

/// Standard output, which a run prints its lines to. They aren't visible to the proof, since the system doesn't report
/// what becomes of them.
#[derive(Drop)]
pub struct RealReport<'a, R: Print> {
    system: &'a R,
    faults: u64,
}

impl<'a, R: Print> RealReport<'a, R> {
    /// Returns standard output over the calls of `system`; no line has failed. The program makes one for each run.
    pub fn new(system: &'a R) -> RealReport<'a, R>
        ensures { result.faults ≡ 0 }
    {
        RealReport { system, faults: 0 }
    }
}

impl<'a, R: Print> Report for RealReport<'a, R> {
    ghost use Rattle.std.specs.Prelude.{None};

    ghost lines = { λ _. None };

    ghost faults = { λ report. report.faults };

    // Prints `line` and a line end to standard output. Every message of a command is printed by it.
    fn say(&mut self, line: &str) -> Result<(), Failed> {
        if self.system.println(line).is_err() {
            self.faults = self.faults.saturating_add(1);
            return Err(Failed);
        }
        Ok(())
    }
}
