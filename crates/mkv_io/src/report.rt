//! Lines that are printed for the user.

ghost use Rattle.std.specs.Prelude.{◌≡◌, ◌⊎◌, ℕ, List, ◌∷◌, [], Option, OnOk, OnErr};
ghost use Rattle.mkv_io.specs.Faults.{HasCause, is_failure};
ghost use Rattle.mkv_io.specs.Lines.{MaySay, with_lines};

use crate::outside::Failed;

/// Report, to which lines are added without allocating.
pub trait Report {
    /// Lines printed up to now, each without its line end, if they are visible to the proof.
    ghost lines: { Self → Option (List (List ℕ)) };

    /// Number of lines that couldn't be printed.
    ghost faults: { Self → ℕ };

    /// Prints `line` and a line end on the report. Used for each message and warning of a command. After a refusal the
    /// line may be there or not.
    fn say(&mut self, line: &str) -> Result<(), Failed>
        ensures ok { OnOk result (lines self.new ≡ with_lines (lines self.old) (line.now ∷ [])) }
        ensures err { OnErr result (MaySay (lines self.old) (lines self.new) line.now) }
        ensures cause { HasCause is_failure (faults self.old) (faults self.new) result };
}
