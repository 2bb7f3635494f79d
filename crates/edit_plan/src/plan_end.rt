//! Reasons why an edit has no plan.

ghost use Rattle.std.specs.Prelude.{◌≡◌};
ghost use Rattle.edit_plan.specs.declared.plan_end.PlanEnd.TheVariants as end;

use edit_changes::Refusal;
use mkv_io::Failed;
use std::alloc::AllocError;

/// Reason why an edit has no plan, so that the file stays as it is.
#[derive(Clone, Copy, Debug, PartialEq, Eq)]
pub enum PlanEnd {
    /// The edits are refused.
    Refused(Refusal),
    /// A read failed.
    ReadFault,
    /// Out of memory.
    Memory,
}

impl From<AllocError> for PlanEnd {
    ghost from_gives = { λ _ e. e ≡ end.Memory };

    /// Converts a failed allocation, for `?` in the functions that plan an edit.
    fn from(_error: AllocError) -> PlanEnd {
        PlanEnd::Memory
    }
}

impl From<Failed> for PlanEnd {
    ghost from_gives = { λ _ e. e ≡ end.ReadFault };

    /// Converts a failed read, for `?` in the functions that plan an edit.
    fn from(_failed: Failed) -> PlanEnd {
        PlanEnd::ReadFault
    }
}
