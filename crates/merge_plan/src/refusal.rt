//! Reasons why there is no plan.

ghost use Rattle.std.specs.Prelude.{◌≡◌};
ghost use Rattle.merge_plan.specs.declared.refusal.PlanEnd.TheVariants as plan_end;

use mkv_io::Text;
use std::alloc::AllocError;

/// Reason to refuse a merge whose inputs were read.
#[derive(Debug, Drop)]
pub enum PlanRefusal {
    /// No track is selected.
    NoLane,
    /// More than 64 tracks are selected.
    TooManyLanes,
    /// WebM doesn't allow a track with this CodecID.
    NotWebm { codec: Text },
    /// The record with this ID would be too large to be read again.
    HeaderTooLarge { id: u32 },
}

/// Reason why there is no plan.
#[derive(Debug, Drop)]
pub enum PlanEnd {
    /// The merge is refused.
    Refused(PlanRefusal),
    /// Out of memory.
    Memory,
}

impl From<AllocError> for PlanEnd {
    ghost from_gives = { λ _ end. end ≡ plan_end.Memory };

    fn from(_error: AllocError) -> PlanEnd {
        PlanEnd::Memory
    }
}
