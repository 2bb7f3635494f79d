#![tactic(auto)]

//! Plan of a merge, and summary of its outputs, as plain values; `remuxer` carries out the plan. `specs/` defines the
//! outputs of a plan.

mod laws;
mod output;
mod plan;
mod summary;
mod uuids;

pub use laws::whole_is_one_output;
pub use merge_model::LaneSpec;
pub use output::OutputSpec;
pub use output_model::{ClusterLimits, CueRule, Front};
pub use plan::{MergePlan, PlannedLane};
pub use splitter::SplitSpec;
pub use summary::{InputDamage, MoreDamage, Summary, Written};
pub use uuids::{PartUuids, uuids_at};

/// Maximum number of inputs of a merge
pub const MAX_INPUTS: usize = 64;

/// Maximum nanoseconds per tick, so that the time of each block's tick fits in 64 bits
pub const MAX_SCALE: u64 = 1 << 63;
