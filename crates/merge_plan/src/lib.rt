#![tactic(auto)]

//! The plan of a merge: the output for the inputs that were read and the options, or its refusal; and the beginnings
//! of appended inputs. Files are walked over only for these beginnings. Nothing is written here.

mod appending;
mod attached;
mod entries;
mod order;
mod outputs;
mod placing;
mod plan;
mod planned_lanes;
mod records;
mod refusal;
mod splitting;
mod title;
mod webm;

pub use appending::{AppendDiffers, append_refusal};
pub use attached::attached_input;
pub use placing::assign_append_offsets;
pub use plan::plan_of;
pub use planned_lanes::links_of;
pub use refusal::{PlanEnd, PlanRefusal};
pub use webm::is_webm_codec;
