#![tactic(auto)]

//! Merge of all output tracks into one list of blocks, in the order of writing

mod laws;
mod merge;
mod queue;
mod queues;
mod tournament;

pub use laws::{merges_stand_over_writes, started_lanes_are_merged};
pub use merge::Merge;
