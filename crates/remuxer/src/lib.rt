#![tactic(auto)]

//! Merges: the blocks of a plan's output tracks, in order and placed, are cut into Clusters of one output, or of one
//! for each part. Some of them get a cue point.

mod counts;
mod durations;
mod info;
mod merging;
mod output;
mod parts;
mod placed;
mod planned;
mod run;
mod summary;
mod writer;

pub use merging::remux;
pub use run::{add_block, add_rest};
