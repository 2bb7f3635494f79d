#![tactic(auto)]

//! The result of a merge by its inputs: the blocks of each output track, their timestamps in ticks, and the order of
//! all blocks. It also has the end of a file, which gives the append offset of the next one. The definitions, which
//! higher crates use, are in `specs/`.

mod limits;
mod link;

pub use limits::{MAX_LINKS, MAX_SHIFT, TOO_LARGE_DELAY};
pub use link::{LaneSpec, Link, TextLink, TrackLink};
