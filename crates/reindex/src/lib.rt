#![tactic(auto)]

//! The index of an existing file, for the command `reindex`. It finds the blocks that get a cue point and their
//! positions, and plans the new Cues and SeekHead. See RFC 9559, sections 5.1.5 (Cues Element) and 16 (Segment
//! Position).

mod clusters;
mod cues;
mod indexable;
mod indexed;
mod indexing;
mod parts;
mod planning;
mod point;
mod reading;
mod scale;
mod tracks;

pub use indexed::Indexed;
pub use planning::plan_index;
pub use point::Point;
pub use reading::read_points;
