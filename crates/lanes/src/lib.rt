#![tactic(auto)]

//! One output track, with blocks from one input or from appended inputs. It goes forwards, keeps one block, and
//! returns it as placed in the output. The crate also computes the end of a file over all output tracks that take its
//! blocks.

mod damages;
mod ends;
mod file_survey;
mod frames;
mod lane;
mod laws;
mod place;
mod survey_result;
mod tick;
mod turn;
mod walk;

pub use damages::LinkDamage;
pub use file_survey::survey;
pub use lane::{Lane, LaneBlock, LaneStep};
pub use laws::{ended_lanes_have_told_all, lanes_stand_over_writes};
pub use merge_model::{LaneSpec, Link, TextLink, TrackLink};
pub use mkv_io::Entry;
pub use output_model::OutHead;
pub use survey_result::{MAX_END, Survey};
