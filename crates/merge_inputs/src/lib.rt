#![tactic(auto)]

//! Inputs of a merge before their blocks: the outline and records of a file, or the entries of a text. The command line
//! chooses their tracks (RFC 9559, section 5.1.4, Tracks). An input may be refused.

mod input;
mod kept;
pub mod laws;
mod reading;
mod select;
mod taken;
mod title;

pub use input::{Blocks, Input, InputEnd, InputRefusal, TrackTimes};
pub use reading::read_input;
pub use taken::TakenTrack;
