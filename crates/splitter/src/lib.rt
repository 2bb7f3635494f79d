#![tactic(auto)]

//! Cuts of a merged list at times, and the blocks of each part of an output

mod cuts;
mod driving;
mod laws;
mod names;
mod spec;
mod words;

pub use cuts::{Cuts, Place};
pub use driving::is_driver;
pub use laws::{
    part_names_are, part_names_differ, sections_are_cut, sections_go_on, steps_join,
    whole_is_one_part,
};
pub use names::{is_part_name, part_name};
pub use requests::SpanWords;
pub use spec::SplitSpec;
pub use words::{split_size, split_spec};
