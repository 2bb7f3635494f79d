#![tactic(auto)]

//! The sizes of laced frames, read and written: RFC 9559, section 10.3 (Block Lacing).

mod difference;
mod kind;
mod laws;
mod reading;
mod settled;
mod writing;

pub use kind::{Lace, LaceEnd};
pub use laws::{head_settles_sizes, the_front_settles_the_lace, the_lace_is_read};
pub use reading::split;
pub use settled::is_settled;
pub use writing::{lace_len, put_lace};
