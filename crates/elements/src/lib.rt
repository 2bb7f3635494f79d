#![tactic(auto)]

//! Reading of Elements in sequence: headers, the values of leaves, the window that a file is read through, and the
//! steps over level 1. The standards are RFC 8794, sections 5 to 7, and RFC 9559, section 5.1 (Segment Element).

mod buffered;
mod child;
mod header;
mod level_one;
mod lookahead;
mod parent;
mod segment;
mod small_window;
mod value;
mod walk;
mod window;

pub use child::{body_in, child_at, known};
pub use header::{damage, damage_at, read_header};
pub use level_one::{Level1Step, ends_segment, next_of_segment};
pub use lookahead::Lookahead;
pub use parent::Parent;
pub use segment::HasSegment;
pub use small_window::SmallWindow;
pub use value::{is_known_value, is_value, text_of};
pub use walk::{behind, cluster_end, end_in, ends_cluster, id_of};
pub use window::Window;

/// Number of bytes that are read at once for a few headers, and after the data of a block.
pub const LITTLE: usize = 1024;
