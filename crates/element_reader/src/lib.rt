#![tactic(auto)]

//! The outline of a Matroska file: its EBML header, its Segment, and its Elements at level 1. Each command that reads a
//! file begins with it.

mod collected;
mod ebml;
mod ebml_children;
mod ebml_values;
mod head;
mod head_end;
pub mod laws;
mod level;
mod level_one;
mod limits;
mod loading;
mod outline;
mod outline_end;
mod segment;

pub use elements::{Parent, Window};
pub use head::header_at;
pub use head_end::HeadEnd;
pub use level::segment_bound;
pub use level_one::LevelOne;
pub use loading::{LoadEnd, load};
pub use mkv_schema::Header;
pub use outline::Outline;
pub use outline_end::OutlineEnd;
