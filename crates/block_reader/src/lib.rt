#![tactic(auto)]

//! One block of a Cluster: a SimpleBlock or BlockGroup, read once into a reused buffer, and parsed (RFC 9559, section
//! 10, Cluster Blocks).

mod block;
mod buffer;
mod content;
mod front;
mod gathered;
mod head;
mod parts;
mod time;

pub use block_format::MAX_BLOCK_LEN;
pub use buffer::BlockBuffer;
pub use front::{BlockPreview, front_head, front_track};
pub use head::BlockHead;
pub use lacing::Lace;
