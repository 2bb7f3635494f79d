#![tactic(auto)]

//! Clusters, filled block by block in a buffer that is reused: RFC 9559, section 5.1.3 (Cluster).

mod block;
mod buffer;
mod element;
mod front;
mod group;
mod joining;
mod lace;
mod lent;

pub use buffer::ClusterBuf;
pub use lent::{BlockLengths, BlockRef, element_len};
pub use output_model::{ClusterLimits, Lace, OutHead};
