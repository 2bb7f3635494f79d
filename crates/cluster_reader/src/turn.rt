//! Results of reading a child of a Cluster

use mkv_io::Damage;

/// Result of reading a child of a Cluster
#[derive(Clone, Copy)]
pub enum Child {
    /// Not a block; the Cluster's Timestamp after it, if it was read
    Passed(Option<u64>),
    /// Block, which is in the buffer
    Block,
    /// Damaged child
    Damaged(Damage),
}
