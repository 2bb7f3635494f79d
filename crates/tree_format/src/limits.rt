//! Limits of a reader. They are this project's.

/// Maximum number of Elements of a master that is read whole, itself included.
pub const MAX_NODES: u32 = 65_536;
