//! The kinds of lacing: RFC 9559, section 10.3 (Block Lacing).

/// Kind of lacing of a block's frames: RFC 9559, section 10.3 (Block Lacing).
#[derive(Clone, Copy, Debug, PartialEq, Eq)]
pub enum Lace {
    /// No lacing: one frame
    None,
    /// Xiph lacing: each size as bytes 255 and a smaller byte
    Xiph,
    /// Fixed-size lacing: frames of one size
    Fixed,
    /// EBML lacing: a size, then the difference of each size to the previous one
    Ebml,
}

/// Cause of a failure to divide bytes into frames.
#[derive(Clone, Copy, Debug, PartialEq, Eq)]
pub enum LaceEnd {
    /// No sizes of this number of frames fit the bytes
    Bad,
    /// Out of memory
    Memory,
}
