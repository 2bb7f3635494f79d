//! Choice of the blocks that are read whole

/// Choice of the blocks of a file that are read whole; the frames of others may stay unread
#[derive(Clone, Copy, Debug, PartialEq, Eq)]
pub enum BlockFilter {
    /// Each block
    All,
    /// Blocks of the track with this TrackNumber; only the track of other blocks is known
    Track(u64),
    /// No block; only each head and frame count is known
    Heads,
}
