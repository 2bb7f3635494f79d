//! Results of a cursor

use mkv_io::Damage;

/// Result of advancing a cursor
#[derive(Clone, Copy, Debug, PartialEq, Eq)]
pub enum Step {
    /// A block was read, and is available until the cursor is advanced again
    Block,
    /// All blocks and damaged places were reported
    End,
    /// Damaged place, after which the next call continues. That returns `End` if this damage ended the reading
    /// (`Cursor::stopped`).
    Damaged(Damage),
}
