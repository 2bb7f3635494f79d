//! Reasons why a header isn't read.

use mkv_io::Damage;

/// Reason why a header isn't read.
#[derive(Clone, Copy, Debug, PartialEq, Eq)]
pub enum HeadEnd {
    /// There is no valid Element at the offset.
    Damage(Damage),
    /// A read failed.
    ReadFault,
}
