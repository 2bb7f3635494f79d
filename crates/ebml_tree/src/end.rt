//! Causes of a failure to read a master as a tree.

ghost use Rattle.std.specs.Prelude.{◌≡◌};
ghost use Rattle.ebml_tree.specs.declared.end.TreeEnd.TheVariants as tree_end;

use mkv_io::Damage;
use std::alloc::{AllocError, AllocFailed};
use thiserror::Error;

/// End of reading a master without a tree.
#[derive(Debug, Drop, Error)]
pub enum TreeEnd {
    /// The master isn't made of valid Elements, or exceeds a limit.
    #[error("Damage")]
    Damage(Damage),
    /// Memory ran out.
    #[error("Memory")]
    Memory,
}

impl From<Damage> for TreeEnd {
    ghost from_gives = { λ damage end. end ≡ tree_end.Damage damage };

    /// Converts `damage`, for `?` in the functions that read a tree: the tree is refused for it.
    fn from(damage: Damage) -> TreeEnd {
        TreeEnd::Damage(damage)
    }
}

impl From<AllocError> for TreeEnd {
    ghost from_gives = { λ _ end. end ≡ tree_end.Memory };

    /// Converts a failed allocation, for `?` in the functions that read a tree.
    fn from(_error: AllocError) -> TreeEnd {
        TreeEnd::Memory
    }
}

impl<T: Drop> From<AllocFailed<T>> for TreeEnd {
    ghost from_gives = { λ _ end. end ≡ tree_end.Memory };

    /// Converts a failed allocation that returns its value, which is dropped, for `?` in the functions that read a
    /// tree.
    fn from(_failed: AllocFailed<T>) -> TreeEnd {
        TreeEnd::Memory
    }
}
