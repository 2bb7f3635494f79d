//! Counts of the Elements and bytes that are written. A count beyond 64 bits fails as out of memory.

ghost use Rattle.std.specs.Prelude.{◌≡◌, ◌+◌, IfOk};
ghost use Rattle.tree_format.specs.Node.{nodes_of};
ghost use Rattle.tree_format.specs.Standing.{kept, kept_all};

use ebml_tree::Tree;
use std::alloc::AllocError;

/// Returns `a + b`, for the lengths and counts of a plan. A sum above 64 bits fails as out of memory. Used by
/// `moving_seeks`, `moving_len` and others.
pub(crate) fn sum(a: u64, b: u64) -> Result<u64, AllocError>
    ensures { IfOk result (λ n. n ≡ a + b) }
{
    a.checked_add(b).ok_or(AllocError)
}

/// Returns the number of Elements that are written for `tree`, itself included, for `kept_all`. A child that isn't
/// written, such as a Void, counts as none.
fn kept(tree: &Tree) -> Result<u64, AllocError>
    ensures { IfOk result (λ n. n ≡ kept tree.now) }
{
    let mut count = 1;
    for child in tree.children() {
        if child.written_len() > 0 {
            count = sum(count, kept(child)?)?;
        }
    }
    Ok(count)
}

/// Returns the number of Elements that are written for `trees`, the children of one master, with all that is inside
/// them. An edit is refused if a new Element has too many. Used by `part`.
pub(crate) fn kept_all(trees: &[Tree]) -> Result<u64, AllocError>
    ensures { IfOk result (λ n. n ≡ kept_all (nodes_of trees.now)) }
{
    let mut count = 0;
    for tree in trees {
        if tree.written_len() > 0 {
            count = sum(count, kept(tree)?)?;
        }
    }
    Ok(count)
}
