//! New leaves.

ghost use Rattle.std.specs.Prelude.{◌≡◌, ℕ, IfOk, IsTrue};
ghost use Rattle.ebml_numbers.specs.Number.{is_id};
ghost use Rattle.tree_format.specs.Node.{leaf};
ghost use Rattle.tree_format.specs.Standing.{StandsIn};
ghost use Rattle.tree_format.specs.Children.{uint_leaf};
ghost use Rattle.ebml_tree.specs.Leaves.{IsUintIn, IsTextIn};

use crate::tree::Tree;
use ebml_numbers::put_uint;
use std::alloc::{AllocError, Global};

/// Returns a new leaf with the ID `id` and the unsigned integer `value` in the fewest bytes (RFC 8794, section 7.2,
/// Unsigned Integer Element). Used to build the entries, Info and edits that are written.
pub fn uint_leaf(alloc: Global, id: u32, value: u64) -> Result<Tree, AllocError>
    requires { IsTrue (is_id id) }
    ensures exact { IfOk result (λ tree. tree ≡ uint_leaf id value) }
    ensures stands { (parent : ℕ) → IsUintIn parent id → IfOk result (StandsIn parent) }
{
    let octets = put_uint(value);
    Tree::leaf(alloc, id, octets.as_slice())
}

/// Returns a new leaf with the ID `id` and the text `text` (RFC 8794, sections 7.4, String Element, and 7.5, UTF-8
/// Element). Used to build the entries, Info and edits that are written.
pub fn text_leaf(alloc: Global, id: u32, text: &str) -> Result<Tree, AllocError>
    requires { IsTrue (is_id id) }
    ensures exact { IfOk result (λ tree. tree ≡ leaf id 0 text.now) }
    ensures stands { (parent : ℕ) → IsTextIn parent id → IfOk result (StandsIn parent) }
{
    Tree::leaf(alloc, id, text.as_bytes())
}
