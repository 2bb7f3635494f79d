//! Masters that are built child by child.

ghost use Rattle.std.specs.Prelude.{ℕ, [], IfOk, IsTrue};
ghost use Rattle.mkv_schema.specs.Schema.{is_master};
ghost use Rattle.ebml_tree.specs.Building.{IsBuilt};

use crate::tree::Tree;
use std::alloc::{AllocError, Global};

/// Returns a master with the ID `id` and no children, to be filled with `push`. Its header is at the offset `offset` of
/// a file, or it is new if `offset` is 0.
pub fn empty(alloc: Global, id: u32, offset: u64) -> Result<Tree, AllocError>
    requires { IsTrue (is_master id) }
    ensures { (deep : ℕ) → IfOk result (IsBuilt id offset deep []) }
{
    match Tree::parse(alloc, id, offset, &[], 0, 1) {
        Ok(tree) => Ok(tree),
        Err(_) => Err(AllocError),
    }
}
