//! Assembly of records from the inputs' ones

ghost use Rattle.std.specs.Prelude.{◌≡◌, ◌++◌, OnOk};
ghost use Rattle.tree_format.specs.Node.{children, id_of, with_children};
ghost use Rattle.ebml_tree.specs.Building.{IsRead};
ghost use Rattle.output_model.specs.Sound.{IsRecord};
ghost use Rattle.output_records.specs.Inputs.{with_some};

use ebml_tree::Tree;
use std::alloc::AllocError;

/// Appends the children of `other`, an input's Chapters or Tags, to the record `tree` of the output, which has the same
/// ID. Used by `push_chapters` and `push_tags`.
pub(crate) fn push_all(tree: &mut Tree, other: Tree) -> Result<(), AllocError>
    requires own { IsRecord (id_of tree.old) tree.old }
    requires other { IsRead (id_of tree.old) other }
    ensures exact { OnOk result (tree.new ≡ with_children tree.old (children tree.old ++ children other)) }
    ensures own { OnOk result (IsRecord (id_of tree.old) tree.new) }
{
    for child in other.into_children() {
        tree.push(child)?;
    }
    Ok(())
}

/// Returns the record `tree`, or None if it has no children and so isn't written. Used by `merge_records`.
pub(crate) fn with_some(tree: Tree) -> Option<Tree>
    ensures { result ≡ with_some tree }
{
    if tree.children().is_empty() {
        return None;
    }
    Some(tree)
}
