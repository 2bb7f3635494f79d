//! One change of a property, in the tree of an Info or a TrackEntry.

ghost use Rattle.std.specs.Prelude.{◌≡◌};
ghost use Rattle.tree_format.specs.Node.{IsMaster, id_of};
ghost use Rattle.tree_format.specs.Standing.{IsSound};
ghost use Rattle.edit_changes.specs.Change as spec;
ghost use Rattle.edit_changes.specs.Property.{is_info, value_of};
ghost use Rattle.edit_changes.specs.Made.{BecomesOrStays, Sounds};
ghost use Rattle.edit_changes.specs.Properties.{IsPropertyOf, section_of};
ghost use Rattle.edit_changes.specs.declared.change.EditEnd.TheVariants as end;

use crate::property::Property;
use crate::refusal::EditRefusal;
use crate::table::property_of;
use crate::value::leaf_of;
use ebml_tree::Tree;
use mkv_io::Text;
use requests::{Change, Edit, Selector};
use std::alloc::{AllocError, Global};

/// Reason why one edit isn't made.
#[derive(Clone, Copy, Debug, PartialEq, Eq)]
pub enum EditEnd {
    /// The edit is refused.
    Refused(EditRefusal),
    /// Out of memory.
    Memory,
}

impl From<AllocError> for EditEnd {
    ghost from_gives = { λ _ e. e ≡ end.Memory };

    /// Converts a failed allocation, for `?` in the functions that make one edit. Used by `shortest`, `size_width` and
    /// others.
    fn from(_error: AllocError) -> EditEnd {
        EditEnd::Memory
    }
}

/// Sets `property` to `value` in `tree`, as its only child with that ID. The new child takes the place of the first old
/// one, or comes last. A value that isn't one of the property is refused. Used by `apply` for `--set`.
#[tactic(auto, using(crate::proofs::ChangeLemmas::changes))]
fn set(alloc: Global, tree: &mut Tree, property: Property, value: &Text) -> Result<(), EditEnd>
    requires master { IsMaster tree.old }
    requires property { IsPropertyOf (id_of tree.old) property }
    ensures exact { BecomesOrStays result tree.old tree.new (spec.set property.id tree.old (value_of property.kind value.now)) }
    ensures sound { Sounds tree.old tree.new }
{
    let Some(leaf) = leaf_of(alloc, property, value)? else {
        return Err(EditEnd::Refused(EditRefusal::BadPropertyValue));
    };
    tree.set(leaf)?;
    Ok(())
}

/// Appends a child for `property` with `value` to `tree`. It refuses a value that isn't one of the property, and then a
/// property that exists. Used by `apply` for `--add`.
#[tactic(auto, using(crate::proofs::ChangeLemmas::changes))]
fn add(alloc: Global, tree: &mut Tree, property: Property, value: &Text) -> Result<(), EditEnd>
    requires master { IsMaster tree.old }
    requires property { IsPropertyOf (id_of tree.old) property }
    ensures exact { BecomesOrStays result tree.old tree.new (spec.added property.id tree.old (value_of property.kind value.now)) }
    ensures sound { Sounds tree.old tree.new }
{
    let Some(leaf) = leaf_of(alloc, property, value)? else {
        return Err(EditEnd::Refused(EditRefusal::BadPropertyValue));
    };
    if tree.child(property.id).is_some() {
        return Err(EditEnd::Refused(EditRefusal::AlreadyThere));
    }
    tree.push(leaf)?;
    Ok(())
}

/// Removes every child of `property` from `tree`; a mandatory property is refused. Used by `apply` for `--delete`.
#[tactic(auto, using(crate::proofs::ChangeLemmas::changes))]
fn delete(tree: &mut Tree, property: Property) -> Result<(), EditEnd>
    requires { IsMaster tree.old }
    ensures exact { BecomesOrStays result tree.old tree.new (spec.deleted property tree.old) }
    ensures sound { Sounds tree.old tree.new }
{
    if !property.deletable {
        return Err(EditEnd::Refused(EditRefusal::Mandatory));
    }
    tree.remove(property.id);
    Ok(())
}

/// Checks whether the selector `place` of an edit names the Info, and not a track. `edited` and `apply` choose the
/// Element and the table of properties by it.
pub fn is_info(place: Selector) -> bool
    ensures { result ≡ is_info place }
{
    matches!(place, Selector::Info)
}

/// Makes the change `edit` in `tree`, the Info or TrackEntry that it selects. `edited` does this for each edit of
/// `propedit`, in memory. A refused change leaves the tree as it was.
pub fn apply(alloc: Global, tree: &mut Tree, edit: &Edit) -> Result<(), EditEnd>
    requires master { IsMaster tree.old }
    requires section { id_of tree.old ≡ section_of (is_info edit.now.place) }
    ensures exact { BecomesOrStays result tree.old tree.new (spec.edited_node edit.now tree.old) }
    ensures sound { Sounds tree.old tree.new }
{
    match property_of(is_info(edit.place), edit.name.as_str()) {
        None => Err(EditEnd::Refused(EditRefusal::NoSuchProperty)),
        Some(property) => match edit.change {
            Change::Set => set(alloc, tree, property, &edit.value),
            Change::Add => add(alloc, tree, property, &edit.value),
            Change::Delete => delete(tree, property),
        },
    }
}
