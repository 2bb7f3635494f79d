//! Info of an output: RFC 9559, section 5.1.2 (Info).

ghost use Rattle.std.specs.Prelude.{◌≡◌, ◌<◌, IfOk, IsTrue, OnOk};
ghost use Rattle.ebml_numbers.specs.Number.{is_id};
ghost use Rattle.mkv_schema.specs.declared.ids.TheConstants.{INFO as INFO_ID};
ghost use Rattle.tree_format.specs.Node.{IsMaster, deepest, depth_all, id_of, nodes_of};
ghost use Rattle.tree_format.specs.Children.{given};
ghost use Rattle.remux_plan.specs.Uuids.{uuid_elements, uuid_leaf, with_uuids};
ghost use Rattle.remuxer.specs.Info.{with_more};

use ebml_tree::{Tree, empty};
use mkv_schema::ids::{INFO, NEXT_UUID, PREV_UUID, SEGMENT_UUID};
use remux_plan::PartUuids;
use std::alloc::{AllocError, Global};

// Appends copies of the Elements `children` to the Info `info`. Fails if memory runs out. For `info_with`.
fn add_copies(alloc: Global, info: &mut Tree, children: &[Tree]) -> Result<(), AllocError>
    requires master { IsMaster info.old }
    requires room { depth_all (nodes_of children.now) < deepest }
    ensures { OnOk result (info.new ≡ with_more info.old children.now) }
{
    for child in children {
        info.push(child.copy(alloc)?)?;
    }
    Ok(())
}

// Appends the Element `id` with the identifier `uuid`, highest byte first, to the Info `info`, if the identifier is
// given. Fails if memory runs out. For `add_uuids`.
fn add_uuid(alloc: Global, info: &mut Tree, id: u32, uuid: Option<u128>) -> Result<(), AllocError>
    requires master { IsMaster info.old }
    requires id { IsTrue (is_id id) }
    ensures added { OnOk result (info.new ≡ with_more info.old (given (uuid_leaf id) uuid)) }
    ensures master { IsMaster info.new }
{
    let Some(uuid) = uuid else {
        return Ok(());
    };
    info.push(Tree::leaf(alloc, id, &uuid.to_be_bytes())?)
}

// Appends the identifiers `uuids` of an output to its Info `info`: SegmentUUID, PrevUUID and NextUUID, each if present.
// Fails if memory runs out. For `info_with`.
fn add_uuids(alloc: Global, info: &mut Tree, uuids: PartUuids) -> Result<(), AllocError>
    requires { IsMaster info.old }
    ensures added { OnOk result (info.new ≡ with_more info.old (uuid_elements uuids)) }
    ensures master { IsMaster info.new }
{
    add_uuid(alloc, info, SEGMENT_UUID, uuids.own)?;
    add_uuid(alloc, info, PREV_UUID, uuids.before)?;
    add_uuid(alloc, info, NEXT_UUID, uuids.next)
}

/// Returns a copy of the Info `info` with the identifiers `uuids` after its first child. `write_own` makes the Info of
/// each output of `merge` so. Fails if memory runs out.
pub(crate) fn info_with(alloc: Global, info: &Tree, uuids: PartUuids) -> Result<Tree, AllocError>
    requires id { id_of info.now ≡ INFO_ID }
    requires master { IsMaster info.now }
    ensures { IfOk result (λ made. made ≡ with_uuids uuids info.now) }
{
    let mut made = empty(alloc, INFO, info.offset())?;
    let Some((first, others)) = info.children().split_first() else {
        return Ok(made);
    };
    made.push(first.copy(alloc)?)?;
    add_uuids(alloc, &mut made, uuids)?;
    add_copies(alloc, &mut made, others)?;
    Ok(made)
}
