//! Check of the size of a record

ghost use Rattle.std.specs.Prelude.{◌≡◌, ◌-◌, ◌≤◌, nat_lt, length, flat_map};
ghost use Rattle.std.specs.Option.{SomeIff};
ghost use Rattle.mkv_schema.specs.declared.limits.TheConstants.{MAX_MASTER_LEN as MOST};
ghost use Rattle.tree_format.specs.Node.{IsMaster};
ghost use Rattle.tree_format.specs.NormalForm.{octets};
ghost use Rattle.tree_format.specs.Standing.{kept};
ghost use Rattle.output_records.specs.RecordLimits.{is_too_large};

use ebml_tree::{MAX_NODES, Tree};
use mkv_schema::limits::MAX_MASTER_LEN;

// Checks whether `children`, the children of a record, have more than 16 MiB as they are written. Used by
// `is_too_large`.
#[tactic(auto, using(ebml_tree::proofs::LoopLemmas::rest))]
fn are_long(children: &[Tree]) -> bool
    ensures { result ≡ nat_lt MOST (length (flat_map octets children.now)) }
{
    let mut left = MAX_MASTER_LEN;
    for child in children {
        let len = child.written_len();
        if left < len {
            return true;
        }
        left -= len;
    }
    false
}

// Returns `nodes` minus the number of written Elements in `tree`, or None if there are more. Elements that aren't
// written, like Void, have no bytes. Used by `is_too_large`.
fn nodes_left(nodes: u32, tree: &Tree) -> Option<u32>
    ensures { SomeIff result (kept tree.now ≤ nodes) (nodes - kept tree.now) }
{
    let mut left = nodes.checked_sub(1)?;
    for child in tree.children() {
        if child.written_len() > 0 {
            left = nodes_left(left, child)?;
        }
    }
    Some(left)
}

/// Checks whether the record `tree` of an output of `merge` is too large to be read again. It then has more than 16 MiB
/// after its header, or more than 65,536 Elements with itself. Void and CRC-32 aren't written, and don't count.
pub fn is_too_large(tree: &Tree) -> bool
    requires { IsMaster tree.now }
    ensures { result ≡ is_too_large tree.now }
{
    are_long(tree.children()) || nodes_left(MAX_NODES, tree).is_none()
}
