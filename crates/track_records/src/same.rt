//! The comparison of two Elements with their contents, as they are written.

ghost use Rattle.std.specs.Prelude.{◌≡◌, ◌<◌, [], not, length, position, MatchOption};
ghost use Rattle.tree_format.specs.Node.{id_of};
ghost use Rattle.tree_format.specs.NormalForm.{is_filler};
ghost use Rattle.track_records.specs.Same.{without_fillers, IsFirstOf, is_same};

use ebml_tree::Tree;
use mkv_schema::ids::{CRC_32, VOID};

// Checks whether Elements with the ID `id` are left out when a tree is written, since they have no content of their own:
// Void and CRC-32. Used by `place_written` and `is_same`.
fn is_filler(id: u32) -> bool
    ensures { result ≡ is_filler id }
{
    id == VOID || id == CRC_32
}

// Returns the index of the first of `trees` that is neither Void nor CRC-32, from 0, or None if there is none. For
// `next_written`.
fn place_written(trees: &[Tree]) -> Option<usize>
    ensures exact { result ≡ position (λ n. not (is_filler (id_of n))) trees.now }
    ensures inside { MatchOption result (Unit {0}) (λ k. k < length trees.now) }
{
    trees.iter().position(|tree| !is_filler(tree.id()))
}

// Returns the first of `trees` that is neither Void nor CRC-32, and the trees behind it; None if there is none.
// `is_same` compares children with it.
fn next_written(trees: &[Tree]) -> Option<(&Tree, &[Tree])>
    ensures { MatchOption result (without_fillers trees.now ≡ []) (λ p. IsFirstOf p.0.now p.1.now trees.now) }
{
    let k = place_written(trees)?;
    Some((&trees[k], &trees[k + 1..]))
}

/// Checks whether `a` and `b` have the same ID, the same data and the same children in the same order, at every depth.
/// Offsets don't count, and neither do Void and CRC-32 among the children. `differs` compares the ContentEncodings of
/// two tracks with it.
pub(crate) fn is_same(a: &Tree, b: &Tree) -> bool
    ensures { result ≡ is_same a.now b.now }
{
    if a.id() != b.id() || a.body() != b.body() {
        return false;
    }
    let mut others = b.children();
    for tree in a.children() {
        if is_filler(tree.id()) {
            continue;
        }
        let Some((other, behind)) = next_written(others) else {
            return false;
        };
        if !is_same(tree, other) {
            return false;
        }
        others = behind;
    }
    next_written(others).is_none()
}
