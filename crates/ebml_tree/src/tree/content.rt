//! The contents of an Element.

ghost use Rattle.std.specs.Prelude.{◌≡◌, ◌≤◌, ◌<◌, ◌+◌, ◌==◌, ◌++◌, ◌∷◌, [], length, slice_get, find, flat_map, filter, take, drop, position, OnOk, OnErr, MatchOption, IsOk, Some};
ghost use Rattle.std.specs.Option.{option_copied};
ghost use Rattle.tree_format.specs.Node.{id_of, nodes_of, depth_all, deepest};
ghost use Rattle.tree_format.specs.NormalForm.{octets, longest};
ghost use Rattle.tree_format.specs.Changes.{without, with_child, placed_at, HasChild};

use crate::tree::Tree;
use crate::tree::writing::LONGEST;
use std::alloc::{AllocError, Global};

// Content of an Element in memory: bytes of a leaf, or children of a master.
#[cycle(tree)]
#[derive(Drop)]
pub(super) enum Content {
    Body(Vec<u8>),
    Children(Vec<Tree>),
}

impl Content {
    ghost use Rattle.ebml_tree.specs.View.{kids_of, octets_in, IsKids, HasKids};

    /// Returns the children in the content of a tree; none for a leaf. `Tree::children` returns them.
    pub(super) fn kids(&self) -> &[Tree]
        ensures { result.now ≡ kids_of self.now }
    {
        match self {
            Content::Body(_) => &[],
            Content::Children(trees) => trees.as_slice(),
        }
    }

    /// Returns the children by value when a tree is taken apart; none for a leaf. `Tree::into_children` calls it.
    pub(super) fn into_kids(self) -> Vec<Tree>
        ensures { result.items ≡ kids_of self }
    {
        match self {
            Content::Body(body) => Vec::new(*body.allocator()),
            Content::Children(trees) => trees,
        }
    }

    /// Returns the bytes in the content of a leaf; none for a master. `Tree::body` returns them.
    pub(super) fn body(&self) -> &[u8]
        ensures { result.now ≡ octets_in self.now }
    {
        match self {
            Content::Body(body) => body.as_slice(),
            Content::Children(_) => &[],
        }
    }

    /// Returns the allocator that the content uses. `put` makes its buffer with it.
    pub(super) fn alloc(&self) -> Global {
        match self {
            Content::Body(body) => *body.allocator(),
            Content::Children(trees) => *trees.allocator(),
        }
    }

    /// Appends `child` to the children of a master, for `Tree::push`. If memory runs out, the children stay as they
    /// were.
    pub(super) fn push(&mut self, child: Tree) -> Result<(), AllocError>
        requires { IsKids self.old }
        ensures ok { OnOk result (HasKids self.new (kids_of self.old ++ child ∷ [])) }
        ensures err { OnErr result (HasKids self.new (kids_of self.old)) }
    {
        match self {
            Content::Body(_) => unreachable!(),
            Content::Children(trees) => {
                trees.push(child)?;
                Ok(())
            }
        }
    }

    /// Puts `child` in the place of the first child with its ID and removes the others with this ID, or appends it, for
    /// `Tree::set`. It fails only if memory runs out for appending; the children then stay as they were.
    pub(super) fn set(&mut self, child: Tree) -> Result<(), AllocError>
        requires { IsKids self.old }
        ensures ok { OnOk result (HasKids self.new (with_child child (kids_of self.old))) }
        ensures err { OnErr result (HasKids self.new (kids_of self.old)) }
        ensures replaced { HasChild (id_of child) (kids_of self.old) → IsOk result }
    {
        match self {
            Content::Body(_) => unreachable!(),
            Content::Children(trees) => set_in(trees, child),
        }
    }

    /// Removes all children with the ID `id` from a master, for `Tree::remove`.
    pub(super) fn remove(&mut self, id: u32)
        requires { IsKids self.old }
        ensures { HasKids self.new (without id (kids_of self.old)) }
    {
        match self {
            Content::Body(_) => unreachable!(),
            Content::Children(trees) => remove_all(trees, id),
        }
    }
}

// Replaces the first of `trees` with the child's ID by `child` and removes the others with this ID, or appends `child`.
// `Content::set` does it on the children.
fn set_in(trees: &mut Vec<Tree>, child: Tree) -> Result<(), AllocError>
    ensures ok { OnOk result (trees.new.items ≡ with_child child trees.old.items) }
    ensures err { OnErr result (trees.new.items ≡ trees.old.items) }
    ensures replaced { HasChild (id_of child) trees.old.items → IsOk result }
{
    match place_of(trees.as_slice(), child.id()) {
        Some(k) => {
            put_at(trees, k, child);
            Ok(())
        }
        None => {
            trees.push(child)?;
            Ok(())
        }
    }
}

// Returns the index of the first of `trees` with the ID `id`, counted from 0, or None if there is none. `set_in`
// replaces it.
fn place_of(trees: &[Tree], id: u32) -> Option<usize>
    ensures exact { result ≡ position (λ n. id_of n == id) trees.now }
    ensures inside { MatchOption result (Unit {0}) (λ k. k < length trees.now) }
{
    trees.iter().position(|tree| tree.id() == id)
}

// Replaces the tree at the index `k` of `trees` by `child`, and removes all later ones with its ID, for `set_in`.
fn put_at(trees: &mut Vec<Tree>, k: usize, child: Tree)
    requires { k < length trees.old.items }
    ensures { trees.new.items ≡ placed_at child trees.old.items (Some k) }
{
    let id = child.id();
    trees[k] = child;
    remove_from(trees, k + 1, id);
}

// Removes the trees with the ID `id` from `trees`, starting at the index `from`, for `put_at`. The other trees keep
// their order.
fn remove_from(trees: &mut Vec<Tree>, from: usize, id: u32)
    requires { from ≤ length trees.old.items }
    ensures { trees.new.items ≡ take from trees.old.items ++ without id (drop from trees.old.items) }
{
    let mut kept = from;
    for k in from..trees.len() {
        if trees[k].id() != id {
            trees.swap(kept, k);
            kept += 1;
        }
    }
    trees.truncate(kept);
}

// Removes all trees with the ID `id` from `trees`, the children of a master. `Content::remove` calls it.
fn remove_all(trees: &mut Vec<Tree>, id: u32)
    ensures { trees.new.items ≡ without id trees.old.items }
{
    trees.retain(|tree| tree.id() != id);
}

// Returns the number of bytes of all `trees` as they are written, in their normal form. `Tree::remove` counts the rest
// so.
#[tactic(auto, using(crate::proofs::LoopLemmas::rest))]
pub(super) fn written_together(trees: &[Tree]) -> u64
    requires { length (flat_map octets trees.now) ≤ longest }
    ensures { result ≡ length (flat_map octets trees.now) }
{
    let mut sum = 0;
    for tree in trees {
        sum += tree.written_len();
    }
    sum
}

// Returns the number of bytes of `trees` as they are written, except the ones with the ID `id`. `Tree::set` counts what
// stays beside the new child.
#[tactic(auto, using(crate::proofs::LoopLemmas::others))]
pub(super) fn written_without(id: u32, trees: &[Tree]) -> u64
    requires { length (flat_map octets trees.now) ≤ longest }
    ensures { result ≡ length (flat_map octets (without id trees.now)) }
{
    let mut sum = 0;
    for tree in trees {
        if tree.id() != id {
            sum += tree.written_len();
        }
    }
    sum
}

// Returns the number of bytes of all `trees` as they are written, or None if the content of an Element can't have that
// number. `of_children` requires it of each master that is read.
#[tactic(auto, using(crate::proofs::LoopLemmas::rest))]
pub(super) fn written_within(trees: &[Tree]) -> Option<u64>
    ensures { MatchOption result (Unit {0}) (λ sum. (sum ≡ length (flat_map octets trees.now)) × (sum ≤ longest)) }
{
    let mut sum = 0;
    for tree in trees {
        sum += tree.written_len();
        if sum > LONGEST {
            return None;
        }
    }
    Some(sum)
}

// Returns the number of nested masters of a master around `trees`, itself included: 1 if `trees` are leaves. Kept in
// each tree that is read or changed. Used by `set`, `remove` and others.
#[tactic(auto, using(crate::proofs::LoopLemmas::rest))]
pub(super) fn depth_around(trees: &[Tree]) -> u8
    requires { depth_all (nodes_of trees.now) < deepest }
    ensures { result ≡ depth_all (nodes_of trees.now) + 1 }
{
    let mut most = 0;
    for tree in trees {
        most = tree.depth().max(most);
    }
    most + 1
}

// Returns the first of `trees`, the children of a master, with the ID `id`, or None if there is none. `Tree::child`
// returns it.
pub(super) fn first_of(trees: &[Tree], id: u32) -> Option<&Tree>
    ensures { option_copied result ≡ find (λ n. id_of n == id) trees.now }
{
    trees.iter().find(|tree| tree.id() == id)
}

/// Returns the tree at the index `k` of `trees`, counted from 0, or None if there is none. `Tree::at` reads its
/// children with it.
pub(super) fn tree_at(trees: &[Tree], k: usize) -> Option<&Tree>
    ensures { option_copied result ≡ slice_get trees.now k }
{
    trees.get(k)
}

// Returns the tree with the number `k`, counted from 0, among the ones of `trees` with the ID `id`. `Tree::nth` reads
// its children with it.
pub(super) fn nth_of(trees: &[Tree], id: u32, k: usize) -> Option<&Tree>
    ensures { option_copied result ≡ slice_get (filter (λ n. id_of n == id) trees.now) k }
{
    let mut before = k;
    for tree in trees {
        if tree.id() == id {
            if before == 0 {
                return Some(tree);
            }
            before -= 1;
        }
    }
    None
}
