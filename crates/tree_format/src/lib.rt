#![tactic(auto)]

//! Masters that are read whole, as trees. The crate defines the tree that bytes encode, the normal form that a tree
//! is written in, and changes of its children.
//!
//! The definitions, which higher crates use, are in `specs/`. The calls do nothing: they carry laws on the
//! definitions.

mod laws;
mod limits;

pub use laws::{
    children_change, elements_are_listed, limits_change_no_tree, sound_trees_are_read_again,
    trees_are_in_order,
};
pub use limits::MAX_NODES;
