#![tactic(auto)]

//! Masters that are read whole, as trees: RFC 8794, section 7.7 (Master Element). A tree is read from a master's
//! bytes, changed, and written in the normal form. In this form headers are as short as possible, Void and CRC-32 are
//! left out, and other leaves keep their bytes.

mod end;
mod leaves;
mod masters;
mod tree;
mod values;

pub use end::TreeEnd;
pub use leaves::{text_leaf, uint_leaf};
pub use masters::empty;
pub use tree::Tree;
pub use tree_format::MAX_NODES;
pub use values::{integer_in, text_in, text_of, uint_in};
