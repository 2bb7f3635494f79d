#![tactic(auto)]

//! The Elements of Matroska that this suite knows, with their kinds, parents and defaults. The definition of a
//! Matroska file: its Elements, the values of its leaves, and its outline.
//!
//! The standards are RFC 8794, sections 11.2 (EBML Header Elements) and 11.3 (Global Elements), and RFC 9559, section
//! 5 (Matroska Schema). The definitions are in `specs/`.

mod element;
pub mod element_laws;
pub mod ids;
mod kind;
pub mod laws;
pub mod limits;
mod parents;
mod schema;
mod table;
pub mod track_type;

pub use element::Header;
pub use kind::{ElementKind, Row};
pub use schema::{
    is_level0, is_level1, is_master, kind_under, may_stand, row, text_default, uint_default,
};
