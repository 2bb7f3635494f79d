#![tactic(auto)]

//! The plan of an edit: the bytes that `propedit` and `reindex` write over a file, and the journal's record of them. It
//! reads the parts that edits change, and never writes itself. See RFC 9559, sections 5.1.1 (SeekHead Element), 5.1.2
//! (Info Element) and 5.1.4 (Tracks Element).

mod appended;
mod at_seek_head;
mod building;
mod counting;
mod found;
mod in_order;
pub mod laws;
mod new_seeks;
mod old_seek_head;
mod part;
mod part_writes;
mod plan_end;
mod planning;
mod prepared;
mod reading;
mod record;
mod refusing;
mod seek_rule;
mod size_field;
mod write;

pub use part::Part;
pub use part_writes::parts_writes;
pub use plan_end::PlanEnd;
pub use planning::edit_writes;
pub use reading::read_trees;
pub use record::{plan, recorded};
pub use seek_rule::Rewriting;
pub use write::Write;
