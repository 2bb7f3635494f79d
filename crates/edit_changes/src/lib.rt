#![tactic(auto)]

//! Edits of a file's properties, before any byte is written. The crate has the table of properties, the changes of the
//! Info and of the children of Tracks, and the reasons to refuse them. It also fits Elements into the room of old ones.
//! See RFC 8794, section 11.3.2 (Void Element), and RFC 9559, sections 5.1.1 (SeekHead Element), 5.1.2 (Info Element)
//! and 5.1.4 (Tracks Element).

mod change;
mod editing;
mod fitting;
mod property;
mod refusal;
mod refusals;
mod seek_head;
mod select;
mod span;
mod table;
mod trees;
mod value;

pub use change::is_info;
pub use editing::{EditsEnd, edited};
pub use fitting::{fit, overwrite_or_void, shortest, void_header, whole};
pub use refusal::{EditRefusal, MAX_WRITTEN, Refusal, Room};
pub use refusals::{lacks, size_refusal, size_width, tail_refusal, twin_refusal};
pub use seek_head::seek_head_body;
pub use span::{number_of, span_of};
pub use trees::Trees;
