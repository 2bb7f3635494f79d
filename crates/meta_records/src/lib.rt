#![tactic(auto)]

//! Records of a file: the scale of its Info, and its attached files without their data. They are also read together
//! with tracks, Chapters and Tags (RFC 9559, sections 5.1.2, Info, and 5.1.6, Attachments).

mod attached;
mod attachments;
mod counts;
mod end;
mod first;
mod first_attached;
mod header;
mod info;
mod limits;
mod part;
mod records;

pub use attachments::read_attachments;
pub use end::MetaEnd;
pub use file_format::DEFAULT_SCALE;
pub use first::first_tree;
pub use first_attached::first_attachments;
pub use info::{Info, read_info};
pub use limits::{MAX_ATTACHMENTS, MAX_ATTACHMENTS_LEN};
pub use records::{Records, good_info, read_records, scale_of};
