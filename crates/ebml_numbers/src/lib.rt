#![tactic(auto)]

//! The numbers of EBML, read and written: RFC 8794, sections 4 (Variable-Size Integer) to 7 (EBML Element Types).
//! Nothing here allocates. The definitions are in `specs/Number.antt`, and the laws on written and read numbers in
//! `specs/Laws.antt`.

pub mod laws;
mod number;
mod octets;
mod reading;
mod vint;
mod writing;

pub use number::{IdRead, NumFault, Size, SizeRead};
pub use octets::Octets;
pub use reading::{read_id, read_int, read_size, read_uint};
pub use writing::{put_id, put_int, put_size, put_uint, size_width};
