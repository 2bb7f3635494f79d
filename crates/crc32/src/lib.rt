#![tactic(auto)]

//! CRC-32 as a CRC-32 Element has it: RFC 8794, section 11.3.1 (CRC-32 Element), by ITU-T V.42, section 8.1.1.6.2.
//! Nothing here allocates. The definition is in `specs/Checksum.antt`.

mod checksum;
mod laws;
mod tables;

pub use checksum::Crc32;
pub use laws::checksums_leave_the_remainder;
pub use tables::Tables;
