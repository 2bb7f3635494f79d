//! Cases of checksums (`crc32`).

use crate::case::Case;
use crc32::{Crc32, Tables};
use std::alloc::AllocError;
use std::fmt::Write;

/// Appends to `text` the CRC-32 of the case's bytes in hexadecimal digits. It is the result of a test case `crc32`,
/// which `tell` of the test program prints. The bytes come in parts, of as many bytes as the case's number, or one.
pub fn tell_checksum(case: &Case, text: &mut String) -> Result<(), AllocError> {
    let tables = Tables::new();
    let mut crc = Crc32::new();
    for part in case.octets.as_slice().chunks(case.number.max(1) as usize) {
        crc.update(&tables, part);
    }
    let value = crc.value();
    write!(text, "  {value:08X}\n")
}
