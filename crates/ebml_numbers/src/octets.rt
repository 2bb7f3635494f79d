//! Bytes of a written number.
ghost use Rattle.std.specs.Prelude.{◌≡◌, ◌-◌, ◌≤◌, ◌<◌, ◌^◌, drop, replicate};
ghost use Rattle.byteorder.specs.Endian.{big_bytes};

use byteorder::{BigEndian, ByteOrder};

/// Number as it is written.
#[derive(Clone, Copy, Debug, PartialEq, Eq)]
pub struct Octets {
    /// Bytes of the number, then zeros.
    pub bytes: [u8; 8],
    /// Length of the number in bytes: 1 to 8.
    pub len: u8,
    ghost some: { 1 ≤ len },
    ghost most: { len ≤ 8 },
    ghost zeros: { drop len bytes ≡ replicate (8 - len) 0 },
}

impl Octets {
    ghost use Rattle.ebml_numbers.specs.Octets.{octets_of};

    /// Returns the bytes of the written number, without the zeros after them. Writers append them to an output.
    pub fn as_slice(&self) -> &[u8]
        ensures { result.now ≡ octets_of self.now }
    {
        &self.bytes[..usize::from(self.len)]
    }

    /// Returns the number `value` in `width` bytes, the highest first. The functions that write sizes and integers end
    /// with it. Used by `put_size`, `put_uint` and others.
    pub(crate) fn big_endian(value: u64, width: u8) -> Octets
        requires some { 1 ≤ width }
        requires most { width ≤ 8 }
        requires fits { value < 256 ^ width }
        ensures octets { octets_of result ≡ big_bytes width value }
        ensures len { result.len ≡ width }
    {
        let mut bytes = [0; 8];
        BigEndian::write_uint(&mut bytes, value, usize::from(width));
        Octets { bytes, len: width }
    }
}
