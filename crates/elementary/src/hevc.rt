//! Configuration of H.265 (HEVC): ISO/IEC 14496-15, section 8.3.3.1 (HEVCDecoderConfigurationRecord).

ghost use Rattle.std.specs.Prelude.{◌≡◌, false, IfOk, Err};
ghost use Rattle.elementary.specs.declared.configuration.ConfigEnd.TheVariants as config_end;
ghost use Rattle.elementary.specs.Avc.{IsLengthSize, AnswersAvc, ReadsSets};
ghost use Rattle.elementary.specs.Hevc.{array_at, arrays_at, has_hevc_front, hevc_of};

use crate::configuration::{Avc, ConfigEnd, read_sets};
use byteorder::{BigEndian, ByteOrder};
use mkv_io::{Bytes, List};
use std::alloc::Global;

/// Reads an HEVCDecoderConfigurationRecord, `private`: the CodecPrivate of an H.265 track. It is bad unless its version
/// is 1. It is also bad if the lengths of units take three bytes, if an array is cut off, or if a set is empty. The
/// kind of an array isn't looked at. No memory is taken before the first fields are checked. `extract` calls it before
/// it writes an H.265 track.
pub fn read_hevc(alloc: Global, private: &[u8]) -> Result<Avc, ConfigEnd>
    ensures exact { AnswersAvc (hevc_of private.now) result }
    ensures front { has_hevc_front private.now ≡ false → result ≡ Err config_end.Bad }
    ensures size { IfOk result (λ avc. IsLengthSize avc.length_size) }
{
    if !has_hevc_front(private) {
        return Err(ConfigEnd::Bad);
    }
    let mut sets = List::new(alloc);
    read_arrays(alloc, private[22], &private[23..], &mut sets)?;
    Ok(Avc {
        length_size: private[21] % 4 + 1,
        sets,
    })
}

/// Checks whether the fields of the configuration `private` before its arrays are there, its version is 1, and lengths
/// don't take three bytes. For `read_hevc`, when `extract` reads the CodecPrivate of a track.
fn has_hevc_front(private: &[u8]) -> bool
    ensures { result ≡ has_hevc_front private.now }
{
    private.len() >= 23 && private[0] == 1 && private[21] % 4 != 2
}

/// Appends the parameter sets of the first `count` arrays in `octets` to `sets`, and returns the bytes after them. For
/// `read_hevc`, when `extract` reads the CodecPrivate of a track.
fn read_arrays<'a>(
    alloc: Global,
    count: u8,
    octets: &'a [u8],
    sets: &mut List<Bytes>,
) -> Result<&'a [u8], ConfigEnd>
    ensures { ReadsSets (arrays_at count octets.now) sets.old sets.new result }
{
    let mut rest = octets;
    for _ in 0..count {
        rest = read_array(alloc, rest, sets)?;
    }
    Ok(rest)
}

/// Appends the parameter sets of the first array in `octets` to `sets`, and returns the bytes after it. An array is a
/// byte, the number of its sets in two bytes, and the sets. For `read_hevc`, when `extract` reads the CodecPrivate of a
/// track.
fn read_array<'a>(
    alloc: Global,
    octets: &'a [u8],
    sets: &mut List<Bytes>,
) -> Result<&'a [u8], ConfigEnd>
    ensures { ReadsSets (array_at octets.now) sets.old sets.new result }
{
    if octets.len() < 3 {
        return Err(ConfigEnd::Bad);
    }
    let count = BigEndian::read_u16(&octets[1..]);
    read_sets(alloc, count, &octets[3..], sets)
}
