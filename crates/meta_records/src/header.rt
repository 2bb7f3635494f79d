//! Header of an Element in a master that isn't loaded whole

ghost use Rattle.std.specs.Prelude.{◌≡◌, ◌+◌, ◌-◌, ◌≤◌, length, min, Ok, Err, IfOk, IfErr};
ghost use Rattle.mkv_io.specs.Bounds.{ReadsUpTo};
ghost use Rattle.mkv_io.specs.declared.outside.TheConstants.{LONGEST_FILE};
ghost use Rattle.mkv_io.specs.Faults.{HasCause};
ghost use Rattle.mkv_io.specs.Sources.{IfTold, IsLive, file_size};
ghost use Rattle.mkv_schema.specs.Element.{element_at, element_in, in_master};
ghost use Rattle.meta_records.specs.Walk.{IsChild, ReadsAs, is_attachments_fault};

use crate::end::MetaEnd;
use elements::{Parent, read_header};
use mkv_io::{Damage, FileId, Reads};
use mkv_schema::Header;
use mkv_schema::limits::MAX_ELEMENT_HEADER_LEN;

/// Reads the header of the child at offset `at` of a master that ends at `end` and isn't loaded whole. Both are offsets
/// in `file`. Reads no byte from `end` onwards. Used for the children of an Attachments and of an AttachedFile.
pub(crate) fn child_header<R: Reads>(
    src: &mut R,
    file: FileId,
    at: u64,
    end: u64,
) -> Result<Header, MetaEnd>
    requires live { IsLive R.Reads src.old file }
    requires place { at ≤ end }
    requires inside { end ≤ file_size R.Reads src.old file }
    ensures exact { IfTold R.Reads src.old file (λ bytes. ReadsAs (element_at in_master bytes at end) result) }
    ensures child { IfOk result (IsChild at end) }
    ensures standing { R.standing src.new ≡ R.standing src.old }
    ensures cause { HasCause is_attachments_fault (R.reading_faults src.old) (R.reading_faults src.new) result }
    ensures octets { ReadsUpTo R.Reads src.old src.new (min (end - at) MAX_ELEMENT_HEADER_LEN) }
{
    let mut buffer = [0; MAX_ELEMENT_HEADER_LEN as usize];
    let len = (end - at).min(MAX_ELEMENT_HEADER_LEN);
    let octets = &mut buffer[..len as usize];
    src.read_at(file, at, octets)?;
    let total = src.size(file);
    let header = header_in(octets, total, at, end)?;
    Ok(header)
}

// Returns the header that the bytes `octets` begin with, in a file of `total` bytes. It is of a child at offset `at` of
// a master that ends at `end`. For `child_header`, when the attached files of a file are read.
fn header_in(octets: &[u8], total: u64, at: u64, end: u64) -> Result<Header, Damage>
    requires place { at ≤ LONGEST_FILE }
    requires inside { at + length octets.now ≤ end }
    ensures ok { IfOk result (λ h. element_in in_master octets.now total at end ≡ Ok h) }
    ensures err { IfErr result (λ d. element_in in_master octets.now total at end ≡ Err d) }
    ensures child { IfOk result (IsChild at end) }
{
    let header = read_header(octets, Parent::Master, total, at, end)?;
    Ok(header)
}
