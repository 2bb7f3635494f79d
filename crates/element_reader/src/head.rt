//! The header of an Element at any offset of a file.

ghost use Rattle.std.specs.Prelude.{◌≤◌, IfOk};
ghost use Rattle.mkv_io.specs.Bounds.{ReadsUpTo};
ghost use Rattle.mkv_io.specs.Faults.{HasCause};
ghost use Rattle.mkv_io.specs.Sources.{IfTold, IsLive, OnlyReads, file_size};
ghost use Rattle.mkv_schema.specs.Element.{anywhere, element_at};
ghost use Rattle.elements.specs.Looks.{IsFound};
ghost use Rattle.element_reader.specs.Head.{IsHead, is_head_fault};

use crate::head_end::HeadEnd;
use elements::{Parent, read_header};
use mkv_io::{FileId, Reads};
use mkv_schema::Header;
use mkv_schema::limits::MAX_ELEMENT_HEADER_LEN;

/// Reads the header of the Element at the offset `at` of `file`, in a parent that ends at the offset `end`. Every
/// Segment and every Cluster may have an unknown size. Reads at most `MAX_ELEMENT_HEADER_LEN` bytes. For a caller that
/// has an offset and no outline; no command uses it.
pub fn header_at<R: Reads>(src: &mut R, file: FileId, at: u64, end: u64) -> Result<Header, HeadEnd>
    requires live { IsLive R.Reads src.old file }
    requires place { at ≤ end }
    requires inside { end ≤ file_size R.Reads src.old file }
    ensures exact { IfTold R.Reads src.old file (λ bytes. IsHead (element_at anywhere bytes at end) result) }
    ensures found { IfOk result (IsFound anywhere at end) }
    ensures same { OnlyReads R.Reads src.old src.new }
    ensures cause { HasCause is_head_fault (R.reading_faults src.old) (R.reading_faults src.new) result }
    ensures octets { ReadsUpTo R.Reads src.old src.new MAX_ELEMENT_HEADER_LEN }
{
    let mut buffer = [0; MAX_ELEMENT_HEADER_LEN as usize];
    let len = (end - at).min(MAX_ELEMENT_HEADER_LEN);
    let octets = &mut buffer[..len as usize];
    let Ok(()) = src.read_at(file, at, octets) else {
        return Err(HeadEnd::ReadFault);
    };
    let total = src.size(file);
    match read_header(octets, Parent::Any, total, at, end) {
        Ok(header) => Ok(header),
        Err(damage) => Err(HeadEnd::Damage(damage)),
    }
}
