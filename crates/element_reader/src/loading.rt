//! Reading of the whole data of an Element.

ghost use Rattle.std.specs.Prelude.{length, ◌≡◌, ◌≤◌, ◌↔◌, false, Some, IfOk, IsErrOf};
ghost use Rattle.mkv_io.specs.Bounds.{ReadsUpTo};
ghost use Rattle.mkv_io.specs.Faults.{HasCause};
ghost use Rattle.mkv_io.specs.Sources.{IfTold, IsLive, OnlyReads, file_size};
ghost use Rattle.mkv_schema.specs.Element.{is_unknown, known, stated_end};
ghost use Rattle.mkv_schema.specs.Value.{body_of};
ghost use Rattle.element_reader.specs.Load.{is_load_fault, limit_of, too_large};

use crate::collected::is_described;
use crate::limits::over;
use elements::known;
use mkv_io::{Bytes, Damage, FileId, Reads};
use mkv_schema::Header;
use mkv_schema::ids::{CUES, EBML, SEEK_HEAD};
use mkv_schema::limits::{MAX_CUES_LEN, MAX_HEADER_LEN, MAX_MASTER_LEN};
use std::alloc::Global;
use thiserror::Error;

/// Reason why the data of an Element isn't loaded.
#[derive(Debug, Drop, Error)]
pub enum LoadEnd {
    /// The data is longer than the limit for the Element's ID.
    #[error("TooLarge")]
    TooLarge(Damage),
    /// A read failed.
    #[error("ReadFault")]
    ReadFault,
    /// Memory ran out.
    #[error("Memory")]
    Memory,
}

// Returns the greatest length in bytes of the data that is loaded for an Element with the ID `id`, or None if there is
// no limit. Used by `too_large`.
fn limit_of(id: u32) -> Option<u64>
    ensures { result ≡ limit_of id }
{
    match id {
        EBML => Some(MAX_HEADER_LEN),
        SEEK_HEAD => Some(MAX_MASTER_LEN),
        CUES => Some(MAX_CUES_LEN),
        id if is_described(id) => Some(MAX_MASTER_LEN),
        _ => None,
    }
}

// Returns the damage of the Element `header` if its data is longer than the limit for its ID, or None. Used by `load`.
fn too_large(header: &Header) -> Option<Damage>
    ensures { result ≡ too_large header.now }
{
    let limit = limit_of(header.id)?;
    over(limit, header)
}

/// Reads the data of the Element `header` of `file`, whose size is known. Refuses data that is longer than the limit
/// for its ID: 65,536 bytes for EBML, 64 MiB for Cues, 16 MiB for Info, Tracks, Chapters, Tags and SeekHead. All
/// commands read the records of a file so. Used by `first_seek_head` of `edit_plan` and others.
pub fn load<R: Reads>(
    alloc: Global,
    src: &mut R,
    file: FileId,
    header: &Header,
) -> Result<Bytes, LoadEnd>
    requires live { IsLive R.Reads src.old file }
    requires known { is_unknown header.now.size ≡ false }
    requires inside { stated_end header.now ≤ file_size R.Reads src.old file }
    ensures ok { IfOk result (λ body. IfTold R.Reads src.old file (λ bytes. body ≡ body_of bytes header.now)) }
    ensures length { IfOk result (λ body. length body ≡ known header.now.size) }
    ensures large { (d : Damage) → IsErrOf result (LoadEnd.TooLarge d) ↔ (too_large header.now ≡ Some d) }
    ensures same { OnlyReads R.Reads src.old src.new }
    ensures cause { HasCause is_load_fault (R.reading_faults src.old) (R.reading_faults src.new) result }
    ensures octets { ReadsUpTo R.Reads src.old src.new (known header.now.size) }
{
    if let Some(damage) = too_large(header) {
        return Err(LoadEnd::TooLarge(damage));
    }
    let len = known(header.size) as usize;
    let Ok(mut body) = vec![in alloc; 0; len] else {
        return Err(LoadEnd::Memory);
    };
    let Ok(()) = src.read_at(file, header.body, &mut body) else {
        return Err(LoadEnd::ReadFault);
    };
    Ok(Bytes::from_vec(body))
}
