//! Reading of the records that the identification of a file needs.

ghost use Rattle.std.specs.Prelude.{◌≡◌, IfOk};
ghost use Rattle.mkv_io.specs.Bounds.{ReadsUpTo};
ghost use Rattle.mkv_io.specs.Faults.{HasCause};
ghost use Rattle.mkv_io.specs.Sources.{IfTold, IsLive, file_size};
ghost use Rattle.element_reader.specs.Outline.{is_outline_fault};
ghost use Rattle.mkv_info.specs.Bound.{most_to_identify};
ghost use Rattle.mkv_info.specs.Sound.{CanBeTold};
ghost use Rattle.mkv_info.specs.Read.{ReadsFile, read_of};

use element_reader::{Outline, OutlineEnd};
use meta_records::{Records, read_records};
use mkv_io::{Damage, FileId, Reads};
use std::alloc::Global;

/// Records of a file and its damage, for its identification.
#[derive(Drop)]
pub struct FileRead {
    pub records: Records,
    /// First damage at level 1, which ends the part of the file that was read.
    pub damage: Option<Damage>,
}

/// Reads the outline and then the records of the open file `file`, for `merge -J`, or returns the first refusal.
#[tactic(auto, using(crate::proofs::ReadLemmas::told))]
pub fn read_file<R: Reads>(alloc: Global, src: &mut R, file: FileId) -> Result<FileRead, OutlineEnd>
    requires { IsLive R.Reads src.old file }
    ensures exact { IfTold R.Reads src.old file (λ bytes. ReadsFile (read_of bytes) result) }
    ensures sound { IfOk result (λ read. CanBeTold read.records) }
    ensures standing { R.standing src.new ≡ R.standing src.old }
    ensures cause { HasCause is_outline_fault (R.reading_faults src.old) (R.reading_faults src.new) result }
    ensures octets { ReadsUpTo R.Reads src.old src.new (most_to_identify (file_size R.Reads src.old file)) }
{
    let outline = Outline::read(alloc, src, file)?;
    let records = read_records(alloc, &outline, src, file)?;
    let damage = outline.damage();
    Ok(FileRead { records, damage })
}
