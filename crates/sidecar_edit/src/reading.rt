//! Reading of a journal's state, and of a file's first bytes.

ghost use Rattle.std.specs.Prelude.{◌≡◌, min, false, IfOk, IfSome, length, take};
ghost use Rattle.mkv_io.specs.Bounds.{ReadsUpTo};
ghost use Rattle.mkv_io.specs.Faults.{HasCause, is_failure};
ghost use Rattle.mkv_io.specs.Sources.{IfRead, IfTold, IsLive, OnlyReads, file_size};
ghost use Rattle.sidecar_edit.specs.Gate.{IsLiveHead, state};
ghost use Rattle.sidecar_edit.specs.Recovery.{is_disk_fault, unfit};
ghost use Rattle.sidecar_edit.specs.declared.place.TheConstants.{HEAD, KEPT};

use crate::fit::unfit;
use crate::head::gate_of;
use crate::held::Gate;
use crate::outcome::RecoverEnd;
use crate::place::{HEAD, KEPT};
use mkv_disk::{MEDIA, SIDECAR};
use mkv_io::{Failed, FileId, Reads};

/// Reads the first bytes of `file`, up to the length of `first`, into it, and returns their number. Used for a
/// journal's fields, and for the bytes that identify a file.
#[tactic(auto, using(std::proofs::lemmas::List::take_at))]
pub fn read_first<R: Reads>(src: &mut R, file: FileId, first: &mut [u8]) -> Result<usize, Failed>
    requires { IsLive R.Reads src.old file }
    ensures count { IfOk result (λ count. count ≡ min (length first.old) (file_size R.Reads src.old file)) }
    ensures ok { IfRead R.Reads src.old file result (λ count bytes. take count first.new ≡ take (length first.old) bytes) }
    ensures only { OnlyReads R.Reads src.old src.new }
    ensures cause { HasCause is_failure (R.reading_faults src.old) (R.reading_faults src.new) result }
    ensures octets { ReadsUpTo R.Reads src.old src.new (length first.old) }
{
    let count = src.size(file).min(first.len() as u64) as usize;
    src.read_at(file, 0, &mut first[..count])?;
    Ok(count)
}

/// Returns the state of the journal `file` in `src`, which decides whether its file may be used. It takes no memory. An
/// edit asks for it, and each command that reads a file. Used by `is_pending`.
pub fn state<R: Reads>(src: &mut R, file: FileId) -> Result<Gate, Failed>
    requires live { IsLive R.Reads src.old file }
    ensures ok { IfOk result (λ gate. IfTold R.Reads src.old file (λ bytes. gate ≡ state bytes)) }
    ensures only { OnlyReads R.Reads src.old src.new }
    ensures cause { HasCause is_failure (R.reading_faults src.old) (R.reading_faults src.new) result }
    ensures octets { ReadsUpTo R.Reads src.old src.new HEAD }
{
    let mut head = [0; HEAD as usize];
    let count = read_first(src, file, &mut head)?;
    Ok(gate_of(&head[..count], src.size(file)))
}

/// Returns the refusal if the writes of a pending record, whose journal has the first bytes `head`, don't fit the file
/// on the disk `src`, or None. Used by `redo_own`.
pub fn unfit_medium<R: Reads>(head: &[u8], src: &mut R) -> Result<Option<RecoverEnd>, Failed>
    requires live { IsLive R.Reads src.old MEDIA }
    requires head { IsLiveHead head.now (file_size R.Reads src.old SIDECAR) }
    ensures ok { IfRead R.Reads src.old MEDIA result (λ end bytes. end ≡ unfit head.now (length bytes) (take KEPT bytes)) }
    ensures refused { IfOk result (λ end. IfSome end (λ why. is_disk_fault why ≡ false)) }
    ensures only { OnlyReads R.Reads src.old src.new }
    ensures cause { HasCause is_failure (R.reading_faults src.old) (R.reading_faults src.new) result }
    ensures octets { ReadsUpTo R.Reads src.old src.new KEPT }
{
    let mut first = [0; KEPT as usize];
    let count = read_first(src, MEDIA, &mut first)?;
    Ok(unfit(head, src.size(MEDIA), &first[..count]))
}
