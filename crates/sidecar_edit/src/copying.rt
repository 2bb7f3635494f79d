//! Copying of bytes from the journal to the file, for `recover`.

ghost use Rattle.std.specs.Prelude.{◌≡◌, ◌<◌, ◌≤◌, ◌+◌, ◌^◌, ℕ, length, min, OnOk, IsTrue};
ghost use Rattle.mkv_io.specs.Faults.{is_failure};
ghost use Rattle.mkv_io.specs.Sources.{IsLive, file_size};
ghost use Rattle.mkv_disk.specs.Calls.{LeavesImages, OfReads};
ghost use Rattle.mkv_disk.specs.Writing.{HasDiskCause, KeepsOpen};
ghost use Rattle.sidecar_edit.specs.Copies.{IsCopied, with_copy};

use crate::place::Place;
use mkv_disk::{Disk, MEDIA, SIDECAR};
use mkv_io::Failed;

/// Greatest number of bytes that are copied at once.
const PIECE: u64 = 4096;

/// Copies bytes of the journal on `disk` from the offset `from` on to the place `place` of the file. They are safe only
/// after the next sync. Used by `redo_writes`.
pub fn copy<D: Disk>(disk: &mut D, from: u64, place: Place) -> Result<(), Failed>
    requires live { IsLive D.Reads disk.old MEDIA × IsLive D.Reads disk.old SIDECAR }
    requires range { from + place.len ≤ file_size D.Reads disk.old SIDECAR }
    requires short { place.at + place.len < 2 ^ 64 }
    requires inside { OfReads D.Disk.own disk.old (λ M S. place.at ≤ length M) }
    ensures ok { IsTrue D.told → OnOk result (IsCopied from place (D.pair disk.old) (D.pair disk.new)) }
    ensures any_moment { LeavesImages D.Disk.own disk.old disk.new (with_copy (D.pair disk.old) from place.at place.len) }
    ensures only { KeepsOpen D.Reads D.Disk.own disk.old disk.new place.len }
    ensures beside { file_size D.Reads disk.new SIDECAR ≡ file_size D.Reads disk.old SIDECAR }
    ensures cause { HasDiskCause D.Reads D.Disk.own is_failure disk.old disk.new result }
{
    let mut buffer = [0; PIECE as usize];
    let mut done = 0;
    while done < place.len {
        let step = (place.len - done).min(PIECE);
        let part = &mut buffer[..step as usize];
        copy_piece(disk, from + done, place.at + done, part)?;
        done += step;
    }
    Ok(())
}

/// Copies bytes from the offset `from` of the journal on `disk` to the offset `at` of the file, through `part`, whose
/// length is their number. Used by `copy`.
fn copy_piece<D: Disk>(disk: &mut D, from: u64, at: u64, part: &mut [u8]) -> Result<(), Failed>
    requires live { IsLive D.Reads disk.old MEDIA × IsLive D.Reads disk.old SIDECAR }
    requires range { from + length part.old ≤ file_size D.Reads disk.old SIDECAR }
    requires inside { OfReads D.Disk.own disk.old (λ M S. at ≤ length M) }
    ensures ok { IsTrue D.told → OnOk result (D.pair disk.new ≡ with_copy (D.pair disk.old) from at (length part.old)) }
    ensures any_moment { LeavesImages D.Disk.own disk.old disk.new (with_copy (D.pair disk.old) from at (length part.old)) }
    ensures only { KeepsOpen D.Reads D.Disk.own disk.old disk.new (length part.old) }
    ensures beside { file_size D.Reads disk.new SIDECAR ≡ file_size D.Reads disk.old SIDECAR }
    ensures cause { HasDiskCause D.Reads D.Disk.own is_failure disk.old disk.new result }
{
    disk.read_at(SIDECAR, from, part)?;
    disk.write_at(MEDIA, at, part)
}
