//! Making of a planned edit: journal first, then the file.

ghost use Rattle.std.specs.Prelude.{◌≡◌, ◌≤◌, ℕ, true, [], ◌∷◌, length, OnOk, IsTrue};
ghost use Rattle.mkv_io.specs.Faults.{HasCause, is_failure};
ghost use Rattle.mkv_io.specs.Sources.{IsLive};
ghost use Rattle.mkv_disk.specs.Pair.{both};
ghost use Rattle.mkv_disk.specs.Calls.{AnyMoment, AtRest, MakesPair, OfReads};
ghost use Rattle.mkv_disk.specs.Writing.{OnlyWrites};
ghost use Rattle.sidecar_edit.specs.Fields.{IsMadeFor, IsPlan, body_of, writes_of};
ghost use Rattle.sidecar_edit.specs.Recovery.{IsClosed};
ghost use Rattle.sidecar_edit.specs.Writes.{Fits, Torn, applied};
ghost use Rattle.sidecar_edit.specs.Leaves.{IsEditing};

use crate::gate::{close, set_gate};
use crate::place::OPEN;
use crate::plan::Plan;
use mkv_disk::{Disk, MEDIA, SIDECAR};
use mkv_io::Failed;

/// Writes the record of `plan` to the journal on `disk` after its closed gate, and syncs it. The edit isn't pending
/// yet. Used by `commit`.
fn write_record<D: Disk>(plan: &Plan, disk: &mut D) -> Result<(), Failed>
    requires live { IsLive D.Reads disk.old SIDECAR }
    requires settled { IsTrue D.told → D.pair disk.old ≡ both (D.pair disk.old).media.reads (0 ∷ []) }
    ensures ok { MakesPair D.Disk.own disk.old disk.new result (λ M S. both M (0 ∷ body_of plan.now)) }
    ensures any_moment { AnyMoment D.Disk.own disk.old disk.new (λ M S m s. (m ≡ M) × IsClosed s) }
    ensures sound { IsPlan plan.now }
    ensures only { OnlyWrites D.Reads D.Disk.own disk.old disk.new }
    ensures cause { HasCause is_failure (D.writing_faults disk.old) (D.writing_faults disk.new) result }
{
    disk.write_at(SIDECAR, 1, plan.body())?;
    disk.sync(SIDECAR)
}

/// Makes the writes of `plan` in the file on `disk`, and syncs them. The journal's gate is open meanwhile. Used by
/// `commit`.
fn write_media<D: Disk>(plan: &Plan, disk: &mut D) -> Result<(), Failed>
    requires live { IsLive D.Reads disk.old MEDIA }
    requires at_rest { AtRest D.Disk.own disk.old }
    requires fits { OfReads D.Disk.own disk.old (λ M S. Fits (length M) (writes_of plan.now)) }
    ensures ok { MakesPair D.Disk.own disk.old disk.new result (λ M S. both (applied M (writes_of plan.now)) S) }
    ensures any_moment { AnyMoment D.Disk.own disk.old disk.new (λ M S m s. Torn (writes_of plan.now) M m × (s ≡ S)) }
    ensures only { OnlyWrites D.Reads D.Disk.own disk.old disk.new }
    ensures cause { HasCause is_failure (D.writing_faults disk.old) (D.writing_faults disk.new) result }
{
    let mut rest = plan.payload();
    for place in plan.places() {
        let (bytes, behind) = rest.split_at(place.len as usize);
        disk.write_at(MEDIA, place.at, bytes)?;
        rest = behind;
    }
    disk.sync(MEDIA)
}

/// Makes the edit of `plan` in the file of `disk`, whose journal has no pending edit; `propedit` and `reindex` end with
/// it. A crash at any moment leaves a file and a journal that recover to the file before or after the edit. If the
/// journal has a pending edit then, it is exactly the plan's.
pub fn commit<D: Disk>(plan: &Plan, disk: &mut D) -> Result<(), DiskFault>
    requires live { (IsLive D.Reads disk.old MEDIA) × (IsLive D.Reads disk.old SIDECAR) }
    requires settled { IsTrue D.told → D.pair disk.old ≡ both (D.pair disk.old).media.reads (0 ∷ []) }
    requires some { 1 ≤ length plan.now.head.places }
    requires made { OfReads D.Disk.own disk.old (λ M S. IsMadeFor plan.now.head M) }
    ensures ok { MakesPair D.Disk.own disk.old disk.new result (λ M S. both (applied M (writes_of plan.now)) (0 ∷ [])) }
    ensures any_moment { AnyMoment D.Disk.own disk.old disk.new (λ M S m s. IsEditing plan.now M m s) }
    ensures only { OnlyWrites D.Reads D.Disk.own disk.old disk.new }
    ensures cause { HasCause (λ _. true) (D.writing_faults disk.old) (D.writing_faults disk.new) result }
{
    write_record(plan, disk)?;
    set_gate(disk, OPEN)?;
    write_media(plan, disk)?;
    close(disk)?;
    Ok(())
}

/// Failure of the disk.
#[derive(Clone, Copy, Debug, PartialEq, Eq)]
pub struct DiskFault;

impl From<Failed> for DiskFault {
    ghost from_gives = { λ _ _. Unit {0} };

    /// Returns the failure of an edit when a call on the disk failed.
    fn from(_failed: Failed) -> DiskFault {
        DiskFault
    }
}
