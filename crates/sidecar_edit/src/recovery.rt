//! Completion of a pending edit, for `recover`.

ghost use Rattle.std.specs.Prelude.{◌≡◌, ◌+◌, [], ◌∷◌, length, Ok, IsTrue};
ghost use Rattle.mkv_io.specs.Faults.{is_failure};
ghost use Rattle.mkv_disk.specs.Pair.{both};
ghost use Rattle.mkv_disk.specs.Calls.{AnyMoment, IsReady, MakesPair, OfReads};
ghost use Rattle.mkv_disk.specs.Writing.{HasDiskCause, KeepsOpen};
ghost use Rattle.sidecar_edit.specs.Fields.{writes_in};
ghost use Rattle.sidecar_edit.specs.Recovery.{is_disk_fault, recovered, recovery};
ghost use Rattle.sidecar_edit.specs.Writes.{Fits, Torn, applied};
ghost use Rattle.sidecar_edit.specs.declared.place.TheConstants.{HEAD, KEPT, MAX_OCTETS};
ghost use Rattle.sidecar_edit.specs.Leaves.{IsRedoing};
ghost use Rattle.sidecar_edit.specs.Recovering.{IsHeadOf, IsRecovered, IsRecovering, KeepsUnlessApplied};

use crate::copying::copy;
use crate::gate::close;
use crate::head::{count_in, gate_of, head_len, place_in};
use crate::held::Gate;
use crate::outcome::{RecoverEnd, Recovered};
use crate::place::HEAD;
use crate::reading::{read_first, unfit_medium};
use mkv_disk::{Disk, MEDIA, SIDECAR};
use mkv_io::Failed;

/// Makes the writes of the pending record, whose journal on `disk` has the first bytes `head`, in the file, and syncs
/// them. Used by `redo`.
fn redo_writes<D: Disk>(head: &[u8], disk: &mut D) -> Result<(), Failed>
    requires ready { IsReady D.Reads D.Disk.own disk.old }
    requires head { IsHeadOf D.Reads D.Disk.own disk.old head.now }
    requires fits { OfReads D.Disk.own disk.old (λ M S. Fits (length M) (writes_in S)) }
    ensures ok { MakesPair D.Disk.own disk.old disk.new result (λ M S. both (applied M (writes_in S)) S) }
    ensures any_moment { AnyMoment D.Disk.own disk.old disk.new (λ M S m s. Torn (writes_in S) M m × (s ≡ S)) }
    ensures only { KeepsOpen D.Reads D.Disk.own disk.old disk.new MAX_OCTETS }
    ensures cause { HasDiskCause D.Reads D.Disk.own is_failure disk.old disk.new result }
{
    let mut from = head_len(head);
    for k in 0..count_in(head) {
        let place = place_in(head, k);
        copy(disk, from, place)?;
        from += place.len;
    }
    disk.sync(MEDIA)
}

/// Makes the writes of the pending record `head`, which belongs to the file of `disk`, and then closes the journal's
/// gate. Used by `redo_own`.
fn redo<D: Disk>(head: &[u8], disk: &mut D) -> Result<(), Failed>
    requires ready { IsReady D.Reads D.Disk.own disk.old }
    requires head { IsHeadOf D.Reads D.Disk.own disk.old head.now }
    requires own { OfReads D.Disk.own disk.old (λ M S. recovery M S ≡ Ok Recovered.Applied) }
    ensures ok { MakesPair D.Disk.own disk.old disk.new result (λ M S. both (recovered M S) (0 ∷ [])) }
    ensures any_moment { AnyMoment D.Disk.own disk.old disk.new IsRedoing }
    ensures only { KeepsOpen D.Reads D.Disk.own disk.old disk.new MAX_OCTETS }
    ensures cause { HasDiskCause D.Reads D.Disk.own is_failure disk.old disk.new result }
{
    redo_writes(head, disk)?;
    close(disk)
}

/// Makes the pending edit of the journal on `disk` with the first bytes `head`, unless it was made for another file.
/// Used by `recover`.
fn redo_own<D: Disk>(head: &[u8], disk: &mut D) -> Result<Recovered, RecoverEnd>
    requires ready { IsReady D.Reads D.Disk.own disk.old }
    requires head { IsHeadOf D.Reads D.Disk.own disk.old head.now }
    ensures ok { OfReads D.Disk.own disk.old (λ M S. IsRecovered M S result (D.pair disk.new)) }
    ensures same { KeepsUnlessApplied result (D.standing disk.old) (D.standing disk.new) }
    ensures any_moment { AnyMoment D.Disk.own disk.old disk.new IsRecovering }
    ensures only { KeepsOpen D.Reads D.Disk.own disk.old disk.new (KEPT + MAX_OCTETS) }
    ensures cause { HasDiskCause D.Reads D.Disk.own is_disk_fault disk.old disk.new result }
{
    if let Some(end) = unfit_medium(head, disk)? {
        return Err(end);
    }
    redo(head, disk)?;
    Ok(Recovered::Applied)
}

/// Completes the pending edit of the journal on `disk`, if there is one, and closes its gate; the command `recover`
/// does this. It takes no memory. A crash in the meantime leaves files that can be recovered in turn, to the same file.
pub fn recover<D: Disk>(disk: &mut D) -> Result<Recovered, RecoverEnd>
    requires { IsReady D.Reads D.Disk.own disk.old }
    ensures ok { OfReads D.Disk.own disk.old (λ M S. IsRecovered M S result (D.pair disk.new)) }
    ensures same { KeepsUnlessApplied result (D.standing disk.old) (D.standing disk.new) }
    ensures any_moment { AnyMoment D.Disk.own disk.old disk.new IsRecovering }
    ensures only { KeepsOpen D.Reads D.Disk.own disk.old disk.new (HEAD + KEPT + MAX_OCTETS) }
    ensures cause { HasDiskCause D.Reads D.Disk.own is_disk_fault disk.old disk.new result }
{
    let mut head = [0; HEAD as usize];
    let count = read_first(disk, SIDECAR, &mut head)?;
    let head = &head[..count];
    match gate_of(head, disk.size(SIDECAR)) {
        Gate::Quiet => Ok(Recovered::Nothing),
        Gate::Bad { offset } => Err(RecoverEnd::BadSidecar { offset }),
        Gate::Live => redo_own(head, disk),
    }
}
