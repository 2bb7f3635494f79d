//! The gate of a journal: its first byte, which is `OPEN` while an edit is pending. Any other value means a closed
//! gate.

ghost use Rattle.std.specs.Prelude.{◌≡◌, ◌≤◌, ℕ, [], ◌∷◌, length, drop, take, OnOk, IsTrue};
ghost use Rattle.mkv_io.specs.Faults.{HasCause, is_failure};
ghost use Rattle.mkv_io.specs.Sources.{IsLive};
ghost use Rattle.mkv_disk.specs.Pair.{both};
ghost use Rattle.mkv_disk.specs.Calls.{AnyMoment, AtRest, MakesPair, OfReads};
ghost use Rattle.mkv_disk.specs.Writing.{OnlyWrites};
ghost use Rattle.sidecar_edit.specs.Recovery.{IsClosed, IsQuiet};
ghost use Rattle.sidecar_edit.specs.Leaves.{IsGated};

use mkv_disk::{Disk, SIDECAR};
use mkv_io::Failed;

/// Writes `gate` to byte 0 of the journal on `disk`, and syncs the journal. That one byte decides whether an edit is
/// pending. An edit opens the gate before it writes to the file, and closes it afterwards. Used by `commit`, `close`
/// and others.
pub fn set_gate<D: Disk>(disk: &mut D, gate: u8) -> Result<(), Failed>
    requires live { IsLive D.Reads disk.old SIDECAR }
    requires at_rest { AtRest D.Disk.own disk.old }
    ensures ok { MakesPair D.Disk.own disk.old disk.new result (λ M S. both M (gate ∷ drop 1 S)) }
    ensures any_moment { AnyMoment D.Disk.own disk.old disk.new (λ M S m s. (m ≡ M) × IsGated S s) }
    ensures only { OnlyWrites D.Reads D.Disk.own disk.old disk.new }
    ensures cause { HasCause is_failure (D.writing_faults disk.old) (D.writing_faults disk.new) result }
{
    disk.write_at(SIDECAR, 0, &[gate])?;
    disk.sync(SIDECAR)
}

/// Truncates the journal of `disk`, whose gate is closed, to its first byte, and syncs it. Used by `close` and
/// `settle`.
pub fn cut_down<D: Disk>(disk: &mut D) -> Result<(), Failed>
    requires live { IsLive D.Reads disk.old SIDECAR }
    requires at_rest { AtRest D.Disk.own disk.old }
    requires closed { OfReads D.Disk.own disk.old (λ M S. (1 ≤ length S) × IsClosed S) }
    ensures ok { MakesPair D.Disk.own disk.old disk.new result (λ M S. both M (take 1 S)) }
    ensures any_moment { AnyMoment D.Disk.own disk.old disk.new (λ M S m s. (m ≡ M) × IsClosed s) }
    ensures only { OnlyWrites D.Reads D.Disk.own disk.old disk.new }
    ensures cause { HasCause is_failure (D.writing_faults disk.old) (D.writing_faults disk.new) result }
{
    disk.cut(SIDECAR, 1)?;
    disk.sync(SIDECAR)
}

/// Closes the gate of the journal of `disk`, and truncates the journal to it: no edit is pending any more. The last
/// step of an edit and of `recover`.
pub fn close<D: Disk>(disk: &mut D) -> Result<(), Failed>
    requires live { IsLive D.Reads disk.old SIDECAR }
    requires at_rest { AtRest D.Disk.own disk.old }
    ensures ok { MakesPair D.Disk.own disk.old disk.new result (λ M S. both M (0 ∷ [])) }
    ensures any_moment { AnyMoment D.Disk.own disk.old disk.new (λ M S m s. (m ≡ M) × IsGated S s) }
    ensures only { OnlyWrites D.Reads D.Disk.own disk.old disk.new }
    ensures cause { HasCause is_failure (D.writing_faults disk.old) (D.writing_faults disk.new) result }
{
    set_gate(disk, 0)?;
    cut_down(disk)
}

/// Turns a journal of `disk` without a pending edit into one byte, a closed gate. `propedit` and `reindex` do this
/// before `commit`. A longer journal is truncated first: after a torn write of the gate, an older record would count.
pub fn settle<D: Disk>(disk: &mut D) -> Result<(), Failed>
    requires live { IsLive D.Reads disk.old SIDECAR }
    requires at_rest { AtRest D.Disk.own disk.old }
    requires quiet { OfReads D.Disk.own disk.old (λ M S. IsQuiet S) }
    ensures ok { MakesPair D.Disk.own disk.old disk.new result (λ M S. both M (0 ∷ [])) }
    ensures any_moment { AnyMoment D.Disk.own disk.old disk.new (λ M S m s. (m ≡ M) × IsQuiet s) }
    ensures only { OnlyWrites D.Reads D.Disk.own disk.old disk.new }
    ensures cause { HasCause is_failure (D.writing_faults disk.old) (D.writing_faults disk.new) result }
{
    if disk.size(SIDECAR) > 1 {
        cut_down(disk)?;
    }
    set_gate(disk, 0)
}
