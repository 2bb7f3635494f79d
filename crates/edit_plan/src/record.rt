//! The journal's record of an edit: it is written before the file is touched, so that an interrupted edit can be
//! finished.

ghost use Rattle.std.specs.Prelude.{◌≡◌, ◌≤◌, ◌+◌, ◌*◌, min, IfOk, MatchOption, length, map, flat_map};
ghost use Rattle.mkv_io.specs.Faults.{HasCause};
ghost use Rattle.mkv_io.specs.Sources.{IsLive, file_size};
ghost use Rattle.mkv_disk.specs.Calls.{OfReads};
ghost use Rattle.mkv_io.specs.declared.outside.TheConstants.{LONGEST_FILE as LONGEST};
ghost use Rattle.sidecar_edit.specs.declared.place.TheConstants.{KEPT as KEPT_OCTETS, MAX_OCTETS as MOST};
ghost use Rattle.sidecar_edit.specs.Fields.{AreInOrder, IsPlan, last_end, sum_of};
ghost use Rattle.sidecar_edit.specs.Writes as disk;
ghost use Rattle.edit_changes.specs.Plan as spec;
ghost use Rattle.edit_plan.specs.Answer.{Gives, is_plan_fault};
ghost use Rattle.edit_plan.specs.Record.{EndsInOrder, record_of, record_over};
ghost use Rattle.edit_plan.specs.Shown.{written};
ghost use Rattle.mkv_io.specs.Bounds.{ReadsOf};

use crate::plan_end::PlanEnd;
use crate::planning::edit_writes;
use crate::write::Write;
use mkv_disk::{Disk, MEDIA};
use mkv_io::{Bytes, List};
use requests::Edit;
use sidecar_edit::{KEPT, MAX_OCTETS, MAX_WRITES, Place, Plan, read_first};
use std::alloc::{AllocError, Global};

/// Returns the offset and length in bytes of each of `writes`, as the journal has them, for `recorded`.
fn places_of(alloc: Global, writes: &[Write]) -> Result<Vec<Place>, AllocError>
    ensures { IfOk result (λ places. places.items ≡ map spec.place (map written writes.now)) }
{
    let mut places = Vec::new(alloc);
    for write in writes {
        places.push(Place {
            at: write.at,
            len: write.octets.len() as u64,
        })?;
    }
    Ok(places)
}

/// Returns the bytes of `writes`, in sequence: the journal's payload, for `recorded`.
fn payload_of(alloc: Global, writes: &[Write]) -> Result<Bytes, AllocError>
    ensures { IfOk result (λ payload. payload ≡ flat_map (λ (w : disk.Write). w.bytes) (map written writes.now)) }
{
    let mut payload = Bytes::new(alloc);
    for write in writes {
        payload.append(write.octets.as_slice())?;
    }
    Ok(payload)
}

/// Returns the offset after the last of `places`, if they are in ascending order from the offset `from` on, for
/// `recorded`. None of them may be empty, or begin past the end of a file of `old_len` bytes with the previous places
/// written. Returns None if not.
fn end_behind(old_len: u64, from: u64, places: &[Place]) -> Option<u64>
    requires short { old_len ≤ LONGEST }
    requires small { sum_of places.now ≤ MOST }
    requires from { from + sum_of places.now ≤ LONGEST + MOST }
    ensures { MatchOption result (AreInOrder old_len from places.now → ⊥) (EndsInOrder old_len from places.now) }
{
    let [place, rest @ ..] = places else {
        return Some(from);
    };
    if place.len == 0 || place.at < from || place.at > old_len.max(from) {
        return None;
    }
    end_behind(old_len, place.at + place.len, rest)
}

/// Makes the journal's record of `writes` over a file of `old_len` bytes that begins with `first`. `propedit` and
/// `reindex` do this at the end of their plan. Writes that can't be recorded fail as out of memory; the writes of edits
/// can.
pub fn recorded(
    alloc: Global,
    old_len: u64,
    first: &[u8],
    writes: &[Write],
) -> Result<Plan, AllocError>
    requires short { old_len ≤ LONGEST }
    requires first { length first.now ≡ min KEPT_OCTETS old_len }
    ensures exact { IfOk result (λ plan. plan ≡ record_over old_len first.now (map written writes.now)) }
    ensures sound { IfOk result IsPlan }
    ensures some { IfOk result (λ plan. 1 ≤ length plan.head.places) }
{
    let places = places_of(alloc, writes)?;
    let payload = payload_of(alloc, writes)?;
    if places.is_empty() || places.len() as u64 > MAX_WRITES {
        return Err(AllocError);
    }
    if payload.len() as u64 > MAX_OCTETS {
        return Err(AllocError);
    }
    let Some(end) = end_behind(old_len, 0, places.as_slice()) else {
        return Err(AllocError);
    };
    Plan::new(
        alloc,
        old_len,
        old_len.max(end),
        first,
        places,
        payload.as_slice(),
    )
}

/// Plans `edits` of the file on `disk`, for `propedit`: returns the journal's record of their writes, or the first
/// refusal. All memory that an edit needs is taken here, and nothing is written. If others write to the file meanwhile,
/// the writes may be ones that no content has; the call then fails with `Memory`.
pub fn plan<D: Disk>(alloc: Global, disk: &mut D, edits: &List<Edit>) -> Result<Plan, PlanEnd>
    requires { IsLive D.Reads disk.old MEDIA }
    ensures exact { OfReads D.Disk.own disk.old (λ M S. Gives (record_of M edits.now) result) }
    ensures sound { IfOk result IsPlan }
    ensures some { IfOk result (λ plan. 1 ≤ length plan.head.places) }
    ensures standing { D.standing disk.new ≡ D.standing disk.old }
    ensures cause { HasCause is_plan_fault (D.reading_faults disk.old) (D.reading_faults disk.new) result }
    ensures octets { ReadsOf D.Reads disk.old disk.new MEDIA (λ size. 25 * size + KEPT_OCTETS) }
{
    let writes = edit_writes(alloc, disk, MEDIA, edits)?;
    let mut first = [0; KEPT as usize];
    let count = read_first(disk, MEDIA, &mut first)?;
    let old_len = disk.size(MEDIA);
    let plan = recorded(alloc, old_len, &first[..count], writes.as_slice())?;
    Ok(plan)
}
