//! The plan of a new index: what `reindex` writes over a file.

ghost use Rattle.std.specs.Prelude.{◌≡◌, ◌≤◌, ◌+◌, ◌*◌, length, map, IfOk, Ok};
ghost use Rattle.mkv_io.specs.Faults.{HasCause};
ghost use Rattle.mkv_io.specs.Sources.{IfTold, IsLive, file_size};
ghost use Rattle.mkv_disk.specs.Calls.{OfReads};
ghost use Rattle.sidecar_edit.specs.declared.place.TheConstants.{KEPT as KEPT_OCTETS};
ghost use Rattle.sidecar_edit.specs.Fields.{IsPlan};
ghost use Rattle.element_reader.specs.Outline.{is_outline_fault, outline_in};
ghost use Rattle.edit_changes.specs.Plan as spec;
ghost use Rattle.edit_plan.specs.Answer.{Gives, is_plan_fault};
ghost use Rattle.edit_plan.specs.Shown.{written};
ghost use Rattle.reindex.specs.Found.{IsFound, WritesFound, ends_as};
ghost use Rattle.reindex.specs.Plan.{indexed_of};
ghost use Rattle.mkv_io.specs.Bounds.{ReadsOf, ReadsUpTo};

use crate::indexable::IndexableFile;
use crate::indexed::Indexed;
use crate::parts::cues_parts;
use crate::reading::read_points;
use edit_changes::{Refusal, twin_refusal};
use edit_plan::{PlanEnd, Rewriting, Write, parts_writes, read_trees, recorded};
use element_reader::{Outline, OutlineEnd};
use mkv_disk::{Disk, MEDIA};
use mkv_io::{FileId, Reads};
use mkv_schema::ids::{ATTACHMENTS, CHAPTERS, CUES, INFO, TAGS, TRACKS};
use sidecar_edit::{KEPT, Plan, read_first};
use std::alloc::Global;

/// IDs that get new Seeks in the SeekHead of a file with a new index.
const INDEXED: [u32; 6] = [INFO, TRACKS, ATTACHMENTS, CUES, CHAPTERS, TAGS];

// Returns the error of the plan for a file that couldn't be read: `end` as a refusal, a failed read, or out of memory.
// Used by `plan_index`.
fn plan_end(end: OutlineEnd) -> PlanEnd
    ensures exact { result ≡ ends_as end }
    ensures cause { is_plan_fault result ≡ is_outline_fault end }
{
    match end {
        OutlineEnd::Refused(damage) => PlanEnd::Refused(Refusal::Damaged(damage)),
        OutlineEnd::ReadFault => PlanEnd::ReadFault,
        OutlineEnd::Memory => PlanEnd::Memory,
    }
}

// Reads the outline of `file`, checks its records, and finds the cue points of its blocks. Any damage is refused. Used
// by `plan_index`.
fn find<R: Reads>(alloc: Global, src: &mut R, file: FileId) -> Result<IndexableFile, OutlineEnd>
    requires { IsLive R.Reads src.old file }
    ensures exact { IfTold R.Reads src.old file (λ bytes. IsFound bytes result) }
    ensures total { IfOk result (λ found. found.outline.total ≡ file_size R.Reads src.old file) }
    ensures standing { R.standing src.new ≡ R.standing src.old }
    ensures cause { HasCause is_outline_fault (R.reading_faults src.old) (R.reading_faults src.new) result }
    ensures octets { ReadsUpTo R.Reads src.old src.new (25 * file_size R.Reads src.old file) }
{
    let outline = Outline::read(alloc, src, file)?;
    let trees = read_trees(alloc, &outline, src, file)?;
    let points = read_points(alloc, &outline, &trees, src, file)?;
    Ok(IndexableFile { outline, points })
}

// Returns the writes of the new Cues and SeekHead for the file `found`, which is open as `file`, sorted by offset, or
// their refusal. A second Cues is refused. Used by `plan_index`.
fn writes_of<R: Reads>(
    alloc: Global,
    found: &IndexableFile,
    src: &mut R,
    file: FileId,
) -> Result<Vec<Write>, PlanEnd>
    requires live { IsLive R.Reads src.old file }
    requires whole { found.now.outline.total ≡ file_size R.Reads src.old file }
    ensures exact { WritesFound R.Reads src.old file found.now result }
    ensures standing { R.standing src.new ≡ R.standing src.old }
    ensures cause { HasCause is_plan_fault (R.reading_faults src.old) (R.reading_faults src.new) result }
    ensures octets { ReadsUpTo R.Reads src.old src.new (file_size R.Reads src.old file) }
{
    let outline = &found.outline;
    if let Some(refusal) = twin_refusal(outline, CUES) {
        return Err(PlanEnd::Refused(refusal));
    }
    let parts = cues_parts(alloc, outline, found.points.as_slice())?;
    let rewriting = Rewriting {
        ids: &INDEXED,
        always: true,
    };
    parts_writes(alloc, &rewriting, outline, parts.as_slice(), src, file)
}

// Returns the journal's record of `writes` over the file on `disk`, with the file's length and first 64 bytes. Used by
// `plan_index`.
fn plan_of<D: Disk>(alloc: Global, disk: &mut D, writes: &[Write]) -> Result<Plan, PlanEnd>
    requires { IsLive D.Reads disk.old MEDIA }
    ensures exact { OfReads D.Disk.own disk.old (λ M S. Gives (Ok (spec.recorded M (map written writes.now))) result) }
    ensures sound { IfOk result IsPlan }
    ensures some { IfOk result (λ plan. 1 ≤ length plan.head.places) }
    ensures standing { D.standing disk.new ≡ D.standing disk.old }
    ensures cause { HasCause is_plan_fault (D.reading_faults disk.old) (D.reading_faults disk.new) result }
    ensures octets { ReadsUpTo D.Reads disk.old disk.new KEPT_OCTETS }
{
    let mut first = [0; KEPT as usize];
    let count = read_first(disk, MEDIA, &mut first)?;
    let old_len = disk.size(MEDIA);
    let plan = recorded(alloc, old_len, &first[..count], writes)?;
    Ok(plan)
}

/// Plans a new index of the file on `disk`, for `reindex`: returns the journal's record of its new Cues and SeekHead,
/// or the first refusal. Each keyframe of a video or subtitle track gets a cue point. All memory is taken here, and
/// nothing is written. If others write to the file meanwhile, the writes may be ones that no content has; the call then
/// fails with `Memory`.
pub fn plan_index<D: Disk>(alloc: Global, disk: &mut D) -> Result<Indexed, PlanEnd>
    requires { IsLive D.Reads disk.old MEDIA }
    ensures exact { OfReads D.Disk.own disk.old (λ M S. Gives (indexed_of M) result) }
    ensures sound { IfOk result (λ indexed. IsPlan indexed.plan) }
    ensures some { IfOk result (λ indexed. 1 ≤ length indexed.plan.head.places) }
    ensures standing { D.standing disk.new ≡ D.standing disk.old }
    ensures cause { HasCause is_plan_fault (D.reading_faults disk.old) (D.reading_faults disk.new) result }
    ensures octets { ReadsOf D.Reads disk.old disk.new MEDIA (λ size. 26 * size + KEPT_OCTETS) }
{
    let found = match find(alloc, disk, MEDIA) {
        Ok(found) => found,
        Err(end) => return Err(plan_end(end)),
    };
    let writes = writes_of(alloc, &found, disk, MEDIA)?;
    let plan = plan_of(alloc, disk, writes.as_slice())?;
    Ok(Indexed {
        plan,
        cues: found.points.len() as u64,
    })
}
