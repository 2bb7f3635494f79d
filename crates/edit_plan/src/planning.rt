//! The writes of the edits of a `propedit`.

ghost use Rattle.std.specs.Prelude.{◌≡◌, ◌*◌, ◌^◌, Ok, false, IfErr, IfOk};
ghost use Rattle.mkv_io.specs.Bounds.{ReadsUpTo};
ghost use Rattle.mkv_io.specs.Faults.{HasCause};
ghost use Rattle.mkv_io.specs.Sources.{IfTold, IsLive, file_size};
ghost use Rattle.element_reader.specs.Outline.{outline_in};
ghost use Rattle.edit_changes.specs.Change as change;
ghost use Rattle.edit_changes.specs.Plan.{if_editable, plan_of};
ghost use Rattle.edit_changes.specs.Trees.{AreSound};
ghost use Rattle.edit_plan.specs.Answer.{Answers, Gives, AnswersTrees, is_plan_fault};
ghost use Rattle.edit_plan.specs.Opening.{opening};

use crate::building::parts;
use crate::part_writes::parts_writes;
use crate::plan_end::PlanEnd;
use crate::reading::read_trees;
use crate::seek_rule::Rewriting;
use crate::write::Write;
use edit_changes::{EditsEnd, Refusal, Trees, edited};
use element_reader::{Outline, OutlineEnd};
use mkv_io::{FileId, List, Reads};
use mkv_schema::ids::{INFO, TRACKS};
use requests::Edit;
use std::alloc::Global;

/// IDs of the Elements that edits rewrite. If one of them moves, the SeekHead gets new Seeks for both.
const EDITED: [u32; 2] = [INFO, TRACKS];

/// Reads the outline of `file`, its Elements at level 1, when `edit_writes` begins. Damage at level 1 is refused.
#[tactic(auto, using(crate::proofs::StepLemmas::opens))]
fn open_outline<R: Reads>(alloc: Global, src: &mut R, file: FileId) -> Result<Outline, PlanEnd>
    requires { IsLive R.Reads src.old file }
    ensures exact { IfTold R.Reads src.old file (λ bytes. Gives (if_editable (opening bytes)) result) }
    ensures total { IfOk result (λ outline. outline.total ≡ file_size R.Reads src.old file) }
    ensures standing { R.standing src.new ≡ R.standing src.old }
    ensures cause { HasCause is_plan_fault (R.reading_faults src.old) (R.reading_faults src.new) result }
    ensures octets { ReadsUpTo R.Reads src.old src.new (4 * file_size R.Reads src.old file) }
{
    let outline = match Outline::read(alloc, src, file) {
        Ok(outline) => outline,
        Err(OutlineEnd::Refused(damage)) => {
            return Err(PlanEnd::Refused(Refusal::Damaged(damage)));
        }
        Err(OutlineEnd::ReadFault) => return Err(PlanEnd::ReadFault),
        Err(OutlineEnd::Memory) => return Err(PlanEnd::Memory),
    };
    if let Some(damage) = outline.damage() {
        return Err(PlanEnd::Refused(Refusal::Damaged(damage)));
    }
    Ok(outline)
}

/// Reads the parts of `file` that edits change, its Info and Tracks, for `edit_writes`; `outline` is the file's. Damage
/// or an invalid value in them is refused.
#[tactic(auto, using(crate::proofs::StepLemmas::opens))]
fn open_trees<R: Reads>(
    alloc: Global,
    outline: &Outline,
    src: &mut R,
    file: FileId,
) -> Result<Trees, PlanEnd>
    requires live { IsLive R.Reads src.old file }
    requires whole { outline.now.total ≡ file_size R.Reads src.old file }
    ensures exact { AnswersTrees R.Reads src.old file outline.now result }
    ensures sound { IfOk result AreSound }
    ensures standing { R.standing src.new ≡ R.standing src.old }
    ensures cause { HasCause is_plan_fault (R.reading_faults src.old) (R.reading_faults src.new) result }
    ensures octets { ReadsUpTo R.Reads src.old src.new (20 * file_size R.Reads src.old file) }
{
    match read_trees(alloc, outline, src, file) {
        Ok(trees) => Ok(trees),
        Err(OutlineEnd::Refused(damage)) => Err(PlanEnd::Refused(Refusal::Damaged(damage))),
        Err(OutlineEnd::ReadFault) => Err(PlanEnd::ReadFault),
        Err(OutlineEnd::Memory) => Err(PlanEnd::Memory),
    }
}

/// Makes `edits` in sequence on `trees`, in memory, for `edit_writes`, or returns the first refusal.
fn edit_trees(alloc: Global, trees: Trees, edits: &List<Edit>) -> Result<Trees, PlanEnd>
    requires { AreSound trees }
    ensures exact { Gives (change.edited_trees edits.now trees) result }
    ensures cause { IfErr result (λ end. is_plan_fault end ≡ false) }
{
    match edited(alloc, trees, edits) {
        Ok(trees) => Ok(trees),
        Err(EditsEnd::Refused { edit, why }) => Err(PlanEnd::Refused(Refusal::Edit { edit, why })),
        Err(EditsEnd::Memory) => Err(PlanEnd::Memory),
    }
}

/// Returns the writes of `edits` to `file`, sorted by offset, for `plan`; or the first reason to refuse the file, an
/// edit, or the writes. Each edit is made on the result of the previous one. The file is read, and nothing is written.
pub fn edit_writes<R: Reads>(
    alloc: Global,
    src: &mut R,
    file: FileId,
    edits: &List<Edit>,
) -> Result<Vec<Write>, PlanEnd>
    requires { IsLive R.Reads src.old file }
    ensures exact { IfTold R.Reads src.old file (λ bytes. Answers (plan_of bytes edits.now) result) }
    ensures standing { R.standing src.new ≡ R.standing src.old }
    ensures cause { HasCause is_plan_fault (R.reading_faults src.old) (R.reading_faults src.new) result }
    ensures octets { ReadsUpTo R.Reads src.old src.new (25 * file_size R.Reads src.old file) }
{
    let outline = open_outline(alloc, src, file)?;
    let trees = open_trees(alloc, &outline, src, file)?;
    let trees = edit_trees(alloc, trees, edits)?;
    let parts = parts(alloc, &outline, edits, &trees)?;
    let rewriting = Rewriting {
        ids: &EDITED,
        always: false,
    };
    parts_writes(alloc, &rewriting, &outline, parts.as_slice(), src, file)
}
