//! The writes of an edit, made of the Elements that it rewrites.

ghost use Rattle.std.specs.Prelude.{◌≡◌, ◌≤◌, ◌^◌};
ghost use Rattle.mkv_io.specs.Bounds.{ReadsUpTo};
ghost use Rattle.mkv_io.specs.Faults.{HasCause};
ghost use Rattle.mkv_io.specs.Sources.{IfTold, IsLive, file_size};
ghost use Rattle.edit_plan.specs.Answer.{Answers, AnswersWrites, is_plan_fault};
ghost use Rattle.edit_plan.specs.Moving.{CanMove};
ghost use Rattle.edit_plan.specs.Shown.{writes_in};
ghost use Rattle.edit_plan.specs.Sought.{AreSought};

use crate::appended::any_moves;
use crate::at_seek_head::{moving_writes, place_writes};
use crate::old_seek_head::first_seek_head;
use crate::part::Part;
use crate::plan_end::PlanEnd;
use crate::seek_rule::Rewriting;
use crate::write::Write;
use element_reader::Outline;
use mkv_io::{FileId, ReadEnd, Reads};
use std::alloc::Global;

/// Returns the writes that replace `parts` in `file`, sorted by offset, or the first refusal. `outline` lists the
/// file's Elements at level 1. If a part moves, or `rewriting` asks for it, the old SeekHead is read and a new one is
/// written. `propedit` and `reindex` end their plans so. Nothing is written yet.
pub fn parts_writes<R: Reads>(
    alloc: Global,
    rewriting: &Rewriting,
    outline: &Outline,
    parts: &[Part],
    src: &mut R,
    file: FileId,
) -> Result<Vec<Write>, PlanEnd>
    requires sought { AreSought rewriting.now.ids.now }
    requires live { IsLive R.Reads src.old file }
    requires whole { outline.now.total ≡ file_size R.Reads src.old file }
    requires short { outline.now.total ≤ 2 ^ 48 }
    ensures exact { CanMove outline.now → AnswersWrites R.Reads src.old file rewriting.now outline.now parts.now result }
    ensures standing { R.standing src.new ≡ R.standing src.old }
    ensures cause { HasCause is_plan_fault (R.reading_faults src.old) (R.reading_faults src.new) result }
    ensures octets { ReadsUpTo R.Reads src.old src.new (file_size R.Reads src.old file) }
{
    if !rewriting.always && !any_moves(parts) {
        return place_writes(alloc, parts);
    }
    match first_seek_head(alloc, outline, src, file) {
        Ok(head) => moving_writes(alloc, rewriting.ids, outline, parts, &head),
        Err(ReadEnd::ReadFault) => Err(PlanEnd::ReadFault),
        Err(ReadEnd::Memory) => Err(PlanEnd::Memory),
    }
}
