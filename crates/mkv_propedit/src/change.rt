//! The two changes of a file in place, `propedit` and `reindex`, and their plans.

ghost use Rattle.std.specs.Prelude.{◌≡◌, ◌≤◌, length, IfOk};
ghost use Rattle.mkv_io.specs.Faults.{HasCause};
ghost use Rattle.mkv_io.specs.Sources.{IsLive};
ghost use Rattle.mkv_disk.specs.Calls.{OfReads};
ghost use Rattle.mkv_disk.specs.declared.disk.TheConstants.{MEDIA};
ghost use Rattle.sidecar_edit.specs.Fields.{IsPlan};
ghost use Rattle.edit_plan.specs.Answer.{is_plan_fault};
ghost use Rattle.mkv_propedit.specs.Change.{GivesChange, most_to_plan_change};
ghost use Rattle.mkv_io.specs.Bounds.{ReadsOf};

use edit_plan::{PlanEnd, plan};
use mkv_disk::Disk;
use mkv_io::List;
use mkv_lines::Line;
use reindex::plan_index;
use requests::Edit;
use sidecar_edit::Plan;
use std::alloc::Global;

/// Change of a file in place: the edits of `propedit`, or the new index of `reindex`.
#[derive(Drop)]
pub enum FileChange<'a> {
    Edits(&'a List<Edit>),
    Index,
}

/// Planned change: its record for the journal, and the line that reports it.
#[derive(Drop)]
pub struct ChangePlan<'a> {
    pub plan: Plan,
    pub line: Line<'a>,
}

/// Plans `change` of the file on `disk`, which has the name `name`, or returns the first refusal. `change_quiet` calls
/// it before anything is written. It only reads.
pub fn plan_change<'a, D: Disk>(
    alloc: Global,
    name: &'a str,
    change: &FileChange,
    disk: &mut D,
) -> Result<ChangePlan<'a>, PlanEnd>
    requires { IsLive D.Reads disk.old MEDIA }
    ensures exact { OfReads D.Disk.own disk.old (λ M S. GivesChange name.now change.now M result) }
    ensures sound { IfOk result (λ made. IsPlan made.plan) }
    ensures some { IfOk result (λ made. 1 ≤ length made.plan.head.places) }
    ensures standing { D.standing disk.new ≡ D.standing disk.old }
    ensures cause { HasCause is_plan_fault (D.reading_faults disk.old) (D.reading_faults disk.new) result }
    ensures octets { ReadsOf D.Reads disk.old disk.new MEDIA (most_to_plan_change change.now) }
{
    match change {
        FileChange::Edits(edits) => Ok(ChangePlan {
            plan: plan(alloc, disk, edits)?,
            line: Line::Edited { name },
        }),
        FileChange::Index => {
            let indexed = plan_index(alloc, disk)?;
            Ok(ChangePlan {
                line: Line::Reindexed {
                    name,
                    cues: indexed.cues,
                },
                plan: indexed.plan,
            })
        }
    }
}
