//! Placement of appended inputs.

ghost use Rattle.std.specs.Prelude.{◌≡◌, ◌+◌, ◌*◌, ◌≤◌, length, IfOk};
ghost use Rattle.std.specs.List.{All};
ghost use Rattle.std.specs.Option.{unwrap_or};
ghost use Rattle.mkv_io.specs.Bounds.{ReadsUpTo};
ghost use Rattle.mkv_io.specs.Faults.{HasCause, is_read_fault};
ghost use Rattle.mkv_io.specs.Sources.{live_files};
ghost use Rattle.merge_model.specs.declared.limits.TheConstants.{MAX_LINKS};
ghost use Rattle.lanes.specs.declared.survey_result.TheConstants.{MAX_END};
ghost use Rattle.merge_inputs.specs.Input.{IsInput, read_in};
ghost use Rattle.merge_plan.specs.Plan.{append_offset};
ghost use Rattle.merge_plan.specs.TakenTracks.{HasPlace};
ghost use Rattle.merge_plan.specs.Behind.{EndsAt, IsBehind, ReadsToPlace, most_behind, walked_of};
ghost use Rattle.merge_plan.specs.Placed.{ArePlaced, StandInPlace, walked_length};

use crate::planned_lanes::links_of;
use lanes::survey;
use merge_inputs::Input;
use mkv_io::{List, ReadEnd, Reads};
use std::alloc::Global;

/// Returns the end of `input` in the output, in nanoseconds, including its append offset. Its file is walked over,
/// unless it is a text. `shift_behind` calls it for an input that another one is appended to.
fn end_of<R: Reads>(alloc: Global, input: &Input, src: &mut R) -> Result<u64, ReadEnd>
    requires input { IsInput (live_files R.Reads src.old) input.now }
    requires place { HasPlace input.now }
    ensures exact { IfOk result (EndsAt (live_files R.Reads src.old) input.now) }
    ensures near { IfOk result (λ end. end ≤ append_offset (read_in input.now) + MAX_END) }
    ensures standing { R.standing src.new ≡ R.standing src.old }
    ensures cause { HasCause is_read_fault (R.reading_faults src.old) (R.reading_faults src.new) result }
    ensures octets { ReadsUpTo R.Reads src.old src.new (2 * walked_of (live_files R.Reads src.old) input.now) }
{
    let links = links_of(alloc, input)?;
    let found = survey(alloc, src, &links)?;
    Ok(input.shift.unwrap_or(0) + found.end)
}

/// Returns the append offset, in nanoseconds, of an input after the inputs `before`: the end of the last of them, or 0
/// if there is none. An input that isn't appended has no `shift`, and the result is None. `assign_append_offsets` calls
/// it for each input.
fn shift_behind<R: Reads>(
    alloc: Global,
    before: &[Input],
    shift: Option<u64>,
    src: &mut R,
) -> Result<Option<u64>, ReadEnd>
    requires inputs { All (IsInput (live_files R.Reads src.old)) before.now }
    requires places { All HasPlace before.now }
    ensures exact { IfOk result (IsBehind (live_files R.Reads src.old) before.now shift) }
    ensures near { IfOk result (λ later. unwrap_or later 0 ≤ most_behind before.now) }
    ensures standing { R.standing src.new ≡ R.standing src.old }
    ensures cause { HasCause is_read_fault (R.reading_faults src.old) (R.reading_faults src.new) result }
    ensures octets { ReadsToPlace R.Reads src.old src.new before.now shift }
{
    if shift.is_none() {
        return Ok(None);
    }
    match before.last() {
        Some(last) => Ok(Some(end_of(alloc, last, src)?)),
        None => Ok(Some(0)),
    }
}

/// Returns `inputs` with the append offset of each appended one: the end of the previous input, in nanoseconds. `merge`
/// calls it after all inputs were read, and before `plan_of`. Files are read for this only before an appended input,
/// and not if they are texts.
pub fn assign_append_offsets<R: Reads>(
    alloc: Global,
    inputs: List<Input>,
    src: &mut R,
) -> Result<List<Input>, ReadEnd>
    requires inputs { All (IsInput (live_files R.Reads src.old)) inputs }
    requires few { length inputs ≤ MAX_LINKS }
    ensures exact { IfOk result (StandInPlace (live_files R.Reads src.old) inputs) }
    ensures placed { IfOk result (ArePlaced (live_files R.Reads src.new) inputs) }
    ensures standing { R.standing src.new ≡ R.standing src.old }
    ensures cause { HasCause is_read_fault (R.reading_faults src.old) (R.reading_faults src.new) result }
    ensures octets { ReadsUpTo R.Reads src.old src.new (2 * walked_length (live_files R.Reads src.old) inputs) }
{
    let mut placed = List::new(alloc);
    for input in inputs.into_vec() {
        let shift = shift_behind(alloc, placed.as_slice(), input.shift, src)?;
        placed.push(Input { shift, ..input })?;
    }
    Ok(placed)
}
