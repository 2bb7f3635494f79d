//! Summary of a merge with complete outputs

ghost use Rattle.std.specs.Prelude.{◌≡◌, length, IfOk, OnOk};
ghost use Rattle.std.specs.List.{range_with_len};
ghost use Rattle.std.specs.Option.{option_copied};
ghost use Rattle.remux_plan.specs.declared.TheConstants.{MAX_INPUTS as INPUTS};
ghost use Rattle.remuxer.specs.Taking.{told_by};
ghost use Rattle.remuxer.specs.Told.{AddsDamages, HasDamages, told_at, told_of};

use cluster_reader::Damages;
use lanes::Lane;
use mkv_io::List;
use remux_plan::{InputDamage, MAX_INPUTS, MoreDamage, Summary, Written};
use std::alloc::{AllocError, Global};
use time_merge::Merge;

// Returns the damaged places of the input number `input` that the output track `lane` has reported, or None if it has
// no link to it. `inputs` has the input number of each of its links. For `told_of`, after `merge` has written its
// outputs.
fn told_at<'a>(inputs: &[usize], lane: &'a Lane, input: usize) -> Option<&'a Damages>
    ensures { option_copied result ≡ told_at inputs.now lane.now.walk.told.items input }
{
    let link = inputs.iter().position(|number| *number == input)?;
    lane.damages(link)
}

// Returns the damaged places of the input number `input` that the merge `merge` has reported, or None without a link to
// it. All links to an input have the same ones, so the first counts. `inputs` has the input numbers of each output
// track's links. For `summary_of`.
fn told_of<'a>(inputs: &[List<usize>], merge: &'a Merge, input: usize) -> Option<&'a Damages>
    requires { length inputs.now ≡ length merge.now.queues }
    ensures { option_copied result ≡ told_of inputs.now (told_by merge.now) input }
{
    for (k, numbers) in inputs.iter().enumerate() {
        let told = told_at(numbers.as_slice(), merge.lane(k), input);
        if told.is_some() {
            return told;
        }
    }
    None
}

// Appends the damaged places `told` of the input number `input` to `summary`: the first of them one by one, and the
// number of further ones. For `summary_of`. Fails if memory runs out.
fn add_damages(summary: &mut Summary, input: usize, told: &Damages) -> Result<(), AllocError>
    ensures { OnOk result (AddsDamages input told.now summary.old summary.new) }
{
    for damage in told.first() {
        summary.damages.push(InputDamage {
            input,
            damage: *damage,
        })?;
    }
    let count = told.more();
    if count > 0 {
        summary.more.push(MoreDamage { input, count })?;
    }
    Ok(())
}

/// Returns the summary of the written outputs `outputs`, with the damaged places of the inputs that `merge` has
/// reported. `inputs` has the input numbers of each output track's links. `remux` returns it; the command prints its
/// messages from it.
pub(crate) fn summary_of(
    alloc: Global,
    outputs: List<Written>,
    inputs: &[List<usize>],
    merge: &Merge,
) -> Result<Summary, AllocError>
    requires { length inputs.now ≡ length merge.now.queues }
    ensures outputs { IfOk result (λ s. s.outputs ≡ outputs) }
    ensures damages { IfOk result (HasDamages inputs.now (told_by merge.now) (range_with_len 0 INPUTS)) }
{
    let mut summary = Summary {
        outputs,
        damages: List::new(alloc),
        more: List::new(alloc),
    };
    for input in 0..MAX_INPUTS {
        if let Some(told) = told_of(inputs, merge, input) {
            add_damages(&mut summary, input, told)?;
        }
    }
    Ok(summary)
}
