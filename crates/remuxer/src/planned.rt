//! Output tracks of a plan

ghost use Rattle.std.specs.Prelude.{◌≤◌, All, IfOk, OnOk};

use lanes::Lane;
use mkv_io::List;
use output_model::CueRule;
use remux_plan::PlannedLane;
use std::alloc::{AllocError, Global};

/// Output tracks of a plan at their start. Each has its rule for cue points, whether keyframes allow a cut, and the
/// input number of each of its links.
#[derive(Drop)]
pub(crate) struct StartedLanes {
    pub(crate) lanes: List<Lane>,
    pub(crate) rules: List<CueRule>,
    pub(crate) drives: List<bool>,
    pub(crate) inputs: List<List<usize>>,
}

impl StartedLanes {
    ghost use Rattle.remuxer.specs.Started.{AddsLane, AreStarted, CanStart};

    /// Starts the planned output tracks for an output with `scale` nanoseconds per tick. Reads nothing. `remux` calls
    /// it first. Fails if memory runs out.
    pub(crate) fn start(
        alloc: Global,
        planned: List<PlannedLane>,
        scale: u64,
    ) -> Result<StartedLanes, AllocError>
        requires scale { 1 ≤ scale }
        requires lanes { All CanStart planned }
        ensures { IfOk result (AreStarted scale planned) }
    {
        let mut started = StartedLanes {
            lanes: List::new(alloc),
            rules: List::new(alloc),
            drives: List::new(alloc),
            inputs: List::new(alloc),
        };
        for lane in planned.into_vec() {
            started.add(alloc, lane, scale)?;
        }
        Ok(started)
    }

    // Starts one more output track as `planned`, for an output with `scale` nanoseconds per tick. For `start`. Fails if
    // memory runs out.
    fn add(&mut self, alloc: Global, planned: PlannedLane, scale: u64) -> Result<(), AllocError>
        requires scale { 1 ≤ scale }
        requires lane { CanStart planned }
        ensures { OnOk result (AddsLane scale planned self.old self.new) }
    {
        let PlannedLane {
            spec,
            inputs,
            cues,
            drives,
        } = planned;
        self.lanes.push(Lane::start(alloc, spec, scale)?)?;
        self.rules.push(cues)?;
        self.drives.push(drives)?;
        self.inputs.push(inputs)
    }
}
