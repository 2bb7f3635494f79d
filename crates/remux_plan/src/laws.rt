//! Laws about a plan

ghost use Rattle.remux_plan.specs.Parts.{WholeIsOneOutput};

/// Law: a plan without cuts has only one output, with all blocks. It is a law for readers of the proof; no function
/// cites it.
pub fn whole_is_one_output()
    ensures { WholeIsOneOutput }
{}
