//! Laws about a merge of output tracks

ghost use Rattle.time_merge.specs.Laws.{AreUnaffectedByWrites, StartedAreMerged};

/// Law: writes to files other than its inputs change nothing of a merge, so that `merge` may write outputs while it
/// reads. No code calls it.
pub fn merges_stand_over_writes()
    ensures { AreUnaffectedByWrites }
{}

/// Law: output tracks at their start have the merged list of their links left. No code calls it.
pub fn started_lanes_are_merged()
    ensures { StartedAreMerged }
{}
