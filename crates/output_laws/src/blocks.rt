//! Laws on the blocks of a file: the effect of a reader's limits, the size of a block that is read with them, and the
//! damage that is reported. No code that reads depends on this crate.

ghost use Rattle.output_laws.specs.Blocks.{BlocksAreSmall, LimitsChangeNothing, StopsAtTheEnd, TellsTheFirstWrong};

/// Law: if no damage is reported for a file that is read with a reader's limits, all its events are the same without
/// limits. Nothing calls a law; the laws on edited files build on this one.
pub fn limits_change_nothing()
    ensures { LimitsChangeNothing }
{}

/// Law: each block of a file that is read with a reader's limits is within the limits on lengths and counts. Nothing
/// calls a law; the laws on timestamp files build on this one.
pub fn blocks_are_small()
    ensures { BlocksAreSmall }
{}

/// Law: damage that ends the reading of a file is its last event. Nothing calls a law; it is for readers of the
/// format's definitions.
pub fn a_stop_is_the_last_event()
    ensures { StopsAtTheEnd }
{}

/// Law: only the first damage of a Cluster is reported. Nothing calls a law; it is for readers of the format's
/// definitions.
pub fn the_first_damage_of_a_cluster_is_told()
    ensures { TellsTheFirstWrong }
{}
