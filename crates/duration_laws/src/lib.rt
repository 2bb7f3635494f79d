#![tactic(auto)]

//! Laws on the Duration of an output: it is the last end of the blocks, and is read back as this number. It changes
//! only Info and positions. See RFC 9559, section 5.1.2 (Info Element), and RFC 8794, section 7.3 (Float). No code that
//! reads or writes depends on this crate.

ghost use Rattle.duration_laws.specs.Ends.{DurationIsTheLastEnd};
ghost use Rattle.duration_laws.specs.Floats.{LongDurationsAreNearest, ShortDurationsAreExact};
ghost use Rattle.duration_laws.specs.Changes.{DurationChangesOnlyInfo};

/// Law: the Duration of an output, in ticks of the output's timestamp scale, is the last end of its blocks. A promise
/// to users; no code calls it.
pub fn the_duration_is_the_last_end()
    ensures { DurationIsTheLastEnd }
{}

/// Law: a Duration of at most 2^53 ticks is read back as exactly this number. The page PROVED cites it.
pub fn short_durations_are_exact()
    ensures { ShortDurationsAreExact }
{}

/// Law: a Duration of at least 2^53 ticks, in 64 bits, is read back as the nearest float of eight bytes. If two are
/// equally near, it is the even one. The page PROVED cites it.
pub fn long_durations_are_nearest()
    ensures { LongDurationsAreNearest }
{}

/// Law: an output with a Duration is the output without it, except for the Duration in Info and for positions after it.
/// The page PROVED cites it.
pub fn a_duration_changes_only_info()
    ensures { DurationChangesOnlyInfo }
{}
