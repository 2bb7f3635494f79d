#![tactic(auto)]

//! Worked examples of plans, extractions and identifications, with the expected results. They are laws for a reader; no
//! command calls them. The functions do nothing; their contracts are the examples.

ghost use Rattle.example_laws.specs.Extractions.{AreCoded, AreTimes, AreWritten};
ghost use Rattle.example_laws.specs.Identifications.{AreIdentified, AreListed};
ghost use Rattle.example_laws.specs.Plans.{AreLanes, ArePlaced, AreRecords};

/// States examples of the output tracks that small merges plan. For a reader; no command calls it.
pub fn lanes_are_planned_so()
    ensures { AreLanes }
{}

/// States examples of the append offsets that `merge` gives its inputs. For a reader; no command calls it.
pub fn inputs_are_placed_so()
    ensures { ArePlaced }
{}

/// States examples of Info and Tracks that `merge` plans, and of merges that are refused. For a reader; no command
/// calls it.
pub fn records_are_planned_so()
    ensures { AreRecords }
{}

/// States examples of timestamp files and of frames as `extract` writes them. For a reader; no command calls it.
pub fn times_are_written_so()
    ensures { AreTimes }
{}

/// States examples of frames in the forms of their codecs, as `extract` writes them. For a reader; no command calls it.
pub fn codecs_are_written_so()
    ensures { AreCoded }
{}

/// States examples of cue points and chapters as `extract` writes them. For a reader; no command calls it.
pub fn records_are_written_so()
    ensures { AreWritten }
{}

/// States examples of small files as `info` lists them. For a reader; no command calls it.
pub fn files_are_listed_so()
    ensures { AreListed }
{}

/// States examples of small files and records as `merge -J` identifies them. For a reader; no command calls it.
pub fn files_are_identified_so()
    ensures { AreIdentified }
{}
