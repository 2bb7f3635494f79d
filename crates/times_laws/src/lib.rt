#![tactic(auto)]

//! Laws on timestamp files. Written timestamps are read back. Given back to their track in a merge, they change
//! nothing. The bad line that a refusal names is the first bad one. They are statements for a reader; no command calls
//! them.

ghost use Rattle.times_laws.specs.BadLine.{BadLineIsFirst};
ghost use Rattle.times_laws.specs.Laws.{TimesAreReadBack};
ghost use Rattle.times_laws.specs.Given.{OwnTimesChangeNothing};
ghost use Rattle.times_laws.specs.GivenBack.{TimesGivenBackChangeNothing};

/// States that the timestamps of frames that `extract` writes to a timestamp file are read back by `merge
/// --timestamps`. For timestamps of less than 2^57 ns in size. Nothing calls the law.
pub fn times_are_read_back()
    ensures { TimesAreReadBack }
{}

/// States that the blocks of a track keep their timestamps if they get the ones that an extraction has written for the
/// track. For default durations of less than 2^48 ns. Nothing calls the law.
pub fn own_times_change_nothing()
    ensures { OwnTimesChangeNothing }
{}

/// States that the line number in the refusal of a timestamp file is the number of its first bad line. Lines count from
/// 1. Nothing calls the law.
pub fn the_bad_line_is_the_first()
    ensures { BadLineIsFirst }
{}

/// States that the output of `extract FILE timestamps_v2 ID:OUT` changes nothing in a merge that gets it by
/// `--timestamps ID:OUT`. Status, lines and outputs are the same. The input must be unchanged since, and the option
/// must add no refusal. Nothing calls the law.
pub fn times_given_back_change_nothing()
    ensures { TimesGivenBackChangeNothing }
{}
