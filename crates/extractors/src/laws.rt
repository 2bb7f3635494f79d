//! Laws that hold for every output.
ghost use Rattle.extractors.specs.Laws.{OutputsHoldTheGoodFrames};

/// States that an output of `extract` in the form of a codec is a stream of the valid frames of its track, in order. A
/// law for a reader; no command calls it.
pub fn outputs_hold_the_good_frames()
    ensures { OutputsHoldTheGoodFrames }
{}
