//! Laws on the timestamp scale of every file: RFC 9559, section 5.1.2 (Info Element).
ghost use Rattle.file_format.specs.Info.{LimitsChangeNoScale};

/// Law: if a reader with limits can read the first Info, or there is none, its scale, in nanoseconds per tick, is the
/// scale without limits. It is a law for readers of the proof; no function cites it.
pub fn limits_change_no_scale()
    ensures { LimitsChangeNoScale }
{}
