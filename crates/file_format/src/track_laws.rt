//! Laws on the tracks of every file: RFC 9559, section 5.1.4 (Tracks Element).
ghost use Rattle.file_format.specs.FileTracks.{LimitsChangeNoEntry};

/// Law: the TrackEntries that a reader with limits finds are the TrackEntries of the file without limits. It is a law
/// for readers of the proof; no function cites it.
pub fn limits_change_no_entry()
    ensures { LimitsChangeNoEntry }
{}
