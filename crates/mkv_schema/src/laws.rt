//! Laws on the IDs of the table.
ghost use Rattle.mkv_schema.specs.Laws.{IdsMayBeWritten};

/// Law: each ID in the table may be written. It is a valid one, or ChapterDisplay's (RFC 8794, section 5, Element ID).
/// A promise to users; no code calls it.
pub fn ids_may_be_written()
    ensures { IdsMayBeWritten }
{}
