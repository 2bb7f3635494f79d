//! Laws on whole outputs: they are read back by the format's definitions (RFC 8794, section 8, EBML Document, and RFC
//! 9559, section 5.1, Segment Element). No code that reads or writes depends on this crate.

ghost use Rattle.output_laws.specs.Layouts.{LayoutsAreRead, OpenedIsOverwritten};

/// Law: a document that can be written is read back as that document: its outline, its records, its blocks, its Seeks
/// and its cue points. No reader's limits are applied. The laws on `merge`, on a repeated merge and on generated files
/// build on it.
pub fn layouts_are_read()
    ensures { LayoutsAreRead }
{}

/// Law: an output that can be written, before its last writes, differs from the finished one only in three places. They
/// are the Segment's size, the area for its SeekHead, and its Duration. The last writes of `merge` are these places. It
/// is a promise to readers; no function cites it.
pub fn opened_is_overwritten()
    ensures { OpenedIsOverwritten }
{}
