//! Laws on written and read numbers: RFC 8794, sections 4 to 7.
ghost use Rattle.ebml_numbers.specs.Laws.{OctetsStay, SignedAreRead, MarkersTellWidths, NumbersAreWrittenAgain, IdsAreWrittenAgain, SizesAreWrittenAgain};

/// Law: the first `n` bytes of a list of bytes are bytes, and so are the others. No code calls it.
pub fn octets_stay()
    ensures { OctetsStay }
{}

/// Law: a signed number is read from its bytes in any width that it fits (RFC 8794, section 7.1, Signed Integer
/// Element). Blocks have their timestamps in two bytes. No code calls it.
pub fn signed_are_read()
    ensures { SignedAreRead }
{}

/// Law: the marker of a number determines its width in bytes (RFC 8794, section 4.2, VINT_MARKER). No code calls it.
pub fn markers_tell_widths()
    ensures { MarkersTellWidths }
{}

/// Law: a big-endian number that was read from bytes is written in the same width as the same bytes. No code calls it.
pub fn numbers_are_written_again()
    ensures { NumbersAreWrittenAgain }
{}

/// Law: an ID that was read is written as the bytes that it was read from (RFC 8794, section 5, Element ID). No code
/// calls it.
pub fn ids_are_written_again()
    ensures { IdsAreWrittenAgain }
{}

/// Law: a known size that was read is written in the same width as the same bytes (RFC 8794, section 6, Element Data
/// Size). No code calls it.
pub fn sizes_are_written_again()
    ensures { SizesAreWrittenAgain }
{}
