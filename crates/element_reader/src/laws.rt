//! Laws on the data that were read of a file.
ghost use Rattle.element_reader.specs.Kept.{ReadingsStay};

/// States that what was read of a file stays true as long as the file is unchanged, whatever happens to other files. A
/// law for callers that read several files; no command calls it.
pub fn readings_stay()
    ensures { ReadingsStay }
{}
