//! Elements as they are written: RFC 8794, sections 5 (Element ID), 6 (Element Data Size) and 7.7 (Master Element).
//! Laws: written Elements are read back, and Elements that were read are written as the same bytes. The definitions,
//! which higher crates use, are in `specs/`.

ghost use Rattle.output_model.specs.Laws.{ChildrenAreWritten, ElementsAreRead};

/// States that Elements that are written in sequence, as the content of a master, are read as its children by
/// `children_in`, whatever bytes are around them. Laws on whole outputs, such as `layouts_are_read`, build on the same
/// lemmas.
pub fn elements_are_read()
    ensures { ElementsAreRead }
{}

/// States that children that are read without damage are Elements that fill the body of their master. A law of the
/// readers, which the laws on edits build on; no command calls it.
pub fn children_are_written()
    ensures { ChildrenAreWritten }
{}
