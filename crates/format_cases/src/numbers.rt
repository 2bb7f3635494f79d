//! Cases of Element headers (`element`), and of rows of the Matroska table (`row`).

ghost use Rattle.std.specs.Prelude.{IfOk, IsTrue};
ghost use Rattle.ebml_numbers.specs.Number.{is_id};

use crate::case::Case;
use crate::tell_octets;
use ebml_numbers::{
    IdRead, NumFault, Size, SizeRead, put_id, put_size, read_id, read_size, size_width,
};
use mkv_io::LONGEST_FILE;
use mkv_schema::row;
use std::alloc::AllocError;
use std::fmt::Write;

/// Reads the Element ID and the data size at the beginning of `octets`, for a test case `element`. Used by
/// `tell_element`.
fn header_of(octets: &[u8]) -> Result<(IdRead, SizeRead), NumFault>
    ensures { IfOk result (λ header. IsTrue (is_id header.0.id)) }
{
    let id = read_id(octets)?;
    let size = read_size(&octets[usize::from(id.len)..])?;
    Ok((id, size))
}

/// Appends to `text` the ID and the size at the beginning of the case's bytes, each with the bytes that the code writes
/// for it. It is the result of a test case `element`, which `tell` of the test program prints.
pub fn tell_element(case: &Case, text: &mut String) -> Result<(), AllocError> {
    match header_of(case.octets.as_slice()) {
        Ok((id, size)) => tell_header(id.id, size.size, text),
        Err(_) => text.push_str("  none\n"),
    }
}

#[tactic(auto, unfolding(ebml_numbers::specs::Number::is_id))]
/// Appends to `text` the ID `id` with its written bytes, and then the size `size`. `tell_element` calls it.
fn tell_header(id: u32, size: Size, text: &mut String) -> Result<(), AllocError>
    requires { IsTrue (is_id id) }
{
    write!(text, "  {id:X}")?;
    tell_octets(put_id(id).as_slice(), text)?;
    tell_size(size, text)
}

/// Appends to `text` the size `size` in bytes with its written bytes, or `unknown`. `tell_header` calls it.
fn tell_size(size: Size, text: &mut String) -> Result<(), AllocError> {
    match size {
        Size::Known(size) if size < LONGEST_FILE => {
            write!(text, " for {size}")?;
            tell_octets(put_size(size, size_width(size)).as_slice(), text)?;
            text.push_str("\n")
        }
        _ => text.push_str(" unknown\n"),
    }
}

/// Appends to `text` the ID, name and kind of the Matroska table's row for the case's ID. It is the result of a test
/// case `row`, which `tell` of the test program prints.
pub fn tell_row(case: &Case, text: &mut String) -> Result<(), AllocError> {
    match row(case.id) {
        Some(row) => write!(text, "  {:X} {} {:?}\n", row.id, row.name, row.kind),
        None => text.push_str("  none\n"),
    }
}
