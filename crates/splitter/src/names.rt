//! Names of the parts of an output

ghost use Rattle.std.specs.Prelude.{◌≡◌, take, drop, IfOk};
ghost use Rattle.std.specs.Option.{option_copied};
ghost use Rattle.splitter.specs.Names.{are_digits, before, behind, extension, is_part_name, number_in, part_name, stem};

use mkv_io::Text;
use std::alloc::{AllocError, Global};

// Splits the name `name` of an output into its stem and its extension. That begins at the last point after the last
// slash, and may be empty. For the names of parts.
fn cut(name: &str) -> (&str, &str)
    ensures stem { result.0.now ≡ stem name.now }
    ensures extension { result.1.now ≡ extension name.now }
{
    match name.rfind('.') {
        Some(at) if !name.as_bytes()[at..].contains(&b'/') => name.split_at(at),
        _ => (name, ""),
    }
}

/// Returns the name of the part with the number `number`, counted from 1, of the output `output`. It has `-` and the
/// number, with at least three digits, before the extension. That begins at the last point after the last `/`, if there
/// is one. `merge` calls it for each part of a split.
pub fn part_name(alloc: Global, output: &str, number: u64) -> Result<Text, AllocError>
    ensures { IfOk result (λ name. name ≡ part_name output.now number) }
{
    let (stem, extension) = cut(output);
    let name = format!(in alloc; "{stem}-{number:03}{extension}")?;
    Ok(Text::from_string(name))
}

// Checks whether the bytes `octets` are at least three digits, as the number in a part's name. For `is_part_name`, in
// the names of the parts of `merge --split`.
fn are_digits(octets: &[u8]) -> bool
    ensures { result ≡ are_digits octets.now }
{
    octets.len() >= 3 && octets.iter().all(|octet| octet.is_ascii_digit())
}

// Returns the bytes `octets` without the prefix `front`, or None if they don't have it. Used to find the number in a
// part's name.
fn behind<'a>(front: &[u8], octets: &'a [u8]) -> Option<&'a [u8]>
    ensures { option_copied result ≡ behind front.now octets.now }
{
    octets.strip_prefix(front)
}

// Returns the bytes `octets` without the suffix `end`, or None if they don't have it. Used to find the number in a
// part's name.
fn before<'a>(end: &[u8], octets: &'a [u8]) -> Option<&'a [u8]>
    ensures { option_copied result ≡ before end.now octets.now }
{
    octets.strip_suffix(end)
}

// Returns the bytes of `name` between the stem of `output` with `-` and its extension, if it has both. They are the
// number if `name` is a part's. Returns None otherwise. For `is_part_name`, in the names of the parts of `merge
// --split`.
fn number_in<'a>(output: &str, name: &'a str) -> Option<&'a [u8]>
    ensures { option_copied result ≡ number_in output.now name.now }
{
    let (stem, extension) = cut(output);
    let rest = behind(stem.as_bytes(), name.as_bytes())?;
    let rest = behind(b"-", rest)?;
    before(extension.as_bytes(), rest)
}

/// Checks whether `name` could be the name of a part of `output`, with any number. `merge` refuses a split if a file
/// that it reads has such a name.
pub fn is_part_name(output: &str, name: &str) -> bool
    ensures { result ≡ is_part_name output.now name.now }
{
    match number_in(output, name) {
        Some(number) => are_digits(number),
        None => false,
    }
}
