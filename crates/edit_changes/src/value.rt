//! Checks of the values of properties, and the child Element that a value gives.

ghost use Rattle.std.specs.Prelude.{◌≡◌, ℕ, IfOk, IfSome, IsTrue, option_map};
ghost use Rattle.std.specs.List.{list_all};
ghost use Rattle.ebml_numbers.specs.Number.{is_id};
ghost use Rattle.tree_format.specs.Node.{leaf};
ghost use Rattle.tree_format.specs.Standing.{StandsIn};
ghost use Rattle.ebml_tree.specs.Leaves.{IsTextIn, IsUintIn};
ghost use Rattle.edit_changes.specs.Property as spec;
ghost use Rattle.edit_changes.specs.Properties.{IsPropertyOf};

use crate::property::{Property, ValueKind};
use ebml_tree::{Tree, text_leaf, uint_leaf};
use mkv_io::Text;
use requests::{is_language_tag, number};
use std::alloc::{AllocError, Global};

/// Checks whether `n` is at least `least` and at most `most`. Used for the length of a CodecID and for numbers of a
/// property. Used by `is_codec` and `number_where`.
fn is_between(least: u64, most: u64, n: u64) -> bool
    ensures { result ≡ spec.is_between least most n }
{
    least <= n && n <= most
}

/// Checks whether the byte `octet` is a lower-case letter of ASCII, for a language code. `are_lower` calls it.
fn is_lower(octet: u8) -> bool
    ensures { result ≡ spec.is_lower octet }
{
    octet.is_ascii_lowercase()
}

/// Checks whether the byte `octet` is printable ASCII or a space, for a CodecID. `are_printable` calls it.
fn is_printable(octet: u8) -> bool
    ensures { result ≡ spec.is_printable octet }
{
    0x20 <= octet && octet <= 0x7E
}

/// Checks whether no byte of `octets` is zero, for a name or a title. `is_words` calls it.
fn has_no_zero(octets: &[u8]) -> bool
    ensures { result ≡ list_all spec.is_not_zero octets.now }
{
    octets.iter().all(|&octet| octet != 0)
}

/// Checks whether all bytes of `octets` are lower-case letters of ASCII, for a language code. `is_language` calls it.
fn are_lower(octets: &[u8]) -> bool
    ensures { result ≡ list_all spec.is_lower octets.now }
{
    octets.iter().all(|&octet| is_lower(octet))
}

/// Checks whether all bytes of `octets` are printable ASCII or spaces, for a CodecID. `is_codec` calls it.
fn are_printable(octets: &[u8]) -> bool
    ensures { result ≡ list_all spec.is_printable octets.now }
{
    octets.iter().all(|&octet| is_printable(octet))
}

/// Checks whether `value` is a text without a zero byte: the form of names and titles. `leaf_of` checks a value of
/// `propedit` with it.
fn is_words(value: &str) -> bool
    ensures { result ≡ spec.is_words value.now }
{
    has_no_zero(value.as_bytes())
}

/// Checks whether `octets` are a language code of three lower-case letters. `leaf_of` checks a value of `propedit` with
/// it.
fn is_language(octets: &[u8]) -> bool
    ensures { result ≡ spec.is_language octets.now }
{
    octets.len() == 3 && are_lower(octets)
}

/// Checks whether `octets` may be a CodecID: 1 to 63 printable bytes. `leaf_of` checks a value of `propedit` with it.
fn is_codec(octets: &[u8]) -> bool
    ensures { result ≡ spec.is_codec octets.now }
{
    is_between(1, 63, octets.len() as u64) && are_printable(octets)
}

/// Makes a child with the ID `id` and the text `text`, for `leaf_of`. Returns None if `passes`, the result of the check
/// of the value, is false.
fn text_where(alloc: Global, id: u32, passes: bool, text: &str) -> Result<Option<Tree>, AllocError>
    requires { IsTrue (is_id id) }
    ensures exact { IfOk result (λ tree. tree ≡ option_map (leaf id 0) (spec.where_text passes text.now)) }
    ensures stands { (parent : ℕ) → IsTextIn parent id → IfOk result (λ tree. IfSome tree (StandsIn parent)) }
{
    if !passes {
        return Ok(None);
    }
    Ok(Some(text_leaf(alloc, id, text)?))
}

/// Makes a child with the ID `id` and the unsigned integer that `octets` spells in decimal, for `leaf_of`. Returns None
/// unless it is a number from `least` to `most`.
fn number_where(
    alloc: Global,
    id: u32,
    least: u64,
    most: u64,
    octets: &[u8],
) -> Result<Option<Tree>, AllocError>
    requires { IsTrue (is_id id) }
    ensures exact { IfOk result (λ tree. tree ≡ option_map (leaf id 0) (spec.number_in least most octets.now)) }
    ensures stands { (parent : ℕ) → IsUintIn parent id → IfOk result (λ tree. IfSome tree (StandsIn parent)) }
{
    match number(octets) {
        Some(n) if is_between(least, most, n) => Ok(Some(uint_leaf(alloc, id, n)?)),
        _ => Ok(None),
    }
}

/// Makes the child Element for `property` with `value` as it is on the command line. `set` and `add` put it into the
/// Info or TrackEntry. Returns None if the value isn't one of the property's kind.
pub fn leaf_of(alloc: Global, property: Property, value: &Text) -> Result<Option<Tree>, AllocError>
    requires { IsTrue (is_id property.id) }
    ensures exact { IfOk result (λ tree. tree ≡ option_map (leaf property.id 0) (spec.value_of property.kind value.now)) }
    ensures stands { (parent : ℕ) → IsPropertyOf parent property → IfOk result (λ tree. IfSome tree (StandsIn parent)) }
{
    let id = property.id;
    let text = value.as_str();
    let octets = text.as_bytes();
    match property.kind {
        ValueKind::Words => text_where(alloc, id, is_words(text), text),
        ValueKind::Language => text_where(alloc, id, is_language(octets), text),
        ValueKind::LanguageTag => text_where(alloc, id, is_language_tag(octets), text),
        ValueKind::Codec => text_where(alloc, id, is_codec(octets), text),
        ValueKind::Duration => number_where(alloc, id, 1, (1 << 48) - 1, octets),
        ValueKind::Flag => number_where(alloc, id, 0, 1, octets),
    }
}
