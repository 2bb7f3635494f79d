//! The values of an EBML header: RFC 8794, section 11.2 (EBML Header Elements).

ghost use Rattle.std.specs.Prelude.{◌≡◌, ℕ, ◌+◌, ◌≤◌, List, length, None};
ghost use Rattle.std.specs.Option.{option_map};
ghost use Rattle.mkv_schema.specs.Outline.{above, is_doc_type, place_of, wrong_doc_type};
ghost use Rattle.mkv_schema.specs.Value.{text_in, uint_in};
ghost use Rattle.mkv_schema.specs.declared.ids.TheConstants.{DOC_TYPE as DOC_TYPE_ID};
ghost use Rattle.elements.specs.Body.{IfBody, IsBody};
ghost use Rattle.element_reader.specs.EbmlChildren.{IfSound, IsShortValue, child_refusal, children, doc_type_in, in_body};
ghost use Rattle.mkv_io.specs.declared.outside.TheConstants.{LONGEST_FILE};

use crate::ebml_children::first_child;
use ebml_numbers::read_uint;
use elements::{body_in, damage, text_of};
use mkv_io::{Damage, Kind};
use mkv_schema::ids::DOC_TYPE;
use mkv_schema::{text_default, uint_default};

/// Returns the unsigned integer with the ID `id` in an EBML header, or its default, or 0. The header's data is `body`,
/// at the offset `base` of a file of `total` bytes. Used by `above`.
pub fn uint_in(body: &[u8], base: u64, total: u64, id: u32) -> u64
    requires few { base + length body.now ≤ LONGEST_FILE }
    requires short { IsShortValue id }
    ensures { IfSound base total body.now (λ bytes. result ≡ uint_in bytes id (in_body bytes base body.now).list) }
{
    let default = uint_default(id).unwrap_or(0);
    match first_child(body, base, total, id) {
        None => default,
        Some(child) => {
            let octets = body_in(body, base, &child);
            if octets.is_empty() {
                default
            } else {
                read_uint(&octets[..octets.len().min(8)])
            }
        }
    }
}

/// Checks whether `text` is a DocType that is read: `matroska` or `webm`. Used by `has_doc_type`.
pub fn is_doc_type(text: &[u8]) -> bool
    ensures { result ≡ is_doc_type (Some text.now) }
{
    text == "matroska".as_bytes() || text == "webm".as_bytes()
}

/// Checks whether the DocType of an EBML header is one that is read. The header's data is `body`, at the offset `base`
/// of a file of `total` bytes. Used by `wrong_doc_type`.
pub fn has_doc_type(body: &[u8], base: u64, total: u64) -> bool
    requires { base + length body.now ≤ LONGEST_FILE }
    ensures { IfBody base total body.now (λ bytes. result ≡ is_doc_type (doc_type_in bytes (in_body bytes base body.now))) }
{
    match first_child(body, base, total, DOC_TYPE) {
        Some(child) => is_doc_type(text_of(body_in(body, base, &child))),
        None => match text_default(DOC_TYPE) {
            Some(text) => is_doc_type(text.as_bytes()),
            None => false,
        },
    }
}

/// Returns the offset in the file of the first child with the ID `id` of an EBML header, or 0 if there is none. Damage
/// of its value is reported there. The header's data is `body`, at the offset `base` of a file of `total` bytes. Used
/// by `wrong_doc_type` and `above`.
fn place_of(body: &[u8], base: u64, total: u64, id: u32) -> u64
    requires { base + length body.now ≤ LONGEST_FILE }
    ensures { IfBody base total body.now (λ bytes. result ≡ place_of id (in_body bytes base body.now).list) }
{
    match first_child(body, base, total, id) {
        Some(child) => child.offset,
        None => 0,
    }
}

/// Returns the damage for which a file is refused whose DocType is neither `matroska` nor `webm`, or None. Its EBML
/// header has the data `body`, at the offset `base` of a file of `total` bytes. Used by `value_refusal`.
pub fn wrong_doc_type(body: &[u8], base: u64, total: u64) -> Option<Damage>
    requires { base + length body.now ≤ LONGEST_FILE }
    ensures { IfBody base total body.now (λ bytes. result ≡ wrong_doc_type bytes (in_body bytes base body.now).list) }
{
    if has_doc_type(body, base, total) {
        return None;
    }
    let offset = place_of(body, base, total, DOC_TYPE);
    Some(damage(Kind::DocType, DOC_TYPE, offset))
}

/// Returns damage of the kind `kind` if the unsigned integer with the ID `id` in an EBML header, such as
/// EBMLReadVersion, is above `limit`, or else None. The header's data is `body`, at the offset `base` of a file of
/// `total` bytes. Used by `value_refusal`.
pub fn above(body: &[u8], base: u64, total: u64, id: u32, limit: u64, kind: Kind) -> Option<Damage>
    requires few { base + length body.now ≤ LONGEST_FILE }
    requires short { IsShortValue id }
    ensures { IfSound base total body.now (λ bytes. result ≡ above bytes id limit kind (in_body bytes base body.now).list) }
{
    if uint_in(body, base, total, id) <= limit {
        return None;
    }
    Some(damage(kind, id, place_of(body, base, total, id)))
}
