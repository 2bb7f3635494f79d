//! The values of leaves: RFC 8794, section 7 (EBML Element Types).

ghost use Rattle.std.specs.Prelude.{◌≡◌, ◌≤◌, ◌==◌, not, length};
ghost use Rattle.std.specs.List.{prefix_len};
ghost use Rattle.mkv_schema.specs.Value.{is_known_value, is_value, text_of};

use mkv_schema::{ElementKind, kind_under};

/// Returns the bytes of the text `body`, up to its first zero byte. Used for all text values of Elements.
pub fn text_of(body: &[u8]) -> &[u8]
    ensures { result.now ≡ text_of body.now }
{
    &body[..text_len(body)]
}

// Returns the number of bytes of the text `body` before its first zero byte. For `text_of`, when a reader checks the
// data of an Element.
fn text_len(body: &[u8]) -> usize
    ensures value { result ≡ prefix_len (λ octet. not (octet == 0)) body.now }
    ensures within { result ≤ length body.now }
{
    body.iter().take_while(|octet| **octet != 0).count()
}

/// Checks whether `body` may be the data of an Element of the kind `kind`. For `is_known_value`, when a reader checks
/// the data of an Element.
#[tactic(auto, using(crate::proofs::TextLemmas::texts))]
pub fn is_value(kind: ElementKind, body: &[u8]) -> bool
    ensures { result ≡ is_value kind body.now }
{
    match kind {
        ElementKind::Master | ElementKind::Binary => true,
        ElementKind::Uint | ElementKind::Int => body.len() <= 8,
        ElementKind::Float => matches!(body.len(), 0 | 4 | 8),
        ElementKind::Date => matches!(body.len(), 0 | 8),
        ElementKind::Ascii | ElementKind::Utf8 => str::from_utf8(text_of(body)).is_ok(),
    }
}

/// Checks whether `body` may be the data of an Element with the ID `id` in a parent with the ID `parent`. Any bytes are
/// allowed for an Element that the Matroska table doesn't have there. Readers refuse an Element whose data fails this
/// test.
pub fn is_known_value(parent: u32, id: u32, body: &[u8]) -> bool
    ensures { result ≡ is_known_value parent id body.now }
{
    match kind_under(id, parent) {
        Some(kind) => is_value(kind, body),
        None => true,
    }
}
