//! The children of the EBML header: RFC 8794, section 8.1 (EBML Header).

ghost use Rattle.std.specs.Prelude.{◌≡◌, ℕ, ◌+◌, ◌<◌, ◌≤◌, List, length, IfOk, IfSome};
ghost use Rattle.mkv_schema.specs.Element.{element_at, in_tree, stated_end};
ghost use Rattle.mkv_schema.specs.Placed.{StandsAt};
ghost use Rattle.mkv_schema.specs.Value.{body_of, first_of};
ghost use Rattle.mkv_schema.specs.declared.ids.TheConstants.{EBML as EBML_ID};
ghost use Rattle.elements.specs.Body.{IfBody, IsBody};
ghost use Rattle.element_reader.specs.EbmlChildren.{child_refusal, children, in_body};
ghost use Rattle.mkv_io.specs.declared.outside.TheConstants.{LONGEST_FILE};

use elements::{Parent, body_in, child_at, damage_at, end_in, is_known_value};
use mkv_io::{Damage, Kind};
use mkv_schema::Header;
use mkv_schema::ids::EBML;

/// Returns the damage for which the children of an EBML header are refused, or None. It is the first child that isn't a
/// value of its kind, or the damage that ends them. The header's data is `body`, at the offset `base` of a file of
/// `total` bytes. Used by `header_refusal`.
pub fn child_refusal(body: &[u8], base: u64, total: u64) -> Option<Damage>
    requires { base + length body.now ≤ LONGEST_FILE }
    ensures { IfBody base total body.now (λ bytes. result ≡ child_refusal bytes (in_body bytes base body.now)) }
{
    let end = base + body.len() as u64;
    let mut at = base;
    while at < end {
        match child_at(Parent::Tree(EBML), body, base, total, at) {
            Ok(child) => {
                if !is_known_value(EBML, child.id, body_in(body, base, &child)) {
                    return Some(damage_at(Kind::BadValue, &child));
                }
                at = end_in(&child, end);
            }
            Err(damage) => return Some(damage),
        }
    }
    None
}

/// Returns the first child with the ID `id` of an EBML header, or None if there is none before its end or damage. The
/// header's data is `body`, at the offset `base` of a file of `total` bytes. The checks of the header's values use it.
pub fn first_child(body: &[u8], base: u64, total: u64, id: u32) -> Option<Header>
    requires { base + length body.now ≤ LONGEST_FILE }
    ensures exact { IfBody base total body.now (λ bytes. result ≡ first_of id (in_body bytes base body.now).list) }
    ensures inside { IfSome result (λ h. (base ≤ h.body) × (stated_end h ≤ base + length body.now)) }
{
    let end = base + body.len() as u64;
    let mut at = base;
    while at < end {
        match child_at(Parent::Tree(EBML), body, base, total, at) {
            Ok(child) => {
                if child.id == id {
                    return Some(child);
                }
                at = end_in(&child, end);
            }
            Err(_) => return None,
        }
    }
    None
}
