//! The values of children.

ghost use Rattle.std.specs.Prelude.{◌≡◌};
ghost use Rattle.std.specs.Option.{option_copied};
ghost use Rattle.std.specs.Str.{IsUtf8};
ghost use Rattle.mkv_schema.specs.Value.{text_of};
ghost use Rattle.tree_format.specs.Node.{body_of, id_of};
ghost use Rattle.tree_format.specs.Standing.{IsSound};
ghost use Rattle.tree_format.specs.Values.{HasUint, integer_in, text_in, uint_in};
ghost use Rattle.ebml_tree.specs.Texts.{HasText};

use crate::tree::Tree;
use mkv_schema::{text_default, uint_default};

/// Returns the unsigned integer that is the first child of `tree` with the ID `id`, or None if there is none. Used for
/// values without a default, such as PixelWidth.
pub fn integer_in(tree: &Tree, id: u32) -> Option<u64>
    requires sound { IsSound tree.now }
    requires uint { HasUint (id_of tree.now) id }
    ensures { result ≡ integer_in id tree.now }
{
    let child = tree.child(id)?;
    Some(child.uint())
}

/// Returns the unsigned integer that is the first child of `tree` with the ID `id`, or else the schema's default, or 0.
/// Used by all readers of values.
pub fn uint_in(tree: &Tree, id: u32) -> u64
    requires sound { IsSound tree.now }
    requires uint { HasUint (id_of tree.now) id }
    ensures { result ≡ uint_in id tree.now }
{
    match integer_in(tree, id) {
        Some(value) => value,
        None => uint_default(id).unwrap_or(0),
    }
}

/// Returns the text that is the first child of `tree` with the ID `id`, up to its first zero byte, or else the schema's
/// default. It is None if neither exists. The readers of tracks use it for names, codec IDs and languages, as
/// `track_of` does.
pub fn text_in<'a>(tree: &'a Tree, id: u32) -> Option<&'a str>
    requires sound { IsSound tree.now }
    requires text { HasText (id_of tree.now) id }
    ensures { option_copied result ≡ text_in id tree.now }
{
    match tree.child(id) {
        Some(child) => Some(text_of(child)),
        None => text_default(id),
    }
}

/// Returns the text of `leaf`, up to its first zero byte, for readers of tracks, titles and names. It must be UTF-8, as
/// the tables require of a text. Used by `text` and `text_in`.
pub fn text_of(leaf: &Tree) -> &str
    requires { IsUtf8 (text_of (body_of leaf.now)) }
    ensures { result.now ≡ text_of (body_of leaf.now) }
{
    match str::from_utf8(leaf.text()) {
        Ok(text) => text,
        Err(_) => unreachable!(),
    }
}
