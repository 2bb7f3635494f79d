//! Values of the children of a master, for JSON: RFC 8794, section 7 (EBML Element Types).

ghost use Rattle.std.specs.Prelude.{◌≡◌, ◌+◌, length, IfOk};
ghost use Rattle.std.specs.Option.{option_copied, option_map};
ghost use Rattle.serde_json.specs.Data.{string};
ghost use Rattle.serde_json.specs.View.{view};
ghost use Rattle.tree_format.specs.Node.{children, id_of};
ghost use Rattle.tree_format.specs.Changes.{part};
ghost use Rattle.tree_format.specs.Standing.{IsSound};
ghost use Rattle.ebml_tree.specs.Texts.{HasText};
ghost use Rattle.mkv_info.specs.Json.{whole};
ghost use Rattle.mkv_info.specs.Texts.{text_or_empty, unless_empty};

use ebml_tree::{Tree, text_in};
use serde_json::Value;
use std::alloc::{AllocError, Global};

/// Returns the text of the first child of `tree` with the ID `id`, or an empty text if it is absent. Names, titles and
/// media types in the JSON are read so.
pub(crate) fn text_or_empty<'a>(tree: &'a Tree, id: u32) -> &'a str
    requires sound { IsSound tree.now }
    requires text { HasText (id_of tree.now) id }
    ensures { result.now ≡ text_or_empty id tree.now }
{
    text_in(tree, id).unwrap_or("")
}

/// Returns `text`, or None if it is empty, so that an empty title or name is left out of the JSON.
pub(crate) fn unless_empty(text: &str) -> Option<&str>
    ensures { option_copied result ≡ unless_empty text.now }
{
    if text.is_empty() { None } else { Some(text) }
}

/// Returns `text` as a JSON string, or None if there is none, for a property that may be absent. Used by
/// `container_properties` and `properties_of`.
pub(crate) fn string_if(alloc: Global, text: Option<&str>) -> Result<Option<Value>, AllocError>
    ensures { IfOk result (λ value. option_map view value ≡ option_map string (option_copied text.entry)) }
{
    match text {
        Some(text) => Ok(Some(Value::try_from_str(alloc, text)?)),
        None => Ok(None),
    }
}

/// Returns `number` as a JSON number, or None if there is none, for a DefaultDuration that may be absent. Used by
/// `properties_of`.
pub(crate) fn number_if(number: Option<u64>) -> Option<Value>
    ensures { option_map view result ≡ option_map whole number }
{
    number.map(Value::from)
}

/// Adds the number of children of `tree` with this `id` to `count`, for the counts of chapters and tags. A sum that is
/// too large fails as out of memory; memory can't hold that number of children. Used by `chapter_count`, `count_tag`
/// and others.
pub(crate) fn with_children(count: usize, tree: &Tree, id: u32) -> Result<usize, AllocError>
    ensures { IfOk result (λ more. more ≡ count + length (part id (children tree.now))) }
{
    match count.checked_add(count_of(tree, id)) {
        Some(more) => Ok(more),
        None => Err(AllocError),
    }
}

// Returns the number of children of `tree` with this `id`, for `with_children`.
fn count_of(tree: &Tree, id: u32) -> usize
    ensures { result ≡ length (part id (children tree.now)) }
{
    tree.children()
        .iter()
        .filter(|child| child.id() == id)
        .count()
}
