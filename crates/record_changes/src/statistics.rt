//! Removal of the statistics that mkvmerge writes among the tags of a file: RFC 9559, section 5.1.8 (Tags).

ghost use Rattle.std.specs.Prelude.{◌≡◌, [], ◌∷◌, IfOk, IfSome, OnOk};
ghost use Rattle.std.specs.List.{list_any};
ghost use Rattle.std.specs.Option.{option_copied, option_to_list};
ghost use Rattle.mkv_schema.specs.declared.ids.TheConstants.{TAG as TAG_ID, TAGS as TAGS_ID};
ghost use Rattle.tree_format.specs.Node.{children};
ghost use Rattle.tree_format.specs.Standing.{StandsIn};
ghost use Rattle.ebml_tree.specs.Building.{IsInPlace, IsRead};
ghost use Rattle.record_changes.specs.Statistics as spec;
ghost use Rattle.record_changes.specs.Statistics.{AddsNames, HasSame, bytes_of};

use ebml_tree::{Tree, empty};
use indexmap::IndexSet;
use mkv_schema::ids::{SIMPLE_TAG, TAG, TAG_NAME, TAG_STRING, TAGS};
use std::alloc::{AllocError, Global};

/// TagName of a SimpleTag whose TagString lists the names of statistics.
const LIST: &[u8] = b"_STATISTICS_TAGS";

/// TagName of a SimpleTag with the name of the program that counted.
const APP: &[u8] = b"_STATISTICS_WRITING_APP";

/// TagName of a SimpleTag with the time of the count.
const DATE: &[u8] = b"_STATISTICS_WRITING_DATE_UTC";

/// Name that MakeMKV lists, although it isn't a statistic.
const SOURCE: &[u8] = b"SOURCE_ID";

/// Checks whether `bytes` are a hyphen and a language of three lower-case letters, as in `BPS-eng`, for `stem`.
fn is_language_suffix(bytes: &[u8]) -> bool
    ensures { result ≡ spec.is_language_suffix bytes.now }
{
    match bytes {
        [b'-', a, b, c] => {
            a.is_ascii_lowercase() && b.is_ascii_lowercase() && c.is_ascii_lowercase()
        }
        _ => false,
    }
}

/// Returns the TagName `name` without a hyphen and a language at its end: `BPS` for `BPS-eng`. Names of statistics are
/// compared so.
fn stem(name: &[u8]) -> &[u8]
    ensures { result.now ≡ spec.stem name.now }
{
    let front = name.len().saturating_sub(4);
    if is_language_suffix(&name[front..]) {
        &name[..front]
    } else {
        name
    }
}

/// Returns the text of the first child of the SimpleTag `tree` with the ID `id`, up to its first zero byte, or None. It
/// is a TagName or a TagString.
fn value_in(tree: &Tree, id: u32) -> Option<&[u8]>
    ensures { option_copied result ≡ spec.value_in id tree.now }
{
    match tree.child(id) {
        Some(value) => Some(value.text()),
        None => None,
    }
}

/// Checks whether the SimpleTag `simple` lists the names of statistics in its TagString. `add_names` reads the list
/// then.
fn lists_names(simple: &Tree) -> bool
    ensures { result ≡ spec.lists_names simple.now }
{
    match value_in(simple, TAG_NAME) {
        Some(name) => stem(name) == LIST,
        None => false,
    }
}

/// Checks whether `part`, the text between two spaces of a list of names, is the name of a statistic: it isn't empty,
/// nor SOURCE_ID. `add_list` asks for each.
fn is_listed(part: &[u8]) -> bool
    ensures { result ≡ spec.is_listed part.now }
{
    !part.is_empty() && stem(part) != SOURCE
}

/// Adds `name` to `names`, the names of the statistics in a Tag, for `statistics_names`.
fn add_name<'a>(names: &mut IndexSet<&'a [u8]>, name: &'a [u8]) -> Result<(), AllocError>
    ensures { OnOk result (AddsNames names.old.keys names.new.keys (name.now ∷ [])) }
{
    names.insert(name)?;
    Ok(())
}

/// Adds to `names` the names of statistics that `list`, a TagString, has between spaces, for `add_names`.
fn add_list<'a>(names: &mut IndexSet<&'a [u8]>, list: &'a [u8]) -> Result<(), AllocError>
    ensures { OnOk result (AddsNames names.old.keys names.new.keys (spec.names_in list.now)) }
{
    for part in list.split(|byte| *byte == b' ') {
        if is_listed(part) {
            add_name(names, part)?;
        }
    }
    Ok(())
}

/// Adds to `names` the names of statistics that `child`, a child of a Tag, lists; another child lists none.
/// `statistics_names` does this for each child.
fn add_names<'a>(names: &mut IndexSet<&'a [u8]>, child: &'a Tree) -> Result<(), AllocError>
    ensures { OnOk result (AddsNames names.old.keys names.new.keys (spec.names_listed child.now)) }
{
    if child.id() != SIMPLE_TAG || !lists_names(child) {
        return Ok(());
    }
    match value_in(child, TAG_STRING) {
        Some(list) => add_list(names, list),
        None => Ok(()),
    }
}

/// Returns the names of the statistics in `tag`, for `bare_tag`: three that are always statistics, and the ones that it
/// lists.
fn statistics_names<'a>(alloc: Global, tag: &'a Tree) -> Result<IndexSet<&'a [u8]>, AllocError>
    ensures { IfOk result (λ names. HasSame (bytes_of names.keys) (spec.statistics_names tag.now)) }
{
    let mut names = IndexSet::new(alloc);
    add_name(&mut names, LIST)?;
    add_name(&mut names, APP)?;
    add_name(&mut names, DATE)?;
    for child in tag.children() {
        add_names(&mut names, child)?;
    }
    Ok(names)
}

/// Checks whether `name` is one of `names`, the names of statistics, for `is_named`.
fn is_one_of(names: &IndexSet<&[u8]>, name: &[u8]) -> bool
    ensures { result ≡ spec.is_one_of (bytes_of names.now.keys) name.now }
{
    names.contains(&name)
}

/// Checks whether `name`, a TagName with or without its language, is one of `names`, for `is_statistic`.
fn is_named(names: &IndexSet<&[u8]>, name: &[u8]) -> bool
    ensures { result ≡ spec.is_named (bytes_of names.now.keys) name.now }
{
    is_one_of(names, name) || is_one_of(names, stem(name))
}

/// Checks whether `child`, a child of a Tag, is a statistic: a SimpleTag with one of `names`. A statistic isn't copied.
/// Used by `is_other`, `has_statistic` and others.
fn is_statistic(names: &IndexSet<&[u8]>, child: &Tree) -> bool
    ensures { result ≡ spec.is_statistic (bytes_of names.now.keys) child.now }
{
    if child.id() != SIMPLE_TAG {
        return false;
    }
    match value_in(child, TAG_NAME) {
        Some(name) => is_named(names, name),
        None => false,
    }
}

/// Checks whether `child`, a child of a Tag, is a SimpleTag that isn't a statistic. `names` has the names of
/// statistics. `has_other` calls it.
fn is_other(names: &IndexSet<&[u8]>, child: &Tree) -> bool
    ensures { result ≡ spec.is_other (bytes_of names.now.keys) child.now }
{
    child.id() == SIMPLE_TAG && !is_statistic(names, child)
}

/// Checks whether `tag` has a statistic, by the names `names`, for `has_nothing_else`.
fn has_statistic(names: &IndexSet<&[u8]>, tag: &Tree) -> bool
    ensures { result ≡ list_any (spec.is_statistic (bytes_of names.now.keys)) (children tag.now) }
{
    tag.children()
        .iter()
        .any(|child| is_statistic(names, child))
}

/// Checks whether `tag` has a SimpleTag that isn't a statistic, by the names `names`, for `has_nothing_else`.
fn has_other(names: &IndexSet<&[u8]>, tag: &Tree) -> bool
    ensures { result ≡ list_any (spec.is_other (bytes_of names.now.keys)) (children tag.now) }
{
    tag.children().iter().any(|child| is_other(names, child))
}

/// Checks whether `tag` has a statistic and no other SimpleTag, by the names `names`. `bare_tag` leaves it out then.
fn has_nothing_else(names: &IndexSet<&[u8]>, tag: &Tree) -> bool
    ensures { result ≡ spec.has_nothing_else (bytes_of names.now.keys) tag.now }
{
    has_statistic(names, tag) && !has_other(names, tag)
}

/// Returns a copy of `child`, a child of a Tag, for `bare`, or None if it is a statistic, by its name in `names`.
fn bare_part(
    alloc: Global,
    names: &IndexSet<&[u8]>,
    child: &Tree,
) -> Result<Option<Tree>, AllocError>
    requires { StandsIn TAG_ID child.now }
    ensures exact { IfOk result (λ o. option_to_list o ≡ spec.bare_part (bytes_of names.now.keys) child.now) }
    ensures place { IfOk result (λ o. IfSome o (IsInPlace TAG_ID child.now)) }
{
    if is_statistic(names, child) {
        return Ok(None);
    }
    Ok(Some(child.copy(alloc)?))
}

/// Returns a copy of `tag` without the SimpleTags that are statistics, by the names `names`, for `bare_tag`.
fn bare(alloc: Global, names: &IndexSet<&[u8]>, tag: &Tree) -> Result<Tree, AllocError>
    requires { IsRead TAG_ID tag.now }
    ensures exact { IfOk result (λ bare. bare ≡ spec.bare (bytes_of names.now.keys) tag.now) }
    ensures place { IfOk result (IsInPlace TAGS_ID tag.now) }
{
    let mut bare = empty(alloc, TAG, tag.offset())?;
    for child in tag.children() {
        match bare_part(alloc, names, child)? {
            Some(part) => bare.push(part)?,
            None => {}
        }
    }
    Ok(bare)
}

/// Returns a copy of `tag` without its statistics, or None if it has nothing else, for `bare_child`.
fn bare_tag(alloc: Global, tag: &Tree) -> Result<Option<Tree>, AllocError>
    requires { IsRead TAG_ID tag.now }
    ensures exact { IfOk result (λ o. option_to_list o ≡ spec.bare_tag (spec.statistics_names tag.now) tag.now) }
    ensures place { IfOk result (λ o. IfSome o (IsInPlace TAGS_ID tag.now)) }
{
    let names = statistics_names(alloc, tag)?;
    if has_nothing_else(&names, tag) {
        return Ok(None);
    }
    Ok(Some(bare(alloc, &names, tag)?))
}

/// Returns a copy of `child`, a child of Tags, without its statistics, or None if it is a Tag that has nothing else.
/// `without_statistics` does this for each child.
fn bare_child(alloc: Global, child: &Tree) -> Result<Option<Tree>, AllocError>
    requires { StandsIn TAGS_ID child.now }
    ensures exact { IfOk result (λ o. option_to_list o ≡ spec.without_its_statistics child.now) }
    ensures place { IfOk result (λ o. IfSome o (IsInPlace TAGS_ID child.now)) }
{
    if child.id() == TAG {
        bare_tag(alloc, child)
    } else {
        Ok(Some(child.copy(alloc)?))
    }
}

/// Returns the Tags `tags` of an input without the statistics: the SimpleTags that their Tag lists as statistics, and
/// the ones with three fixed names. A Tag that has nothing else is left out. A merge with `--no-statistics-tags` for
/// this input calls it.
pub fn without_statistics(alloc: Global, tags: &Tree) -> Result<Tree, AllocError>
    requires { IsRead TAGS_ID tags.now }
    ensures exact { IfOk result (λ tree. tree ≡ spec.without_statistics tags.now) }
    ensures read { IfOk result (IsRead TAGS_ID) }
{
    let mut kept = empty(alloc, TAGS, tags.offset())?;
    for child in tags.children() {
        match bare_child(alloc, child)? {
            Some(child) => kept.push(child)?,
            None => {}
        }
    }
    Ok(kept)
}
