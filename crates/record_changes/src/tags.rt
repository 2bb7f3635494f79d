//! The Tags of an input, as an output gets them: RFC 9559, section 5.1.8 (Tags).

ghost use Rattle.std.specs.Prelude.{◌≡◌, IfOk, IfSome};
ghost use Rattle.mkv_schema.specs.declared.ids.TheConstants.{TAGS as TAGS_ID};
ghost use Rattle.std.specs.Option.{option_to_list};
ghost use Rattle.tree_format.specs.Standing.{StandsIn};
ghost use Rattle.record_changes.specs.Tags.{are_kept, written_child, written_tags};
ghost use Rattle.record_changes.specs.Numbers.{numbers_in};
ghost use Rattle.ebml_tree.specs.Building.{IsInPlace, IsRead};

use crate::tag;
use crate::targets::TagTargets;
use crate::uid_map::{TagKeep, UidMap};
use ebml_tree::{Tree, empty};
use mkv_schema::ids::{TAG, TAGS};
use std::alloc::{AllocError, Global};

// Checks whether a Tag whose targets have the summary `aims` is kept, for `written_child`. `keep` must ask for its
// kind, for a track or not. If it has targets, the output must have one of them.
fn are_kept(keep: TagKeep, aims: TagTargets) -> bool
    ensures { result ≡ are_kept keep aims }
{
    let wanted = if aims.track { keep.tracks } else { keep.global };
    wanted && (!aims.any || aims.written)
}

// Returns `child`, a child of Tags, as the output gets it, or None if it isn't a Tag or isn't kept. `map` has the
// output's numbers, and `keep` the choice. `merge_tags` does this for each child.
fn written_child(
    alloc: Global,
    child: &Tree,
    map: &UidMap,
    keep: TagKeep,
) -> Result<Option<Tree>, AllocError>
    requires { StandsIn TAGS_ID child.now }
    ensures exact { IfOk result (λ o. option_to_list o ≡ written_child keep (numbers_in map.now) child.now) }
    ensures place { IfOk result (λ o. IfSome o (IsInPlace TAGS_ID child.now)) }
{
    if child.id() != TAG {
        return Ok(None);
    }
    if !are_kept(keep, tag::aims_in(child, map)) {
        return Ok(None);
    }
    Ok(Some(tag::written_tag(alloc, child, map)?))
}

/// Returns `tags`, the Tags of an input of a merge, as the output gets them. They are the Tags that `keep` chooses,
/// with the output's identifiers in `map` in their targets. A target that isn't in the output is removed. A Tag that
/// loses all its targets is left out. A target of 0, which names all of its kind, stays.
pub fn merge_tags(
    alloc: Global,
    tags: &Tree,
    map: &UidMap,
    keep: TagKeep,
) -> Result<Tree, AllocError>
    requires { IsRead TAGS_ID tags.now }
    ensures exact { IfOk result (λ tree. tree ≡ written_tags keep (numbers_in map.now) tags.now) }
    ensures read { IfOk result (IsRead TAGS_ID) }
{
    let mut written = empty(alloc, TAGS, tags.offset())?;
    for child in tags.children() {
        match written_child(alloc, child, map, keep)? {
            Some(tag) => written.push(tag)?,
            None => {}
        }
    }
    Ok(written)
}
