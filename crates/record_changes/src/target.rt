//! One target of a Tag, as an output gets it: RFC 9559, section 5.1.8 (Tags).

ghost use Rattle.std.specs.Prelude.{◌≡◌, ◌<◌, ◌^◌, true, [], ◌∷◌, filter, IfOk, IfSome, IsTrue};
ghost use Rattle.std.specs.Option.{option_to_list};
ghost use Rattle.mkv_schema.specs.declared.ids.TheConstants.{TARGETS as TARGETS_ID};
ghost use Rattle.tree_format.specs.Node.{id_of};
ghost use Rattle.tree_format.specs.Standing.{StandsIn};
ghost use Rattle.record_changes.specs.Tags.{is_target_id, is_target, number_of, written_target, tag_targets_of};
ghost use Rattle.record_changes.specs.Numbers.{numbers_in};
ghost use Rattle.ebml_tree.specs.Building.{IsInPlace};

use crate::targets::TagTargets;
use crate::uid_map::UidMap;
use ebml_tree::{Tree, uint_leaf};
use mkv_schema::ids::{TAG_ATTACHMENT_UID, TAG_CHAPTER_UID, TAG_EDITION_UID, TAG_TRACK_UID};
use std::alloc::{AllocError, Global};

// Checks whether `id` is the ID of a target: the UID of a track, edition, chapter or attached file in a Targets.
// `is_target` calls it.
fn is_target_id(id: u32) -> bool
    ensures { result ≡ is_target_id id }
{
    id == TAG_TRACK_UID
        || id == TAG_EDITION_UID
        || id == TAG_CHAPTER_UID
        || id == TAG_ATTACHMENT_UID
}

// Checks whether `child`, a child of Targets, names one item; 0 names all of its kind. Only such a target gets the
// output's number. Used by `written_target` and `tag_targets_of`.
fn is_target(child: &Tree) -> bool
    requires { StandsIn TARGETS_ID child.now }
    ensures { result ≡ is_target child.now }
{
    is_target_id(child.id()) && child.uint() != 0
}

// Returns the output's number in `map` for the identifier `uid` in a target with the ID `id`, or None if the output
// lacks it. `number_of` calls it.
fn number_in(map: &UidMap, id: u32, uid: u64) -> Option<u64>
    ensures { result ≡ numbers_in map.now id uid }
{
    match id {
        TAG_TRACK_UID => map.tracks.get(&uid).copied(),
        TAG_EDITION_UID => map.editions.get(&uid).copied(),
        TAG_CHAPTER_UID => map.chapters.get(&uid).copied(),
        TAG_ATTACHMENT_UID => map.attachments.get(&uid).copied(),
        _ => None,
    }
}

// Returns the output's number in `map` for the item that `target` names, or None if the output lacks it. Targets are
// written and counted by it. Used by `written_target` and `tag_targets_of`.
fn number_of(target: &Tree, map: &UidMap) -> Option<u64>
    requires stands { StandsIn TARGETS_ID target.now }
    requires target { is_target_id (id_of target.now) ≡ true }
    ensures { result ≡ number_of (numbers_in map.now) target.now }
{
    number_in(map, target.id(), target.uint())
}

/// Returns `child`, a child of Targets, as the output gets it: a target gets the output's number in `map`. Returns None
/// if the output lacks its item. `written_targets` does this for each child.
pub(crate) fn written_target(
    alloc: Global,
    child: &Tree,
    map: &UidMap,
) -> Result<Option<Tree>, AllocError>
    requires { StandsIn TARGETS_ID child.now }
    ensures exact { IfOk result (λ o. option_to_list o ≡ written_target (numbers_in map.now) child.now) }
    ensures place { IfOk result (λ o. IfSome o (IsInPlace TARGETS_ID child.now)) }
{
    if !is_target(child) {
        return Ok(Some(child.copy(alloc)?));
    }
    match number_of(child, map) {
        Some(number) => Ok(Some(uint_leaf(alloc, child.id(), number)?)),
        None => Ok(None),
    }
}

/// Returns the summary of `child`, a child of Targets: no targets unless it names one item. `map` has the output's
/// numbers. `tag_targets_in_part` joins the summaries.
pub(crate) fn tag_targets_of(child: &Tree, map: &UidMap) -> TagTargets
    requires { StandsIn TARGETS_ID child.now }
    ensures { result ≡ tag_targets_of (numbers_in map.now) (filter is_target (child.now ∷ [])) }
{
    if !is_target(child) {
        return TagTargets::NONE;
    }
    TagTargets {
        any: true,
        track: child.id() == TAG_TRACK_UID,
        written: number_of(child, map).is_some(),
    }
}
