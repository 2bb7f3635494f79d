//! A Tag of an input, as an output gets it: RFC 9559, section 5.1.8 (Tags).

ghost use Rattle.std.specs.Prelude.{◌≡◌, IfOk};
ghost use Rattle.mkv_schema.specs.declared.ids.TheConstants.{TAG as TAG_ID, TAGS as TAGS_ID, TARGETS as TARGETS_ID};
ghost use Rattle.tree_format.specs.Standing.{StandsIn};
ghost use Rattle.record_changes.specs.Tags.{written_part, written_tag, targets_in, tag_targets_of, aims_in};
ghost use Rattle.record_changes.specs.Numbers.{numbers_in};
ghost use Rattle.ebml_tree.specs.Building.{IsInPlace, IsRead};

use crate::target;
use crate::targets::TagTargets;
use crate::uid_map::UidMap;
use ebml_tree::{Tree, empty};
use mkv_schema::ids::{TAG, TARGETS};
use std::alloc::{AllocError, Global};

// Returns `targets`, the Targets of a Tag, with the output's identifiers in `map`, for `written_part`. Items that the
// output lacks are left out.
fn written_targets(alloc: Global, targets: &Tree, map: &UidMap) -> Result<Tree, AllocError>
    requires { IsRead TARGETS_ID targets.now }
    ensures exact { IfOk result (λ tree. tree ≡ written_part (numbers_in map.now) targets.now) }
    ensures place { IfOk result (IsInPlace TAG_ID targets.now) }
{
    let mut written = empty(alloc, TARGETS, targets.offset())?;
    for child in targets.children() {
        match target::written_target(alloc, child, map)? {
            Some(target) => written.push(target)?,
            None => {}
        }
    }
    Ok(written)
}

// Returns `part`, a child of a Tag: with the output's identifiers in `map` if it is a Targets, and otherwise unchanged.
// `written_tag` does this for each child.
fn written_part(alloc: Global, part: &Tree, map: &UidMap) -> Result<Tree, AllocError>
    requires { StandsIn TAG_ID part.now }
    ensures exact { IfOk result (λ tree. tree ≡ written_part (numbers_in map.now) part.now) }
    ensures place { IfOk result (IsInPlace TAG_ID part.now) }
{
    if part.id() == TARGETS {
        written_targets(alloc, part, map)
    } else {
        part.copy(alloc)
    }
}

/// Returns `tag` with the output's identifiers in `map` in its Targets. A merge does this for each Tag that it keeps.
/// Used by `written_child`.
pub(crate) fn written_tag(alloc: Global, tag: &Tree, map: &UidMap) -> Result<Tree, AllocError>
    requires { IsRead TAG_ID tag.now }
    ensures exact { IfOk result (λ tree. tree ≡ written_tag (numbers_in map.now) tag.now) }
    ensures place { IfOk result (IsInPlace TAGS_ID tag.now) }
{
    let mut written = empty(alloc, TAG, tag.offset())?;
    for part in tag.children() {
        written.push(written_part(alloc, part, map)?)?;
    }
    Ok(written)
}

// Returns the summary of the targets in `part`, a child of a Tag, for `aims_in`; there are none unless it is a Targets.
// `map` has the output's numbers.
fn tag_targets_in_part(part: &Tree, map: &UidMap) -> TagTargets
    requires { StandsIn TAG_ID part.now }
    ensures { result ≡ tag_targets_of (numbers_in map.now) (targets_in part.now) }
{
    let mut aims = TagTargets::NONE;
    if part.id() == TARGETS {
        for child in part.children() {
            aims = aims.or(target::tag_targets_of(child, map));
        }
    }
    aims
}

/// Returns the summary of all targets of `tag`, from which `are_kept` decides whether the Tag is kept. `map` has the
/// output's numbers.
pub(crate) fn aims_in(tag: &Tree, map: &UidMap) -> TagTargets
    requires { IsRead TAG_ID tag.now }
    ensures { result ≡ aims_in (numbers_in map.now) tag.now }
{
    let mut aims = TagTargets::NONE;
    for part in tag.children() {
        aims = aims.or(tag_targets_in_part(part, map));
    }
    aims
}
