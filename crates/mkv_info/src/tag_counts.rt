//! Counts of the tags of each track, in one pass over the tags: RFC 9559, section 5.1.8 (Tags Element).

ghost use Rattle.std.specs.Prelude.{◌≡◌, ◌∷◌, [], nat_eq, IfOk, IfSome, OnOk};
ghost use Rattle.std.specs.List.{IsDistinct};
ghost use Rattle.indexmap.specs.IndexSet.{insert_all};
ghost use Rattle.mkv_schema.specs.declared.ids.TheConstants.{TAG as TAG_ID, TARGETS as TARGETS_ID};
ghost use Rattle.tree_format.specs.Standing.{IsSoundOf};
ghost use Rattle.mkv_info.specs.Sound.{AreTags};
ghost use Rattle.mkv_info.specs.TagCounts.{AddsFor, AreCountsOf, CountsTag, tags_of_uid, uids_named};
ghost use Rattle.mkv_info.specs.Tags.{named_in};

use crate::values::with_children;
use ebml_tree::Tree;
use indexmap::{IndexMap, IndexSet};
use mkv_schema::ids::{SIMPLE_TAG, TAG, TAG_TRACK_UID, TARGETS};
use std::alloc::{AllocError, Global};

/// Returns the number of SimpleTags for each TrackUID that the Tags `tags` names, for the key `track_tags` of `merge
/// -J`. A TrackUID that isn't in the map has none.
pub(crate) fn tag_counts(
    alloc: Global,
    tags: &Option<Tree>,
) -> Result<IndexMap<u64, usize>, AllocError>
    requires { IfSome tags.now AreTags }
    ensures { IfOk result (λ counts. AreCountsOf counts tags.now) }
{
    let mut counts = IndexMap::new(alloc);
    let Some(tags) = tags else {
        return Ok(counts);
    };
    for tag in tags.children() {
        if tag.id() == TAG {
            count_tag(alloc, &mut counts, tag)?;
        }
    }
    Ok(counts)
}

/// Returns the number of SimpleTags for the TrackUID `uid` in `counts`, or 0 if it isn't there. `track_tags_value` asks
/// for each track.
pub(crate) fn tags_of_uid(counts: &IndexMap<u64, usize>, uid: u64) -> usize
    ensures { result ≡ tags_of_uid counts.now uid }
{
    counts.get(&uid).copied().unwrap_or(0)
}

// Adds to `counts` the number of SimpleTags directly in `tag`, a Tag, for each TrackUID that it names. `tag_counts`
// does this for each Tag.
fn count_tag(alloc: Global, counts: &mut IndexMap<u64, usize>, tag: &Tree) -> Result<(), AllocError>
    requires { IsSoundOf TAG_ID tag.now }
    ensures { OnOk result (CountsTag counts.old counts.new tag.now) }
{
    let count = with_children(0, tag, SIMPLE_TAG)?;
    let uids = uids_named(alloc, tag)?;
    add_all(counts, uids.as_slice(), count)
}

// Adds `count` to the counts of all TrackUIDs in `uids`, for `count_tag`.
fn add_all(counts: &mut IndexMap<u64, usize>, uids: &[u64], count: usize) -> Result<(), AllocError>
    requires { IsDistinct nat_eq uids.now }
    ensures { OnOk result (AddsFor counts.old counts.new uids.now count) }
{
    for uid in uids {
        add(counts, *uid, count)?;
    }
    Ok(())
}

// Adds `count` to the count of the TrackUID `uid`, for `add_all`. A sum that is too large fails as out of memory;
// memory can't hold that number of tags. Used by `add_all`.
fn add(counts: &mut IndexMap<u64, usize>, uid: u64, count: usize) -> Result<(), AllocError>
    ensures { OnOk result (AddsFor counts.old counts.new (uid ∷ []) count) }
{
    let Some(sum) = tags_of_uid(counts, uid).checked_add(count) else {
        return Err(AllocError);
    };
    counts.insert(uid, sum)?;
    Ok(())
}

// Returns the TrackUIDs that `tag`, a Tag, names in its Targets, each once, for `count_tag`.
fn uids_named(alloc: Global, tag: &Tree) -> Result<IndexSet<u64>, AllocError>
    requires { IsSoundOf TAG_ID tag.now }
    ensures { IfOk result (λ uids. uids.keys ≡ uids_named tag.now) }
{
    let mut uids = IndexSet::new(alloc);
    for child in tag.children() {
        if child.id() == TARGETS {
            add_named(&mut uids, child)?;
        }
    }
    Ok(uids)
}

// Adds the TrackUIDs that `targets`, a Targets, names to `uids`, unless they are there already. `uids_named` does this
// for each Targets. A TagTrackUID of 0 names no track.
fn add_named(uids: &mut IndexSet<u64>, targets: &Tree) -> Result<(), AllocError>
    requires { IsSoundOf TARGETS_ID targets.now }
    ensures { OnOk result (uids.new.keys ≡ insert_all nat_eq uids.old.keys (named_in targets.now)) }
{
    for child in targets.children() {
        if child.id() != TAG_TRACK_UID {
            continue;
        }
        let uid = child.uint();
        if uid != 0 {
            uids.insert(uid)?;
        }
    }
    Ok(())
}
