//! Counts of the tags of a file, and of each of its tracks, in the JSON of `merge -J`: RFC 9559, section 5.1.8 (Tags
//! Element).

ghost use Rattle.std.specs.Prelude.{◌≡◌, ◌==◌, ◌&&◌, not, IfOk, IfSome};
ghost use Rattle.std.specs.List.{list_any};
ghost use Rattle.mkv_schema.specs.declared.ids.TheConstants.{TAG as TAG_ID, TARGETS as TARGETS_ID};
ghost use Rattle.serde_json.specs.View.{view};
ghost use Rattle.tree_format.specs.Standing.{IsSoundOf};
ghost use Rattle.mkv_info.specs.Named.{is_wanted};
ghost use Rattle.mkv_info.specs.Sound.{AreTags};
ghost use Rattle.mkv_info.specs.Tags.{counted_tags, is_counted, named_in, tag_count, track_tags_value, tracks_named};

use crate::tag_counts::{tag_counts, tags_of_uid};
use crate::values::with_children;
use ebml_tree::Tree;
use mkv_schema::ids::{SIMPLE_TAG, TAG, TAG_TRACK_UID, TARGETS};
use serde_json::{Value, json};
use std::alloc::{AllocError, Global};
use track_records::Track;

/// Selection of the tags that are counted.
#[derive(Clone, Copy)]
pub enum Scope {
    /// Tags that name no track.
    Global,
    /// Tags that name the track with this TrackUID.
    Track(u64),
}

/// Makes the value of the key `track_tags` in the JSON of `merge -J`: a list with the number of SimpleTags in `tags` of
/// each of `tracks` that has some. A track is named by its index from 0.
pub(crate) fn track_tags_value(
    alloc: Global,
    tags: &Option<Tree>,
    tracks: &[Track],
) -> Result<Value, AllocError>
    requires { IfSome tags.now AreTags }
    ensures { IfOk result (λ value. view value ≡ track_tags_value tags.now tracks.now) }
{
    let counts = tag_counts(alloc, tags)?;
    let mut values = Vec::new(alloc);
    for (index, track) in tracks.iter().enumerate() {
        let count = tags_of_uid(&counts, track.uid);
        if count > 0 {
            values.push(track_tags(alloc, count, index)?)?;
        }
    }
    Ok(Value::Array(values))
}

// Makes the object for `count` SimpleTags of the track with index `id`, from 0, for `track_tags_value`.
fn track_tags(alloc: Global, count: usize, id: usize) -> Result<Value, AllocError>
    ensures { IfOk result (λ value. view value ≡ counted_tags count id) }
{
    json!(in alloc; {"num_entries": count, "track_id": id})
}

/// Returns the number of SimpleTags directly in the Tags of `tags` that `scope` counts; 0 if the file has no Tags. The
/// key `global_tags` of `merge -J` has it for the tags of no track.
pub(crate) fn tag_count(tags: &Option<Tree>, scope: Scope) -> Result<usize, AllocError>
    requires { IfSome tags.now AreTags }
    ensures { IfOk result (λ count. count ≡ tag_count scope tags.now) }
{
    let Some(tags) = tags else {
        return Ok(0);
    };
    let mut count = 0;
    for tag in tags.children() {
        if tag.id() == TAG && is_counted(tag, scope) {
            count = with_children(count, tag, SIMPLE_TAG)?;
        }
    }
    Ok(count)
}

// Checks whether `tag`, a Tag, is counted in `scope`, for `tag_count`: it names no track, or it names the track of the
// scope.
fn is_counted(tag: &Tree, scope: Scope) -> bool
    requires { IsSoundOf TAG_ID tag.now }
    ensures { result ≡ is_counted scope tag.now }
{
    match scope {
        Scope::Global => !names(tag, None),
        Scope::Track(uid) => names(tag, Some(uid)),
    }
}

// Checks whether `tag`, a Tag, names the track with the TrackUID `wanted`, or any track if `wanted` is None.
// `is_counted` calls it.
fn names(tag: &Tree, wanted: Option<u64>) -> bool
    requires { IsSoundOf TAG_ID tag.now }
    ensures { result ≡ list_any (is_wanted wanted) (tracks_named tag.now) }
{
    for child in tag.children() {
        if child.id() == TARGETS && names_in(child, wanted) {
            return true;
        }
    }
    false
}

// Checks whether `targets`, a Targets, names the track with the TrackUID `wanted`, or any track if `wanted` is None.
// `names` does this for each Targets of a Tag.
fn names_in(targets: &Tree, wanted: Option<u64>) -> bool
    requires { IsSoundOf TARGETS_ID targets.now }
    ensures { result ≡ list_any (is_wanted wanted) (named_in targets.now) }
{
    for child in targets.children() {
        if child.id() == TAG_TRACK_UID && is_wanted(child.uint(), wanted) {
            return true;
        }
    }
    false
}

// Checks whether a TagTrackUID with the value `uid` names the track with the TrackUID `wanted`, or any track if
// `wanted` is None. A value of 0 names no track. `names_in` calls it.
fn is_wanted(uid: u64, wanted: Option<u64>) -> bool
    ensures { result ≡ (not (uid == 0) && is_wanted wanted uid) }
{
    match wanted {
        Some(own) => uid != 0 && uid == own,
        None => uid != 0,
    }
}
