//! The TrackEntry of an output track: RFC 9559, section 5.1.4 (Tracks).

ghost use Rattle.std.specs.Prelude.{◌≡◌, [], ◌∷◌, OnOk, IfOk};
ghost use Rattle.tree_format.specs.Node.{leaf};
ghost use Rattle.tree_format.specs.Children.{uint_leaf, removed_each, given};
ghost use Rattle.track_records.specs.Entry.{flag_leaf, flags_set, ids_removed, written_entry, IsWholeEntry};
ghost use Rattle.mkv_schema.specs.declared.ids.TheConstants.{TRACK_ENTRY};
ghost use Rattle.ebml_tree.specs.Leaves.{IsUintIn, IsTextIn};
ghost use Rattle.track_records.specs.Step.{SetsEach};

use crate::track::Track;
use crate::track_change::{FlagChange, TrackChange};
use ebml_tree::{Tree, text_leaf, uint_leaf};
use mkv_io::Text;
use mkv_schema::ids::{
    CONTENT_ENCODINGS, FLAG_COMMENTARY, FLAG_DEFAULT, FLAG_ENABLED, FLAG_FORCED,
    FLAG_HEARING_IMPAIRED, FLAG_ORIGINAL, FLAG_TEXT_DESCRIPTIONS, FLAG_VISUAL_IMPAIRED, LANGUAGE,
    LANGUAGE_BCP47, NAME, TRACK_NUMBER, TRACK_UID,
};
use std::alloc::{AllocError, Global};

// Returns a copy of the TrackEntry of `track`, without ContentEncodings unless its frames are taken as they are stored,
// and without LanguageBCP47 if `language` is set, since it would be displayed instead. `written` begins with it.
fn bare(alloc: Global, track: &Track, language: &Option<Text>) -> Result<Tree, AllocError>
    requires { IsWholeEntry track.now.entry }
    ensures exact { IfOk result (λ bare. bare ≡ removed_each (ids_removed track.now.stored language.now) track.now.entry) }
    ensures whole { IfOk result IsWholeEntry }
{
    let mut bare = track.entry.copy(alloc)?;
    if !track.stored {
        bare.remove(CONTENT_ENCODINGS);
    }
    if language.is_some() {
        bare.remove(LANGUAGE_BCP47);
    }
    Ok(bare)
}

// Sets the child `id` of `entry`, an unsigned integer, to `value`, for `written`.
fn set_uint(alloc: Global, entry: &mut Tree, id: u32, value: u64) -> Result<(), AllocError>
    requires id { IsUintIn TRACK_ENTRY id }
    requires whole { IsWholeEntry entry.old }
    ensures { OnOk result (SetsEach (uint_leaf id value ∷ []) entry.old entry.new) }
{
    entry.set(uint_leaf(alloc, id, value)?)
}

// Sets the child `id` of `entry`, a text, to `text`, if it is present, for `written`.
fn set_text(alloc: Global, entry: &mut Tree, id: u32, text: &Option<Text>) -> Result<(), AllocError>
    requires id { IsTextIn TRACK_ENTRY id }
    requires whole { IsWholeEntry entry.old }
    ensures { OnOk result (SetsEach (given (leaf id 0) text.now) entry.old entry.new) }
{
    match text {
        Some(text) => entry.set(text_leaf(alloc, id, text.as_str())?),
        None => Ok(()),
    }
}

// Sets the child `id` of `entry`, a flag, to `flag`, if it is present, for `written`.
fn set_flag(alloc: Global, entry: &mut Tree, id: u32, flag: Option<bool>) -> Result<(), AllocError>
    requires id { IsUintIn TRACK_ENTRY id }
    requires whole { IsWholeEntry entry.old }
    ensures { OnOk result (SetsEach (given (flag_leaf id) flag) entry.old entry.new) }
{
    match flag {
        Some(flag) => set_uint(alloc, entry, id, u64::from(flag)),
        None => Ok(()),
    }
}

// Sets the flags of `entry` for the audience of the track, if they are present in `flags`, for `written`.
fn set_flags(alloc: Global, entry: &mut Tree, flags: &FlagChange) -> Result<(), AllocError>
    requires whole { IsWholeEntry entry.old }
    ensures { OnOk result (SetsEach (flags_set flags.now) entry.old entry.new) }
{
    set_flag(alloc, entry, FLAG_ENABLED, flags.enabled)?;
    set_flag(alloc, entry, FLAG_HEARING_IMPAIRED, flags.hearing_impaired)?;
    set_flag(alloc, entry, FLAG_VISUAL_IMPAIRED, flags.visual_impaired)?;
    set_flag(
        alloc,
        entry,
        FLAG_TEXT_DESCRIPTIONS,
        flags.text_descriptions,
    )?;
    set_flag(alloc, entry, FLAG_ORIGINAL, flags.original)?;
    set_flag(alloc, entry, FLAG_COMMENTARY, flags.commentary)?;
    Ok(())
}

/// Returns the TrackEntry that `track` gets in an output with the changes `change`. `merge` does this for each output
/// track. It has no ContentEncodings unless the frames are taken as they are stored, the output's number and identifier,
/// and then the user's changes. Other children stay in their order.
pub fn written(alloc: Global, track: &Track, change: &TrackChange) -> Result<Tree, AllocError>
    requires { IsWholeEntry track.now.entry }
    ensures exact { IfOk result (λ entry. entry ≡ written_entry change.now track.now.stored track.now.entry) }
    ensures whole { IfOk result IsWholeEntry }
{
    let mut entry = bare(alloc, track, &change.language)?;
    set_uint(alloc, &mut entry, TRACK_NUMBER, change.number)?;
    set_uint(alloc, &mut entry, TRACK_UID, change.uid)?;
    set_text(alloc, &mut entry, NAME, &change.name)?;
    set_text(alloc, &mut entry, LANGUAGE, &change.language)?;
    set_text(alloc, &mut entry, LANGUAGE_BCP47, &change.language_tag)?;
    set_flag(alloc, &mut entry, FLAG_DEFAULT, change.flag_default)?;
    set_flag(alloc, &mut entry, FLAG_FORCED, change.flag_forced)?;
    set_flags(alloc, &mut entry, &change.flags)?;
    Ok(entry)
}
