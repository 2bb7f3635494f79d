//! Selection of the TrackEntry that an edit changes.

ghost use Rattle.std.specs.Prelude.{◌≡◌, IfSome};
ghost use Rattle.std.specs.List.{All};
ghost use Rattle.mkv_schema.specs.declared.ids.TheConstants.{TRACKS, TRACK_ENTRY as ENTRY_ID};
ghost use Rattle.tree_format.specs.Standing.{StandsIn, IsSoundOf};
ghost use Rattle.tree_format.specs.Values.{uint_in, HasUint};
ghost use Rattle.edit_changes.specs.Change as spec;
ghost use Rattle.edit_changes.specs.Trees.{IsEntryAt};

use ebml_tree::Tree;
use mkv_schema::ids::{TRACK_ENTRY, TRACK_NUMBER, TRACK_TYPE, TRACK_UID};
use mkv_schema::uint_default;
use requests::Selector;

/// Returns the unsigned integer of the child with this `id` in the TrackEntry `entry`, such as TrackNumber. If it is
/// absent, it is the default of the Matroska table, or 0. `fits` compares it with the selector.
fn uint_in(entry: &Tree, id: u32) -> u64
    requires entry { IsSoundOf ENTRY_ID entry.now }
    requires uint { HasUint ENTRY_ID id }
    ensures { result ≡ uint_in id entry.now }
{
    match entry.child(id) {
        Some(child) => child.uint(),
        None => uint_default(id).unwrap_or(0),
    }
}

/// Checks whether `tree`, a child of Tracks, is a TrackEntry of the kind that `selector` names, by TrackType, TrackUID
/// or TrackNumber. `place_of` counts the ones that pass. Their position isn't checked.
#[tactic(auto, using(crate::proofs::SelectLemmas::entries))]
fn fits(selector: Selector, tree: &Tree) -> bool
    requires { StandsIn TRACKS tree.now }
    ensures { result ≡ spec.fits selector tree.now }
{
    if tree.id() != TRACK_ENTRY {
        return false;
    }
    match selector {
        Selector::Info => false,
        Selector::Nth { n: _ } => true,
        Selector::Typed { kind, n: _ } => uint_in(tree, TRACK_TYPE) == kind,
        Selector::Uid { uid } => uint_in(tree, TRACK_UID) == uid,
        Selector::Number { number } => uint_in(tree, TRACK_NUMBER) == number,
    }
}

/// Returns the position, from 1, of the TrackEntry that `selector` names among the ones that `fits` accepts; 0 for the
/// Info. `place_of` counts down from it.
fn turn_of(selector: Selector) -> u64
    ensures { result ≡ spec.turn_of selector }
{
    match selector {
        Selector::Info => 0,
        Selector::Nth { n } => n,
        Selector::Typed { kind: _, n } => n,
        Selector::Uid { uid: _ } => 1,
        Selector::Number { number: _ } => 1,
    }
}

/// Returns the index, from 0, of the TrackEntry that `selector` names among `tracks`, the children of Tracks; None if
/// there is none. `edit_track` edits it.
#[tactic(auto, using(crate::proofs::SelectLemmas::places))]
pub fn place_of(selector: Selector, tracks: &[Tree]) -> Option<usize>
    requires { All (StandsIn TRACKS) tracks.now }
    ensures exact { result ≡ spec.place_of selector tracks.now }
    ensures entry { IfSome result (IsEntryAt tracks.now) }
{
    let mut left = turn_of(selector);
    for (k, tree) in tracks.iter().enumerate() {
        if fits(selector, tree) {
            if left == 1 {
                return Some(k);
            }
            left = left.saturating_sub(1);
        }
    }
    None
}
