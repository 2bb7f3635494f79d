//! The edits of a command line, made in sequence on a file's Info and Tracks in memory.

ghost use Rattle.std.specs.Prelude.{◌≡◌, ◌<◌, ◌+◌, ◌^◌, false, true, length, List, Some, slice_get, IfOk, IfSome};
ghost use Rattle.std.specs.List.{All};
ghost use Rattle.mkv_schema.specs.declared.ids.TheConstants.{INFO, TRACKS, TRACK_ENTRY};
ghost use Rattle.tree_format.specs.Node.{children, id_of};
ghost use Rattle.tree_format.specs.Standing.{StandsIn};
ghost use Rattle.ebml_tree.specs.Building.{IsRead};
ghost use Rattle.edit_changes.specs.Change as spec;
ghost use Rattle.edit_changes.specs.Property.{is_info};
ghost use Rattle.edit_changes.specs.Made.{BecomesOrStays};
ghost use Rattle.edit_changes.specs.Trees.{AreSound, MakesAll, MakesEntry, info_edited, numbered, tracks_edited};

use crate::change::{EditEnd, apply, is_info};
use crate::refusal::EditRefusal;
use crate::select::place_of;
use crate::trees::Trees;
use ebml_tree::Tree;
use mkv_io::List;
use requests::Edit;
use std::alloc::Global;

/// Reason why a sequence of edits isn't made.
#[derive(Clone, Copy, Debug, PartialEq, Eq)]
pub enum EditsEnd {
    /// An edit, counted from 1, is refused.
    Refused { edit: u64, why: EditRefusal },
    /// Out of memory.
    Memory,
}

/// Makes `edit`, one of the Info, in `info`, the file's Info, for `edited`. Fails if there is no Info, or if the edit
/// is refused; `info` then stays.
fn edit_info(alloc: Global, info: &mut Option<Tree>, edit: &Edit) -> Result<(), EditEnd>
    requires section { is_info edit.now.place ≡ true }
    requires info { IfSome info.old (IsRead INFO) }
    ensures exact { BecomesOrStays result info.old info.new (info_edited edit.now info.old) }
    ensures info { IfSome info.new (IsRead INFO) }
{
    match info {
        None => Err(EditEnd::Refused(EditRefusal::NoInfo)),
        Some(tree) => apply(alloc, tree, edit),
    }
}

/// Makes `edit`, one of a track, in the TrackEntry with index `k`, from 0, of `tracks`, the children of Tracks.
/// `edit_track` calls it for the entry that it found. A refused edit leaves it as it was.
fn edit_entry(alloc: Global, tracks: &mut Vec<Tree>, k: usize, edit: &Edit) -> Result<(), EditEnd>
    requires section { is_info edit.now.place ≡ false }
    requires inside { k < length tracks.old.items }
    requires entry { IfSome (slice_get tracks.old.items k) (IsRead TRACK_ENTRY) }
    ensures exact { MakesEntry result tracks.old.items tracks.new.items k edit.now }
{
    apply(alloc, &mut tracks[k], edit)
}

/// Makes `edit`, one of a track, in the TrackEntry that it selects among `tracks`, the children of Tracks, for
/// `edited`. A refused edit leaves them as they were.
#[tactic(auto, using(crate::proofs::TrackLemmas::tracks))]
fn edit_track(alloc: Global, tracks: &mut Vec<Tree>, edit: &Edit) -> Result<(), EditEnd>
    requires section { is_info edit.now.place ≡ false }
    requires tracks { All (StandsIn TRACKS) tracks.old.items }
    ensures exact { BecomesOrStays result tracks.old.items tracks.new.items (tracks_edited edit.now tracks.old.items) }
    ensures tracks { All (StandsIn TRACKS) tracks.new.items }
{
    let Some(k) = place_of(edit.place, tracks.as_slice()) else {
        return Err(EditEnd::Refused(EditRefusal::NoSuchTrack));
    };
    edit_entry(alloc, tracks, k, edit)
}

/// Returns the error for the whole sequence if the edit with index `k`, from 0, ended with `end`. A refusal gets its
/// number on the command line, `k + 1`, which the message of `propedit` has.
fn numbered(end: EditEnd, k: usize) -> EditsEnd
    requires { k + 1 < 2 ^ 64 }
    ensures { result ≡ numbered k end }
{
    match end {
        EditEnd::Refused(why) => EditsEnd::Refused {
            edit: k as u64 + 1,
            why,
        },
        EditEnd::Memory => EditsEnd::Memory,
    }
}

/// Makes `edits` in sequence on `trees`, each on the result of the previous one, and returns the edited trees.
/// `propedit` does this before it plans the writes. It ends with the first edit that is refused. No file is touched.
pub fn edited(alloc: Global, trees: Trees, edits: &List<Edit>) -> Result<Trees, EditsEnd>
    requires { AreSound trees }
    ensures exact { MakesAll result (spec.edited_trees edits.now trees) }
    ensures sound { IfOk result AreSound }
{
    let mut info = trees.info;
    let mut tracks = trees.tracks.into_vec();
    for (k, edit) in edits.as_slice().iter().enumerate() {
        let done = if is_info(edit.place) {
            edit_info(alloc, &mut info, edit)
        } else {
            edit_track(alloc, &mut tracks, edit)
        };
        if let Err(end) = done {
            return Err(numbered(end, k));
        }
    }
    Ok(Trees {
        info,
        tracks: List::from_vec(tracks),
    })
}
