//! Size limits for records of an output

ghost use Rattle.std.specs.Prelude.{◌≡◌, IfSome};
ghost use Rattle.tree_format.specs.Node.{IsMaster};
ghost use Rattle.output_records.specs.Limits.{too_large, first_too_large};

use crate::record_limits::is_too_large;
use ebml_tree::Tree;
use mkv_schema::ids::{CHAPTERS, TAGS, TRACKS};

// Returns `id`, the ID of the record `tree`, if the record is present and too large to be read again, or None. Used by
// `first_too_large`.
fn too_large(id: u32, tree: &Option<Tree>) -> Option<u32>
    requires { IfSome tree.now IsMaster }
    ensures { result ≡ too_large id tree.now }
{
    match tree {
        Some(tree) if is_too_large(tree) => Some(id),
        _ => None,
    }
}

/// Returns the ID of the first of an output's Tracks, Chapters and Tags that is too large to be read again, or None;
/// the merge is refused then. Such a record has more than 16 MiB after its header, or more than 65,536 Elements. Used
/// by `records_for` of `merge_plan`.
pub fn first_too_large(tracks: &Tree, chapters: &Option<Tree>, tags: &Option<Tree>) -> Option<u32>
    requires tracks { IsMaster tracks.now }
    requires chapters { IfSome chapters.now IsMaster }
    requires tags { IfSome tags.now IsMaster }
    ensures { result ≡ first_too_large tracks.now chapters.now tags.now }
{
    if is_too_large(tracks) {
        return Some(TRACKS);
    }
    too_large(CHAPTERS, chapters).or(too_large(TAGS, tags))
}
