//! Kept parts of a file other than its tracks

ghost use Rattle.std.specs.Prelude.{◌≡◌, IfOk, IfSome};
ghost use Rattle.mkv_schema.specs.declared.ids.TheConstants.{TAGS};
ghost use Rattle.ebml_tree.specs.Building.{IsRead};
ghost use Rattle.merge_inputs.specs.Select.{kept_list, kept_one, kept_tags};

use crate::select::keeps_tags;
use ebml_tree::Tree;
use mkv_io::List;
use output_model::Attachment;
use record_changes::without_statistics;
use requests::FileWords;
use std::alloc::{AllocError, Global};

/// Returns the attached files `files` of an input if `is_kept`, and none otherwise. Used by `read_file`.
pub fn kept_files(alloc: Global, is_kept: bool, files: List<Attachment>) -> List<Attachment>
    ensures { result ≡ kept_list is_kept files }
{
    if is_kept { files } else { List::new(alloc) }
}

/// Returns `tree`, the Chapters or Tags of an input, if `is_kept`, and None otherwise. Used by `read_file`.
pub fn kept_tree(is_kept: bool, tree: Option<Tree>) -> Option<Tree>
    ensures { result ≡ kept_one is_kept tree }
{
    if is_kept { tree } else { None }
}

/// Returns the Tags `tags` of an input if its options `words` keep some, or None. They lack the statistics if the
/// options leave the statistics out. Used by `read_file`.
pub fn kept_tags(
    alloc: Global,
    words: &FileWords,
    tags: Option<Tree>,
) -> Result<Option<Tree>, AllocError>
    requires { IfSome tags (IsRead TAGS) }
    ensures exact { IfOk result (λ kept. kept ≡ kept_tags words.now tags) }
    ensures read { IfOk result (λ kept. IfSome kept (IsRead TAGS)) }
{
    match kept_tree(keeps_tags(words), tags) {
        Some(tags) if !words.statistics => Ok(Some(without_statistics(alloc, &tags)?)),
        tags => Ok(tags),
    }
}
