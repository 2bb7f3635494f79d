//! AttachedFiles of files that a merge attaches: RFC 9559, section 5.1.6.1 (AttachedFile).

ghost use Rattle.std.specs.Prelude.{◌≡◌, IfOk};
ghost use Rattle.output_model.specs.Sound.{IsAttachment};
ghost use Rattle.output_records.specs.Attached.{attached_entry};

use ebml_tree::{Tree, empty, text_leaf, uint_leaf};
use mkv_schema::ids::{
    ATTACHED_FILE, FILE_DATA, FILE_DESCRIPTION, FILE_MEDIA_TYPE, FILE_NAME, FILE_UID,
};
use std::alloc::{AllocError, Global};

/// Returns the AttachedFile of a file with the FileName `name`, the FileMediaType `media_type` and the FileDescription
/// `description`, which isn't written if it is empty. Its FileData is empty: the data stay in the file. Its FileUID is 0
/// until the merge gives one. Used by `attached_input` of `merge_plan`.
pub fn attached_entry(
    alloc: Global,
    name: &str,
    media_type: &str,
    description: &str,
) -> Result<Tree, AllocError>
    ensures exact { IfOk result (λ entry. entry ≡ attached_entry name.now media_type.now description.now) }
    ensures sound { IfOk result IsAttachment }
{
    let mut entry = empty(alloc, ATTACHED_FILE, 0)?;
    if !description.is_empty() {
        entry.push(text_leaf(alloc, FILE_DESCRIPTION, description)?)?;
    }
    entry.push(text_leaf(alloc, FILE_NAME, name)?)?;
    entry.push(text_leaf(alloc, FILE_MEDIA_TYPE, media_type)?)?;
    entry.push(Tree::leaf(alloc, FILE_DATA, &[])?)?;
    entry.push(uint_leaf(alloc, FILE_UID, 0)?)?;
    Ok(entry)
}
