//! First Element with an ID, read as a tree

ghost use Rattle.std.specs.Prelude.{◌≡◌, List, Ok, IfOk, IfSome};
ghost use Rattle.mkv_io.specs.Bounds.{ReadsUpTo};
ghost use Rattle.mkv_io.specs.Faults.{HasCause};
ghost use Rattle.mkv_io.specs.Sources.{IfTold, IsLive, file_size};
ghost use Rattle.tree_format.specs.Standing.{IsSoundOf};
ghost use Rattle.ebml_tree.specs.Building.{IsRead};
ghost use Rattle.element_reader.specs.Outline.{is_outline_fault, outline_in};
ghost use Rattle.meta_records.specs.Records.{IfOutlinedAs, IsHeld, ReadsAs, first_tree};

use ebml_tree::{MAX_NODES, Tree, TreeEnd};
use element_reader::{LoadEnd, Outline, OutlineEnd, load};
use mkv_io::{FileId, Reads};
use std::alloc::Global;

/// Reads the first Element of level 1 with the ID `id` in `file`, as a tree, if there is one, or returns its damage.
/// `outline` has the headers of level 1. Info, Tracks, Chapters and Tags are read so. Used by `read_records`, by
/// `info`, and by edits.
pub fn first_tree<R: Reads>(
    alloc: Global,
    outline: &Outline,
    src: &mut R,
    file: FileId,
    id: u32,
) -> Result<Option<Tree>, OutlineEnd>
    requires live { IsLive R.Reads src.old file }
    requires whole { outline.now.total ≡ file_size R.Reads src.old file }
    requires held { IsHeld id }
    ensures exact { IfOutlinedAs R.Reads src.old file outline.now (first_tree id) (λ found. ReadsAs found result) }
    ensures sound { IfOk result (λ tree. IfSome tree (IsSoundOf id)) }
    ensures read { IfOk result (λ tree. IfSome tree (IsRead id)) }
    ensures standing { R.standing src.new ≡ R.standing src.old }
    ensures cause { HasCause is_outline_fault (R.reading_faults src.old) (R.reading_faults src.new) result }
    ensures octets { ReadsUpTo R.Reads src.old src.new (file_size R.Reads src.old file) }
{
    let Some(header) = outline.first(id) else {
        return Ok(None);
    };
    let body = match load(alloc, src, file, &header) {
        Ok(body) => body,
        Err(LoadEnd::TooLarge(damage)) => return Err(OutlineEnd::Refused(damage)),
        Err(LoadEnd::ReadFault) => return Err(OutlineEnd::ReadFault),
        Err(LoadEnd::Memory) => return Err(OutlineEnd::Memory),
    };
    match Tree::parse(
        alloc,
        id,
        header.offset,
        body.as_slice(),
        header.body,
        MAX_NODES,
    ) {
        Ok(tree) => Ok(Some(tree)),
        Err(TreeEnd::Damage(damage)) => Err(OutlineEnd::Refused(damage)),
        Err(TreeEnd::Memory) => Err(OutlineEnd::Memory),
    }
}
