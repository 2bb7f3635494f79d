//! The first Cues of a file, as a tree.

ghost use Rattle.std.specs.Prelude.{◌≡◌, IfOk, IfSome};
ghost use Rattle.mkv_io.specs.Bounds.{ReadsUpTo};
ghost use Rattle.mkv_io.specs.Faults.{HasCause};
ghost use Rattle.mkv_io.specs.Sources.{IfTold, IsLive, file_size};
ghost use Rattle.mkv_schema.specs.declared.ids.TheConstants.{CUES as CUES_ID};
ghost use Rattle.tree_format.specs.Standing.{IsSoundOf};
ghost use Rattle.element_reader.specs.Outline.{is_outline_fault};
ghost use Rattle.extractors.specs.Reading.{ReadsFirstCues};

use crate::limits::MAX_CUE_NODES;
use ebml_tree::{Tree, TreeEnd};
use element_reader::{LoadEnd, Outline, OutlineEnd, load};
use mkv_io::{FileId, Reads};
use mkv_schema::ids::CUES;
use std::alloc::Global;

/// Reads the first Cues at level 1 of `file`, whose top-level Elements `outline` lists; returns None if there is none.
/// Refuses the file if the Cues is over 64 MiB (`HeaderTooLarge`), has over 8,388,608 Elements (`TooMany`), or is
/// damaged inside. `extract FILE cues` reads its source so. Used by `cues_for` of `mkv_extract`.
pub fn first_cues<R: Reads>(
    alloc: Global,
    outline: &Outline,
    src: &mut R,
    file: FileId,
) -> Result<Option<Tree>, OutlineEnd>
    requires live { IsLive R.Reads src.old file }
    requires whole { outline.now.total ≡ file_size R.Reads src.old file }
    ensures exact { IfTold R.Reads src.old file (ReadsFirstCues outline.now result) }
    ensures sound { IfOk result (λ tree. IfSome tree (IsSoundOf CUES_ID)) }
    ensures standing { R.standing src.new ≡ R.standing src.old }
    ensures cause { HasCause is_outline_fault (R.reading_faults src.old) (R.reading_faults src.new) result }
    ensures octets { ReadsUpTo R.Reads src.old src.new (file_size R.Reads src.old file) }
{
    let Some(header) = outline.first(CUES) else {
        return Ok(None);
    };
    let body = match load(alloc, src, file, &header) {
        Ok(body) => body,
        Err(LoadEnd::TooLarge(damage)) => return Err(OutlineEnd::Refused(damage)),
        Err(LoadEnd::ReadFault) => return Err(OutlineEnd::ReadFault),
        Err(LoadEnd::Memory) => return Err(OutlineEnd::Memory),
    };
    match Tree::parse(
        alloc,
        CUES,
        header.offset,
        body.as_slice(),
        header.body,
        MAX_CUE_NODES,
    ) {
        Ok(tree) => Ok(Some(tree)),
        Err(TreeEnd::Damage(damage)) => Err(OutlineEnd::Refused(damage)),
        Err(TreeEnd::Memory) => Err(OutlineEnd::Memory),
    }
}
