//! Reading of the SeekHead that a file has before an edit.

ghost use Rattle.std.specs.Prelude.{◌≡◌, IfOk, IfSome};
ghost use Rattle.mkv_io.specs.Bounds.{ReadsUpTo};
ghost use Rattle.mkv_io.specs.Faults.{HasCause, is_read_fault};
ghost use Rattle.mkv_io.specs.Sources.{IsLive, file_size};
ghost use Rattle.element_reader.specs.Collected.{IsInFile};
ghost use Rattle.edit_changes.specs.SeekHead as spec;
ghost use Rattle.edit_plan.specs.Found.{FindsSeekHead};

use crate::found::SeekHead;
use ebml_tree::{MAX_NODES, Tree, TreeEnd};
use element_reader::{Header, LoadEnd, Outline, load};
use mkv_io::{FileId, List, ReadEnd, Reads};
use mkv_schema::ids::SEEK_HEAD;
use std::alloc::Global;

/// Returns the header of the first SeekHead at level 1 of the file with this `outline`. It is None unless that is
/// before the first Cluster. `first_seek_head` reads that SeekHead.
fn seek_head_in(outline: &Outline) -> Option<Header>
    ensures exact { result ≡ spec.seek_head_in outline.now }
    ensures inside { IfSome result (IsInFile outline.now.total) }
{
    let header = outline.first(SEEK_HEAD)?;
    match outline.first_cluster() {
        Some(cluster) if cluster <= header.offset => None,
        _ => Some(header),
    }
}

/// Reads the first SeekHead of `file`, if it is before the first Cluster, so that `parts_writes` can replace it.
/// `outline` is the file's. One that is longer than 16 MiB or damaged counts as none. It fails only if a read fails or
/// memory runs out.
pub fn first_seek_head<R: Reads>(
    alloc: Global,
    outline: &Outline,
    src: &mut R,
    file: FileId,
) -> Result<Option<SeekHead>, ReadEnd>
    requires live { IsLive R.Reads src.old file }
    requires whole { outline.now.total ≡ file_size R.Reads src.old file }
    ensures exact { FindsSeekHead R.Reads src.old file outline.now result }
    ensures inside { IfOk result (λ head. IfSome head (λ s. IsInFile outline.now.total s.header)) }
    ensures standing { R.standing src.new ≡ R.standing src.old }
    ensures cause { HasCause is_read_fault (R.reading_faults src.old) (R.reading_faults src.new) result }
    ensures octets { ReadsUpTo R.Reads src.old src.new (file_size R.Reads src.old file) }
{
    let Some(header) = seek_head_in(outline) else {
        return Ok(None);
    };
    let body = match load(alloc, src, file, &header) {
        Ok(body) => body,
        Err(LoadEnd::TooLarge(_)) => return Ok(None),
        Err(LoadEnd::ReadFault) => return Err(ReadEnd::ReadFault),
        Err(LoadEnd::Memory) => return Err(ReadEnd::Memory),
    };
    match Tree::parse(
        alloc,
        SEEK_HEAD,
        header.offset,
        body.as_slice(),
        header.body,
        MAX_NODES,
    ) {
        Ok(tree) => Ok(Some(SeekHead {
            header,
            seeks: List::from_vec(tree.into_children()),
        })),
        Err(TreeEnd::Damage(_)) => Ok(None),
        Err(TreeEnd::Memory) => Err(ReadEnd::Memory),
    }
}
