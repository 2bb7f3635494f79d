//! Steps over Elements of unknown size, and the ends of Elements.

ghost use Rattle.std.specs.Prelude.{◌≡◌, ◌≤◌, IfOk, OnErr};
ghost use Rattle.mkv_io.specs.Faults.{HasCause, is_failure};
ghost use Rattle.mkv_io.specs.Sources.{IfRead, IfTold, IsLive, OnlyReads, file_size};
ghost use Rattle.mkv_schema.specs.Elements.{behind_in_segment, ends_cluster, id_of};
ghost use Rattle.mkv_schema.specs.Element.{end_in};
ghost use Rattle.elements.specs.Looks.{Goes, GoesBody, GoesThrough};
ghost use Rattle.elements.specs.Window.{Holds, IsEmptyWithin};
ghost use Rattle.elements.specs.Walk.{IsBetween, cluster_end, place_or};

use crate::lookahead::Lookahead;
use crate::parent::Parent;
use ebml_numbers::Size;
use mkv_io::{Damage, Failed, FileId, Reads};
use mkv_schema::{Header, is_level0, is_level1};

/// Returns the Element ID of `found`, a header or a damage, or 0 if it couldn't be read. For the ends of Segments and
/// Clusters of unknown size.
pub fn id_of(found: &Result<Header, Damage>) -> u32
    ensures { result ≡ id_of found.now }
{
    match found {
        Ok(header) => header.id,
        Err(damage) => damage.id,
    }
}

/// Checks whether a Cluster of unknown size ends before an Element with the ID `id`. For `cluster_end`, and for readers
/// of blocks.
pub fn ends_cluster(id: u32) -> bool
    ensures { result ≡ ends_cluster id }
{
    is_level1(id) || is_level0(id)
}

/// Returns the offset after the Element `header`, or `end`, its parent's end, if that is before. Used by `cluster_end`
/// and `behind`, which go on there, and by readers of blocks.
pub fn end_in(header: &Header, end: u64) -> u64
    ensures { result ≡ end_in end header.now }
{
    match header.size {
        Size::Known(size) => header.body.saturating_add(size).min(end),
        Size::Unknown => header.body.min(end),
    }
}

/// Returns the offset after the children of a Cluster of unknown size, whose data begins at the offset `from` of
/// `file`. Its parent ends at the offset `end`. The inner error is the damage among the children. For `behind`, when a
/// reader walks over level 1.
#[tactic(auto, using(crate::proofs::WalkLemmas::ends))]
pub fn cluster_end<W: Lookahead, R: Reads>(
    window: &mut W,
    src: &mut R,
    file: FileId,
    from: u64,
    end: u64,
) -> Result<Result<u64, Damage>, Failed>
    requires live { IsLive R.Reads src.old file }
    requires place { from ≤ end }
    requires inside { end ≤ file_size R.Reads src.old file }
    requires holds { IfTold R.Reads src.old file (λ bytes. Holds bytes (W.ahead window.old)) }
    ensures ok { IfOk result (λ found. IfTold R.Reads src.old file (λ bytes. found ≡ cluster_end bytes from end)) }
    ensures holds { IfTold R.Reads src.old file (λ bytes. Holds bytes (W.ahead window.new)) }
    ensures err { OnErr result (IsEmptyWithin from end (W.ahead window.new)) }
    ensures same { OnlyReads R.Reads src.old src.new }
    ensures cause { HasCause is_failure (R.reading_faults src.old) (R.reading_faults src.new) result }
    ensures place { IfOk result (λ found. IfOk found (IsBetween from end)) }
    ensures goes { GoesThrough R.Reads W.ahead file from (place_or end) window.old window.new src.old src.new result }
{
    let mut at = from;
    while at < end {
        let found = window.element(src, file, Parent::Master, at, end)?;
        if ends_cluster(id_of(&found)) {
            return Ok(Ok(at));
        }
        match found {
            Ok(header) => at = end_in(&header, end),
            Err(damage) => return Ok(Err(damage)),
        }
    }
    Ok(Ok(at))
}

/// Returns the offset after `header`, an Element of a Segment in `file` that ends at the offset `end`. The inner error
/// is the damage inside it. A Cluster of unknown size ends with its children. For `next_of_segment`, which goes on
/// there.
pub fn behind<W: Lookahead, R: Reads>(
    window: &mut W,
    src: &mut R,
    file: FileId,
    header: &Header,
    end: u64,
) -> Result<Result<u64, Damage>, Failed>
    requires live { IsLive R.Reads src.old file }
    requires place { header.now.body ≤ end }
    requires inside { end ≤ file_size R.Reads src.old file }
    requires holds { IfTold R.Reads src.old file (λ bytes. Holds bytes (W.ahead window.old)) }
    ensures ok { IfRead R.Reads src.old file result (λ found bytes. found ≡ behind_in_segment bytes end header.now) }
    ensures holds { IfTold R.Reads src.old file (λ bytes. Holds bytes (W.ahead window.new)) }
    ensures err { OnErr result (IsEmptyWithin header.now.body end (W.ahead window.new)) }
    ensures same { OnlyReads R.Reads src.old src.new }
    ensures cause { HasCause is_failure (R.reading_faults src.old) (R.reading_faults src.new) result }
    ensures place { IfOk result (λ found. IfOk found (IsBetween header.now.body end)) }
    ensures goes { GoesBody R.Reads W.ahead file header.now (place_or end) window.old window.new src.old src.new result }
{
    match header.size {
        Size::Unknown => {
            let found = cluster_end(window, src, file, header.body, end)?;
            Ok(found)
        }
        Size::Known(_) => Ok(Ok(end_in(header, end))),
    }
}
