//! The search for the Segment of a file: RFC 9559, section 5.1 (Segment Element).

ghost use Rattle.std.specs.Prelude.{◌≡◌, ◌≤◌, ◌<◌, IfOk, OnErr};
ghost use Rattle.mkv_io.specs.Faults.{HasCause, is_failure};
ghost use Rattle.mkv_io.specs.Sources.{IfTold, IsLive, OnlyReads, file_size};
ghost use Rattle.elements.specs.Looks.{Goes};
ghost use Rattle.elements.specs.Window.{Holds, IsEmptyWithin};
ghost use Rattle.element_reader.specs.Segment.{segment_from, body_or};

use elements::{Lookahead, Parent, Window, damage, end_in, id_of};
use mkv_io::{Damage, Failed, FileId, Kind, Reads};
use mkv_schema::Header;
use mkv_schema::ids::SEGMENT;

/// Returns the header of the first Segment of `file`, which has `total` bytes, from the offset `from` at level 0 on,
/// read through `window`. The inner error is the damage for which the file is refused before it. The second step of
/// reading an outline, after the EBML header.
#[tactic(auto, using(crate::proofs::SegmentLemmas::ways))]
pub fn find_segment<R: Reads>(
    window: &mut Window,
    src: &mut R,
    file: FileId,
    from: u64,
    total: u64,
) -> Result<Result<Header, Damage>, Failed>
    requires live { IsLive R.Reads src.old file }
    requires place { from ≤ total }
    requires whole { total ≡ file_size R.Reads src.old file }
    requires holds { IfTold R.Reads src.old file (λ bytes. Holds bytes window.old) }
    ensures ok { IfOk result (λ found. IfTold R.Reads src.old file (λ bytes. found ≡ segment_from bytes from)) }
    ensures placed { IfOk result (λ found. IfOk found (λ h. (from < h.body) × (h.body ≤ total))) }
    ensures holds { IfTold R.Reads src.old file (λ bytes. Holds bytes window.new) }
    ensures err { OnErr result (IsEmptyWithin from total window.new) }
    ensures same { OnlyReads R.Reads src.old src.new }
    ensures cause { HasCause is_failure (R.reading_faults src.old) (R.reading_faults src.new) result }
    ensures goes { Goes R.Reads file from (body_or total) window.old window.new src.old src.new result }
{
    let mut at = from;
    while at < total {
        let found = window.element(src, file, Parent::File, at, total)?;
        if id_of(&found) == SEGMENT {
            return Ok(found);
        }
        match found {
            Ok(header) => at = end_in(&header, total),
            Err(damage) => return Ok(Err(damage)),
        }
    }
    Ok(Err(damage(Kind::NoSegment, 0, total)))
}
