//! The Elements at level 1 of a Segment, collected for an outline: RFC 9559, section 5.1 (Segment Element).

ghost use Rattle.std.specs.Prelude.{All, ◌≡◌, ℕ, ◌≤◌, List, length, if◌then◌else◌, IfOk};
ghost use Rattle.std.specs.Option.{option_map_or};
ghost use Rattle.mkv_io.specs.Faults.{HasCause, is_read_fault};
ghost use Rattle.mkv_io.specs.Sources.{IfTold, IsLive, OnlyReads, file_size};
ghost use Rattle.mkv_schema.specs.Element.{end_in, is_unknown};
ghost use Rattle.mkv_schema.specs.Outline.{segment_run};
ghost use Rattle.elements.specs.Looks.{Goes};
ghost use Rattle.elements.specs.Window.{Holds};
ghost use Rattle.element_reader.specs.Collected.{IsInFile};
ghost use Rattle.element_reader.specs.Level.{EndsWay, HasLevel, IsLevel, IsOnWay, end_met, nothing_left};

use crate::collected::Collected;
use ebml_numbers::Size;
use elements::{Level1Step, Window, end_in, next_of_segment};
use mkv_io::{Damage, FileId, ReadEnd, Reads};
use mkv_schema::Header;
use std::alloc::Global;

/// Elements at level 1 of a Segment, as they were collected.
#[derive(Drop)]
pub struct Level {
    /// Elements that are kept.
    pub kept: Collected,
    /// The damage that ends them, if one does.
    pub damage: Option<Damage>,
    /// Offset in bytes of the Segment's end from the start of the file.
    pub end: u64,
}

// Returns the offset of the end of `segment` in the file, whose Elements end at the offset `at`, with the damage
// `damage` or without. The file has `total` bytes. Used by `ended`.
fn segment_end(segment: &Header, total: u64, at: u64, damage: Option<Damage>) -> u64
    ensures { result ≡ end_met total segment.now at damage }
{
    match segment.size {
        Size::Known(_) => end_in(segment, total),
        Size::Unknown if damage.is_some() => total,
        Size::Unknown => at,
    }
}

// Returns what was collected of `segment`, `kept`, whose Elements end at the offset `at` of the file, with the damage
// `damage` or without. The file has `total` bytes. Used by `collect`.
fn ended(kept: Collected, segment: &Header, total: u64, at: u64, damage: Option<Damage>) -> Level
    ensures kept { result.kept ≡ kept }
    ensures level { EndsWay total segment.now at damage kept result }
{
    let end = segment_end(segment, total, at, damage);
    Level { kept, damage, end }
}

/// Returns the greatest offset that `segment` may reach in a file of `total` bytes. Readers of level 1 stop there. Used
/// by `collect` and `over`.
pub fn segment_bound(segment: &Header, total: u64) -> u64
    ensures { result ≡ (if is_unknown segment.now.size then total else end_in total segment.now) }
{
    match segment.size {
        Size::Known(_) => end_in(segment, total),
        Size::Unknown => total,
    }
}

/// Collects the Elements at level 1 of `segment` in `file`, which has `total` bytes, through `window`. The inner error
/// is the damage of the first one that passes a limit. Earlier inputs of a merge have `held` bytes of Info, Tracks,
/// Chapters and Tags. The last step of reading an outline.
pub fn collect<R: Reads>(
    alloc: Global,
    window: &mut Window,
    src: &mut R,
    file: FileId,
    segment: &Header,
    total: u64,
    held: u64,
) -> Result<Result<Level, Damage>, ReadEnd>
    requires live { IsLive R.Reads src.old file }
    requires place { segment.now.body ≤ total }
    requires whole { total ≡ file_size R.Reads src.old file }
    requires holds { IfTold R.Reads src.old file (λ bytes. Holds bytes window.old) }
    ensures ok { IfOk result (λ found. IfTold R.Reads src.old file (λ bytes. IsLevel held bytes segment.now found)) }
    ensures whole { IfOk result (λ found. IfOk found (λ level. All (IsInFile total) level.kept.others.items)) }
    ensures same { OnlyReads R.Reads src.old src.new }
    ensures cause { HasCause is_read_fault (R.reading_faults src.old) (R.reading_faults src.new) result }
    ensures goes { Goes R.Reads file segment.now.body (λ _. total) window.old window.new src.old src.new result }
{
    let mut kept = Collected::new(alloc, held);
    let bound = segment_bound(segment, total);
    let mut at = segment.body;
    loop {
        match next_of_segment(window, src, file, segment.size, at, bound)? {
            Level1Step::End => return Ok(Ok(ended(kept, segment, total, at, None))),
            Level1Step::Damaged(damage) => {
                return Ok(Ok(ended(kept, segment, total, at, Some(damage))));
            }
            Level1Step::Element { header, next } => {
                if let Some(damage) = kept.add(header)? {
                    return Ok(Err(damage));
                }
                match next {
                    Ok(behind) => at = behind,
                    Err(damage) => return Ok(Ok(ended(kept, segment, total, at, Some(damage)))),
                }
            }
        }
    }
}
