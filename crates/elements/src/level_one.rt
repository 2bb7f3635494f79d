//! Steps over the Elements at level 1: RFC 9559, section 5.1 (Segment Element).

ghost use Rattle.std.specs.Prelude.{◌≡◌, ◌≤◌, IfOk, OnErr};
ghost use Rattle.mkv_io.specs.Faults.{HasCause, is_failure};
ghost use Rattle.mkv_io.specs.Sources.{IfTold, IsLive, OnlyReads, file_size};
ghost use Rattle.mkv_schema.specs.Elements.{ends_segment};
ghost use Rattle.elements.specs.Looks.{Goes, GoesThrough};
ghost use Rattle.elements.specs.Window.{Holds, IsEmptyWithin};
ghost use Rattle.elements.specs.Steps.{IsStep, StepsIn, place_behind};

use crate::lookahead::Lookahead;
use crate::parent::Parent;
use crate::walk::{behind, id_of};
use ebml_numbers::Size;
use mkv_io::{Damage, Failed, FileId, Reads};
use mkv_schema::{Header, is_level0};

/// Result of a step over the Elements of a Segment.
#[derive(Clone, Copy, Debug, PartialEq, Eq)]
pub enum Level1Step {
    /// Element at level 1, and the offset after it, or the damage inside it.
    Element {
        header: Header,
        next: Result<u64, Damage>,
    },
    /// Damage: there is no valid Element at level 1.
    Damaged(Damage),
    /// End of the Segment.
    End,
}

/// Checks whether a Segment of the size `size` ends before an Element with the ID `id`. Only a Segment of unknown size
/// does. For walks over level 1. Used by `next_of_segment`.
pub fn ends_segment(size: Size, id: u32) -> bool
    ensures { result ≡ ends_segment size id }
{
    match size {
        Size::Known(_) => false,
        Size::Unknown => is_level0(id),
    }
}

/// Returns the next step over a Segment of the size `size` in `file`, from the offset `at` on. The Segment ends at the
/// offset `end` or before. Headers are looked up through `window`. The reader of an outline, `info` and the walk over
/// level 1 of `reindex` call it for each step.
#[tactic(auto, using(crate::proofs::LevelOneLemmas::steps))]
pub fn next_of_segment<W: Lookahead, R: Reads>(
    window: &mut W,
    src: &mut R,
    file: FileId,
    size: Size,
    at: u64,
    end: u64,
) -> Result<Level1Step, Failed>
    requires live { IsLive R.Reads src.old file }
    requires place { at ≤ end }
    requires inside { end ≤ file_size R.Reads src.old file }
    requires holds { IfTold R.Reads src.old file (λ bytes. Holds bytes (W.ahead window.old)) }
    ensures ok { IfOk result (λ step. IfTold R.Reads src.old file (λ bytes. StepsIn bytes size at end step)) }
    ensures step { IfOk result (λ step. IsStep step at end) }
    ensures err { OnErr result (IsEmptyWithin at end (W.ahead window.new)) }
    ensures holds { IfTold R.Reads src.old file (λ bytes. Holds bytes (W.ahead window.new)) }
    ensures same { OnlyReads R.Reads src.old src.new }
    ensures cause { HasCause is_failure (R.reading_faults src.old) (R.reading_faults src.new) result }
    ensures goes { GoesThrough R.Reads W.ahead file at (place_behind at end) window.old window.new src.old src.new result }
{
    if at >= end {
        return Ok(Level1Step::End);
    }
    let found = window.element(src, file, Parent::Segment, at, end)?;
    if ends_segment(size, id_of(&found)) {
        return Ok(Level1Step::End);
    }
    match found {
        Ok(header) => {
            let next = behind(window, src, file, &header, end)?;
            Ok(Level1Step::Element { header, next })
        }
        Err(damage) => Ok(Level1Step::Damaged(damage)),
    }
}
