//! The writes of rewritten Elements: each at its place, or with moved Elements and a new SeekHead.

ghost use Rattle.std.specs.Prelude.{◌≡◌, ◌≤◌, ◌+◌, ◌++◌, ◌^◌, [], ◌∷◌, None, false, IfErr, IfOk, IfSome, length, map, option_map, sum_by};
ghost use Rattle.element_reader.specs.Collected.{IsInFile};
ghost use Rattle.edit_changes.specs.Plan as spec;
ghost use Rattle.edit_plan.specs.Found.{found};
ghost use Rattle.edit_plan.specs.Moving.{CanMove, IsPrepared};
ghost use Rattle.edit_plan.specs.Shown.{shown, written};
ghost use Rattle.edit_plan.specs.Sought.{AreSought};
ghost use Rattle.edit_plan.specs.Answer.{Answers, is_plan_fault};
ghost use Rattle.edit_plan.specs.Made.{BeginsWithSize, writes_moving};

use crate::appended::{any_moves, appended};
use crate::counting::sum;
use crate::found::SeekHead;
use crate::in_order::{ascending, part_writes, writes_len};
use crate::part::Part;
use crate::plan_end::PlanEnd;
use crate::prepared::Prepared;
use crate::refusing::{moving_refusal, too_large};
use crate::size_field::{
    fitted_or_whole, new_seek_head, place_of, room_of, size_added, size_write,
};
use crate::write::Write;
use edit_changes::shortest;
use element_reader::{Header, Outline};
use mkv_schema::ids::SEEK_HEAD;
use std::alloc::{AllocError, Global};

/// Returns the writes of `parts` if none of them moves and the SeekHead stays, sorted by offset; or the refusal for too
/// much to write. `parts_writes` calls it.
pub fn place_writes(alloc: Global, parts: &[Part]) -> Result<Vec<Write>, PlanEnd>
    ensures exact { Answers (spec.writes_in_place (map shown parts.now)) result }
    ensures cause { IfErr result (λ end. is_plan_fault end ≡ false) }
{
    let writes = part_writes(alloc, parts)?;
    let length = writes_len(writes.as_slice())?;
    if let Some(refusal) = too_large(length, parts) {
        return Err(PlanEnd::Refused(refusal));
    }
    Ok(ascending(alloc, writes)?)
}

/// Returns the number of bytes of all writes of a plan together, for the limit of 16 MiB. They are `places` over the
/// old Elements, `added` at the end of the file, `head` of the SeekHead and `size` of the Segment's size. Used by
/// `prepared`.
fn moving_len(places: &[Write], added: u64, head: u64, size: u64) -> Result<u64, AllocError>
    ensures exact { IfOk result (λ n. n ≡ sum_by (λ w. length w.bytes) (map written places.now) + added + head + size) }
{
    let length = sum(writes_len(places)?, added)?;
    let length = sum(length, head)?;
    sum(length, size)
}

/// Prepares the writes of `parts`, and of the SeekHead with new Seeks for `ids`, for `moving_writes`, which then checks
/// them. `head` is the old SeekHead, and `outline` the file's. The file isn't touched.
fn prepared(
    alloc: Global,
    ids: &[u32],
    outline: &Outline,
    parts: &[Part],
    head: &Option<SeekHead>,
) -> Result<Prepared, AllocError>
    requires sought { AreSought ids.now }
    requires short { outline.now.total ≤ 2 ^ 48 }
    requires inside { IfSome head.now (λ s. IsInFile outline.now.total s.header) }
    ensures { IfOk result (IsPrepared ids.now outline.now (map shown parts.now) (option_map found head.now)) }
{
    let body = new_seek_head(alloc, ids, outline, parts, head)?;
    let room = room_of(outline, head);
    let octets = fitted_or_whole(alloc, SEEK_HEAD, body.as_slice(), room)?;
    let places = part_writes(alloc, parts)?;
    let moved = appended(alloc, parts)?;
    let length = moving_len(
        places.as_slice(),
        moved.len() as u64,
        octets.len() as u64,
        size_added(outline, parts),
    )?;
    Ok(Prepared {
        head: octets,
        need: shortest(SEEK_HEAD, body.len() as u64),
        room,
        places,
        moved,
        length,
    })
}

/// Returns the writes `first` followed by the writes `second`, for `assembled`.
fn joined(mut first: Vec<Write>, second: Vec<Write>) -> Result<Vec<Write>, AllocError>
    ensures { IfOk result (λ all. map written all.items ≡ map written first.items ++ map written second.items) }
{
    for write in second {
        first.push(write)?;
    }
    Ok(first)
}

/// Returns `first`, the write of the SeekHead, and `writes`, over the old Elements, together, sorted by offset.
/// `moving_writes` calls it.
fn sorted(alloc: Global, first: Write, mut writes: Vec<Write>) -> Result<Vec<Write>, AllocError>
    ensures { IfOk result (λ all. map written all.items ≡ spec.ascending (written first ∷ map written writes.items)) }
{
    writes.insert(0, first)?;
    ascending(alloc, writes)
}

/// Returns the write of the size of `segment`, then `writes`, then `last`, the write at the end of the file. The
/// Segment ends at the offset `end` afterwards. `moving_writes` calls it if something is appended.
fn assembled(
    alloc: Global,
    segment: &Header,
    end: u64,
    writes: Vec<Write>,
    last: Write,
) -> Result<Vec<Write>, AllocError>
    requires end { end ≤ 2 ^ 50 }
    requires body { segment.now.body ≤ 2 ^ 48 }
    requires fits { spec.size_refusal segment.now end ≡ None }
    ensures { BeginsWithSize segment.now end (map written writes.items ++ written last ∷ []) result }
{
    let mut all = joined(size_write(alloc, segment, end)?, writes)?;
    all.push(last)?;
    Ok(all)
}

/// Returns the writes of `parts`, and of the SeekHead with new Seeks for `ids`, sorted by offset; or the first refusal.
/// `head` is the old SeekHead, and `outline` the file's. `parts_writes` calls it if an Element moves, or if the
/// SeekHead is always written.
pub fn moving_writes(
    alloc: Global,
    ids: &[u32],
    outline: &Outline,
    parts: &[Part],
    head: &Option<SeekHead>,
) -> Result<Vec<Write>, PlanEnd>
    requires sought { AreSought ids.now }
    requires short { outline.now.total ≤ 2 ^ 48 }
    requires inside { IfSome head.now (λ s. IsInFile outline.now.total s.header) }
    ensures exact { CanMove outline.now → Answers (writes_moving ids.now outline.now parts.now head.now) result }
    ensures cause { IfErr result (λ end. is_plan_fault end ≡ false) }
{
    let new = prepared(alloc, ids, outline, parts, head)?;
    let added = new.moved.len() as u64;
    if let Some(refusal) = moving_refusal(outline, parts, new.length, added, new.need, new.room) {
        return Err(PlanEnd::Refused(refusal));
    }
    let first = Write {
        at: place_of(head),
        octets: new.head,
    };
    let writes = sorted(alloc, first, new.places)?;
    if !any_moves(parts) {
        return Ok(writes);
    }
    let total = outline.total();
    let last = Write {
        at: total,
        octets: new.moved,
    };
    let writes = assembled(alloc, &outline.segment(), total + added, writes, last)?;
    Ok(writes)
}
