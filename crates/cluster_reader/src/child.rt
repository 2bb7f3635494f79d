//! Children of a Cluster: RFC 9559, section 5.1.3 (Cluster).

ghost use Rattle.std.specs.Prelude.{◌≡◌, ◌≤◌, ℕ, false, IfOk, IfSome, OnOk};
ghost use Rattle.mkv_io.specs.Faults.{HasCause, is_read_fault};
ghost use Rattle.mkv_io.specs.Sources.{IfTold, live_files};
ghost use Rattle.mkv_schema.specs.Element.{is_unknown, known, stated_end};
ghost use Rattle.elements.specs.Looks.{Goes};
ghost use Rattle.elements.specs.Window.{Holds};
ghost use Rattle.block_format.specs.Elements.{timestamp_for, with_limits};
ghost use Rattle.block_reader.specs.Lendable.{HasSmallTimes};
ghost use Rattle.cluster_reader.specs.Reading.{LendsWanted};
ghost use Rattle.cluster_reader.specs.Takes.{IsPassedWhere, held_front, settled_by, settled_in, wants};
ghost use Rattle.cluster_reader.specs.Walks.{FindsForAll, FindsIn, IsReady, KeepsWalk, LendsForChild, MakesIn, PassesIn, PassesWhereSettled, ReadsBody, SettlesHeld, StaysAtBody};
ghost use Rattle.cluster_reader.specs.declared.step.Step.TheVariants as StepOf;
ghost use Rattle.cluster_reader.specs.declared.filter.BlockFilter.{BlockFilter};

use crate::filter::BlockFilter;
use crate::timestamp::read_timestamp;
use crate::turn::Child;
use crate::walk::Walk;
use block_format::{MAX_BLOCK_LEN, MAX_TIMESTAMP_LEN};
use block_reader::{BlockPreview, front_head, front_track};
use elements::{Window, damage_at, known};
use mkv_io::{Damage, Kind, ReadEnd, Reads};
use mkv_schema::Header;
use mkv_schema::ids::{BLOCK_GROUP, SIMPLE_BLOCK, TIMESTAMP};

/// Number of bytes of a SimpleBlock's content that are read before it is checked: the longest header and the byte with
/// the frame count
const LEAST_OF_FRONT: u64 = 12;

/// Maximum number of bytes of a SimpleBlock's content that are checked if the window has more; it covers the head of a
/// lace
const MAX_PREVIEW_LEN: u64 = 1024;

/// Reads the child of a Cluster with the header `header`: a block, a Timestamp, or one to skip. `timestamp` is the
/// Cluster's Timestamp before it in ticks, if any. `takes` chooses the blocks that are read whole, into the buffer of
/// `walk`. The place of the walk is unchanged. Used by `turn_child`.
pub fn read_child<R: Reads>(
    walk: &mut Walk,
    src: &mut R,
    timestamp: Option<u64>,
    header: &Header,
    takes: BlockFilter,
) -> Result<Child, ReadEnd>
    requires ready { IsReady (live_files R.Reads src.old) walk.old }
    requires whole { is_unknown header.now.size ≡ false }
    requires inside { stated_end header.now ≤ walk.old.place.end }
    ensures ok { IfOk result (FindsIn R.Reads src.old walk.old walk.new timestamp header.now takes) }
    ensures lends { IfOk result (λ child. LendsForChild takes child walk.new.block) }
    ensures only { KeepsWalk header.now.id walk.old walk.new }
    ensures holds { IfTold R.Reads src.old walk.old.file (λ bytes. Holds bytes walk.new.window) }
    ensures standing { R.standing src.new ≡ R.standing src.old }
    ensures cause { HasCause is_read_fault (R.reading_faults src.old) (R.reading_faults src.new) result }
    ensures goes { ReadsBody R.Reads src.old src.new walk.old walk.new header.now result }
{
    if header.id == TIMESTAMP {
        return timestamp_child(walk, src, timestamp, header);
    }
    if header.id != SIMPLE_BLOCK && header.id != BLOCK_GROUP {
        return Ok(Child::Passed(timestamp));
    }
    match read_block(walk, src, timestamp, header, takes)? {
        Ok(()) => Ok(Child::Block),
        Err(damage) => Ok(Child::Damaged(damage)),
    }
}

// Reads the Timestamp with the header `header`, unless the Cluster already had one, which is `timestamp` then, in
// ticks. A Timestamp that is too long is damage. Used by `read_child`.
fn timestamp_child<R: Reads>(
    walk: &mut Walk,
    src: &mut R,
    timestamp: Option<u64>,
    header: &Header,
) -> Result<Child, ReadEnd>
    requires ready { IsReady (live_files R.Reads src.old) walk.old }
    requires whole { is_unknown header.now.size ≡ false }
    requires inside { stated_end header.now ≤ walk.old.place.end }
    requires id { header.now.id ≡ TIMESTAMP }
    ensures ok { IfOk result (FindsForAll R.Reads src.old walk.old walk.new timestamp header.now) }
    ensures lends { IfOk result (λ child. (takes : BlockFilter) → LendsForChild takes child walk.new.block) }
    ensures only { walk.new ≡ record walk.old { window = walk.new.window } }
    ensures holds { IfTold R.Reads src.old walk.old.file (λ bytes. Holds bytes walk.new.window) }
    ensures standing { R.standing src.new ≡ R.standing src.old }
    ensures cause { HasCause is_read_fault (R.reading_faults src.old) (R.reading_faults src.new) result }
    ensures goes { ReadsBody R.Reads src.old src.new walk.old walk.new header.now result }
{
    if known(header.size) > MAX_TIMESTAMP_LEN {
        return Ok(Child::Damaged(damage_at(Kind::BadValue, header)));
    }
    match timestamp {
        Some(ticks) => Ok(Child::Passed(Some(ticks))),
        None => {
            let ticks = read_timestamp(&mut walk.window, src, walk.file, header)?;
            Ok(Child::Passed(Some(ticks)))
        }
    }
}

// Returns the Timestamp `timestamp` of the Cluster in ticks, for a block with the header `header`. Returns damage if
// the block is longer than 32 MiB or no Timestamp precedes it. Used by `read_block`.
fn timestamp_for(timestamp: Option<u64>, header: &Header) -> Result<u64, Damage>
    ensures exact { (scale : ℕ) → result ≡ timestamp_for (with_limits scale) timestamp header.now }
    ensures few { IfOk result (λ _. known header.now.size ≤ MAX_BLOCK_LEN) }
{
    if known(header.size) > MAX_BLOCK_LEN {
        return Err(damage_at(Kind::BlockTooLarge, header));
    }
    match timestamp {
        Some(ticks) => Ok(ticks),
        None => Err(damage_at(Kind::NoTimestamp, header)),
    }
}

// Checks whether the filter `takes` of a cursor wants the frames of a block of the track with the TrackNumber `track`.
// Used by `settled`.
fn wants(takes: BlockFilter, track: u64) -> bool
    ensures { result ≡ wants takes track }
{
    match takes {
        BlockFilter::All => true,
        BlockFilter::Track(wanted) => track == wanted,
        BlockFilter::Heads => false,
    }
}

// Returns the head and frame count of the SimpleBlock with the header `header`, or None if the filter `takes` wants it.
// Also returns None if the bytes of it in `window` aren't enough to know them. `ticks` is its Cluster's Timestamp, in
// ticks of `scale` nanoseconds. Used by `passes`.
fn settled(
    window: &Window,
    scale: u64,
    ticks: u64,
    header: &Header,
    takes: BlockFilter,
) -> Option<BlockPreview>
    requires few { known header.now.size ≤ MAX_BLOCK_LEN }
    ensures found { IfSome result (SettlesHeld scale ticks header.now window.now) }
    ensures exact { result ≡ settled_by takes scale ticks header.now (held_front window.now header.now) }
    ensures small { IfSome result (λ front. HasSmallTimes front.head) }
    ensures few { IfSome result (λ front. front.frames ≤ 256) }
{
    let most = known(header.size).min(MAX_PREVIEW_LEN) as usize;
    let front = window.front_at(header.body, most);
    let track = front_track(front)?;
    if wants(takes, track) {
        None
    } else {
        front_head(scale, ticks, header, front)
    }
}

// Skips the frames of the SimpleBlock with the header `header` if the filter `takes` doesn't want it. Its first bytes,
// up to 1,024, must be enough to know that it is valid. Returns true if it was skipped. `ticks` is its Cluster's
// Timestamp. Used by `read_block`.
fn passes<R: Reads>(
    walk: &mut Walk,
    src: &mut R,
    ticks: u64,
    header: &Header,
    takes: BlockFilter,
) -> Result<bool, ReadEnd>
    requires ready { IsReady (live_files R.Reads src.old) walk.old }
    requires few { known header.now.size ≤ MAX_BLOCK_LEN }
    requires whole { is_unknown header.now.size ≡ false }
    requires inside { stated_end header.now ≤ walk.old.place.end }
    ensures exact { IfOk result (PassesWhereSettled takes ticks header.now walk.old walk.new) }
    ensures found { IfOk result (PassesIn R.Reads src.old walk.old walk.new ticks header.now takes) }
    ensures only { walk.new ≡ record walk.old { block = walk.new.block; window = walk.new.window } }
    ensures holds { IfTold R.Reads src.old walk.old.file (λ bytes. Holds bytes walk.new.window) }
    ensures standing { R.standing src.new ≡ R.standing src.old }
    ensures cause { HasCause is_read_fault (R.reading_faults src.old) (R.reading_faults src.new) result }
    ensures goes { StaysAtBody R.Reads src.old src.new walk.old walk.new header.now result }
{
    if header.id != SIMPLE_BLOCK || takes == BlockFilter::All {
        return Ok(false);
    }
    let least = known(header.size).min(LEAST_OF_FRONT) as u16;
    walk.window.hold(src, walk.file, header.body, least)?;
    match settled(&walk.window, walk.scale, ticks, header, takes) {
        Some(front) => {
            walk.block.pass(front);
            Ok(true)
        }
        None => Ok(false),
    }
}

// Reads the SimpleBlock or BlockGroup with the header `header` into the buffer of `walk`. The inner Err is its first
// damage. The frames of a block that the filter `takes` doesn't want may be skipped. `timestamp` is its Cluster's, in
// ticks, if it was read. Used by `read_child`.
fn read_block<R: Reads>(
    walk: &mut Walk,
    src: &mut R,
    timestamp: Option<u64>,
    header: &Header,
    takes: BlockFilter,
) -> Result<Result<(), Damage>, ReadEnd>
    requires ready { IsReady (live_files R.Reads src.old) walk.old }
    requires whole { is_unknown header.now.size ≡ false }
    requires inside { stated_end header.now ≤ walk.old.place.end }
    ensures ok { IfOk result (MakesIn R.Reads src.old walk.old walk.new timestamp header.now takes) }
    ensures lends { IfOk result (λ found. OnOk found (LendsWanted takes StepOf.Block walk.new.block)) }
    ensures only { walk.new ≡ record walk.old { block = walk.new.block; window = walk.new.window } }
    ensures holds { IfTold R.Reads src.old walk.old.file (λ bytes. Holds bytes walk.new.window) }
    ensures standing { R.standing src.new ≡ R.standing src.old }
    ensures cause { HasCause is_read_fault (R.reading_faults src.old) (R.reading_faults src.new) result }
    ensures goes { ReadsBody R.Reads src.old src.new walk.old walk.new header.now result }
{
    let ticks = match timestamp_for(timestamp, header) {
        Ok(ticks) => ticks,
        Err(damage) => return Ok(Err(damage)),
    };
    if passes(walk, src, ticks, header, takes)? {
        return Ok(Ok(()));
    }
    walk.block.read(&mut walk.window, src, walk.file, header)?;
    let total = src.size(walk.file);
    let found = if header.id == SIMPLE_BLOCK {
        walk.block.spell_simple(walk.scale, ticks, header)?
    } else {
        walk.block.spell_group(walk.scale, ticks, header, total)?
    };
    Ok(found)
}
