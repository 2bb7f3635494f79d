//! Block of an input, placed in the output

ghost use Rattle.std.specs.Prelude.{◌≡◌, ◌<◌, ◌≤◌, ℕ, List as AList, map, length, option_map, IfSome};
ghost use Rattle.std.specs.Bool.{OnTrue};
ghost use Rattle.std.specs.List.{All};
ghost use Rattle.block_format.specs.Content.{frames_cut};
ghost use Rattle.block_format.specs.declared.limits.TheConstants.{MAX_REFERENCES, TOO_LARGE_TIME};
ghost use Rattle.block_reader.specs.Lendable.{IsLendable};
ghost use Rattle.block_reader.specs.Time.{IsSmallTime};
ghost use Rattle.output_model.specs.OutputBlock.{IsLent};
ghost use Rattle.output_model.specs.Ticks.{ticks_for, ticks_to};
ghost use Rattle.merge_model.specs.Links.{lace_for};
ghost use Rattle.lanes.specs.Lent.{HasFewTicks, EntryBecomes, TrackBecomes};
ghost use Rattle.merge_model.specs.FileLinks.{CanMove, IsSmallEntry, IsSmallTrack};
ghost use Rattle.lanes.specs.Placed.{text_lent, track_lent};
ghost use Rattle.lanes.specs.Times.{most_time};

use crate::frames::time_of;
use crate::tick::{output_time, tick_of, ticks_for, ticks_to};
use arrayvec::ArrayVec;
use cluster_reader::{Cursor, Lace};
use merge_model::{TextLink, TrackLink};
use mkv_io::Entry;
use output_model::OutHead;

/// Parts of the last block of an output track, as placed in the output, except for the bytes of its frames
#[derive(Drop)]
pub struct Placed {
    /// Head of the block, with times in ticks of the output
    pub head: OutHead,
    /// Ticks from the block to the blocks that it references
    pub references: ArrayVec<i64, 64>,
    /// Size of its only frame in bytes, if it is a subtitle of a text
    pub one_size: [u32; 1],
}

impl Placed {
    /// Returns the parts of no block, for an output track before its first one. `Walk::start` calls it.
    pub fn nothing() -> Placed {
        let head = OutHead {
            tick: 0,
            order: 0,
            duration: None,
            key: false,
            invisible: false,
            discardable: false,
            group: false,
            lace: Lace::None,
        };
        Placed {
            head,
            references: ArrayVec::new(),
            one_size: [0],
        }
    }
}

// Writes the `references` of a block at `t` nanoseconds of the output to `into`: the distances in nanoseconds become
// ticks of `scale` nanoseconds. `place_block` calls it.
fn put_references(scale: u64, t: u64, references: &[i64], into: &mut ArrayVec<i64, 64>)
    requires scale { 1 ≤ scale }
    requires early { t < most_time }
    requires most { length references.now ≤ MAX_REFERENCES }
    requires small { All IsSmallTime references.now }
    ensures exact { into.new.items ≡ map (ticks_to scale t) references.now }
    ensures small { All IsSmallTime into.new.items }
{
    into.clear();
    for away in references {
        into.push(ticks_to(scale, t, *away));
    }
}

// Returns the duration in ticks of `scale` nanoseconds of a block at `t` nanoseconds of the output, if it has a
// `duration` in nanoseconds; otherwise None. `place_block` calls it.
fn duration_ticks(scale: u64, t: u64, duration: Option<u64>) -> Option<u64>
    requires scale { 1 ≤ scale }
    requires early { t < most_time }
    requires small { IfSome duration (λ d. d < TOO_LARGE_TIME) }
    ensures exact { result ≡ option_map (ticks_for scale t) duration }
    ensures small { IfSome result (λ d. d < TOO_LARGE_TIME) }
{
    match duration {
        Some(duration) => Some(ticks_for(scale, t, duration)),
        None => None,
    }
}

// Returns the lacing of a block in the output: `lace`, or none for a single frame. `sizes` has the sizes of its frames
// in bytes. `place_block` calls it.
#[tactic(auto, using(crate::proofs::PlaceLemmas::laces))]
fn lace_for(sizes: &[u32], lace: Lace) -> Lace
    ensures { (body : AList ℕ) → result ≡ lace_for (frames_cut sizes.now body) lace }
{
    if sizes.len() == 1 { Lace::None } else { lace }
}

/// Places the block at `cursor` in an output with `scale` nanoseconds per tick, and writes its parts to `placed`. An
/// output track calls it for each block of the file of `track`. `before` frames of the track precede it, and `greatest`
/// is the greatest tick of the output track up to now. Returns false if the block is dropped: it is another track's, or
/// before time 0.
#[tactic(auto, using(crate::proofs::TickLemmas::few))]
pub fn place_block(
    track: &TrackLink,
    scale: u64,
    cursor: &Cursor,
    before: u64,
    greatest: u64,
    placed: &mut Placed,
) -> bool
    requires scale { 1 ≤ scale }
    requires small { IsSmallTrack track.now }
    ensures becomes { TrackBecomes scale track.now before cursor.now.block greatest placed.new result }

    ensures own { OnTrue result (cursor.now.block.head.track ≡ track.now.number) }

    // If the cursor's block can be written, the placed one can too.
    ensures lent { IsLendable cursor.now.block → OnTrue result (IsLent (track_lent track.now cursor.now.block placed.new)) }
    ensures ticks { OnTrue result (HasFewTicks scale placed.new) }
{
    let block = cursor.head();
    if block.track != track.number {
        return false;
    }
    let time = time_of(track, before, block.time);
    let Some(t) = output_time(time, track.delay, track.shift) else {
        return false;
    };
    put_references(scale, t, cursor.refs(), &mut placed.references);
    let tick = tick_of(scale, t);
    placed.head = OutHead {
        tick,
        order: tick.max(greatest),
        duration: duration_ticks(scale, t, block.duration),
        key: block.key,
        invisible: block.invisible,
        discardable: block.discardable,
        group: block.group,
        lace: lace_for(cursor.sizes(), block.lace),
    };
    true
}

/// Places the subtitle `entry` of `text` in an output with `scale` nanoseconds per tick, and writes its parts to
/// `placed`. An output track calls it for each subtitle. `greatest` is the greatest tick of the output track up to now.
/// Returns false if the subtitle is dropped: it is before time 0.
#[tactic(auto, using(crate::proofs::TickLemmas::few))]
pub fn place_entry(
    text: &TextLink,
    scale: u64,
    entry: &Entry,
    greatest: u64,
    placed: &mut Placed,
) -> bool
    requires scale { 1 ≤ scale }
    requires moves { CanMove text.now.delay text.now.shift }
    requires small { IsSmallEntry entry.now }
    ensures becomes { EntryBecomes scale text.now entry.now greatest placed.new result }
    ensures lent { OnTrue result (IsLent (text_lent entry.now.text placed.new)) }
    ensures ticks { OnTrue result (HasFewTicks scale placed.new) }
{
    let Some(t) = output_time(entry.start as i64, text.delay, text.shift) else {
        return false;
    };
    placed.references.clear();
    placed.one_size = [entry.text.len() as u32];
    let tick = tick_of(scale, t);
    placed.head = OutHead {
        tick,
        order: tick.max(greatest),
        duration: Some(ticks_for(scale, t, entry.duration)),
        key: true,
        invisible: false,
        discardable: false,
        group: true,
        lace: Lace::None,
    };
    true
}
