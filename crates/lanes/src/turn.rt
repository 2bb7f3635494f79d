//! One turn of the walk of an output track: the next event of its current link

ghost use Rattle.std.specs.Prelude.{◌≡◌, ◌≤◌, ◌&&◌, not, Some, Ok, None, IfOk};
ghost use Rattle.std.specs.List.{All, slice_get};
ghost use Rattle.mkv_io.specs.Faults.{HasCause, is_read_fault};
ghost use Rattle.mkv_io.specs.LiveFiles.{LiveFiles};
ghost use Rattle.mkv_io.specs.Sources.{live_files};
ghost use Rattle.merge_model.specs.FileLinks.{IsSmallLink};
ghost use Rattle.merge_model.specs.declared.link.Link.TheVariants.{Track as ATrack, Entries as AText};
ghost use Rattle.lanes.specs.Walks.{IsReady, due};
ghost use Rattle.lanes.specs.Turns.{Moves, PaysFor, Turns, TurnsIfTold};

use crate::frames::frames_of;
use crate::lane::LaneStep;
use crate::place::{place_block, place_entry};
use crate::walk::Walk;
use cluster_reader::{BlockFilter, Cursor, Step};
use merge_model::{Link, TextLink, TrackLink};
use mkv_io::{ReadEnd, Reads};
use std::alloc::Global;

// Checks whether damage ended the reading of the file of `track` at `cursor`, and with it the output track.
// `turn_track` calls it at each damaged place.
fn stopped(track: &TrackLink, cursor: &Cursor) -> bool
    ensures { result ≡ (not track.now.goes_on && cursor.now.stopped) }
{
    !track.goes_on && cursor.stopped()
}

// Takes one turn in the file of the link `track`, one of `links`: opens it, or reads its next event, and changes
// `walk`. Returns `None` if no block was placed. `take_turn` calls it.
fn turn_track<R: Reads>(
    alloc: Global,
    links: &[Link],
    track: &TrackLink,
    scale: u64,
    walk: &mut Walk,
    src: &mut R,
) -> Result<Option<LaneStep>, ReadEnd>
    requires here { slice_get links.now walk.old.at ≡ Some (ATrack track.now) }
    requires scale { 1 ≤ scale }
    requires small { All IsSmallLink links.now }
    requires ready { IsReady (live_files R.Reads src.old) links.now walk.old }
    ensures gives { TurnsIfTold (live_files R.Reads src.old) scale links.now walk.old walk.new result }
    ensures moves { IfOk result (Moves scale links.now walk.old walk.new) }
    ensures ready { IsReady (live_files R.Reads src.new) links.now walk.new }
    ensures standing { R.standing src.new ≡ R.standing src.old }
    ensures cause { HasCause is_read_fault (R.reading_faults src.old) (R.reading_faults src.new) result }
    ensures pays { PaysFor R.Reads src.old src.new links.now walk.old walk.new result }
{
    let Some(cursor) = walk.cursor.as_mut() else {
        let cursor = Cursor::start(alloc, &*track.outline, track.file, track.scale)?;
        walk.cursor = Some(cursor);
        return Ok(None);
    };
    match cursor.advance_for(src, BlockFilter::Track(track.number))? {
        Step::Block => {
            let before = walk.frames;
            walk.frames += frames_of(track, cursor);
            if place_block(
                track,
                scale,
                cursor,
                before,
                walk.greatest,
                &mut walk.placed,
            ) {
                walk.greatest = walk.placed.head.order;
                Ok(Some(LaneStep::Block))
            } else {
                Ok(None)
            }
        }
        Step::Damaged(damage) => {
            walk.stopped = stopped(track, cursor) || walk.stopped;
            walk.told[walk.at].add(damage);
            Ok(None)
        }
        Step::End => {
            walk.leave(links.len());
            Ok(None)
        }
    }
}

// Takes one turn in the text of the link `text`, one of `links`: places its next subtitle, or leaves it, and changes
// `walk`. Returns `None` if no subtitle was placed. `take_turn` calls it.
fn turn_text(links: &[Link], text: &TextLink, scale: u64, walk: &mut Walk) -> Option<LaneStep>
    requires here { slice_get links.now walk.old.at ≡ Some (AText text.now) }
    requires scale { 1 ≤ scale }
    requires small { All IsSmallLink links.now }
    requires cursor { walk.old.cursor ≡ None }
    ensures gives { (f : LiveFiles) → IsReady f links.now walk.old → Turns f scale links.now walk.old walk.new (Ok result) }
    ensures moves { Moves scale links.now walk.old walk.new result }
    ensures ready { (f : LiveFiles) → IsReady f links.now walk.old → IsReady f links.now walk.new }
    ensures pays { (f : LiveFiles) → due f links.now walk.new ≤ due f links.now walk.old }
{
    let Some(entry) = text.entries.get(walk.next) else {
        walk.leave(links.len());
        return None;
    };
    walk.next += 1;
    if place_entry(text, scale, entry, walk.greatest, &mut walk.placed) {
        walk.greatest = walk.placed.head.order;
        Some(LaneStep::Block)
    } else {
        None
    }
}

/// Takes one turn of the walk `walk` of an output track over `links`. Returns `None` if no block was placed and the
/// walk hasn't ended; `Lane::advance` then takes another. `scale` is the nanoseconds per tick of the output.
pub fn take_turn<R: Reads>(
    alloc: Global,
    links: &[Link],
    scale: u64,
    walk: &mut Walk,
    src: &mut R,
) -> Result<Option<LaneStep>, ReadEnd>
    requires scale { 1 ≤ scale }
    requires small { All IsSmallLink links.now }
    requires ready { IsReady (live_files R.Reads src.old) links.now walk.old }
    ensures gives { TurnsIfTold (live_files R.Reads src.old) scale links.now walk.old walk.new result }
    ensures moves { IfOk result (Moves scale links.now walk.old walk.new) }
    ensures ready { IsReady (live_files R.Reads src.new) links.now walk.new }
    ensures standing { R.standing src.new ≡ R.standing src.old }
    ensures cause { HasCause is_read_fault (R.reading_faults src.old) (R.reading_faults src.new) result }
    ensures pays { PaysFor R.Reads src.old src.new links.now walk.old walk.new result }
{
    match links.get(walk.at) {
        Some(Link::Track(track)) => turn_track(alloc, links, track, scale, walk, src),
        Some(Link::Entries(text)) => Ok(turn_text(links, text, scale, walk)),
        None => Ok(Some(LaneStep::End)),
    }
}
