//! The output tracks of a plan: one for each selected track of an input that isn't appended to another.

ghost use Rattle.std.specs.Prelude.{◌≡◌, ◌≤◌, ◌<◌, ◌+◌, ◌^◌, ◌∷◌, length, option_map, IfOk, OnOk};
ghost use Rattle.std.specs.List.{All, take_while};
ghost use Rattle.track_records.specs.Usable.{prefix_for};
ghost use Rattle.output_model.specs.declared.TheConstants.{MAX_PREFIX_LEN};
ghost use Rattle.merge_inputs.specs.Input.{read_in};
ghost use Rattle.merge_inputs.specs.Taken.{IsTaken};
ghost use Rattle.merge_plan.specs.Plan.{append_offset, rule_of, default_rule};
ghost use Rattle.merge_plan.specs.TakenTracks.{AreDriven, AreLanesOf, AreLinksOf, AreOutputLanes, GoesOn, HasTaken, IsLaneOf, IsLink, IsLinkOf, IsTextOf, driven_from, goes_on, spot, spots_at, spots_behind, times_listed};

use crate::entries::{keys_of, tracks_begun};
use crate::order::in_order;
use element_reader::Outline;
use ext_times::Times;
use merge_inputs::{Blocks, Input, TakenTrack};
use merge_model::{LaneSpec, Link, TextLink, TrackLink};
use mkv_io::{Bytes, Entry, List};
use mkv_schema::track_type::{SUBTITLE_TRACK, VIDEO_TRACK};
use output_model::CueRule;
use remux_plan::PlannedLane;
use requests::CueWord;
use splitter::is_driver;
use std::alloc::{AllocError, Global};
use std::rc::Rc;
use track_records::usable;

/// Returns the default rule for cue points of a track of the TrackType `kind`: keyframes of video and subtitle tracks
/// get one, other blocks don't. `rule_of` uses it if the track has no option.
fn default_rule(kind: u64) -> CueRule
    ensures { result ≡ default_rule kind }
{
    match kind {
        VIDEO_TRACK | SUBTITLE_TRACK => CueRule::Key,
        _ => CueRule::Never,
    }
}

/// Returns the rule for cue points of the output track that `taken` begins: the one of the option `--cues`, or else the
/// default. `lane_of` calls it for the plan.
fn rule_of(taken: &TakenTrack) -> CueRule
    ensures { result ≡ rule_of taken.now }
{
    match taken.cues {
        Some(CueWord::Never) => CueRule::Never,
        Some(CueWord::Key) => CueRule::Key,
        Some(CueWord::All) => CueRule::All,
        None => default_rule(taken.track.kind),
    }
}

/// Returns the bytes that header stripping removed from the start of each frame of the track `taken`; none if its
/// frames are taken as they are stored. They are put back in the output. `track_of` calls it for each link. RFC 9559,
/// section 5.1.4 (Tracks), ContentEncodings.
fn prefix_of(alloc: Global, taken: &TakenTrack) -> Result<Bytes, AllocError>
    requires { IsTaken taken.now }
    ensures exact { IfOk result (λ prefix. prefix ≡ prefix_for taken.now.track) }
    ensures most { IfOk result (λ prefix. length prefix ≤ MAX_PREFIX_LEN) }
{
    let mut prefix = Bytes::new(alloc);
    match usable(&taken.track) {
        Ok(octets) => prefix.append(octets)?,
        Err(_) => unreachable!(),
    }
    Ok(prefix)
}

/// Returns the append offset of `input`, in nanoseconds, or 0 if it isn't appended. Links to its tracks shift their
/// blocks by it. `track_of` and `text_of` call it.
fn append_offset(input: &Input) -> u64
    ensures { result ≡ append_offset (read_in input.now) }
{
    input.shift.unwrap_or(0)
}

/// Returns the timestamps of the frames of the track `taken` of `input`, if a timestamp file lists them, and otherwise
/// None. They are shared. `track_of` calls it for the link to the track.
fn times_of(input: &Input, taken: &TakenTrack) -> Result<Option<Rc<Times>>, AllocError>
    ensures { IfOk result (λ times. option_map (λ shared. shared.value) times ≡ times_listed input.now taken.now) }
{
    for each in input.times.as_slice() {
        if each.id == taken.id {
            return Ok(Some(each.times.clone()?));
        }
    }
    Ok(None)
}

/// Builds the link of an output track to the track `taken` of `input`, whose file has the outline `outline` and `scale`
/// nanoseconds in a tick. With `past_damage` the links after it are read even if damage ends its reading. `link_of`
/// calls it for a file with Clusters.
fn track_of(
    alloc: Global,
    input: &Input,
    outline: &Rc<Outline>,
    scale: u64,
    past_damage: bool,
    taken: &TakenTrack,
) -> Result<TrackLink, AllocError>
    requires { IsTaken taken.now }
    ensures { IfOk result (IsLinkOf past_damage input.now outline.now.value scale taken.now) }
{
    Ok(TrackLink {
        file: input.file,
        outline: outline.clone()?,
        number: taken.track.number,
        scale,
        default_duration: taken.track.default_duration,
        delay: taken.delay,
        shift: append_offset(input),
        prefix: prefix_of(alloc, taken)?,
        times: times_of(input, taken)?,
        goes_on: past_damage,
    })
}

/// Returns a copy of the subtitles `entries` of a text, since each link has its own. `text_of` calls it.
fn copies(alloc: Global, entries: &[Entry]) -> Result<List<Entry>, AllocError>
    ensures { IfOk result (λ copies. copies ≡ entries.now) }
{
    let mut copies = List::new(alloc);
    for entry in entries {
        copies.push(Entry {
            start: entry.start,
            duration: entry.duration,
            text: entry.text.clone()?,
        })?;
    }
    Ok(copies)
}

/// Builds the link of an output track to `taken`, the only track of `input`, a text with the subtitles `entries`.
/// `link_of` calls it for a SubRip file.
fn text_of(
    alloc: Global,
    input: &Input,
    entries: &List<Entry>,
    taken: &TakenTrack,
) -> Result<TextLink, AllocError>
    ensures { IfOk result (IsTextOf input.now entries.now taken.now) }
{
    Ok(TextLink {
        entries: copies(alloc, entries.as_slice())?,
        delay: taken.delay,
        shift: append_offset(input),
    })
}

/// Builds the link of an output track to the track `taken` of `input`, which is a file with Clusters or a text. With
/// `past_damage` the links after it are read even if damage ends its reading. `lane_of` calls it for the first link,
/// and `go_on` for the next ones.
fn link_of(
    alloc: Global,
    input: &Input,
    past_damage: bool,
    taken: &TakenTrack,
) -> Result<Link, AllocError>
    requires { IsTaken taken.now }
    ensures { IfOk result (IsLink past_damage input.now taken.now) }
{
    match &input.blocks {
        Blocks::Clusters { outline, scale } => {
            let track = track_of(alloc, input, outline, *scale, past_damage, taken)?;
            Ok(Link::Track(track))
        }
        Blocks::Entries { entries } => {
            let text = text_of(alloc, input, entries, taken)?;
            Ok(Link::Entries(text))
        }
    }
}

/// Builds links to the selected tracks of `input`, for the survey with which `assign_append_offsets` finds the end of
/// the input.
pub fn links_of(alloc: Global, input: &Input) -> Result<List<Link>, AllocError>
    requires { HasTaken input.now }
    ensures { IfOk result (AreLinksOf input.now) }
{
    let mut links = List::new(alloc);
    for taken in input.taken.as_slice() {
        links.push(link_of(alloc, input, false, taken)?)?;
    }
    Ok(links)
}

/// Returns the first of `inputs`, as long as each is appended to the input before it. They continue the output tracks
/// of the input before `inputs`. `lanes_of` calls it for each input.
fn appended(inputs: &[Input]) -> &[Input]
    ensures { result.now ≡ take_while goes_on inputs.now }
{
    for (k, input) in inputs.iter().enumerate() {
        if input.shift.is_none() {
            return &inputs[..k];
        }
    }
    inputs
}

/// Appends to the output track `lane` the link to the track at index `place`, counted from 0, among the selected tracks
/// of `input`, if there is one. The input's `number` counts from 0. With `past_damage` the links after it are read even
/// if damage ends its reading. `lane_of` calls it for each appended input.
fn go_on(
    alloc: Global,
    place: usize,
    number: usize,
    input: &Input,
    past_damage: bool,
    lane: &mut PlannedLane,
) -> Result<(), AllocError>
    requires { HasTaken input.now }
    ensures { OnOk result (GoesOn past_damage (spots_at place (number, input.now)) lane.old lane.new) }
{
    if let Some(taken) = input.taken.get(place) {
        let link = link_of(alloc, input, past_damage, taken)?;
        lane.spec.links.push(link)?;
        lane.inputs.push(number)?;
    }
    Ok(())
}

/// Builds the output track that the track `taken` begins. It is at index `place`, counted from 0, among the selected
/// tracks of the input number `number`, counted from 0. The track at this index of each input in `behind`, the ones
/// appended to it, continues it. With `past_damage` it does so even after damage. Whether its keyframes allow a cut isn't
/// known yet. `lanes_of` calls it for each output track.
fn lane_of(
    alloc: Global,
    number: usize,
    input: &Input,
    place: usize,
    taken: &TakenTrack,
    behind: &[Input],
    past_damage: bool,
) -> Result<PlannedLane, AllocError>
    requires taken { IsTaken taken.now }
    requires behind { All HasTaken behind.now }
    requires room { number + length behind.now + 1 < 2 ^ 64 }
    ensures { IfOk result (IsLaneOf past_damage (spot number input.now taken.now ∷ spots_behind place (number + 1) behind.now)) }
{
    let mut links = List::new(alloc);
    links.push(link_of(alloc, input, past_damage, taken)?)?;
    let mut inputs = List::new(alloc);
    inputs.push(number)?;
    let mut lane = PlannedLane {
        spec: LaneSpec { links },
        inputs,
        cues: rule_of(taken),
        drives: false,
    };
    for (k, other) in behind.iter().enumerate() {
        go_on(alloc, place, number + 1 + k, other, past_damage, &mut lane)?;
    }
    Ok(lane)
}

/// Builds the output tracks of a merge of `inputs`, in the order of the tracks that begin them. With `past_damage` damage
/// doesn't end an output track. `output_lanes` puts them in the order of the output.
fn lanes_of(
    alloc: Global,
    inputs: &[Input],
    past_damage: bool,
) -> Result<List<PlannedLane>, AllocError>
    requires { All HasTaken inputs.now }
    ensures { IfOk result (AreLanesOf past_damage inputs.now) }
{
    let mut lanes = List::new(alloc);
    for (number, input) in inputs.iter().enumerate() {
        let behind = appended(&inputs[number + 1..]);
        for (place, taken) in tracks_begun(input).iter().enumerate() {
            let lane = lane_of(alloc, number, input, place, taken, behind, past_damage)?;
            lanes.push(lane)?;
        }
    }
    Ok(lanes)
}

/// Returns the output tracks `lanes`, each with the statement whether its keyframes allow a cut. `videos` has for each
/// whether it is a video track. `output_lanes` calls it.
fn driven(
    alloc: Global,
    lanes: Vec<PlannedLane>,
    videos: &[bool],
) -> Result<List<PlannedLane>, AllocError>
    ensures { IfOk result (λ driven. driven ≡ driven_from videos.now 0 lanes.items) }
{
    let mut driven = List::new(alloc);
    for (k, lane) in lanes.into_iter().enumerate() {
        let drives = is_driver(videos, k);
        driven.push(PlannedLane { drives, ..lane })?;
    }
    Ok(driven)
}

/// Builds the output tracks of a merge of `inputs`, for the plan that `plan_of` makes, in the order that the pairs
/// `order` give. For each output track, in this order, `videos` is true if it is a video track. With `past_damage`
/// damage doesn't end an output track.
pub(crate) fn output_lanes(
    alloc: Global,
    order: &[(u64, u64)],
    inputs: &[Input],
    past_damage: bool,
    videos: &[bool],
) -> Result<List<PlannedLane>, AllocError>
    requires { All HasTaken inputs.now }
    ensures lanes { IfOk result (AreOutputLanes past_damage order.now inputs.now) }
    ensures drives { IfOk result (AreDriven videos.now) }
{
    let keys = keys_of(alloc, inputs)?;
    let lanes = lanes_of(alloc, inputs, past_damage)?;
    let sorted = in_order(alloc, order, keys.as_slice(), lanes.into_vec())?;
    driven(alloc, sorted, videos)
}
