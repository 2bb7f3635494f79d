//! The plan of a merge.

ghost use Rattle.std.specs.Prelude.{◌≡◌, IfOk};
ghost use Rattle.std.specs.List.{All};
ghost use Rattle.std.specs.Option.{option_copied};
ghost use Rattle.merge_plan.specs.Lent.{lent};
ghost use Rattle.merge_plan.specs.Planned.{AreSound, CanBeWritten, GivesRecords, Plans};
ghost use Rattle.merge_plan.specs.Refusal.{count_refusal, is_webm_track, not_webm, other_codec};
ghost use Rattle.merge_plan.specs.TakenTracks.{HasPlace, HasRecords, HasTaken};

use crate::entries::{tracks_ordered, tracks_taken};
use crate::outputs::{OutputRecords, output_of};
use crate::planned_lanes::output_lanes;
use crate::refusal::{PlanEnd, PlanRefusal};
use crate::splitting::{split_of, videos_of};
use crate::title::title_of;
use crate::webm::is_webm_codec;
use merge_inputs::{Input, TakenTrack};
use mkv_io::{List, Text};
use output_model::{ClusterLimits, Front, MAX_LANES};
use output_records::{first_too_large, info_of};
use remux_plan::MergePlan;
use requests::MergeWords;
use splitter::split_size;
use std::alloc::{AllocError, Global};

/// Checks whether WebM allows the track `taken`: it allows its codec, and the frames aren't taken as they are stored,
/// since WebM has no ContentEncodings. `other_codec` asks for each track.
fn is_webm_track(taken: &TakenTrack) -> bool
    ensures { result ≡ is_webm_track taken.now }
{
    !taken.track.stored && is_webm_codec(taken.track.codec.as_str())
}

/// Returns the CodecID of the first of the tracks `taken` that WebM doesn't allow, or None. `lanes_refusal` puts it in
/// the refusal of a merge to WebM.
fn other_codec<'a>(taken: &[&'a TakenTrack]) -> Option<&'a Text>
    ensures { option_copied result ≡ other_codec (lent taken.now) }
{
    for each in taken {
        if !is_webm_track(each) {
            return Some(&each.track.codec);
        }
    }
    None
}

/// Returns the refusal if `taken`, the tracks that begin output tracks, are none or more than 64, or None. `records_for`
/// calls it first.
fn count_refusal(taken: &[&TakenTrack]) -> Option<PlanRefusal>
    ensures { result ≡ count_refusal (lent taken.now) }
{
    if taken.is_empty() {
        return Some(PlanRefusal::NoLane);
    }
    if taken.len() > MAX_LANES {
        return Some(PlanRefusal::TooManyLanes);
    }
    None
}

/// Returns the refusal if the output is WebM, which `webm` states, and WebM doesn't allow one of the tracks
/// `taken`; otherwise None. They begin the output tracks, in the order of the output. `records_for` calls it before it
/// builds the records.
fn not_webm(webm: bool, taken: &[&TakenTrack]) -> Result<Option<PlanRefusal>, AllocError>
    ensures { IfOk result (λ refusal. refusal ≡ not_webm webm (lent taken.now)) }
{
    if webm {
        if let Some(codec) = other_codec(taken) {
            return Ok(Some(PlanRefusal::NotWebm {
                codec: codec.clone()?,
            }));
        }
    }
    Ok(None)
}

/// Builds the records of the output for the options `words` and the read `inputs`, or returns the first refusal. The
/// causes are the selected tracks, and a record that would be too large to be read again. `plan_of` calls it first.
fn records_for(
    alloc: Global,
    words: &MergeWords,
    inputs: &[Input],
) -> Result<OutputRecords, PlanEnd>
    requires tracks { All HasTaken inputs.now }
    requires records { All HasRecords inputs.now }
    ensures exact { GivesRecords words.now inputs.now result }
    ensures sound { IfOk result (AreSound words.now.order inputs.now) }
{
    let taken = tracks_taken(alloc, inputs)?;
    if let Some(refusal) = count_refusal(taken.as_slice()) {
        return Err(PlanEnd::Refused(refusal));
    }
    let order = words.order.as_slice();
    let sorted = tracks_ordered(alloc, order, inputs)?;
    if let Some(refusal) = not_webm(words.webm, sorted.as_slice())? {
        return Err(PlanEnd::Refused(refusal));
    }
    let output = output_of(alloc, order, sorted.as_slice(), inputs)?;
    match first_too_large(&output.tracks, &output.chapters, &output.tags) {
        Some(id) => Err(PlanEnd::Refused(PlanRefusal::HeaderTooLarge { id })),
        None => Ok(output),
    }
}

/// Returns a copy of the SegmentUUIDs in `words`, the values of `--segment-uid`, for the plan that `plan_of` builds.
fn uuids_of(alloc: Global, words: &MergeWords) -> Result<List<u128>, AllocError>
    ensures { IfOk result (λ uuids. uuids ≡ words.now.uuids) }
{
    let uuids = Vec::from_slice(alloc, words.uuids.as_slice())?;
    Ok(List::from_vec(uuids))
}

/// Plans the output for the options `words` and the read `inputs`, or returns the first refusal. `merge` calls it after
/// the append offsets were found and before it creates a file. A merge is refused if no track or more than 64 tracks
/// are selected, or if WebM doesn't allow a track. It is also refused if Tracks, Chapters or Tags would be too large to
/// be read again. Reads no file.
pub fn plan_of(alloc: Global, words: &MergeWords, inputs: &[Input]) -> Result<MergePlan, PlanEnd>
    requires tracks { All HasTaken inputs.now }
    requires records { All HasRecords inputs.now }
    requires places { All HasPlace inputs.now }
    ensures exact { Plans words.now inputs.now result }
    ensures written { IfOk result (CanBeWritten words.now.order inputs.now) }
{
    let OutputRecords {
        tracks,
        attachments,
        chapters,
        tags,
    } = records_for(alloc, words, inputs)?;
    let info = info_of(alloc, words.scale, title_of(words, inputs))?;
    let split = split_of(alloc, words, &chapters)?;
    let uuids = uuids_of(alloc, words)?;
    let order = words.order.as_slice();
    let taken = tracks_ordered(alloc, order, inputs)?;
    let videos = videos_of(alloc, taken.as_slice())?;
    Ok(MergePlan {
        output: words.output.clone()?,
        split,
        size: split_size(&words.split),
        limits: ClusterLimits {
            blocks: words.blocks,
            span: words.span,
            scale: words.scale,
        },
        lanes: output_lanes(
            alloc,
            order,
            inputs,
            words.append_damaged,
            videos.as_slice(),
        )?,
        front: Front {
            webm: words.webm,
            duration: words.duration,
            info,
            tracks,
            attachments,
        },
        chapters,
        tags,
        uuids,
        link: words.link,
    })
}
