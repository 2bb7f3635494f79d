//! Splitting of a merge's output: RFC 9559, section 5.1.7 (Chapters Element), defines the chapters. The rules of
//! splitting are this project's.

ghost use Rattle.std.specs.Prelude.{◌≡◌, map, IfOk, IfSome};
ghost use Rattle.mkv_schema.specs.declared.ids.TheConstants.{CHAPTERS};
ghost use Rattle.ebml_tree.specs.Building.{IsRead};
ghost use Rattle.splitter.specs.Words.{spec_of};
ghost use Rattle.merge_plan.specs.Lent.{lent};
ghost use Rattle.merge_plan.specs.Plan.{is_video, starts_in};

use ebml_tree::Tree;
use merge_inputs::TakenTrack;
use mkv_io::List;
use mkv_schema::track_type::VIDEO_TRACK;
use record_changes::top_starts;
use requests::MergeWords;
use splitter::{SplitSpec, split_spec};
use std::alloc::{AllocError, Global};

/// Returns the starts of the top-level chapters in `chapters`, the output's Chapters, in nanoseconds. `split_of` calls
/// it for cuts at chapters; without Chapters there are none.
fn starts_in(alloc: Global, chapters: &Option<Tree>) -> Result<List<u64>, AllocError>
    requires { IfSome chapters.now (IsRead CHAPTERS) }
    ensures { IfOk result (λ starts. starts ≡ starts_in chapters.now) }
{
    match chapters {
        Some(chapters) => top_starts(alloc, chapters),
        None => Ok(List::new(alloc)),
    }
}

/// Returns the rule for cutting the output of `words` into parts, if it has the Chapters `chapters`. Times are in
/// nanoseconds. `plan_of` calls it.
pub(crate) fn split_of(
    alloc: Global,
    words: &MergeWords,
    chapters: &Option<Tree>,
) -> Result<SplitSpec, AllocError>
    requires { IfSome chapters.now (IsRead CHAPTERS) }
    ensures { IfOk result (λ spec. spec ≡ spec_of words.now.split (starts_in chapters.now)) }
{
    let starts = starts_in(alloc, chapters)?;
    split_spec(alloc, &words.split, starts.as_slice())
}

/// Checks whether the selected track `taken` is a video track. `videos_of` calls it, because keyframes of video tracks
/// decide about the places of cuts.
fn is_video(taken: &TakenTrack) -> bool
    ensures { result ≡ is_video taken.now }
{
    taken.track.kind == VIDEO_TRACK
}

/// Returns for each of the tracks `taken` whether it is a video track. They begin the output tracks, in the order of the
/// output. `plan_of` calls it before it builds the output tracks.
pub(crate) fn videos_of(alloc: Global, taken: &[&TakenTrack]) -> Result<List<bool>, AllocError>
    ensures { IfOk result (λ videos. videos ≡ map is_video (lent taken.now)) }
{
    let mut videos = List::new(alloc);
    for each in taken {
        videos.push(is_video(each))?;
    }
    Ok(videos)
}
