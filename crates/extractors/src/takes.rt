//! Choice of what the walk over a file's blocks must read for the outputs.

ghost use Rattle.std.specs.Prelude.{◌≡◌, ◌==◌};
ghost use Rattle.std.specs.List.{list_all};
ghost use Rattle.extractors.specs.Takes.{is_of_times, of_one_track, takes_of};
ghost use Rattle.extractors.specs.declared.track_output.TrackOutput.{TrackOutput as OutputSeen};

use crate::frame_form::FrameForm;
use crate::track_output::TrackOutput;
use cluster_reader::BlockFilter;

/// Checks whether `form` writes only the timestamps of frames, and not their bytes. Used by `are_of_times`.
fn is_of_times(form: &FrameForm) -> bool
    ensures { result ≡ is_of_times form.now }
{
    match form {
        FrameForm::Time => true,
        FrameForm::Plain | FrameForm::SubRip | FrameForm::Pgs => false,
        FrameForm::AnnexB { .. } | FrameForm::Adts { .. } => false,
    }
}

/// Checks whether every output of `list` takes only timestamps, so that no frame need be read. Used by `takes_of`.
fn are_of_times(list: &[TrackOutput]) -> bool
    ensures { result ≡ list_all (λ (o : OutputSeen). is_of_times o.form) list.now }
{
    list.iter().all(|output| is_of_times(&output.form))
}

/// Checks whether all outputs of `list` are for the track with TrackNumber `track`. Used by `of_one_track`.
fn are_of_track(list: &[TrackOutput], track: u64) -> bool
    ensures { result ≡ list_all (λ (o : OutputSeen). o.track == track) list.now }
{
    list.iter().all(|output| output.track == track)
}

/// Returns the filter that reads only the blocks of one track if all outputs of `list` are for it, and all blocks
/// otherwise. Used by `takes_of`.
fn of_one_track(list: &[TrackOutput]) -> BlockFilter
    ensures { result ≡ of_one_track list.now }
{
    let Some((first, others)) = list.split_first() else {
        return BlockFilter::All;
    };
    if are_of_track(others, first.track) {
        BlockFilter::Track(first.track)
    } else {
        BlockFilter::All
    }
}

/// Returns the filter for the walk over the blocks of the source. It is only the heads of blocks if each output of
/// `list` takes only timestamps. It is only one track if they are all for it, or else all blocks. Used by
/// `write_blocks`.
pub fn takes_of(list: &[TrackOutput]) -> BlockFilter
    ensures { result ≡ takes_of list.now }
{
    if are_of_times(list) {
        BlockFilter::Heads
    } else {
        of_one_track(list)
    }
}
