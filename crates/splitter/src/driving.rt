//! Choice of the output tracks whose keyframes allow a cut

ghost use Rattle.std.specs.Prelude.{◌≡◌};
ghost use Rattle.splitter.specs.Split.{is_driver};

/// Checks whether an output may be cut before keyframes of its output track with the number `lane`, counted from 0.
/// This holds for the first video track, or for each track if there is no video. `videos` marks the video tracks.
/// `merge` asks it for each output track when it makes its plan.
pub fn is_driver(videos: &[bool], lane: usize) -> bool
    ensures { result ≡ is_driver videos.now lane }
{
    match videos.iter().position(|video| *video) {
        Some(first) => first == lane,
        None => true,
    }
}
