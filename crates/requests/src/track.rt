//! Selections of tracks, and of the blocks that get a cue point.

use mkv_io::List;

/// Selection of the tracks of one type from an input.
#[derive(Debug, Drop)]
pub enum Select {
    All,
    These { ids: List<u64> },
    AllBut { ids: List<u64> },
    Off,
}

/// Selection of the blocks of a track that get a cue point, as `--cues` gives it.
#[derive(Clone, Copy, Debug, PartialEq, Eq)]
pub enum CueWord {
    Never,
    /// Only keyframes.
    Key,
    All,
}
