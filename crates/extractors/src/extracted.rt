//! Problems that an extraction reports about a file.

ghost use Rattle.std.specs.Prelude.{[], ◌≡◌, IfOk};
ghost use Rattle.extractors.specs.BadFrames.{told_of};

use cluster_reader::Damages;
use std::alloc::{AllocError, Global};

/// Problems that an extraction met and left out; the command reports them as warnings.
#[derive(Debug, Drop)]
pub struct Extracted {
    /// Damaged places of the file.
    pub damages: Damages,
    /// Blocks with frames that aren't written because the codec has no form for them, once for each such frame.
    pub bad_frames: Damages,
}

impl Extracted {
    /// Returns a report with no damaged place and no bad frame, which an extraction begins with.
    pub(crate) fn new(alloc: Global) -> Result<Extracted, AllocError>
        ensures { IfOk result (λ extracted. extracted ≡ told_of [] []) }
    {
        Ok(Extracted {
            damages: Damages::new(alloc)?,
            bad_frames: Damages::new(alloc)?,
        })
    }
}
