//! Tracks whose frames are taken as they are stored
ghost use Rattle.std.specs.Prelude.{◌≡◌};
ghost use Rattle.track_records.specs.Sound.{IsEntry};
ghost use Rattle.track_records.specs.Usable.{as_stored};

use crate::encoding::bad_encoding;
use crate::track::Track;

/// Returns `track` with its frames taken as they are stored, if its ContentEncodings can't be undone: a compression
/// other than header stripping, an encryption, or several. Any other track is taken as without the call. `merge` calls
/// it for each selected track of a file whose encodings are to be kept.
pub fn as_stored(track: Track) -> Track
    requires { IsEntry track.entry }
    ensures { result ≡ as_stored track }
{
    let stored = bad_encoding(&track.entry).is_some();
    Track { stored, ..track }
}
