//! Sizes of the files that a merge attaches

ghost use Rattle.std.specs.Prelude.{◌≡◌, map};
ghost use Rattle.mkv_io.specs.Sources.{live_files};
ghost use Rattle.mkv_outputs.specs.Sinks.{AreLive};
ghost use Rattle.input_files.specs.Inputs.{first_large, sizes_of};

use crate::limits::MAX_ATTACHED_LEN;
use mkv_io::{FileId, Reads};

/// Returns the index, from 0, of the first of the open files `files` that is too large to be attached, or None. They are
/// in the order of the command line. `merge` is refused then; it calls this after its timestamp files were applied.
pub fn first_large<R: Reads>(src: &R, files: &[FileId]) -> Option<usize>
    requires { AreLive (live_files R.Reads src.now).live files.now }
    ensures { result ≡ first_large (sizes_of (live_files R.Reads src.now) files.now) }
{
    for (k, file) in files.iter().enumerate() {
        if src.size(*file) > MAX_ATTACHED_LEN {
            return Some(k);
        }
    }
    None
}
