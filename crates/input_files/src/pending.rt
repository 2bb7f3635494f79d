//! Search for an input of a merge with a pending edit

ghost use Rattle.std.specs.Prelude.{◌*◌, length, map, IfOk};
ghost use Rattle.mkv_io.specs.Bounds.{ReadsUpTo};
ghost use Rattle.mkv_io.specs.Faults.{HasCause, is_read_fault};
ghost use Rattle.mkv_io.specs.Told.{IfVisible};
ghost use Rattle.sidecar_edit.specs.declared.place.TheConstants.{HEAD};
ghost use Rattle.sidecar_edit.specs.Name.{sidecar_of};
ghost use Rattle.sidecar_edit.specs.Pending.{LooksOnly};
ghost use Rattle.input_files.specs.Inputs.{FindsPending, file_names};

use mkv_io::{Files, ReadEnd};
use requests::FileWords;
use sidecar_edit::is_pending;
use std::alloc::Global;

/// Returns the index, from 0, of the first of the inputs `words` whose journal has a pending edit, or None. They are in
/// the order of the command line. `merge` is refused then. It reads only the heads of the journals.
pub fn first_pending<F: Files>(
    alloc: Global,
    words: &[FileWords],
    files: &mut F,
) -> Result<Option<usize>, ReadEnd>
    ensures exact { FindsPending F.Files.own words.now files.old result }
    ensures looks { LooksOnly F.Reads F.Files.own (map sidecar_of (file_names words.now)) files.old files.new }
    ensures cause { HasCause is_read_fault (F.reading_faults files.old) (F.reading_faults files.new) result }
    ensures octets { ReadsUpTo F.Reads files.old files.new (HEAD * length words.now) }
{
    for (k, input) in words.iter().enumerate() {
        if is_pending(alloc, input.name.as_str(), files)? {
            return Ok(Some(k));
        }
    }
    Ok(None)
}
