//! The file that is edited in place, open with its journal.

ghost use Rattle.std.specs.Prelude.{◌≡◌, ◌≤◌, pos, ◌<ℤ◌};
ghost use Rattle.std.specs.Fd.{file_raw_fd};
ghost use Rattle.mkv_io.specs.declared.outside.TheConstants.{LONGEST_FILE};
ghost use Rattle.sidecar_edit.specs.Name.{sidecar_of};

use mkv_io::Text;
use std::fs::File;

/// Open file, the name under which it was opened, and its length in bytes.
#[derive(Drop)]
pub struct OpenFile {
    pub file: File,
    pub name: Text,
    pub size: u64,
    ghost above: { pos 2 <ℤ file_raw_fd file },
    ghost short: { size ≤ LONGEST_FILE },
}

/// The file that is edited and its journal, and whether this run has written to each. While the pair is open, it holds
/// the edited file's lock.
#[derive(Drop)]
pub struct OpenPair {
    pub media: OpenFile,
    pub sidecar: OpenFile,
    pub is_changed: bool,
    pub is_noted: bool,
    ghost beside: { sidecar.name ≡ sidecar_of media.name },
}
