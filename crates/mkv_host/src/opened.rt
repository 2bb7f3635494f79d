//! An open file of the system.

ghost use Rattle.std.specs.Prelude.{ℕ, ◌≤◌, pos, ◌<ℤ◌};
ghost use Rattle.std.specs.Fd.{file_raw_fd};
ghost use Rattle.mkv_io.specs.declared.outside.TheConstants.{LONGEST_FILE};

use crate::system::Node;
use mkv_io::Text;
use std::fs::File;

/// Open file with its identity, the name under which it was opened, and its length in bytes.
#[derive(Drop)]
pub struct Opened {
    pub file: File,
    pub node: Node,
    pub name: Text,
    pub size: u64,
    ghost above: { pos 2 <ℤ file_raw_fd file },
    ghost short: { size ≤ LONGEST_FILE },
}
