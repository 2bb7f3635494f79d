//! The name of a journal.

ghost use Rattle.std.specs.Prelude.{◌≡◌, IfOk};
ghost use Rattle.sidecar_edit.specs.Name.{sidecar_of};

use mkv_io::Text;
use std::alloc::{AllocError, Global};

/// Suffix of a file's name in the name of its journal.
pub const SUFFIX: &str = ".mkvedit";

/// Returns the name of the journal of the file `name`, which is `name` with `.mkvedit` after it. Used by edits, and by
/// commands that look for a pending edit.
pub fn sidecar_name(alloc: Global, name: &str) -> Result<Text, AllocError>
    ensures { IfOk result (λ sidecar. sidecar ≡ sidecar_of name.now) }
{
    let mut sidecar = Text::new(alloc);
    sidecar.append(name)?;
    sidecar.append(SUFFIX)?;
    Ok(sidecar)
}
