//! The check whether an edit of a file is pending, before the file is read.

ghost use Rattle.std.specs.Prelude.{◌≡◌, [], ◌∷◌, IfOk};
ghost use Rattle.mkv_io.specs.Bounds.{ReadsUpTo};
ghost use Rattle.mkv_io.specs.Faults.{HasCause, is_read_fault};
ghost use Rattle.mkv_io.specs.Told.{IfVisible};
ghost use Rattle.sidecar_edit.specs.declared.place.TheConstants.{HEAD};
ghost use Rattle.sidecar_edit.specs.Name.{sidecar_of};
ghost use Rattle.sidecar_edit.specs.Pending.{LooksOnly, is_begun, is_pending};

use crate::held::Gate;
use crate::name::sidecar_name;
use crate::reading::state;
use mkv_io::{Files, OpenFault, ReadEnd};
use std::alloc::Global;

/// Checks whether an edit of the file `name` is pending, by its journal, which is opened, read and closed. `merge`,
/// `extract` and `info` do this before they read the file. No edit is pending if there is no journal. A journal that
/// can't be opened or read is a `ReadFault`.
pub fn is_pending<F: Files>(alloc: Global, name: &str, files: &mut F) -> Result<bool, ReadEnd>
    ensures exact { IfVisible (F.names files.old) (λ world. IfOk result (λ pending. pending ≡ is_pending world name.now)) }
    ensures looks { LooksOnly F.Reads F.Files.own (sidecar_of name.now ∷ []) files.old files.new }
    ensures cause { HasCause is_read_fault (F.reading_faults files.old) (F.reading_faults files.new) result }
    ensures octets { ReadsUpTo F.Reads files.old files.new HEAD }
{
    let sidecar = sidecar_name(alloc, name)?;
    let file = match files.open_file(sidecar.as_str()) {
        Ok(file) => file,
        Err(OpenFault::Missing) => return Ok(false),
        Err(OpenFault::Failed) => return Err(ReadEnd::ReadFault),
        Err(OpenFault::Memory) => return Err(ReadEnd::Memory),
    };
    let held = state(files, file);
    files.close(file);
    Ok(is_begun(held?))
}

/// Checks whether the state `held` of a journal is a pending edit. Used by `is_pending`.
fn is_begun(held: Gate) -> bool
    ensures { result ≡ is_begun held }
{
    match held {
        Gate::Live => true,
        Gate::Quiet | Gate::Bad { .. } => false,
    }
}
