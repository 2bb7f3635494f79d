//! Opening and closing of a merge's input files

ghost use Rattle.std.specs.Prelude.{◌≡◌, IfOk, OnErr, []};
ghost use Rattle.mkv_io.specs.Faults.{HasCause};
ghost use Rattle.mkv_io.specs.Sources.{live_files};
ghost use Rattle.mkv_io.specs.Told.{IfVisible};
ghost use Rattle.mkv_io.specs.Writing.{UsesOnly};
ghost use Rattle.mkv_outputs.specs.Sinks.{AreLive, AreRising, EndsOnly};
ghost use Rattle.input_files.specs.Inputs.{HaveContents, LeavesContents, OpensInputs, TellsMissing, end_of, is_inputs_fault};

use crate::inputs_end::InputsEnd;
use mkv_io::{FileId, Files, List, OpenFault, Text};
use std::alloc::Global;

/// Opens the files `names`: the inputs of a merge and the files that it attaches, in the order of the command line.
/// Returns the open files. If one fails, those before it are closed again. `merge` calls it before it reads an input.
pub fn open_all<F: Files>(
    alloc: Global,
    names: &[Text],
    files: &mut F,
) -> Result<List<FileId>, InputsEnd>
    ensures opens { IfOk result (OpensInputs F.Reads F.Files.own names.now files.old files.new) }
    ensures contents { IfOk result (HaveContents F.Reads F.Files.own names.now files.old files.new) }
    ensures missing { IfVisible (F.names files.old) (λ world. TellsMissing world names.now result) }

    // After an error the same files are live, and each is unchanged.
    ensures refused { OnErr result (UsesOnly F.Reads F.Files.own names.now [] files.old files.new) }
    ensures same { LeavesContents F.Reads F.Files.own files.old files.new }
    ensures cause { HasCause is_inputs_fault (F.reading_faults files.old) (F.reading_faults files.new) result }
{
    let mut ids = Vec::with_capacity(alloc, names.len())?;
    for (k, name) in names.iter().enumerate() {
        match files.open_file(name.as_str()) {
            Ok(file) => ids.push_reserved(file),
            Err(fault) => {
                close_all(files, ids.as_slice());
                return Err(end_of(fault, k));
            }
        }
    }
    Ok(List::from_vec(ids))
}

/// Returns the error for the name with the index `k`, from 0, whose file couldn't be opened because of `fault`. For
/// `open_all`, when `merge` opens its inputs.
fn end_of(fault: OpenFault, k: usize) -> InputsEnd
    ensures { result ≡ end_of k fault }
{
    match fault {
        OpenFault::Missing => InputsEnd::Missing { input: k },
        OpenFault::Failed => InputsEnd::Failed,
        OpenFault::Memory => InputsEnd::Memory,
    }
}

/// Closes the open files `ids`, whose numbers are increasing, when a merge ends. `open_all` also calls it for the first
/// files, if a later one can't be opened.
pub fn close_all<F: Files>(files: &mut F, ids: &[FileId])
    requires live { AreLive (live_files F.Reads files.old).live ids.now }
    requires rising { AreRising ids.now }
    ensures { EndsOnly F.Reads F.Files.own files.old files.new ids.now }
{
    for id in ids {
        files.close(*id);
    }
}
