//! The check that no output of an extraction has the name of a file that is read.

ghost use Rattle.std.specs.Prelude.{◌≡◌, IfOk};
ghost use Rattle.std.specs.List.{find};
ghost use Rattle.std.specs.Option.{option_copied};
ghost use Rattle.requests.specs.declared.job.Target.{Target as TargetSeen};
ghost use Rattle.sidecar_edit.specs.Name.{sidecar_of};
ghost use Rattle.extractors.specs.Job.{names_of};
ghost use Rattle.mkv_extract.specs.Names.{first_written, is_either, is_read};

use mkv_io::Text;
use requests::{Job, Target};
use sidecar_edit::sidecar_name;
use std::alloc::{AllocError, Global};

/// Checks whether the output name `out` is `name`, the file's, or `sidecar`, its journal's. For `first_written`, so
/// that `extract` overwrites no file that it reads.
fn is_read(name: &str, sidecar: &str, out: &str) -> bool
    ensures { result ≡ is_either name.now sidecar.now out.now }
{
    out == name || out == sidecar
}

/// Returns the first of `targets` whose output has the name `name`, the file's, or `sidecar`, its journal's; None if
/// there is none. For `written_among`, so that `extract` overwrites no file that it reads.
fn target_among<'a>(name: &str, sidecar: &str, targets: &'a [Target]) -> Option<&'a Target>
    ensures { option_copied result ≡ find (λ (t : TargetSeen). is_either name.now sidecar.now t.name) targets.now }
{
    targets
        .iter()
        .find(|target| is_read(name, sidecar, target.name.as_str()))
}

/// Returns the output name of the first of `targets` that would overwrite the file `name` or its journal, `sidecar`, or
/// None. For `first_written`, so that `extract` overwrites no file that it reads.
fn written_among<'a>(name: &str, sidecar: &str, targets: &'a [Target]) -> Option<&'a Text>
    requires { sidecar.now ≡ sidecar_of name.now }
    ensures { option_copied result ≡ find (is_read name.now) (names_of targets.now) }
{
    match target_among(name, sidecar, targets) {
        Some(target) => Some(&target.name),
        None => None,
    }
}

/// Returns the first output name of `job` that would overwrite the file `name` or its journal, if any. The command then
/// is refused. `extract` calls it before it opens the file.
pub fn first_written<'a>(
    alloc: Global,
    name: &str,
    job: &'a Job,
) -> Result<Option<&'a Text>, AllocError>
    ensures { IfOk result (λ out. option_copied out ≡ first_written name.now job.now) }
{
    let sidecar = sidecar_name(alloc, name)?;
    let sidecar = sidecar.as_str();
    match job {
        Job::Tracks { list, .. } | Job::Attachments { list } | Job::Cues { list } => Ok(
            written_among(name, sidecar, list.as_slice()),
        ),
        Job::Chapters { name: out } if is_read(name, sidecar, out.as_str()) => Ok(Some(out)),
        Job::Chapters { .. } => Ok(None),
    }
}
