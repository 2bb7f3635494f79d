//! Refusals before the files of a merge are read.

ghost use Rattle.std.specs.Prelude.{◌≡◌, IfOk};
ghost use Rattle.mkv_io.specs.Bounds.{ReadsUpTo};
ghost use Rattle.mkv_io.specs.Faults.{HasCause, is_read_fault};
ghost use Rattle.mkv_io.specs.Told.{IfVisible};
ghost use Rattle.sidecar_edit.specs.Pending.{LooksOnly};
ghost use Rattle.mkv_merge.specs.Asked.{sidecars_of};
ghost use Rattle.mkv_merge.specs.Bound.{most_looked};
ghost use Rattle.mkv_merge.specs.Read.{pending_of};
ghost use Rattle.mkv_merge.specs.Stages.{begun_refusal};

use crate::refusal::Refusal;
use crate::texts::missing_text;
use input_files::{TextFiles, first_pending};
use mkv_io::{Files, ReadEnd};
use requests::MergeWords;
use sidecar_edit::is_pending;
use std::alloc::Global;

/// Returns the refusal of a merge because of a pending edit, if there is one. The inputs are checked in the order of
/// `words`, then an existing file with the output's name, unless the output is split. Looks only into the journals
/// among `files`. For `begun_refusal`.
fn pending_of<F: Files>(
    alloc: Global,
    words: &MergeWords,
    files: &mut F,
) -> Result<Option<Refusal>, ReadEnd>
    ensures exact { IfVisible (F.names files.old) (λ world. IfOk result (λ why. why ≡ pending_of world words.now)) }
    ensures looks { LooksOnly F.Reads F.Files.own (sidecars_of words.now) files.old files.new }
    ensures cause { HasCause is_read_fault (F.reading_faults files.old) (F.reading_faults files.new) result }
    ensures octets { ReadsUpTo F.Reads files.old files.new (most_looked words.now) }
{
    if let Some(input) = first_pending(alloc, words.files.as_slice(), files)? {
        return Ok(Some(Refusal::PendingInput { input }));
    }
    if words.split.is_none() && is_pending(alloc, words.output.as_str(), files)? {
        return Ok(Some(Refusal::PendingOutput));
    }
    Ok(None)
}

/// Returns the refusal of a merge whose inputs exist but weren't read yet, or None. The causes are a missing chapter
/// file, a missing timestamp file, and a pending edit, in this order. `texts` has the text files that were read.
/// `merge` calls it after the inputs are opened.
pub fn begun_refusal<F: Files>(
    alloc: Global,
    words: &MergeWords,
    texts: &TextFiles,
    files: &mut F,
) -> Result<Option<Refusal>, ReadEnd>
    ensures exact { IfVisible (F.names files.old) (λ world. IfOk result (λ why. why ≡ begun_refusal world words.now texts.now)) }
    ensures looks { LooksOnly F.Reads F.Files.own (sidecars_of words.now) files.old files.new }
    ensures cause { HasCause is_read_fault (F.reading_faults files.old) (F.reading_faults files.new) result }
    ensures octets { ReadsUpTo F.Reads files.old files.new (most_looked words.now) }
{
    match missing_text(texts)? {
        Some(why) => Ok(Some(why)),
        None => pending_of(alloc, words, files),
    }
}
