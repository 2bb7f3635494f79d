//! One output that is written through a buffer.

ghost use Rattle.std.specs.Prelude.{◌≡◌, [], ◌∷◌, OnOk};
ghost use Rattle.mkv_io.specs.Faults.{HasCause, is_make_failure};
ghost use Rattle.mkv_io.specs.Sources.{IsLive};
ghost use Rattle.mkv_io.specs.Writing.{WritesOnly};
ghost use Rattle.mkv_outputs.specs.Written.{PassesTo, PassesThrough};
ghost use Rattle.mkv_outputs.specs.Waiting.{WaitFew};

use mkv_io::{Bytes, FileId, Files, MakeFault};

/// Maximum number of bytes that wait in the buffer of an output.
pub const ROOM: usize = 262_144;

/// Output that is being written: its open file, and the bytes that wait to be written to it.
#[derive(Debug, Drop)]
pub struct Sink {
    pub file: FileId,
    pub waiting: Bytes,
}

/// Writes the waiting bytes of the output `sink` to its file among `files`. After a failure they still wait.
/// `Outputs::flush_one` calls it, and `write` if the buffer is full.
pub fn flush<F: Files>(sink: &mut Sink, files: &mut F) -> Result<(), MakeFault>
    requires live { IsLive F.Reads files.old sink.old.file }
    requires few { WaitFew sink.old }
    ensures ok { OnOk result (sink.new.waiting ≡ []) }
    ensures passes { PassesTo F.Files.own sink.old.file files.old files.new sink.old.waiting sink.new.waiting result }
    ensures few { WaitFew sink.new }
    ensures file { sink.new.file ≡ sink.old.file }
    ensures only { WritesOnly F.Reads F.Files.own (F.holder files.old sink.old.file.n ∷ []) files.old files.new }
    ensures cause { HasCause is_make_failure (F.writing_faults files.old) (F.writing_faults files.new) result }
{
    if !sink.waiting.is_empty() {
        files.append(sink.file, sink.waiting.as_slice())?;
        sink.waiting.clear();
    }
    Ok(())
}

/// Appends `bytes` to the output `sink`. They wait in memory if its buffer of ROOM bytes has room. If not, the waiting
/// bytes are written to its file among `files`; then `bytes` are written, or wait if they are fewer than ROOM.
/// `Outputs::write` calls it.
pub fn write<F: Files>(sink: &mut Sink, files: &mut F, bytes: &[u8]) -> Result<(), MakeFault>
    requires live { IsLive F.Reads files.old sink.old.file }
    requires few { WaitFew sink.old }
    ensures passes { PassesThrough F.Files.own sink.old sink.new files.old files.new bytes.now result }
    ensures few { WaitFew sink.new }
    ensures file { sink.new.file ≡ sink.old.file }
    ensures only { WritesOnly F.Reads F.Files.own (F.holder files.old sink.old.file.n ∷ []) files.old files.new }
    ensures cause { HasCause is_make_failure (F.writing_faults files.old) (F.writing_faults files.new) result }
{
    if sink.waiting.len().saturating_add(bytes.len()) <= ROOM {
        sink.waiting.append(bytes)?;
        return Ok(());
    }
    flush(sink, files)?;
    pass(sink, files, bytes)
}

/// Appends `bytes` to the output `sink` while no other bytes wait. They are written to its file at once if they would
/// fill the buffer of ROOM bytes, and otherwise wait. `write` calls it after a flush.
fn pass<F: Files>(sink: &mut Sink, files: &mut F, bytes: &[u8]) -> Result<(), MakeFault>
    requires live { IsLive F.Reads files.old sink.old.file }
    requires none { sink.old.waiting ≡ [] }
    ensures passes { PassesTo F.Files.own sink.old.file files.old files.new bytes.now sink.new.waiting result }
    ensures few { WaitFew sink.new }
    ensures file { sink.new.file ≡ sink.old.file }
    ensures only { WritesOnly F.Reads F.Files.own (F.holder files.old sink.old.file.n ∷ []) files.old files.new }
    ensures cause { HasCause is_make_failure (F.writing_faults files.old) (F.writing_faults files.new) result }
{
    if bytes.len() < ROOM {
        sink.waiting.append(bytes)?;
        Ok(())
    } else {
        files.append(sink.file, bytes)
    }
}
