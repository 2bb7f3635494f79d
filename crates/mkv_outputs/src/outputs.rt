//! Outputs that are written side by side.

ghost use Rattle.std.specs.Prelude.{◌≡◌, ◌+◌, ◌<◌, [], length, OnErr, OnOk, IfOk, IsErrOf};
ghost use Rattle.mkv_io.specs.Faults.{HasCause, is_make_failure};
ghost use Rattle.mkv_io.specs.Names.{AreOthers};
ghost use Rattle.mkv_outputs.specs.Outputs.{with_empty, with_more};
ghost use Rattle.mkv_outputs.specs.Sinks.{AreOpen, ArePassed, EndsOnly, Finishes, Gives, MakesOnly, WritesOutputs, ids_of, names_under};

use crate::sink::{ROOM, Sink, flush, write};
use mkv_io::{Bytes, Files, MakeFault};
use std::alloc::{AllocError, Global};
use std::marker::Model;

/// Number of outputs with reserved buffers. The buffers of further outputs grow.
const RESERVED: usize = 64;

/// Outputs that are written side by side. Their bytes wait in buffers until a buffer is full, or until `flush` writes
/// them. After a failed call outputs may only be closed.
#[derive(Debug, Drop)]
pub struct Outputs {
    alloc: Global,
    sinks: Vec<Sink>,
}

impl Model for Outputs {
    ghost use Rattle.std.specs.Prelude.{List};
    ghost use Rattle.mkv_outputs.specs.declared.sink.Sink.{Sink};

    ghost Value = { List Sink };

    ghost use Rattle.mkv_outputs.specs.Waiting.{EachWaitsFew};

    ghost view = { λ outputs. outputs.sinks.items };

    ghost invariant = { λ outputs. EachWaitsFew outputs.sinks.items };
}

impl Outputs {
    /// Returns an empty list of outputs. `extract` begins with it before it creates its track files.
    pub fn new(alloc: Global) -> Outputs
        ensures { result ≡ [] }
    {
        Outputs {
            alloc,
            sinks: Vec::new(alloc),
        }
    }

    /// Creates the file `name`, empty, as the last output. Allocates all memory before it touches the file. `extract`
    /// calls it for each track file, before it reads blocks.
    pub fn add<F: Files>(&mut self, files: &mut F, name: &str) -> Result<(), MakeFault>
        requires outputs { AreOpen F.Reads files.old self.old }
        requires apart { AreOthers name.now (names_under F.Files.own files.old self.old) }
        ensures gives { Gives F.Files.own files.old files.new self.old self.new (with_empty name.now) result }
        ensures only { MakesOnly F.Reads F.Files.own name.now files.old files.new self.old self.new }
        ensures err { OnErr result (self.new ≡ self.old) }
        ensures memory { IsErrOf result MakeFault.Memory → F.standing files.new ≡ F.standing files.old }
        ensures cause { HasCause is_make_failure (F.writing_faults files.old) (F.writing_faults files.new) result }
    {
        let waiting = buffer(self.alloc, self.sinks.len())?;
        self.sinks.reserve(1)?;
        let file = files.create(name)?;
        self.sinks.push_reserved(Sink { file, waiting });
        Ok(())
    }

    /// Appends `bytes` to the output with the number `k`, counted from 0. They may wait in its buffer instead of being
    /// written to its file. `extract` calls it for the bytes before the first frame, and for each frame.
    pub fn write<F: Files>(
        &mut self,
        files: &mut F,
        k: usize,
        bytes: &[u8],
    ) -> Result<(), MakeFault>
        requires below { k < length self.old }
        requires outputs { AreOpen F.Reads files.old self.old }
        ensures gives { Gives F.Files.own files.old files.new self.old self.new (with_more k bytes.now) result }
        ensures only { WritesOutputs F.Reads F.Files.own files.old files.new self.old self.new }
        ensures cause { HasCause is_make_failure (F.writing_faults files.old) (F.writing_faults files.new) result }
    {
        write(&mut self.sinks[k], files, bytes)
    }

    /// Writes the waiting bytes of the output with the number `k`, counted from 0, to its file. `flush` calls it for
    /// each output, in order.
    fn flush_one<F: Files>(&mut self, files: &mut F, k: usize) -> Result<(), MakeFault>
        requires below { k < length self.old }
        requires outputs { AreOpen F.Reads files.old self.old }
        ensures gives { Gives F.Files.own files.old files.new self.old self.new (λ given. given) result }
        ensures passed { ArePassed k self.old → OnOk result (ArePassed (k + 1) self.new) }
        ensures only { WritesOutputs F.Reads F.Files.own files.old files.new self.old self.new }
        ensures cause { HasCause is_make_failure (F.writing_faults files.old) (F.writing_faults files.new) result }
    {
        flush(&mut self.sinks[k], files)
    }

    /// Writes the waiting bytes of all outputs to their files, in order, up to the first failure. `extract` calls it
    /// after the last block, before it closes the outputs.
    pub fn flush<F: Files>(&mut self, files: &mut F) -> Result<(), MakeFault>
        requires { AreOpen F.Reads files.old self.old }
        ensures finishes { Finishes F.Files.own files.old files.new self.old result }
        ensures gives { Gives F.Files.own files.old files.new self.old self.new (λ given. given) result }
        ensures passed { OnOk result (ArePassed (length self.new) self.new) }
        ensures only { WritesOutputs F.Reads F.Files.own files.old files.new self.old self.new }
        ensures cause { HasCause is_make_failure (F.writing_faults files.old) (F.writing_faults files.new) result }
    {
        for k in 0..self.sinks.len() {
            self.flush_one(files, k)?;
        }
        Ok(())
    }

    /// Closes the files of all outputs, whether earlier calls failed or not. Waiting bytes are dropped. `extract` calls
    /// it last.
    pub fn close<F: Files>(self, files: &mut F)
        requires { AreOpen F.Reads files.old self }
        ensures { EndsOnly F.Reads F.Files.own files.old files.new (ids_of self) }
    {
        for sink in &self.sinks {
            files.close(sink.file);
        }
    }
}

/// Returns an empty buffer for the output with the number `k`, counted from 0. The first 64 have room reserved for
/// 262,144 bytes; the buffers of further outputs grow. `add` calls it.
fn buffer(alloc: Global, k: usize) -> Result<Bytes, AllocError>
    ensures { IfOk result (λ waiting. waiting ≡ []) }
{
    if k < RESERVED {
        Bytes::with_room(alloc, ROOM)
    } else {
        Ok(Bytes::new(alloc))
    }
}
