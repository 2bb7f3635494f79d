//! Blocks that are added to a Cluster buffer and an output, in sequence

ghost use Rattle.std.specs.Prelude.{◌≡◌, [], ◌∷◌, OnOk};
ghost use Rattle.mkv_io.specs.Writing.{WritesOnly};
ghost use Rattle.mkv_io.specs.Ends.{HasRemuxCause};
ghost use Rattle.cluster_writer.specs.Gathered.{HoldsSmall};
ghost use Rattle.cluster_writer.specs.Lengths.{octets_taken};
ghost use Rattle.cluster_writer.specs.Lent.{CanBePut, block_of};
ghost use Rattle.cues_seekhead.specs.OpenOutput.{IsOpen};
ghost use Rattle.remuxer.specs.Stands.{Adds, Ends, JoinsHeld, MakesRoom};

use cluster_writer::{BlockRef, ClusterBuf};
use cues_seekhead::OutFile;
use mkv_io::{Files, Reads, RemuxEnd as OutEnd};

// Makes room in `buffer` for `block`, whose Element has `len` bytes. If the block can't join the Cluster in the buffer,
// the Cluster is written to the output `out`, and the buffer is empty afterwards. For `add_block`, while `merge` writes
// an output.
fn make_room<F: Files>(
    files: &mut F,
    out: &mut OutFile,
    buffer: &mut ClusterBuf,
    block: &BlockRef<'_>,
    len: u64,
) -> Result<(), OutEnd>
    requires open { IsOpen F.Reads files.old out.old }
    requires len { len ≡ octets_taken (block_of block.now) }
    ensures makes { MakesRoom F.Reads F.Files.own (block_of block.now) files.old files.new out.old out.new buffer.old buffer.new result }
    ensures room { OnOk result (JoinsHeld block.now.tick len buffer.old buffer.new) }
    ensures limits { buffer.new.limits ≡ buffer.old.limits }
    ensures file { out.new.file ≡ out.old.file }
    ensures open { OnOk result (IsOpen F.Reads files.new out.new) }
    ensures only { WritesOnly F.Reads F.Files.own (F.holder files.old out.old.file.n ∷ []) files.old files.new }
    ensures cause { HasRemuxCause F.Reads F.Files.own files.old files.new result }
{
    if !buffer.fits(block.tick, len) {
        out.cluster(files, buffer.octets())?;
        buffer.clear();
    }
    Ok(())
}

/// Adds the next block `block` of an output to the Cluster in `buffer`, with a cue point in `out` if `cued`. If it
/// can't join the Cluster, the Cluster is written to `out` first. Returns true if the block begins a Cluster. `merge`
/// and `generate` write each block so.
pub fn add_block<F: Files>(
    files: &mut F,
    out: &mut OutFile,
    buffer: &mut ClusterBuf,
    block: &BlockRef<'_>,
    cued: bool,
) -> Result<bool, OutEnd>
    requires block { CanBePut block.now }
    requires open { IsOpen F.Reads files.old out.old }
    ensures adds { Adds F.Reads F.Files.own (block_of block.now) cued files.old files.new out.old out.new buffer.old buffer.new result }
    ensures limits { buffer.new.limits ≡ buffer.old.limits }
    ensures most { OnOk result (HoldsSmall buffer.new) }
    ensures file { out.new.file ≡ out.old.file }
    ensures open { OnOk result (IsOpen F.Reads files.new out.new) }
    ensures only { WritesOnly F.Reads F.Files.own (F.holder files.old out.old.file.n ∷ []) files.old files.new }
    ensures cause { HasRemuxCause F.Reads F.Files.own files.old files.new result }
{
    let lengths = block.lengths();
    buffer.reserve(lengths.whole)?;
    make_room(files, out, buffer, block, lengths.whole)?;
    let begins = buffer.is_empty();
    let relative = buffer.put_measured(block, lengths);
    if cued {
        out.cue(block.tick, block.lane, relative)?;
    }
    Ok(begins)
}

/// Writes the Cluster in `buffer`, if there is one, to the output `out`, after all blocks were added. `merge` and
/// `generate` call it before the Elements after the Clusters.
pub fn add_rest<F: Files>(
    files: &mut F,
    out: &mut OutFile,
    buffer: &mut ClusterBuf,
) -> Result<(), OutEnd>
    requires { IsOpen F.Reads files.old out.old }
    ensures ends { Ends F.Reads F.Files.own files.old files.new out.old out.new buffer.old result }
    ensures file { out.new.file ≡ out.old.file }
    ensures open { OnOk result (IsOpen F.Reads files.new out.new) }
    ensures only { WritesOnly F.Reads F.Files.own (F.holder files.old out.old.file.n ∷ []) files.old files.new }
    ensures cause { HasRemuxCause F.Reads F.Files.own files.old files.new result }
{
    let octets = buffer.octets();
    if !octets.is_empty() {
        out.cluster(files, octets)?;
    }
    Ok(())
}
