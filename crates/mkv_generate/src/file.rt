//! Writing of one generated file, which has one track.

ghost use Rattle.std.specs.Prelude.{◌≡◌, ◌≤◌, ◌<◌, ◌^◌, [], ◌∷◌, OnOk};
ghost use Rattle.mkv_io.specs.Ends.{HasRemuxCause};
ghost use Rattle.mkv_io.specs.Writing.{KeepsOthers, WritesOnly};
ghost use Rattle.cues_seekhead.specs.OpenOutput.{IsOpen};
ghost use Rattle.remuxer.specs.Output.{Writes};
ghost use Rattle.mkv_generate.specs.Files.{file_of, rule_of, default_limits};
ghost use Rattle.mkv_generate.specs.Writing.{AddsAll, AddsOne};

use crate::blocks::MediaKind;
use crate::front::{SCALE, front_of};
use cluster_writer::ClusterBuf;
use cues_seekhead::OutFile;
use mkv_io::{Files, Reads, RemuxEnd};
use output_model::{ClusterLimits, CueRule};
use remuxer::{add_block, add_rest};
use std::alloc::Global;

// Returns the limits of a Cluster that a merge has by default: 65,535 blocks and 5 s. `write_file` uses them for a
// generated file.
fn default_limits() -> ClusterLimits
    ensures { result ≡ default_limits }
{
    ClusterLimits {
        blocks: 65_535,
        span: 5_000_000_000,
        scale: SCALE,
    }
}

// Returns the rule for the cue points of the file of the kind `medium`: keyframes of pictures, and no sounds. `add_one`
// calls it.
fn rule_of(medium: MediaKind) -> CueRule
    ensures { result ≡ rule_of medium }
{
    match medium {
        MediaKind::Pictures => CueRule::Key,
        MediaKind::Sounds => CueRule::Never,
    }
}

// Adds the block number `i`, from 0, of the file of the kind `medium` to the Cluster in `buffer`. `add_all` calls it
// for each block. If the block can't join it, the Cluster is written to `out` first.
fn add_one<F: Files>(
    files: &mut F,
    out: &mut OutFile,
    buffer: &mut ClusterBuf,
    medium: MediaKind,
    i: u32,
) -> Result<(), RemuxEnd>
    requires number { i < 2 ^ 20 }
    requires open { IsOpen F.Reads files.old out.old }
    ensures adds { AddsOne F.Reads F.Files.own medium i files.old files.new out.old out.new buffer.old buffer.new result }
    ensures file { out.new.file ≡ out.old.file }
    ensures open { OnOk result (IsOpen F.Reads files.new out.new) }
    ensures only { WritesOnly F.Reads F.Files.own (F.holder files.old out.old.file.n ∷ []) files.old files.new }
    ensures cause { HasRemuxCause F.Reads F.Files.own files.old files.new result }
{
    let block = medium.block(i);
    let cued = rule_of(medium).takes(block.is_key());
    add_block(files, out, buffer, &block.lent(), cued)?;
    Ok(())
}

// Adds all blocks of the file of the kind `medium` for `n` pictures, and writes their Clusters to `out`. `write_file`
// calls it after the Elements before the Clusters.
fn add_all<F: Files>(
    files: &mut F,
    out: &mut OutFile,
    buffer: &mut ClusterBuf,
    medium: MediaKind,
    n: u32,
) -> Result<(), RemuxEnd>
    requires number { n < 2 ^ 18 }
    requires open { IsOpen F.Reads files.old out.old }
    ensures adds { AddsAll F.Reads F.Files.own medium n files.old files.new out.old out.new buffer.old result }
    ensures file { out.new.file ≡ out.old.file }
    ensures open { OnOk result (IsOpen F.Reads files.new out.new) }
    ensures only { WritesOnly F.Reads F.Files.own (F.holder files.old out.old.file.n ∷ []) files.old files.new }
    ensures cause { HasRemuxCause F.Reads F.Files.own files.old files.new result }
{
    let count = medium.count(n);
    for i in 0..count {
        add_one(files, out, buffer, medium, i)?;
    }
    add_rest(files, out, buffer)
}

/// Creates or replaces the file `name`, of the kind `medium` for `n` pictures, and writes it whole. `generate` does
/// this for its first two files. The file is closed in any case; after a failure it is incomplete.
pub(crate) fn write_file<F: Files>(
    alloc: Global,
    files: &mut F,
    name: &str,
    medium: MediaKind,
    n: u32,
) -> Result<(), RemuxEnd>
    requires { n < 2 ^ 18 }
    ensures writes { Writes (F.names files.old) (F.names files.new) name.now (file_of medium n) result }
    ensures kept { KeepsOthers F.Reads F.Files.own (name.now ∷ []) files.old files.new }
    ensures cause { HasRemuxCause F.Reads F.Files.own files.old files.new result }
    ensures octets { F.octets_read files.new ≤ F.octets_read files.old }
{
    let front = front_of(alloc, medium)?;
    let mut buffer = ClusterBuf::new(alloc, default_limits())?;
    let mut out = OutFile::begin(alloc, files, name, &front)?;
    match add_all(files, &mut out, &mut buffer, medium, n) {
        Ok(()) => {
            out.finish_with(files, 0, &None, &None)?;
            Ok(())
        }
        Err(end) => {
            out.abandon(files);
            Err(end)
        }
    }
}
