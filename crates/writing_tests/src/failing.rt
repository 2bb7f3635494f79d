//! A merge goes on after a call of the files that fails.

ghost use Rattle.std.specs.Prelude.{◌≡◌};
ghost use Rattle.mkv_memory.specs.FilesIn.{seen};

use crate::links::merge_of;
use crate::runs::{files_of, open_both};
use crate::spelled::{SMALL, damaged};
use crate::telling::{Given, Told, tell_merge};
use lanes::LinkDamage;
use mkv_io::{Damage, Kind};
use mkv_memory::MemFiles;
use std::alloc::{AllocError, Global};
use std::test::Fail;

/// Blocks of the merge. The first output track has the damaged file and then the small one, 20 ticks later. The
/// second has the small one, 10 ticks earlier.
const BLOCKS: [Given; 5] = [
    (0, 0, 70_000, Some(0)),
    (1, 10, 1, Some(0xBB)),
    (0, 20, 1, Some(2)),
    (0, 20, 1, Some(0xAA)),
    (0, 40, 1, Some(0xBB)),
];

/// Damage of the block that is cut short.
const SHORT: LinkDamage = LinkDamage {
    link: 0,
    damage: Damage {
        kind: Kind::ShortBlock,
        id: 0xA3,
        offset: 29,
    },
};

/// Makes the call with the number `call`, counted from 0, of `files` fail; the files are unchanged. `told_behind` does
/// this before it merges.
fn let_fail(files: &mut MemFiles, call: u64) -> Result<(), AllocError>
    ensures { (seen files.new).stored ≡ (seen files.old).stored }
{
    files.fail_at(call, 0)
}

/// Returns the blocks of a merge of two files while the call with the number `call` fails. The test of failed reads
/// compares it with the blocks without a failure.
fn told_behind(alloc: Global, call: u64) -> Result<Told, Fail> {
    let first = damaged(alloc)?;
    let mut files = files_of(alloc, [first.as_slice(), SMALL])?;
    let opened = open_both(alloc, &mut files)?;
    let mut merge = merge_of(alloc, &mut files, opened.as_slice())?;
    let_fail(&mut files, call)?;
    Ok(tell_merge(alloc, &mut merge, &mut files)?)
}

#[test]
fn a_failed_read_changes_no_block_of_a_merge(rt: HostRuntime) -> Result<(), Fail> {
    let mut failed: u64 = 0;
    for call in 0..40 {
        let told = told_behind(rt.alloc(), call)?;
        assert_eq!(rt; told.blocks.as_slice(), BLOCKS.as_slice(), "at call {call}");
        assert_eq!(rt; told.damage, Some(SHORT), "at call {call}");
        assert!(rt; told.faults <= 1);
        failed = failed.saturating_add(told.faults);
    }
    assert!(rt; failed >= 4);
    Ok(())
}
