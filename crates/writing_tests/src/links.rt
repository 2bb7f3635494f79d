//! Output tracks over open files.

ghost use Rattle.std.specs.Prelude.{◌≡◌, ◌≤◌, length, IfOk};
ghost use Rattle.std.specs.List.{All};
ghost use Rattle.mkv_io.specs.Sources.{IsLive, live_files};
ghost use Rattle.merge_model.specs.FileLinks.{IsOpenLink, IsSmallLink};
ghost use Rattle.lanes.specs.Lane.{IsReady};
ghost use Rattle.merge_model.specs.declared.limits.TheConstants.{MAX_LINKS};
ghost use Rattle.time_merge.specs.Merge as merges;

use element_reader::Outline;
use lanes::Lane;
use merge_model::{LaneSpec, Link, TrackLink};
use mkv_io::{Bytes, FileId, List, Reads};
use std::alloc::Global;
use std::rc::Rc;
use std::test::Fail;
use time_merge::Merge;

/// Nanoseconds of a tick, in every file and in the output.
const SCALE: u64 = 1_000_000;

/// Track 1 of a file as a part of an output track. Times are in ticks.
#[derive(Clone, Copy)]
struct Taken {
    /// Index of the file.
    file: usize,
    delay: i32,
    shift: u32,
}

const FIRST: Taken = Taken {
    file: 0,
    delay: 0,
    shift: 0,
};

/// Second file, 20 ticks later.
const SECOND: Taken = Taken {
    file: 1,
    delay: 0,
    shift: 20,
};

/// Second file, 10 ticks earlier: a block before time 0 is dropped.
const EARLY: Taken = Taken {
    file: 1,
    delay: -10,
    shift: 0,
};

/// Returns the link to the track `taken` of one of the open files `files`, for `lane_of`. It fails if `files` has no
/// file with that index.
fn link_of<R: Reads>(
    alloc: Global,
    src: &mut R,
    files: &[FileId],
    taken: &Taken,
) -> Result<Link, Fail>
    requires { All (λ file. IsLive R.Reads src.old file) files.now }
    ensures opened { IfOk result (IsOpenLink (live_files R.Reads src.new)) }
    ensures small { IfOk result IsSmallLink }
    ensures standing { R.standing src.new ≡ R.standing src.old }
{
    let file = *files.get(taken.file).ok_or("no file of this number")?;
    let outline = Outline::read(alloc, src, file)?;
    Ok(Link::Track(TrackLink {
        file,
        outline: Rc::new(alloc, outline)?,
        number: 1,
        scale: SCALE,
        default_duration: None,
        delay: i64::from(taken.delay) * 1_000_000,
        shift: u64::from(taken.shift) * SCALE,
        prefix: Bytes::new(alloc),
        times: None,
        goes_on: false,
    }))
}

/// Returns an output track of the tracks `tracks` in sequence, over the open files `files`, for `merge_of`.
fn lane_of<R: Reads>(
    alloc: Global,
    src: &mut R,
    files: &[FileId],
    tracks: &[Taken],
) -> Result<Lane, Fail>
    requires live { All (λ file. IsLive R.Reads src.old file) files.now }
    requires most { length tracks.now ≤ MAX_LINKS }
    ensures ready { IfOk result (IsReady (live_files R.Reads src.new)) }
    ensures standing { R.standing src.new ≡ R.standing src.old }
{
    let mut links = List::new(alloc);
    for taken in tracks {
        links.push(link_of(alloc, src, files, taken)?)?;
    }
    Ok(Lane::start(alloc, LaneSpec { links }, SCALE)?)
}

/// Returns the merge of two output tracks of the open files `files`: the first file followed by the second, and the
/// second file. The test of failed reads steps through it.
pub fn merge_of<R: Reads>(alloc: Global, src: &mut R, files: &[FileId]) -> Result<Merge, Fail>
    requires { All (λ file. IsLive R.Reads src.old file) files.now }
    ensures { IfOk result (merges.IsReady (live_files R.Reads src.new)) }
{
    let mut lanes = List::new(alloc);
    lanes.push(lane_of(alloc, src, files, &[FIRST, SECOND])?)?;
    lanes.push(lane_of(alloc, src, files, &[EARLY])?)?;
    Ok(Merge::start(alloc, lanes, src)?)
}
