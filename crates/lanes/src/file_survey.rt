//! Survey of a file: a walk over all its blocks, to find its end before another file is appended to it

ghost use Rattle.std.specs.Prelude.{◌≡◌, ◌*◌, ◌≤◌, IfOk, length, replicate};
ghost use Rattle.std.specs.List.{All};
ghost use Rattle.std.specs.Option.{option_copied};
ghost use Rattle.mkv_io.specs.Bounds.{ReadsUpTo};
ghost use Rattle.mkv_io.specs.Faults.{HasCause, is_read_fault};
ghost use Rattle.mkv_io.specs.Sources.{file_size, live_files};
ghost use Rattle.cluster_reader.specs.Reading.{CanRead};
ghost use Rattle.merge_model.specs.FileLinks.{IsOpenLink};
ghost use Rattle.lanes.specs.Ends.{IsTimed};
ghost use Rattle.lanes.specs.Survey.{AreOfOneFile, Surveys, first_track, surveyed_length};
ghost use Rattle.lanes.specs.Walked.{WalksLeft};
ghost use Rattle.lanes.specs.declared.survey_result.TheConstants.{MAX_END};

use crate::ends::{count_frames, greatest_end, texts_end};
use crate::survey_result::Survey;
use cluster_reader::{BlockFilter, Cursor, Step};
use merge_model::{Link, TrackLink};
use mkv_io::{List, ReadEnd, Reads};
use std::alloc::Global;

/// Reads the heads of all blocks that are left of the file at `cursor`, and returns the greatest end for `links`, in
/// nanoseconds. `counts` has the number of frames met up to now for each link's track. `survey` calls it.
fn walk<R: Reads>(
    cursor: &mut Cursor,
    links: &[Link],
    counts: &mut [u64],
    src: &mut R,
) -> Result<Survey, ReadEnd>
    requires ready { CanRead (live_files R.Reads src.old) cursor.old }
    requires timed { All IsTimed links.now }
    requires counts { counts.old ≡ replicate (length links.now) 0 }
    ensures value { WalksLeft R.Reads src.old cursor.old links.now result }
    ensures small { IfOk result (λ survey. survey.end ≤ MAX_END) }
    ensures standing { R.standing src.new ≡ R.standing src.old }
    ensures cause { HasCause is_read_fault (R.reading_faults src.old) (R.reading_faults src.new) result }
    ensures octets { ReadsUpTo R.Reads src.old src.new (2 * file_size R.Reads src.old cursor.old.file) }
{
    let mut survey = Survey {
        end: texts_end(links),
        stopped: false,
    };
    'steps: loop {
        match cursor.advance_for(src, BlockFilter::Heads)? {
            Step::Block => {
                survey.end = greatest_end(links, counts, cursor, survey.end);
                count_frames(links, cursor, counts);
            }
            Step::Damaged(_) => survey.stopped = cursor.stopped() || survey.stopped,
            Step::End => return Ok(survey),
        }
    }
}

/// Returns the first of `links` to a track of a file, or None if all are texts. `survey` reads its file, since all
/// links are of the same one.
fn first_track(links: &[Link]) -> Option<&TrackLink>
    ensures { option_copied result ≡ first_track links.now }
{
    for link in links {
        if let Link::Track(track) = link {
            return Some(track);
        }
    }
    None
}

/// Returns the end of the file of `links` in nanoseconds, without its append offset, and whether damage ends its
/// reading. `merge` calls it for an input that another one is appended to. Each link is for a track of that file, or
/// the only text. Reads the heads of its blocks through `src`; for a text nothing.
pub fn survey<R: Reads>(alloc: Global, src: &mut R, links: &List<Link>) -> Result<Survey, ReadEnd>
    requires open { All (IsOpenLink (live_files R.Reads src.old)) links.now }
    requires timed { All IsTimed links.now }
    requires one { AreOfOneFile links.now }
    ensures value { Surveys (live_files R.Reads src.old) links.now result }
    ensures small { IfOk result (λ survey. survey.end ≤ MAX_END) }
    ensures standing { R.standing src.new ≡ R.standing src.old }
    ensures cause { HasCause is_read_fault (R.reading_faults src.old) (R.reading_faults src.new) result }

    // Each byte of the file is read at most once, and once more if a read fails.
    ensures octets { ReadsUpTo R.Reads src.old src.new (2 * surveyed_length (live_files R.Reads src.old) links.now) }
{
    let links = links.as_slice();
    let Some(track) = first_track(links) else {
        return Ok(Survey {
            end: texts_end(links),
            stopped: false,
        });
    };
    let mut cursor = Cursor::start(alloc, &*track.outline, track.file, track.scale)?;
    let mut counts = vec![in alloc; 0; links.len()]?;
    walk(&mut cursor, links, &mut counts, src)
}
