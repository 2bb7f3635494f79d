//! Records of a file, the Elements besides blocks and cue points

ghost use Rattle.std.specs.Prelude.{◌≡◌, ◌+◌, ◌*◌, ◌≤◌, false, List, Ok, IfOk, IfErr, IfSome};
ghost use Rattle.mkv_schema.specs.declared.ids.TheConstants.{INFO as INFO_ID, TRACKS as TRACKS_ID};
ghost use Rattle.mkv_io.specs.Faults.{HasCause};
ghost use Rattle.mkv_io.specs.Sources.{IfTold, IsLive, file_size};
ghost use Rattle.tree_format.specs.Standing.{IsSoundOf};
ghost use Rattle.meta_records.specs.declared.limits.TheConstants.{MAX_ATTACHMENTS_LEN};
ghost use Rattle.element_reader.specs.Outline.{is_outline_fault, outline_in};
ghost use Rattle.meta_records.specs.Records.{AreGood, AreRead, IfOutlinedAs, IsGoodInfo, ReadsAs, ReadsRecords, file_records, good_info, good_tracks, scale_of_info};
ghost use Rattle.mkv_io.specs.Bounds.{ReadsOf, ReadsUpTo};

use crate::first::first_tree;
use crate::first_attached::first_attachments;
use crate::info::read_info;
use ebml_tree::{Tree, TreeEnd};
use element_reader::{Header, Outline, OutlineEnd};
use file_format::DEFAULT_SCALE;
use mkv_io::{Damage, FileId, Kind, List, Reads};
use mkv_schema::ids::{CHAPTERS, INFO, TAGS, TRACKS};
use output_model::Attachment;
use std::alloc::Global;
use track_records::{Track, read_tracks};

/// Records of a file, for a merge, `info`, or an extraction
#[derive(Drop)]
pub struct Records {
    /// First Info, if any
    pub info: Option<Tree>,
    /// Tracks of the first Tracks
    pub tracks: List<Track>,
    /// Attached files of the first Attachments, whose data stay in the file
    pub attachments: List<Attachment>,
    /// First Chapters, if any
    pub chapters: Option<Tree>,
    /// First Tags, if any
    pub tags: Option<Tree>,
}

/// Reads the records of `file`, which has the outline `outline`, or returns the first damage. Info, Tracks,
/// Attachments, Chapters and Tags are checked in this order; each first as Elements, then for its values. A file
/// without Tracks is refused. The outline may have been read after other inputs, with any number of bytes held.
/// `merge`, `info` and `extract` call it before they read blocks.
#[tactic(auto, using(crate::proofs::RecordsLemmas::held))]
pub fn read_records<R: Reads>(
    alloc: Global,
    outline: &Outline,
    src: &mut R,
    file: FileId,
) -> Result<Records, OutlineEnd>
    requires live { IsLive R.Reads src.old file }
    requires whole { outline.now.total ≡ file_size R.Reads src.old file }
    ensures exact { IfOutlinedAs R.Reads src.old file outline.now file_records (λ found. ReadsRecords found result) }
    ensures good { IfOk result (AreGood file outline.now.total) }
    ensures standing { R.standing src.new ≡ R.standing src.old }
    ensures cause { HasCause is_outline_fault (R.reading_faults src.old) (R.reading_faults src.new) result }

    // Info, Tracks, Chapters and Tags are each read once, and Attachments without data.
    ensures octets { ReadsUpTo R.Reads src.old src.new (20 * file_size R.Reads src.old file) }
    ensures few { ReadsOf R.Reads src.old src.new file (λ size. 4 * size + 2 * MAX_ATTACHMENTS_LEN) }
{
    let info = first_tree(alloc, outline, src, file, INFO)?;
    let info = good_info(info)?;
    let tracks = first_tree(alloc, outline, src, file, TRACKS)?;
    let tracks = good_tracks(alloc, &outline.segment(), tracks)?;
    let attachments = first_attachments(alloc, outline, src, file)?;
    let chapters = first_tree(alloc, outline, src, file, CHAPTERS)?;
    let tags = first_tree(alloc, outline, src, file, TAGS)?;
    Ok(Records {
        info,
        tracks,
        attachments,
        chapters,
        tags,
    })
}

/// Returns the nanoseconds per tick of a file with the first Info `info`, or the default, 1,000,000, without one. Used
/// for times of blocks and of cue points.
pub fn scale_of(info: &Option<Tree>) -> u64
    requires { IfSome info.now IsGoodInfo }
    ensures value { result ≡ scale_of_info info.now }
    ensures some { 1 ≤ result }
{
    let Some(info) = info else {
        return DEFAULT_SCALE;
    };
    match read_info(info) {
        Ok(values) => values.scale,
        Err(_) => unreachable!(),
    }
}

/// Returns `info`, the first Info of a file if any, or its damage if its values aren't valid. For `read_records`, and
/// for edits and `reindex`.
pub fn good_info(info: Option<Tree>) -> Result<Option<Tree>, Damage>
    requires { IfSome info (IsSoundOf INFO_ID) }
    ensures { result ≡ good_info info }
{
    if let Some(tree) = &info {
        read_info(tree)?;
    }
    Ok(info)
}

/// Returns the tracks of `tracks`, the first Tracks of a file. Without one it fails with damage at the offset of
/// `segment`. For `read_records`, when the records of a file are read.
fn good_tracks(
    alloc: Global,
    segment: &Header,
    tracks: Option<Tree>,
) -> Result<List<Track>, OutlineEnd>
    requires { IfSome tracks (IsSoundOf TRACKS_ID) }
    ensures exact { ReadsAs (good_tracks segment.now tracks) result }
    ensures good { IfOk result AreRead }
    ensures cause { IfErr result (λ end. is_outline_fault end ≡ false) }
{
    let Some(tracks) = tracks else {
        return Err(OutlineEnd::Refused(Damage {
            kind: Kind::NoTracks,
            id: 0,
            offset: segment.offset,
        }));
    };
    match read_tracks(alloc, &tracks) {
        Ok(tracks) => Ok(tracks),
        Err(TreeEnd::Damage(damage)) => Err(OutlineEnd::Refused(damage)),
        Err(TreeEnd::Memory) => Err(OutlineEnd::Memory),
    }
}
