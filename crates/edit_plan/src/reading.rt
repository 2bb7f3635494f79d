//! Reading of the parts of a file that edits change.

ghost use Rattle.std.specs.Prelude.{◌≡◌, ◌+◌, ◌*◌, false, List, Ok, IfErr, IfOk, IfSome};
ghost use Rattle.mkv_schema.specs.declared.ids.TheConstants.{TRACKS as TRACKS_ID};
ghost use Rattle.mkv_io.specs.Faults.{HasCause};
ghost use Rattle.mkv_io.specs.Sources.{IfTold, IsLive, file_size};
ghost use Rattle.meta_records.specs.declared.limits.TheConstants.{MAX_ATTACHMENTS_LEN};
ghost use Rattle.element_reader.specs.Outline.{is_outline_fault, outline_in};
ghost use Rattle.ebml_tree.specs.Building.{IsRead};
ghost use Rattle.meta_records.specs.Records.{ReadsAs};
ghost use Rattle.edit_changes.specs.Records as spec;
ghost use Rattle.edit_changes.specs.Trees.{AreSound};
ghost use Rattle.mkv_io.specs.Bounds.{ReadsOf, ReadsUpTo};
ghost use Rattle.edit_plan.specs.Answer.{ReadsTrees};

use ebml_tree::{Tree, TreeEnd};
use edit_changes::Trees;
use element_reader::{Header, Outline, OutlineEnd};
use meta_records::{first_attachments, first_tree, good_info};
use mkv_io::{Damage, FileId, Kind, List, Reads};
use mkv_schema::ids::{CHAPTERS, INFO, TAGS, TRACKS};
use std::alloc::Global;
use track_records::read_tracks;

/// Returns the Tracks `tracks` that was read, after a check of its entries, for `read_trees`. A file without Tracks is
/// refused, at the offset of its `segment`.
fn good_tracks(alloc: Global, segment: &Header, tracks: Option<Tree>) -> Result<Tree, OutlineEnd>
    requires { IfSome tracks (IsRead TRACKS_ID) }
    ensures exact { ReadsAs (spec.good_tracks segment.now tracks) result }
    ensures read { IfOk result (IsRead TRACKS_ID) }
    ensures cause { IfErr result (λ end. is_outline_fault end ≡ false) }
{
    let Some(tracks) = tracks else {
        return Err(OutlineEnd::Refused(Damage {
            kind: Kind::NoTracks,
            id: 0,
            offset: segment.offset,
        }));
    };
    match read_tracks(alloc, &tracks) {
        Ok(_) => Ok(tracks),
        Err(TreeEnd::Damage(damage)) => Err(OutlineEnd::Refused(damage)),
        Err(TreeEnd::Memory) => Err(OutlineEnd::Memory),
    }
}

/// Reads the Info and Tracks of `file`, whose outline is `outline`, before a plan of `propedit` or `reindex`; or
/// returns the first refusal. Each of the two is checked for damage inside, and then for a refused value. Then
/// Attachments, Chapters and Tags are checked for damage inside.
#[tactic(auto, using(crate::proofs::TreesLemmas::reads))]
pub fn read_trees<R: Reads>(
    alloc: Global,
    outline: &Outline,
    src: &mut R,
    file: FileId,
) -> Result<Trees, OutlineEnd>
    requires live { IsLive R.Reads src.old file }
    requires whole { outline.now.total ≡ file_size R.Reads src.old file }
    ensures exact { ReadsTrees R.Reads src.old file outline.now result }
    ensures sound { IfOk result AreSound }
    ensures standing { R.standing src.new ≡ R.standing src.old }
    ensures cause { HasCause is_outline_fault (R.reading_faults src.old) (R.reading_faults src.new) result }

    // Info, Tracks, Chapters and Tags are each read once, and no data of Attachments.
    ensures octets { ReadsUpTo R.Reads src.old src.new (20 * file_size R.Reads src.old file) }
    ensures few { ReadsOf R.Reads src.old src.new file (λ size. 4 * size + 2 * MAX_ATTACHMENTS_LEN) }
{
    let info = first_tree(alloc, outline, src, file, INFO)?;
    let info = good_info(info)?;
    let tracks = first_tree(alloc, outline, src, file, TRACKS)?;
    let tracks = good_tracks(alloc, &outline.segment(), tracks)?;
    first_attachments(alloc, outline, src, file)?;
    first_tree(alloc, outline, src, file, CHAPTERS)?;
    first_tree(alloc, outline, src, file, TAGS)?;
    Ok(Trees {
        info,
        tracks: List::from_vec(tracks.into_children()),
    })
}
