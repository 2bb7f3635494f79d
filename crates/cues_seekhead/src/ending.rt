//! Last writes of an output

ghost use Rattle.std.specs.Prelude.{◌≡◌, ◌+◌, ◌≤◌, [], ◌∷◌, length, IfOk, IfSome};
ghost use Rattle.ebml_numbers.specs.Number.{size_octets};
ghost use Rattle.mkv_io.specs.Sources.{IsLive, file_size};
ghost use Rattle.mkv_io.specs.Writing.{WritesOnly};
ghost use Rattle.mkv_io.specs.Ends.{HasRemuxCause};
ghost use Rattle.mkv_schema.specs.declared.ids.TheConstants.{CHAPTERS, TAGS};
ghost use Rattle.tree_format.specs.Node.{id_of};
ghost use Rattle.tree_format.specs.NormalForm.{longest};
ghost use Rattle.output_model.specs.Element.{joined};
ghost use Rattle.output_model.specs.declared.TheConstants.{AREA, DURATION_LEN, MAX_CUES};
ghost use Rattle.output_model.specs.SeekHead.{area_elements, seeks_from};
ghost use Rattle.output_model.specs.Document.{back_with};
ghost use Rattle.cues_seekhead.specs.Places.{AreIds};
ghost use Rattle.cues_seekhead.specs.Draft.{Drafts, DraftsEnd, duration_patches};
ghost use Rattle.cues_seekhead.specs.Ending.{IsEnding};

use crate::area::area_octets;
use crate::back::back_octets;
use crate::info::duration_octets;
use crate::places::sized;
use ebml_numbers::put_size;
use ebml_tree::Tree;
use mkv_io::{Bytes, FileId, Files, Reads, RemuxEnd as OutEnd};
use output_model::{CuePoint, Seek};
use std::alloc::{AllocError, Global};

// Writes the Duration of an output that ends at the tick `end` over the Void in its place. The Segment's body begins at
// byte `start` of `file`, and the Void `place` bytes after that. Writes nothing if there is no place or `end` is 0.
// Used by `write`.
fn put_duration<F: Files>(
    files: &mut F,
    file: FileId,
    start: u64,
    place: Option<u64>,
    end: u64,
) -> Result<(), OutEnd>
    requires live { IsLive F.Reads files.old file }
    requires inside { IfSome place (λ at. start + at + DURATION_LEN ≤ file_size F.Reads files.old file) }
    ensures drafts { Drafts F.Files.own file (file_size F.Reads files.old file) [] (duration_patches start place end) files.old files.new result }
    ensures only { WritesOnly F.Reads F.Files.own (F.holder files.old file.n ∷ []) files.old files.new }
    ensures size { file_size F.Reads files.new file ≡ file_size F.Reads files.old file }
    ensures cause { HasRemuxCause F.Reads F.Files.own files.old files.new result }
{
    let Some(place) = place else {
        return Ok(());
    };
    if end > 0 {
        files.overwrite(file, start + place, &duration_octets(end))?;
    }
    Ok(())
}

/// Bytes of an output's last writes
#[derive(Drop)]
pub(crate) struct Ending {
    // elements after the Clusters
    back: Bytes,
    area: Bytes,
    // length of the Segment's body
    pub(crate) total: u64,
}

impl Ending {
    /// Computes the bytes of the Elements after the Clusters, the area at the Segment's start, and the size of the
    /// Segment, whose content has `len` bytes before them. `seeks` are of the Elements before the Clusters. An output
    /// longer than a size can express fails as if memory ran out. Used by `write_end`, for `finish`.
    pub(crate) fn new(
        alloc: Global,
        len: u64,
        mut seeks: Vec<Seek>,
        cues: &[CuePoint],
        chapters: &Option<Tree>,
        tags: &Option<Tree>,
    ) -> Result<Ending, AllocError>
        requires few { length seeks.items ≤ 3 }
        requires ids { AreIds seeks.items }
        requires cues { length cues.now ≤ MAX_CUES }
        requires chapters { IfSome chapters.now (λ n. id_of n ≡ CHAPTERS) }
        requires tags { IfSome tags.now (λ n. id_of n ≡ TAGS) }
        ensures { IfOk result (IsEnding len seeks.items (back_with cues.now chapters.now tags.now)) }
    {
        let back = back_octets(alloc, len, cues, chapters, tags, &mut seeks)?;
        let area = area_octets(alloc, &seeks)?;
        let total = len.checked_add(back.len() as u64).ok_or(AllocError)?;
        let total = sized(total)?;
        Ok(Ending { back, area, total })
    }

    /// Appends the Elements after the Clusters to `file`, and then overwrites the Duration, the area and the Segment's
    /// size, in this order. The Segment's body begins at byte `start` of the file. The Duration is at the offset
    /// `place` from there, if there is one, and the output ends at the tick `end`. Used by `write_end`, for `finish`.
    pub(crate) fn write<F: Files>(
        &self,
        files: &mut F,
        file: FileId,
        start: u64,
        place: Option<u64>,
        end: u64,
    ) -> Result<(), OutEnd>
        requires live { IsLive F.Reads files.old file }
        requires long { start + AREA ≤ file_size F.Reads files.old file }
        requires inside { IfSome place (λ at. start + at + DURATION_LEN ≤ file_size F.Reads files.old file) }
        requires start { 8 ≤ start }
        requires area { length self.now.area ≡ AREA }
        requires total { self.now.total ≤ longest }
        ensures drafts { DraftsEnd F.Files.own file (file_size F.Reads files.old file) start place end self.now files.old files.new result }
        ensures only { WritesOnly F.Reads F.Files.own (F.holder files.old file.n ∷ []) files.old files.new }
        ensures cause { HasRemuxCause F.Reads F.Files.own files.old files.new result }
    {
        let size = put_size(self.total, 8);
        files.append(file, self.back.as_slice())?;
        put_duration(files, file, start, place, end)?;
        files.overwrite(file, start, self.area.as_slice())?;
        files.overwrite(file, start - 8, size.as_slice())?;
        Ok(())
    }
}
