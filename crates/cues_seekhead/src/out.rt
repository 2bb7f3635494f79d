//! Output that is being written

ghost use Rattle.std.specs.Prelude.{◌≡◌, ◌+◌, ◌<◌, ◌≤◌, [], ◌∷◌, ◌++◌, length, map, All, sum_by, OnOk, OnErr, IfOk, IfSome, IsOk};
ghost use Rattle.mkv_io.specs.Sources.{IsLive, live_files};
ghost use Rattle.mkv_io.specs.Writing.{WritesOnly};
ghost use Rattle.mkv_io.specs.Ends.{HasRemuxCause};
ghost use Rattle.mkv_outputs.specs.Sinks.{EndsOnly};
ghost use Rattle.mkv_outputs.specs.Starts.{ArePrefixes};
ghost use Rattle.mkv_schema.specs.declared.ids.TheConstants.{INFO, TRACKS, CHAPTERS, TAGS};
ghost use Rattle.tree_format.specs.Node.{id_of};
ghost use Rattle.output_model.specs.declared.attachment.Attachment.{Attachment as AttachmentSeen};
ghost use Rattle.output_model.specs.Attached.{attached_file};
ghost use Rattle.output_model.specs.Element.{joined};
ghost use Rattle.output_model.specs.declared.TheConstants.{MAX_CUES as MOST};
ghost use Rattle.output_model.specs.Document.{opened_with, tree_element};
ghost use Rattle.output_model.specs.Front.{front_with};
ghost use Rattle.cues_seekhead.specs.Appending.{AppendsAttached, AppendsOnly, AppendsToLive, IsAppended, data_octets};
ghost use Rattle.cues_seekhead.specs.Finished.{Finishes};
ghost use Rattle.cues_seekhead.specs.Made.{MakesForOutput, WritesAndEnds};
ghost use Rattle.cues_seekhead.specs.OpenOutput.{BeginsInPart, BeginsOutput, CanAttach, IsOpen, KeepsPoint, StandsOpen, grown, with_cue};
ghost use Rattle.mkv_io.specs.Bounds.{ReadsUpTo};

use crate::attaching::add_attachments;
use crate::copying::append;
use crate::ending::Ending;
use crate::front::{Opening, body_start, open_octets};
use ebml_tree::Tree;
use mkv_io::{FileId, Files, Reads, RemuxEnd as OutEnd};
use output_model::{CuePoint, Front, MAX_CUES, Seek};
use std::alloc::{AllocError, Global};
use std::marker::Model;

/// Output that is being written; after an error of `cluster` or `cue` it can only be abandoned
#[derive(Drop)]
pub struct OutFile {
    alloc: Global,
    file: FileId,
    webm: bool,
    // length of the Segment's body up to now
    len: u64,
    // offset of the Duration's place from the start of the Segment's body, if there is one
    place: Option<u64>,
    seeks: Vec<Seek>,
    cues: Vec<CuePoint>,
}

impl Model for OutFile {
    ghost use Rattle.cues_seekhead.specs.OpenOutput.{OpenOutput};

    ghost Value = { OpenOutput };

    ghost use Rattle.cues_seekhead.specs.OpenOutput.{HasBegun};

    ghost view = { λ o. record { file = o.file; webm = o.webm; len = o.len; place = o.place; seeks = o.seeks.items; cues = o.cues.items } };

    ghost invariant = { λ o. HasBegun (record { file = o.file; webm = o.webm; len = o.len; place = o.place; seeks = o.seeks.items; cues = o.cues.items }) };
}

impl OutFile {
    /// Creates the output `name` for `merge` or `generate`, and writes the Elements `front` before its first Cluster.
    /// Of other files only the data of attached files are read, 64 KiB at once. If it fails, no file of the output is
    /// open.
    pub fn begin<F: Files>(
        alloc: Global,
        files: &mut F,
        name: &str,
        front: &Front,
    ) -> Result<OutFile, OutEnd>
        requires info { id_of front.now.info ≡ INFO }
        requires tracks { id_of front.now.tracks ≡ TRACKS }
        requires attached { All (CanAttach F.Reads F.Files.own files.old name.now) front.now.attachments }
        ensures ok { IfOk result (BeginsOutput F.Reads F.Files.own name.now front.now files.old files.new) }
        ensures cues { IfOk result (λ out. out.cues ≡ []) }
        ensures err { OnErr result (BeginsInPart F.Reads F.Files.own name.now front.now files.old files.new) }
        ensures made { MakesForOutput F.Reads F.Files.own name.now files.old files.new result }
        ensures cause { HasRemuxCause F.Reads F.Files.own files.old files.new result }
        ensures reads { ReadsUpTo F.Reads files.old files.new (data_octets front.now.attachments) }
    {
        let opening = open_octets(alloc, front)?;
        let Opening {
            octets,
            seeks,
            len,
            place,
        } = opening;
        let file = files.create(name)?;
        match write_front(alloc, files, file, octets.as_slice(), front) {
            Ok(()) => Ok(OutFile {
                alloc,
                file,
                webm: front.webm,
                len,
                place,
                seeks,
                cues: Vec::new(alloc),
            }),
            Err(end) => {
                files.close(file);
                Err(end)
            }
        }
    }

    /// Adds a cue point for a block of the next Cluster, at the tick `tick` of the output track `lane`, counted from 1.
    /// The block's Element begins `relative` bytes after the Cluster's header. Only the first 1,048,576 points are
    /// kept. `merge` calls it for each block that its rules choose, before it writes the Cluster.
    pub fn cue(&mut self, tick: u64, lane: u8, relative: u64) -> Result<(), AllocError>
        ensures ok { OnOk result (KeepsPoint tick lane relative self.old self.new) }
        ensures err { OnErr result (self.new ≡ self.old) }
        ensures full { MOST ≤ length self.old.cues → IsOk result × (self.new ≡ self.old) }
        ensures most { length self.new.cues ≤ MOST }
    {
        if self.cues.len() < MAX_CUES {
            self.cues.push(CuePoint {
                tick,
                lane,
                cluster: self.len,
                relative,
            })?;
        }
        Ok(())
    }

    /// Appends a complete Cluster, whose bytes are `bytes`, to the output. `merge` calls it for each Cluster once no
    /// more blocks join it. After a failure the file may have a prefix of the Cluster.
    pub fn cluster<F: Files>(&mut self, files: &mut F, bytes: &[u8]) -> Result<(), OutEnd>
        requires { IsOpen F.Reads files.old self.old }
        ensures appended { AppendsToLive F.Files.own self.old.file bytes.now files.old files.new result }
        ensures ok { OnOk result (self.new ≡ grown self.old (length bytes.now)) }
        ensures open { OnOk result (IsOpen F.Reads files.new self.new) }
        ensures err { OnErr result (self.new ≡ self.old) }
        ensures only { WritesOnly F.Reads F.Files.own (F.holder files.old self.old.file.n ∷ []) files.old files.new }
        ensures cause { HasRemuxCause F.Reads F.Files.own files.old files.new result }
    {
        files.append(self.file, bytes)?;
        self.len += bytes.len() as u64;
        Ok(())
    }

    /// Finishes the output after its last Cluster. Appends Cues, `chapters` and `tags`, writes the Duration, the
    /// SeekHead and the Segment's size into their room, and closes the file, also if it fails. The last block ends at
    /// the tick `end`, which is the Duration, if the output has one. Returns the file's length in bytes.
    pub fn finish<F: Files>(
        self,
        files: &mut F,
        end: u64,
        chapters: Option<Tree>,
        tags: Option<Tree>,
    ) -> Result<u64, OutEnd>
        requires open { IsOpen F.Reads files.old self }
        requires chapters { IfSome chapters (λ n. id_of n ≡ CHAPTERS) }
        requires tags { IfSome tags (λ n. id_of n ≡ TAGS) }
        ensures finishes { Finishes F.Reads F.Files.own self end chapters tags files.old files.new result }
        ensures ended { WritesAndEnds F.Reads F.Files.own self.file files.old files.new }
        ensures cause { HasRemuxCause F.Reads F.Files.own files.old files.new result }
    {
        self.finish_with(files, end, &chapters, &tags)
    }

    /// Finishes the output, like `finish`, with borrowed Chapters and Tags, which several outputs can share. `merge`
    /// ends each part so.
    pub fn finish_with<F: Files>(
        self,
        files: &mut F,
        end: u64,
        chapters: &Option<Tree>,
        tags: &Option<Tree>,
    ) -> Result<u64, OutEnd>
        requires open { IsOpen F.Reads files.old self }
        requires chapters { IfSome chapters.now (λ n. id_of n ≡ CHAPTERS) }
        requires tags { IfSome tags.now (λ n. id_of n ≡ TAGS) }
        ensures finishes { Finishes F.Reads F.Files.own self end chapters.now tags.now files.old files.new result }
        ensures ended { WritesAndEnds F.Reads F.Files.own self.file files.old files.new }
        ensures cause { HasRemuxCause F.Reads F.Files.own files.old files.new result }
    {
        let id = self.file;
        let done = self.write_end(files, end, chapters, tags);
        files.close(id);
        done
    }

    // Appends Cues, `chapters` and `tags` and does the last writes, as `finish`, but doesn't close the file. Returns
    // the file's length in bytes. Used by `finish_with`.
    fn write_end<F: Files>(
        self,
        files: &mut F,
        end: u64,
        chapters: &Option<Tree>,
        tags: &Option<Tree>,
    ) -> Result<u64, OutEnd>
        requires open { IsOpen F.Reads files.old self }
        requires chapters { IfSome chapters.now (λ n. id_of n ≡ CHAPTERS) }
        requires tags { IfSome tags.now (λ n. id_of n ≡ TAGS) }
        ensures finishes { Finishes F.Reads F.Files.own self end chapters.now tags.now files.old files.new result }
        ensures only { WritesOnly F.Reads F.Files.own (F.holder files.old self.file.n ∷ []) files.old files.new }
        ensures cause { HasRemuxCause F.Reads F.Files.own files.old files.new result }
    {
        let OutFile {
            alloc,
            file,
            webm,
            len,
            place,
            seeks,
            cues,
        } = self;
        let ending = Ending::new(alloc, len, seeks, cues.as_slice(), chapters, tags)?;
        let start = body_start(webm);
        ending.write(files, file, start, place, end)?;
        Ok(start + ending.total)
    }

    /// Closes the file and leaves its content. `merge` does this with an output whose Clusters can't be written to the
    /// end.
    pub fn abandon<F: Files>(self, files: &mut F)
        requires { IsLive F.Reads files.old self.file }
        ensures { EndsOnly F.Reads F.Files.own files.old files.new (self.file ∷ []) }
    {
        files.close(self.file);
    }
}

// Writes the Elements `front` before the first Cluster to the output `file`. `octets` has their bytes up to the first
// AttachedFile. The attached files follow, with their data. Used by `begin`.
fn write_front<F: Files>(
    alloc: Global,
    files: &mut F,
    file: FileId,
    octets: &[u8],
    front: &Front,
) -> Result<(), OutEnd>
    requires live { IsLive F.Reads files.old file }
    requires attached { All (CanAttach F.Reads F.Files.own files.old (F.holder files.old file.n)) front.now.attachments }
    ensures { AppendsAttached F.Reads F.Files.own file octets.now front.now.attachments files.old files.new result }
{
    append(files, file, octets)?;
    add_attachments(alloc, files, file, front.attachments.as_slice())
}
