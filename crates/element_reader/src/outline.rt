//! The outline of a file: RFC 9559, section 4.5 (Data Layout).

ghost use Rattle.std.specs.Prelude.{◌≡◌, ℕ, ◌+◌, ◌*◌, ◌≤◌, ◌<◌, ◌≢◌, List, length, slice_get, IfOk, IfSome, IsTrue, option_map};
ghost use Rattle.mkv_io.specs.Bounds.{ReadsUpTo};
ghost use Rattle.mkv_io.specs.Faults.{HasCause};
ghost use Rattle.mkv_io.specs.Sources.{IfTold, IsLive, OnlyReads, file_size};
ghost use Rattle.mkv_schema.specs.Outline.{Outlined};
ghost use Rattle.mkv_schema.specs.Value.{first_of};

use crate::collected::first_of;
use crate::ebml::ebml_header;
use crate::level::{Level, collect};
use crate::outline_end::OutlineEnd;
use crate::segment::find_segment;
use elements::{HasSegment, Window, known};
use mkv_io::{Damage, FileId, Reads};
use mkv_schema::Header;
use mkv_schema::ids::CLUSTER;
use std::alloc::Global;
use std::marker::Model;

/// Outline of a file: its EBML header, its Segment, and its Elements at level 1. Clusters are left out, except the
/// first one and the last Element, which may be one.
#[derive(Drop)]
pub struct Outline {
    total: u64,
    ebml: Header,
    segment: Header,
    level: Level,
    held: u64,
}

impl Model for Outline {
    ghost use Rattle.std.specs.Prelude.{All, ◌≤◌};
    ghost use Rattle.element_reader.specs.Collected.{IsInFile};
    ghost use Rattle.element_reader.specs.Outline.{FileOutline};

    ghost Value = { FileOutline };

    ghost view = { λ o. record {
      total = o.total;
      ebml = o.ebml;
      segment = o.segment;
      others = o.level.kept.others.items;
      cluster = o.level.kept.cluster;
      last = o.level.kept.last;
      held = o.held;
      damage = o.level.damage;
      end = o.level.end;
    } };

    ghost invariant = { λ o. (o.segment.body ≤ o.total) × All (IsInFile o.total) o.level.kept.others.items };
}

impl Outline {
    ghost use Rattle.mkv_schema.specs.declared.ids.TheConstants.{CLUSTER as CLUSTER_ID};
    ghost use Rattle.element_reader.specs.Collected.{IsInFile, last_element};
    ghost use Rattle.element_reader.specs.Outline.{IsOutline, first_in, is_outline_fault, outline_in, shown};

    /// Reads the outline of `file`. Refuses a file that isn't a Matroska or WebM file, has no Segment, or passes a
    /// limit of level 1.
    ///
    /// The limits are 16 MiB for one Info, Tracks, Chapters or Tags, 64 MiB for all of them, and 4,096 Elements besides
    /// Clusters. Damage at level 1 ends the list there.
    pub fn read<R: Reads>(alloc: Global, src: &mut R, file: FileId) -> Result<Outline, OutlineEnd>
        requires { IsLive R.Reads src.old file }
        ensures exact { IfTold R.Reads src.old file (λ bytes. IsOutline (outline_in 0 bytes) result) }
        ensures total { IfOk result (λ outline. outline.total ≡ file_size R.Reads src.old file) }
        ensures same { OnlyReads R.Reads src.old src.new }
        ensures cause { HasCause is_outline_fault (R.reading_faults src.old) (R.reading_faults src.new) result }
        ensures octets { ReadsUpTo R.Reads src.old src.new (2 * file_size R.Reads src.old file) }
    {
        Outline::read_after(alloc, src, file, 0)
    }

    /// Reads the outline of `file`, an input that `merge` reads after other inputs. Their Info, Tracks, Chapters and
    /// Tags have `held` bytes, and may have 64 MiB together with this file's. The refusals are the ones of `read`.
    pub fn read_after<R: Reads>(
        alloc: Global,
        src: &mut R,
        file: FileId,
        held: u64,
    ) -> Result<Outline, OutlineEnd>
        requires { IsLive R.Reads src.old file }
        ensures exact { IfTold R.Reads src.old file (λ bytes. IsOutline (outline_in held bytes) result) }
        ensures total { IfOk result (λ outline. outline.total ≡ file_size R.Reads src.old file) }
        ensures same { OnlyReads R.Reads src.old src.new }
        ensures cause { HasCause is_outline_fault (R.reading_faults src.old) (R.reading_faults src.new) result }
        ensures octets { ReadsUpTo R.Reads src.old src.new (2 * file_size R.Reads src.old file) }
    {
        let total = src.size(file);
        let mut window = Window::new(alloc)?;
        let ebml = ebml_header(alloc, &mut window, src, file, total)??;
        let from = ebml.body + known(ebml.size);
        let segment = find_segment(&mut window, src, file, from, total)??;
        let level = collect(alloc, &mut window, src, file, &segment, total, held)??;
        let held = level.kept.held.saturating_sub(held);
        Ok(Outline {
            total,
            ebml,
            segment,
            level,
            held,
        })
    }

    /// Returns the length of the file in bytes. Used by all readers of an outline.
    pub fn total(&self) -> u64
        ensures { result ≡ self.now.total }
    {
        self.total
    }

    /// Returns the header (ID, place and size) of the file's EBML header, for the list of `info`.
    pub fn ebml(&self) -> Header
        ensures { result ≡ self.now.ebml }
    {
        self.ebml
    }

    /// Returns the header of the file's Segment. Used by all readers of an outline.
    pub fn segment(&self) -> Header
        ensures exact { result ≡ self.now.segment }
        ensures inside { result.body ≤ self.now.total }
    {
        self.segment
    }

    /// Returns the number of bytes of all Info, Tracks, Chapters and Tags of this file. `merge` counts them against the
    /// limit for its later inputs.
    pub fn held(&self) -> u64
        ensures { result ≡ self.now.held }
    {
        self.held
    }

    /// Returns the number of Elements at level 1 besides Clusters. With `at`, edits look through all of them.
    pub fn count(&self) -> usize
        ensures { result ≡ length self.now.others }
    {
        self.level.kept.others.len()
    }

    /// Returns the header of the Element at level 1 with the index `k`, counted from 0 in the order of the file,
    /// without Clusters. Edits look through all of them. Used by `child_refusal`, `first_child` and others.
    pub fn at(&self, k: usize) -> Header
        requires { k < length self.now.others }
        ensures exact { slice_get self.now.others k ≡ Some result }
        ensures inside { IsInFile self.now.total result }
    {
        self.level.kept.others[k]
    }

    /// Returns the header of the first Element at level 1 with the ID `id`, or None if there is none. All commands find
    /// the records of a file so.
    pub fn first(&self, id: u32) -> Option<Header>
        ensures kept { result ≡ first_in id self.now }
        ensures inside { id ≢ CLUSTER_ID → IfSome result (IsInFile self.now.total) }
        ensures exact { (bytes : List ℕ) (o : Outlined) → self.now ≡ shown bytes o → result ≡ first_of id o.list }
    {
        if id == CLUSTER {
            return self.level.kept.cluster;
        }
        first_of(&self.level.kept.others, id)
    }

    /// Returns the offset of the first Cluster, in bytes from the start of the file, or None without Clusters. Edits
    /// use only a SeekHead that is before it. Used by `seek_head_in` of `edit_plan`.
    pub fn first_cluster(&self) -> Option<u64>
        ensures { result ≡ option_map (λ h. h.offset) self.now.cluster }
    {
        self.level.kept.cluster.map(|header| header.offset)
    }

    /// Returns the header of the last Element at level 1, which may be a Cluster, or None if there is none. An edit
    /// that appends checks that a last Cluster ends with the file. Used by `cluster_end` of `edit_changes` and others.
    pub fn last(&self) -> Option<Header>
        ensures kept { result ≡ self.now.last }
        ensures exact { (bytes : List ℕ) (o : Outlined) → self.now ≡ shown bytes o → result ≡ last_element o.list }
    {
        self.level.kept.last
    }

    /// Returns the offset of the Segment's end, in bytes from the start of the file. A Segment of unknown size that
    /// ends with damage reaches to the end of the file. An edit that appends checks that it is the file's end. Used by
    /// `child_refusal`, `first_child` and others.
    pub fn end(&self) -> u64
        ensures { result ≡ self.now.end }
    {
        self.level.end
    }

    /// Returns the damage that ends the Elements at level 1, if any. `info` and `extract` warn of it, and an edit
    /// refuses the file.
    pub fn damage(&self) -> Option<Damage>
        ensures { result ≡ self.now.damage }
    {
        self.level.damage
    }
}

impl HasSegment for Outline {
    ghost segment = { λ o. o.segment };

    ghost total = { λ o. o.total };

    /// Returns the header of the file's Segment, for a reader of level 1.
    fn segment(&self) -> Header {
        Outline::segment(self)
    }

    /// Returns the length of the file in bytes, for a reader of level 1.
    fn total(&self) -> u64 {
        Outline::total(self)
    }
}
