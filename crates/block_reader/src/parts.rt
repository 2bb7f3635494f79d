//! Parts of a parsed SimpleBlock or BlockGroup: RFC 9559, sections 10.1 (Block Structure) and 10.2 (SimpleBlock
//! Structure).

ghost use Rattle.std.specs.Prelude.{◌≡◌, ◌≤◌, length, IfOk, OnOk, OnErr, MatchResult};
ghost use Rattle.mkv_schema.specs.Element.{known, stated_end};
ghost use Rattle.block_reader.specs.Lendable.{HasSmallTimes, IsBlock, IsEmpty, lent};
ghost use Rattle.mkv_io.specs.declared.outside.TheConstants.{LONGEST_FILE};
ghost use Rattle.block_reader.specs.Says.{SpellsGroup, SpellsSimple, StaysElse};

use crate::block::{group_head, simple_head};
use crate::content::spell;
use crate::front::BlockPreview;
use crate::gathered::Gathered;
use crate::head::BlockHead;
use block_format::MAX_BLOCK_LEN;
use elements::{damage, known};
use lacing::Lace;
use mkv_io::{Damage, Kind};
use mkv_schema::Header;
use mkv_schema::ids::BLOCK;
use smallvec::SmallVec;
use std::alloc::{AllocError, Global};

/// Result of parsing a block: success, or the first damage
pub type Found = Result<Result<(), Damage>, AllocError>;

/// Parts of a parsed block; its frames are a range of the bytes that were read
#[derive(Drop)]
pub struct Parts {
    pub head: BlockHead,
    /// Number of frames
    pub frames: u16,
    /// Index of the first byte of the frames, in the bytes that were read
    pub start: usize,
    /// Index after the last byte of the frames, in the bytes that were read
    pub end: usize,
    /// Size of each frame in bytes
    pub sizes: SmallVec<u32, 8, Global>,
    /// Data of a BlockGroup's children; empty for a SimpleBlock
    pub gathered: Gathered,
}

impl Parts {
    /// Returns the parts of no block, which take no memory, for a new block buffer.
    pub fn new(alloc: Global) -> Parts
        ensures empty { IsEmpty result }
        ensures times { HasSmallTimes result.head }
        ensures frames { result.frames ≤ 256 }
    {
        Parts {
            head: BlockHead {
                track: 0,
                time: 0,
                key: false,
                invisible: false,
                discardable: false,
                group: false,
                lace: Lace::None,
                duration: None,
                offset: 0,
            },
            frames: 0,
            start: 0,
            end: 0,
            sizes: SmallVec::new(alloc),
            gathered: Gathered::new(alloc),
        }
    }

    /// Removes the block, without freeing memory; its head and frame count stay. Done before the next block is read or
    /// parsed, and after damage. Used by `read`, `pass` and others.
    pub fn forget(&mut self)
        ensures empty { IsEmpty self.new }
        ensures head { self.new.head ≡ self.old.head }
        ensures frames { self.new.frames ≡ self.old.frames }
    {
        self.start = 0;
        self.end = 0;
        self.sizes.clear();
        self.gathered.clear();
    }

    /// Removes the block, and keeps only the head and frame count of a skipped one, `front`. Used by
    /// `BlockBuffer::pass`.
    pub fn pass(&mut self, front: BlockPreview)
        ensures empty { IsEmpty self.new }
        ensures head { self.new.head ≡ front.head }
        ensures frames { self.new.frames ≡ front.frames }
    {
        self.forget();
        self.head = front.head;
        self.frames = front.frames;
    }

    /// Parses `octets` as the SimpleBlock with the header `header`. The inner Err is the first damage. Its Cluster has
    /// the Timestamp `timestamp`, in ticks of `scale` nanoseconds. Used by `BlockBuffer::spell_simple`.
    pub fn simple(&mut self, octets: &[u8], scale: u64, timestamp: u64, header: &Header) -> Found
        requires few { known header.now.size ≤ MAX_BLOCK_LEN }
        requires length { length octets.now ≡ known header.now.size }
        ensures exact { IfOk result (SpellsSimple scale timestamp header.now octets.now (lent octets.now self.new)) }
        ensures lent { IfOk result (λ found. OnOk found (IsBlock octets.now self.new)) }
        ensures head { StaysElse self.old.head self.new.head result }
        ensures frames { StaysElse self.old.frames self.new.frames result }
    {
        self.forget();
        let spelled = match spell(octets, &mut self.sizes)? {
            Ok(spelled) => spelled,
            Err(kind) => return Ok(Err(damage(kind, header.id, header.offset))),
        };
        self.start = spelled.start;
        self.end = octets.len();
        match simple_head(scale, timestamp, header, &spelled) {
            Ok(head) => {
                self.head = head;
                self.frames = self.sizes.len() as u16;
                Ok(Ok(()))
            }
            Err(damage) => Ok(Err(damage)),
        }
    }

    /// Parses `octets` as the BlockGroup with the header `header` in a file of `total` bytes. The inner Err is the
    /// first damage. Its Cluster has the Timestamp `timestamp`, in ticks of `scale` nanoseconds. Used by
    /// `BlockBuffer::spell_group`.
    pub fn group(
        &mut self,
        octets: &[u8],
        scale: u64,
        timestamp: u64,
        header: &Header,
        total: u64,
    ) -> Found
        requires few { known header.now.size ≤ MAX_BLOCK_LEN }
        requires length { length octets.now ≡ known header.now.size }
        requires inside { stated_end header.now ≤ total }
        requires short { total ≤ LONGEST_FILE }
        ensures exact { IfOk result (SpellsGroup total scale timestamp header.now octets.now (lent octets.now self.new)) }
        ensures lent { IfOk result (λ found. OnOk found (IsBlock octets.now self.new)) }
        ensures head { StaysElse self.old.head self.new.head result }
        ensures frames { StaysElse self.old.frames self.new.frames result }
    {
        self.forget();
        if let Err(damage) = self.gathered.gather(octets, header.body, total)? {
            return Ok(Err(damage));
        }
        let Some(block) = self.gathered.block else {
            return Ok(Err(damage(Kind::MissingChild, BLOCK, header.offset)));
        };
        let start = (block.body - header.body) as usize;
        let end = start + known(block.size) as usize;
        let spelled = match spell(&octets[start..end], &mut self.sizes)? {
            Ok(spelled) => spelled,
            Err(kind) => return Ok(Err(damage(kind, BLOCK, header.offset))),
        };
        self.start = start + spelled.start;
        self.end = end;
        match group_head(
            scale,
            timestamp,
            header.offset,
            &spelled,
            &mut self.gathered,
        ) {
            Ok(head) => {
                self.head = head;
                self.frames = self.sizes.len() as u16;
                Ok(Ok(()))
            }
            Err(damage) => Ok(Err(damage)),
        }
    }

    /// Returns the result `found` of parsing a block with `simple` or `group`. After damage or without memory, removes
    /// the partial results first, so that the buffer has no block.
    pub fn settle(&mut self, found: Found) -> Found
        ensures same { result ≡ found }
        ensures found { IfOk found (λ found. OnOk found (self.new ≡ self.old)) }
        ensures empty { MatchResult found (λ found. OnErr found (IsEmpty self.new)) (λ _. IsEmpty self.new) }
        ensures head { self.new.head ≡ self.old.head }
        ensures frames { self.new.frames ≡ self.old.frames }
    {
        match found {
            Ok(Ok(())) => Ok(Ok(())),
            Ok(Err(damage)) => {
                self.forget();
                Ok(Err(damage))
            }
            Err(AllocError) => {
                self.forget();
                Err(AllocError)
            }
        }
    }
}
