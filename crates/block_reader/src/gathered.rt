//! Children of a BlockGroup: RFC 9559, section 5.1.3 (Cluster).

ghost use Rattle.std.specs.Prelude.{◌≡◌, ◌+◌, ◌-◌, ◌≤◌, ◌⊎◌, ℕ, List, [], length, true, None, Some, IfOk, IfSome, OnOk, OnErr};
ghost use Rattle.mkv_schema.specs.declared.ids.TheConstants.{BLOCK_GROUP as GROUP_ID};
ghost use Rattle.mkv_schema.specs.Element.{in_master, stated_end};
ghost use Rattle.mkv_schema.specs.Elements.{children_in};
ghost use Rattle.mkv_schema.specs.Value.{is_known_value};
ghost use Rattle.block_reader.specs.Group.{AreOctetsOf, Gathers, GathersBody, GathersRun, IsInside, IsPart};
ghost use Rattle.mkv_io.specs.declared.outside.TheConstants.{LONGEST_FILE};
ghost use Rattle.block_reader.specs.Says.{GathersChild, GathersReference};

use arrayvec::ArrayVec;
use block_format::SLICES;
use ebml_numbers::{read_int, read_uint};
use elements::{Parent, body_in, child_at, damage, is_known_value, known};
use mkv_io::{Damage, Kind};
use mkv_schema::Header;
use mkv_schema::ids::{BLOCK, BLOCK_DURATION, BLOCK_GROUP, CRC_32, REFERENCE_BLOCK, VOID};
use std::alloc::{AllocError, Global};

/// Data that were gathered from the children of a BlockGroup
#[derive(Drop)]
pub struct Gathered {
    /// First Block
    pub block: Option<Header>,
    /// First BlockDuration, in ticks
    pub duration: Option<u64>,
    /// First 64 ReferenceBlocks, in ticks
    pub references: ArrayVec<i64, 64>,
    /// ReferenceBlock after the first 64, if any
    pub too_many: Option<Header>,
    /// Bytes of the kept children in sequence
    pub kept: Vec<u8>,
}

// Returns the bytes of the child `child` of a BlockGroup, header included, which may be kept. `body` is the content of
// the BlockGroup, at the offset `base` of the file. Used by `gather`.
fn element_of<'a>(body: &'a [u8], base: u64, child: &Header) -> &'a [u8]
    requires short { base + length body.now ≤ LONGEST_FILE }
    requires from { base ≤ child.now.offset }
    requires order { child.now.offset ≤ stated_end child.now }
    requires inside { stated_end child.now ≤ base + length body.now }
    ensures exact { AreOctetsOf base body.now child.now result.now }
    ensures length { length result.now ≡ stated_end child.now - child.now.offset }
{
    let end = child.body + known(child.size);
    &body[(child.offset - base) as usize..(end - base) as usize]
}

// Checks whether `value` is a valid content of a child of a BlockGroup with the ID `id`. A Block may have any bytes; a
// BlockDuration or ReferenceBlock has at most eight. Used by `gather`.
fn is_child_value(id: u32, value: &[u8]) -> bool
    ensures { result ≡ is_known_value GROUP_ID id value.now }
{
    match id {
        BLOCK => true,
        BLOCK_DURATION | REFERENCE_BLOCK => value.len() <= 8,
        _ => is_known_value(BLOCK_GROUP, id, value),
    }
}

// Role of a child in its BlockGroup
#[derive(Clone, Copy)]
enum Part {
    Block,
    Duration,
    Reference,
    // kept unchanged
    Kept,
    // irrelevant to the block
    LeftOut,
}

// Returns the role that a child with the ID `id` has in its BlockGroup. Used by `add`.
fn part_of(id: u32) -> Part
    ensures { IsPart id result }
{
    match id {
        BLOCK => Part::Block,
        BLOCK_DURATION => Part::Duration,
        REFERENCE_BLOCK => Part::Reference,
        VOID | CRC_32 | SLICES => Part::LeftOut,
        _ => Part::Kept,
    }
}

impl Gathered {
    /// Returns empty data, which take no memory, for a new block buffer.
    pub fn new(alloc: Global) -> Gathered
        ensures exact { (bytes : List ℕ) → Gathers bytes [] result }
        ensures references { result.references.items ≡ [] }
        ensures kept { result.kept.items ≡ [] }
    {
        Gathered {
            block: None,
            duration: None,
            references: ArrayVec::new(),
            too_many: None,
            kept: Vec::new(alloc),
        }
    }

    /// Removes the data of the previous BlockGroup, without freeing memory, before the next block is parsed. Used by
    /// `spell`, `gather` and others.
    pub fn clear(&mut self)
        ensures exact { (bytes : List ℕ) → Gathers bytes [] self.new }
        ensures block { self.new.block ≡ None }
        ensures references { self.new.references.items ≡ [] }
        ensures kept { self.new.kept.items ≡ [] }
    {
        self.block = None;
        self.duration = None;
        self.references.clear();
        self.too_many = None;
        self.kept.clear();
    }

    /// Gathers the data of the children of a BlockGroup with the content `body`, which is at the offset `base` of a
    /// file of `total` bytes. The inner Err is the first damage: an invalid value, or a place without a valid Element.
    /// If memory runs out, only some children are gathered. `Parts::group` does this first.
    pub fn gather(
        &mut self,
        body: &[u8],
        base: u64,
        total: u64,
    ) -> Result<Result<(), Damage>, AllocError>
        requires { base + length body.now ≤ LONGEST_FILE }
        ensures exact { IfOk result (GathersBody base total body.now self.new) }
        ensures block { IfSome self.new.block (IsInside base (base + length body.now)) }
        ensures kept { length self.new.kept.items ≤ length body.now }
    {
        self.clear();
        let end = base + body.len() as u64;
        let mut at = base;
        while at < end {
            let child = match child_at(Parent::Master, body, base, total, at) {
                Ok(child) => child,
                Err(damage) => return Ok(Err(damage)),
            };
            let value = body_in(body, base, &child);
            if !is_child_value(child.id, value) {
                return Ok(Err(damage(Kind::BadValue, child.id, child.offset)));
            }
            self.add(&child, value, element_of(body, base, &child))?;
            at = child.body + known(child.size);
        }
        Ok(Ok(()))
    }

    // Adds the data of the BlockGroup's child `child`, which has the content `value` and the bytes `octets`, header
    // included. Used by `gather`.
    fn add(&mut self, child: &Header, value: &[u8], octets: &[u8]) -> Result<(), AllocError>
        requires { is_known_value GROUP_ID child.now.id value.now ≡ true }
        ensures exact { OnOk result (GathersChild child.now value.now octets.now self.old self.new) }
        ensures block { (self.new.block ≡ self.old.block) ⊎ (self.new.block ≡ Some child.now) }
        ensures kept { OnOk result (length self.new.kept.items ≤ length self.old.kept.items + length octets.now) }
        ensures err { OnErr result (self.new.kept.items ≡ self.old.kept.items) }
    {
        match part_of(child.id) {
            Part::Block => self.block = self.block.or(Some(*child)),
            Part::Duration => self.duration = self.duration.or(Some(read_uint(value))),
            Part::Reference => self.add_reference(child, read_int(value)),
            Part::Kept => self.kept.extend_from_slice(octets)?,
            Part::LeftOut => {}
        }
        Ok(())
    }

    // Adds the ReferenceBlock `child`, for a block `ticks` ticks away. After the first 64 it only notes the first
    // surplus one. Used by `add`.
    fn add_reference(&mut self, child: &Header, ticks: i64)
        requires { child.now.id ≡ REFERENCE_BLOCK }
        ensures exact { GathersReference child.now ticks self.old self.new }
        ensures block { self.new.block ≡ self.old.block }
        ensures kept { self.new.kept ≡ self.old.kept }
    {
        if self.references.is_full() {
            self.too_many = self.too_many.or(Some(*child));
        } else {
            self.references.push(ticks);
        }
    }
}
