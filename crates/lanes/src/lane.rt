//! Output track

ghost use Rattle.std.specs.Prelude.{◌≡◌, ◌-◌, ◌≤◌, length, IfOk};
ghost use Rattle.std.specs.List.{All, slice_get};
ghost use Rattle.std.specs.Option.{option_copied};
ghost use Rattle.mkv_io.specs.Faults.{HasCause, is_read_fault};
ghost use Rattle.mkv_io.specs.LiveFiles.{LiveFiles};
ghost use Rattle.mkv_io.specs.Sources.{live_files};
ghost use Rattle.block_format.specs.declared.limits.TheConstants.{MAX_BLOCK_LEN};
ghost use Rattle.merge_model.specs.declared.limits.TheConstants.{MAX_LINKS};
ghost use Rattle.merge_model.specs.FileLinks.{IsSmallEntry, IsSmallLink};
ghost use Rattle.lanes.specs.Lane.{Begins, GivesIfTold, HasFew, IsReady, Moves, PaysFor, Starts, as_lent, lent};
ghost use Rattle.lanes.specs.Told.{link_damages, more_of};
ghost use Rattle.lanes.specs.Walks.{text_of};

use crate::damages::{LinkDamage, damage_at, more_of};
use crate::turn::take_turn;
use crate::walk::Walk;
use cluster_reader::Damages;
use merge_model::{LaneSpec, Link, TextLink};
use mkv_io::{ReadEnd, Reads};
use output_model::OutHead;
use std::alloc::{AllocError, Global};
use std::marker::Model;

/// Result of `Lane::advance`
#[derive(Clone, Copy, Debug, PartialEq, Eq)]
pub enum LaneStep {
    /// A block was read, and is available until the output track is advanced again
    Block,
    /// All blocks were returned
    End,
}

// Returns the text of the subtitle of `text` that a walk has placed last, if `next` is the index of the next one,
// counted from 0. `Lane::lent` calls it.
fn text_before(text: &TextLink, next: usize) -> &[u8]
    ensures exact { result.now ≡ text_of (slice_get text.now.entries (next - 1)) }
    ensures most { All IsSmallEntry text.now.entries → length result.now ≤ MAX_BLOCK_LEN }
{
    match text.entries.get(next.saturating_sub(1)) {
        Some(entry) => entry.text.as_str().as_bytes(),
        None => &[],
    }
}

/// Borrowed block of an output track, as it goes into a Cluster. It has the head, the prefix of each frame, and the
/// frames' bytes in sequence with their sizes in bytes. The references are in ticks relative to it, and `kept` has the
/// bytes of its group's kept children. A subtitle of a text has no prefix and no kept children.
#[derive(Clone, Copy)]
pub struct LaneBlock<'a> {
    pub head: &'a OutHead,
    pub prefix: &'a [u8],
    pub body: &'a [u8],
    pub sizes: &'a [u32],
    pub references: &'a [i64],
    pub kept: &'a [u8],
}

/// Output track of a merge: returns its blocks one by one, as they are placed in the output
#[derive(Drop)]
pub struct Lane {
    alloc: Global,
    links: Vec<Link>,
    scale: u64,
    walk: Walk,
    given: u64,
}

impl Model for Lane {
    ghost use Rattle.std.specs.Prelude.{◌≤◌};
    ghost use Rattle.std.specs.List.{All};
    ghost use Rattle.merge_model.specs.FileLinks.{IsSmallLink};
    ghost use Rattle.lanes.specs.Lane.{LaneSeen};

    ghost Value = { LaneSeen };

    ghost view = { λ l. record { links = l.links.items; scale = l.scale; walk = l.walk; given = l.given } };

    ghost invariant = { λ l. (1 ≤ l.scale) × All IsSmallLink l.links.items };
}

impl Lane {
    /// Returns an output track with the links in `spec`, before its first block, for a merge of output tracks. The
    /// output has `scale` nanoseconds per tick. Allocates memory for the damaged places, and reads nothing.
    pub fn start(alloc: Global, spec: LaneSpec, scale: u64) -> Result<Lane, AllocError>
        requires scale { 1 ≤ scale }
        requires most { length spec.links ≤ MAX_LINKS }
        requires small { All IsSmallLink spec.links }
        ensures starts { (f : LiveFiles) → IfOk result (Starts f scale spec.links) }
        ensures begins { IfOk result (Begins scale spec.links) }
    {
        let links = spec.links.into_vec();
        let walk = Walk::start(alloc, links.len())?;
        Ok(Lane {
            alloc,
            links,
            scale,
            walk,
            given: 0,
        })
    }

    /// Reads the next block, which `lent` then returns. The merge of output tracks calls it for each block. Returns
    /// `End` after the last one, at each call. After an error the same block is due, and damaged places that were met
    /// stay reported.
    pub fn advance<R: Reads>(&mut self, src: &mut R) -> Result<LaneStep, ReadEnd>
        requires { IsReady (live_files R.Reads src.old) self.old }
        ensures gives { GivesIfTold (live_files R.Reads src.old) self.old self.new result }
        ensures moves { Moves self.old self.new result }
        ensures ready { IsReady (live_files R.Reads src.new) self.new }
        ensures standing { R.standing src.new ≡ R.standing src.old }
        ensures cause { HasCause is_read_fault (R.reading_faults src.old) (R.reading_faults src.new) result }

        // The bytes that are read are at most the lengths of the files, and once more for each call that fails.
        ensures pays { PaysFor R.Reads src.old src.new self.old self.new result }
    {
        'turns: loop {
            match take_turn(
                self.alloc,
                self.links.as_slice(),
                self.scale,
                &mut self.walk,
                src,
            )? {
                None => {}
                Some(LaneStep::Block) => {
                    self.given = self.given.saturating_add(1);
                    return Ok(LaneStep::Block);
                }
                Some(LaneStep::End) => return Ok(LaneStep::End),
            }
        }
    }

    /// Returns the damaged place with the number `k`, counted from 0, among the ones that were met up to now, or None
    /// if there are fewer. Only the first hundred of each link count, link after link. The test of failed reads calls
    /// it.
    pub fn damage(&self, k: usize) -> Option<LinkDamage>
        ensures { result ≡ slice_get (link_damages self.now.walk.told.items) k }
    {
        damage_at(self.walk.told.as_slice(), k)
    }

    /// Returns the number of damaged places of the link with the number `link`, counted from 0, after its first
    /// hundred. No command calls it: the summary of a merge reads `damages`.
    pub fn more(&self, link: usize) -> u64
        ensures { result ≡ more_of self.now.walk.told.items link }
    {
        more_of(self.walk.told.as_slice(), link)
    }

    /// Returns the damaged places that were met up to now in the file of the link `link`, counted from 0, or None if
    /// there is no such link. They are the first hundred, and the number of others. The summary of a merge has them.
    /// Used by `damage_at` and `more_of`.
    pub fn damages(&self, link: usize) -> Option<&Damages>
        ensures { option_copied result ≡ slice_get self.now.walk.told.items link }
    {
        self.walk.told.get(link)
    }

    /// Returns the head of the last block, with its order number for the merge of output tracks. `lent` and the merge
    /// call it.
    pub fn head(&self) -> &OutHead
        ensures { result.now ≡ (lent self.now).head }
    {
        &self.walk.placed.head
    }

    /// Returns the last block, with the head and the references that it has in the output. The merge writes it to a
    /// Cluster before it reads the next one.
    pub fn lent(&self) -> LaneBlock<'_>
        ensures exact { as_lent result ≡ lent self.now }
        ensures few { HasFew result }
    {
        let mut block = LaneBlock {
            head: self.head(),
            prefix: &[],
            body: &[],
            sizes: &[],
            references: self.walk.placed.references.as_slice(),
            kept: &[],
        };
        match (self.links.get(self.walk.at), &self.walk.cursor) {
            (Some(Link::Track(track)), Some(cursor)) => {
                block.prefix = track.prefix.as_slice();
                block.body = cursor.body();
                block.sizes = cursor.sizes();
                block.kept = cursor.extra();
            }
            (Some(Link::Entries(text)), _) => {
                block.body = text_before(text, self.walk.next);
                block.sizes = &self.walk.placed.one_size;
            }
            _ => {}
        }
        block
    }
}
