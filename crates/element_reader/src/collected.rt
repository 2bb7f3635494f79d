//! The Elements at level 1 that an outline keeps while a file is read.

ghost use Rattle.std.specs.Prelude.{◌≡◌, ℕ, ◌+◌, ◌^◌, ◌<◌, ◌++◌, ◌∷◌, [], List, IfOk, false};
ghost use Rattle.mkv_schema.specs.declared.element.Header.{Header as Placed};
ghost use Rattle.mkv_schema.specs.Outline.{first_damage, is_described, limit_causes, passes_count, passes_size};
ghost use Rattle.mkv_schema.specs.Element.{known};
ghost use Rattle.mkv_schema.specs.Value.{first_of};
ghost use Rattle.element_reader.specs.Collected.{described_octets};

use elements::{damage_at, known};
use mkv_io::{Damage, Kind};
use mkv_schema::Header;
use mkv_schema::ids::{CHAPTERS, CLUSTER, INFO, TAGS, TRACKS};
use mkv_schema::limits::{MAX_ELEMENTS, MAX_MASTER_LEN, MAX_MASTERS_LEN};
use std::alloc::{AllocError, Global};

/// Elements at level 1 that were read and kept until now.
#[derive(Drop)]
pub struct Collected {
    /// The Elements other than Clusters, in the order of the file.
    pub others: Vec<Header>,
    /// The first Cluster.
    pub cluster: Option<Header>,
    /// The last of all Elements.
    pub last: Option<Header>,
    /// Number of bytes of all Info, Tracks, Chapters and Tags, earlier inputs of a merge included.
    pub held: u64,
}

/// Checks whether `id` is the ID of Info, Tracks, Chapters or Tags, whose bytes are limited while an outline is read.
pub fn is_described(id: u32) -> bool
    ensures { result ≡ is_described id }
{
    id == INFO || id == TRACKS || id == CHAPTERS || id == TAGS
}

/// Returns the first Element in `list` with the ID `id`, or None if there is none; for `Outline::first`.
pub fn first_of(list: &[Header], id: u32) -> Option<Header>
    ensures { result ≡ first_of id list.now }
{
    list.iter().copied().find(|header| header.id == id)
}

// Returns the length of the data of `header` in bytes if it is an Info, Tracks, Chapters or Tags, or else 0. `add`
// counts it against the limit of 64 MiB.
fn described_octets(header: &Header) -> u64
    ensures { result ≡ described_octets header.now }
{
    if is_described(header.id) {
        known(header.size)
    } else {
        0
    }
}

impl Collected {
    ghost use Rattle.element_reader.specs.Collected.{AddsOther, Keeps, KeepsAlso, OfKept, RefusesAs, unless_cluster};

    /// Returns an empty collection, with which `collect` begins. `held` is the number of bytes of Info, Tracks,
    /// Chapters and Tags in earlier inputs of a merge.
    pub fn new(alloc: Global, held: u64) -> Collected
        ensures none { result.others.items ≡ [] }
        ensures kept { Keeps held [] result }
    {
        Collected {
            others: Vec::new(alloc),
            cluster: None,
            last: None,
            held,
        }
    }

    /// Keeps the Element `header`, the next at level 1. If it passes a limit, it isn't kept, and its damage is
    /// returned. Used by `collect`.
    pub fn add(&mut self, header: Header) -> Result<Option<Damage>, AllocError>
        ensures refusal { IfOk result (RefusesAs header self.old) }
        ensures others { IfOk result (AddsOther header self.old self.new) }
        ensures kept { IfOk result (KeepsAlso header self.old self.new) }
    {
        if let Some(damage) = self.refusal(&header) {
            return Ok(Some(damage));
        }
        self.held += described_octets(&header);
        self.last = Some(header);
        if header.id != CLUSTER {
            self.others.push(header)?;
        } else if self.cluster.is_none() {
            self.cluster = Some(header);
        }
        Ok(None)
    }

    // Returns the damage of `header` if it passes a limit, by itself or with the Elements that were kept before, or
    // None. Used by `add`.
    fn refusal(&self, header: &Header) -> Option<Damage>
        ensures exact { RefusesAs header.now self.now result }
        ensures room { result ≡ None → self.now.held + described_octets header.now < 2 ^ 64 }
    {
        if self.passes_size(header) {
            return Some(damage_at(Kind::HeaderTooLarge, header));
        }
        if self.passes_count(header) {
            return Some(damage_at(Kind::TooMany, header));
        }
        None
    }

    // Checks whether `header` is an Info, Tracks, Chapters or Tags that passes a limit of size. The limits are 16 MiB
    // for itself, and 64 MiB with the ones that were kept before and the ones of earlier inputs. Used by `refusal`.
    fn passes_size(&self, header: &Header) -> bool
        ensures exact { OfKept self.now (λ held list. result ≡ passes_size held list header.now) }
        ensures room { result ≡ false → self.now.held + described_octets header.now < 2 ^ 64 }
    {
        let size = known(header.size);
        let held = self.held.saturating_add(size);
        is_described(header.id) && (size > MAX_MASTER_LEN || held > MAX_MASTERS_LEN)
    }

    // Checks whether `header` passes the limit of 4,096 Elements at level 1 other than Clusters. Used by `refusal`.
    fn passes_count(&self, header: &Header) -> bool
        ensures { (held : ℕ) (list : List Placed) → Keeps held list self.now → result ≡ passes_count list header.now }
    {
        header.id != CLUSTER && self.others.len() >= MAX_ELEMENTS
    }
}
