//! Trees that are read from a master's bytes.

ghost use Rattle.std.specs.Prelude.{◌≡◌, ◌≤◌, ◌<◌, ◌+◌, ◌^◌, ◌==◌, not, ℕ, length, Ok, Err, IfOk, IfErr, IsTrue};
ghost use Rattle.ebml_numbers.specs.Number.{is_written_id};
ghost use Rattle.mkv_schema.specs.Schema.{is_master};
ghost use Rattle.mkv_schema.specs.Element.{known};
ghost use Rattle.mkv_schema.specs.Value.{is_known_value};
ghost use Rattle.tree_format.specs.Node.{leaf, master, nodes_of, depth, depth_all, deepest};
ghost use Rattle.tree_format.specs.Reading.{header_at, inside, behind, is_master_in, grown, grove};
ghost use Rattle.tree_format.specs.Fits.{Fits};
ghost use Rattle.ebml_tree.specs.Outcome.{GivesTree, GivesTrees, Refuses};

use crate::end::TreeEnd;
use crate::tree::content::{Content, depth_around, written_within};
use crate::tree::writing::LONGEST;
use crate::tree::{DEEPEST, Tree};
use ebml_numbers::Size;
use elements::{Parent, is_known_value, read_header};
use mkv_io::{Damage, Kind};
use mkv_schema::{Header, is_master, may_stand};
use std::alloc::{AllocError, Global};

impl Tree {
    ghost use Rattle.tree_format.specs.Node.{count, id_of, IsMaster};
    ghost use Rattle.tree_format.specs.Standing.{IsSound, KeepsLimits, IsReadAgain};
    ghost use Rattle.tree_format.specs.Reading.{tree_of};
    ghost use Rattle.ebml_tree.specs.Outcome.{ReadsTree};

    /// Reads a master with the ID `id` as a tree, from its content `body` (RFC 8794, section 7.7, Master Element). Used
    /// for each Element that is loaded whole, such as Tracks, Info or a SeekHead.
    ///
    /// The header is at the offset `offset` of the file, and the content at the offset `base`, both in bytes. The tree
    /// may have `nodes` Elements, including the master, Void and CRC-32, and 32 masters may be nested. Damage is the
    /// first one in the order of the Elements.
    pub fn parse(
        alloc: Global,
        id: u32,
        offset: u64,
        body: &[u8],
        base: u64,
        nodes: u32,
    ) -> Result<Tree, TreeEnd>
        requires master { IsTrue (is_master id) }
        requires places { base + length body.now ≤ 2 ^ 63 }
        ensures exact { ReadsTree result (tree_of id offset body.now base nodes) }

        // The tree is a valid master with this ID, and has at most `nodes` Elements.
        ensures root { IfOk result (λ tree. IsMaster tree × (id_of tree ≡ id)) }
        ensures sound { IfOk result IsSound }
        ensures count { IfOk result (λ tree. count tree ≤ nodes) }

        // The bytes that `put` writes after its header are read back as the same tree, with new offsets.
        ensures again { (more : ℕ) → nodes ≤ more → IfOk result (IsReadAgain more) }
    {
        Tree::read(alloc, id, offset, body, base, nodes)
    }

    // Reads the tree for `parse`, which promises more about it; the parameters are the ones of `parse`.
    #[tactic(auto, using(crate::proofs::EndLemmas::masters))]
    fn read(
        alloc: Global,
        id: u32,
        offset: u64,
        body: &[u8],
        base: u64,
        nodes: u32,
    ) -> Result<Tree, TreeEnd>
        requires master { IsTrue (is_master id) }
        requires places { base + length body.now ≤ 2 ^ 63 }
        ensures exact { ReadsTree result (tree_of id offset body.now base nodes) }
        ensures limits { IfOk result KeepsLimits }
    {
        if nodes == 0 {
            return Err(too_many(id, offset));
        }
        let mut left = nodes - 1;
        let trees = trees_in(alloc, DEEPEST - 1, &mut left, id, base, body)?;
        Tree::of_children(id, offset, trees)
    }

    // Returns a leaf with the ID `id` and the bytes `bytes`, whose header is at the offset `offset` of a file. Called
    // for each leaf that is read or made. Fails if memory runs out or `bytes` is too long for an Element.
    pub(super) fn of_body(
        alloc: Global,
        id: u32,
        offset: u64,
        bytes: &[u8],
    ) -> Result<Tree, AllocError>
        requires { IsTrue (is_written_id id) }
        ensures { IfOk result (λ tree. tree ≡ leaf id offset bytes.now) }
    {
        let written = bytes.len() as u64;
        if written > LONGEST {
            return Err(AllocError);
        }
        Ok(Tree {
            id,
            offset,
            written,
            depth: 0,
            content: Content::Body(bytes.to_vec(alloc)?),
        })
    }

    // Returns a master with the ID `id` and the children `trees`, whose header is at the offset `offset` of a file.
    // Called for each master that is read. Fails as if memory ran out if the children are too long together.
    fn of_children(id: u32, offset: u64, trees: Vec<Tree>) -> Result<Tree, TreeEnd>
        requires id { IsTrue (is_written_id id) }
        requires room { depth_all (nodes_of trees.items) < deepest }
        ensures ok { IfOk result (λ tree. tree ≡ master id offset (nodes_of trees.items)) }
        ensures limits { IfOk result KeepsLimits }
        ensures err { IfErr result (λ end. end ≡ TreeEnd.Memory) }
    {
        let Some(written) = written_within(trees.as_slice()) else {
            return Err(TreeEnd::Memory);
        };
        Ok(Tree {
            id,
            offset,
            written,
            depth: depth_around(trees.as_slice()),
            content: Content::Children(trees),
        })
    }
}

// Returns the refusal of a tree with too many Elements or nested masters. The first that is too many has the ID `id`
// and the offset `offset` in bytes. Called before an Element is read that exceeds the limit.
fn too_many(id: u32, offset: u64) -> TreeEnd
    ensures { result ≡ TreeEnd.Damage (record { kind = Kind.TooMany; id = id; offset = offset }) }
{
    TreeEnd::Damage(Damage {
        kind: Kind::TooMany,
        id,
        offset,
    })
}

// Checks whether the schema has `id` as a master under `parent`; any other Element is read as a leaf. `tree_in` does
// this for each Element.
fn is_master_in(parent: u32, id: u32) -> bool
    ensures { result ≡ is_master_in parent id }
{
    may_stand(id, parent) && is_master(id)
}

// Reads the Element with the header `header` and the content `body` under `parent` as a tree, for `trees_in`. It may
// have `room` nested masters, and `left` is the number of Elements that may still follow.
#[cycle(reading)]
fn tree_in(
    alloc: Global,
    room: u8,
    left: &mut u32,
    parent: u32,
    header: &Header,
    body: &[u8],
) -> Result<Tree, TreeEnd>
    requires id { IsTrue (is_written_id header.now.id) }
    requires places { header.now.body + length body.now ≤ 2 ^ 63 }
    requires room { room < deepest }
    ensures ok { IfOk result (GivesTree (grown grove room left.old parent header.now body.now) left.new) }
    ensures err { IfErr result (λ end. Refuses end (grown grove room left.old parent header.now body.now)) }
    ensures shallow { IfOk result (λ tree. depth tree ≤ room) }
{
    if *left == 0 {
        return Err(too_many(header.id, header.offset));
    }
    *left -= 1;
    if is_master_in(parent, header.id) {
        if room == 0 {
            return Err(too_many(header.id, header.offset));
        }
        let trees = trees_in(alloc, room - 1, left, header.id, header.body, body)?;
        return Tree::of_children(header.id, header.offset, trees);
    }
    if !is_known_value(parent, header.id, body) {
        return Err(TreeEnd::Damage(Damage {
            kind: Kind::BadValue,
            id: header.id,
            offset: header.offset,
        }));
    }
    Ok(Tree::of_body(alloc, header.id, header.offset, body)?)
}

// Reads the Elements in `body`, the content of a master with the ID `parent`, as trees, for `read` and for each nested
// master. It is at the offset `place` of the file. The trees may have `room` nested masters, and `left` is the number
// of Elements that may still follow.
#[cycle(reading)]
fn trees_in(
    alloc: Global,
    room: u8,
    left: &mut u32,
    parent: u32,
    place: u64,
    body: &[u8],
) -> Result<Vec<Tree>, TreeEnd>
    requires places { place + length body.now ≤ 2 ^ 63 }
    requires room { room < deepest }
    ensures ok { IfOk result (λ trees. GivesTrees (grove room left.old parent place body.now) left.new trees.items) }
    ensures err { IfErr result (λ end. Refuses end (grove room left.old parent place body.now)) }
    ensures shallow { IfOk result (λ trees. depth_all (nodes_of trees.items) ≤ room) }
{
    let mut trees = Vec::new(alloc);
    let mut at = place;
    let mut rest = body;
    while !rest.is_empty() {
        let (header, size) = header_in(parent, at, rest)?;
        let (inside, behind) = cut(rest, at, &header, size);
        let tree = tree_in(alloc, room, left, parent, &header, inside)?;
        trees.push(tree)?;
        at = header.body + size;
        rest = behind;
    }
    Ok(trees)
}

// Returns the header of the Element at the start of `rest`, for `header_in`. They are the unread bytes of a master with
// the ID `parent`, at the offset `at` of the file. An Element that exceeds them, or has an unknown size, is damage.
fn front_header(parent: u32, at: u64, rest: &[u8]) -> Result<Header, Damage>
    requires { at + length rest.now ≤ 2 ^ 63 }
    ensures { result ≡ header_at parent at rest.now }
{
    let end = at + rest.len() as u64;
    read_header(rest, Parent::Tree(parent), end, at, end)
}

// Returns the header of the Element at the start of `rest`, and the length of its content in bytes. `rest` are the
// unread bytes of a master with the ID `parent`, at the offset `at` of the file. `trees_in` does this for each Element.
fn header_in(parent: u32, at: u64, rest: &[u8]) -> Result<(Header, u64), Damage>
    requires { at + length rest.now ≤ 2 ^ 63 }
    ensures ok { IfOk result (λ found. header_at parent at rest.now ≡ Ok found.0) }
    ensures err { IfErr result (λ damage. header_at parent at rest.now ≡ Err damage) }
    ensures size { IfOk result (λ found. found.1 ≡ known found.0.size) }
    ensures fits { IfOk result (λ found. Fits at (at + length rest.now) found.0) }
    ensures id { IfOk result (λ found. IsTrue (is_written_id found.0.id)) }
{
    let header = front_header(parent, at, rest)?;
    match header.size {
        Size::Known(size) => Ok((header, size)),
        Size::Unknown => unreachable!(),
    }
}

// Splits `rest`, the unread bytes of a master at the offset `at` of the file. Returns the content of its first Element,
// `size` bytes after `header`, and the bytes after the Element, which `trees_in` reads next.
fn cut<'a>(rest: &'a [u8], at: u64, header: &Header, size: u64) -> (&'a [u8], &'a [u8])
    requires fits { Fits at (at + length rest.now) header.now }
    requires size { size ≡ known header.now.size }
    ensures inside { result.0.now ≡ inside at header.now rest.now }
    ensures behind { result.1.now ≡ behind at header.now rest.now }
{
    let body = (header.body - at) as usize;
    let end = body + size as usize;
    (&rest[body..end], &rest[end..])
}
