//! An Element in memory, with its contents.

ghost use Rattle.std.specs.Prelude.{◌≡◌, ◌≤◌, ◌<◌, ◌+◌, ◌^◌, ◌==◌, ◌++◌, ◌∷◌, [], ℕ, length, find, filter, take, slice_get, OnOk, OnErr, IfOk, IsErr, IfSome, IsTrue, Ok, ℤ};
ghost use Rattle.std.specs.Option.{option_copied};

use ebml_numbers::{read_int, read_uint};
use elements::text_of;
use mkv_io::Bytes;
use mkv_schema::uint_default;
use std::alloc::{AllocError, Global};
use std::marker::Model;
use std::mem;

mod content;
mod reading;
mod writing;

use content::{
    Content, depth_around, first_of, nth_of, tree_at, written_together, written_without,
};
use writing::{LONGEST, element_len, is_filler, write_header};

/// Maximum number of nested masters.
pub const DEEPEST: u8 = 32;

/// Element in memory: a leaf with its bytes, or a master with its children. At most 32 masters are nested.
#[cycle(tree)]
#[derive(Drop)]
pub struct Tree {
    id: u32,
    offset: u64,
    // number of bytes that are written after the header
    written: u64,
    depth: u8,
    content: Content,
}

impl Model for Tree {
    ghost use Rattle.std.specs.Prelude.{ℕ};
    ghost use Rattle.tree_format.specs.Node.{Node, count};
    ghost use Rattle.tree_format.specs.Stored.{coded_node};

    ghost Value = { Node };

    ghost coded = { coded_node };

    ghost use Rattle.ebml_tree.specs.View.{node_of, Measured};

    ghost view = { λ t. node_of t.id t.offset t.content };

    ghost invariant = { λ t. Measured t.id t.written t.depth t.content };

    ghost size = { count };

    ghost use Rattle.ebml_tree.specs.Falls.{falls};

    ghost size_decreases = { λ t h. falls t.id t.offset t.content };
}

impl Tree {
    ghost use Rattle.tree_format.specs.Node.{Node, id_of, offset_of, children, with_children, leaf, master, nodes_of, body_of, count, depth, depth_all, deepest, HasRoom, IsMaster};
    ghost use Rattle.tree_format.specs.NormalForm.{content, octets, kept_octets, longest};
    ghost use Rattle.tree_format.specs.Standing.{IsSound, StandsIn, IsReadAgain, IsReadWithoutLimits, kept, placed_in};
    ghost use Rattle.ebml_tree.specs.Again.{FailsIfTooLong, HasInt, HasUint, IsReadWhole, StaysReadable};
    ghost use Rattle.tree_format.specs.Text.{HasNoZero};
    ghost use Rattle.tree_format.specs.Changes.{with_child, without, HasChild, AreTooLong};
    ghost use Rattle.ebml_numbers.specs.Number.{is_id, uint_octets, int_of, int_octets, magnitude};
    ghost use Rattle.mkv_schema.specs.Value.{uint_value, text_of};

    /// Returns a new leaf with the ID `id` and the bytes `bytes`, whose offset is 0. Used to build Elements that are
    /// written.
    #[tactic(auto, using(tree_format::proofs::ValueLemmas::values))]
    pub fn leaf(alloc: Global, id: u32, bytes: &[u8]) -> Result<Tree, AllocError>
        requires { IsTrue (is_id id) }
        ensures exact { IfOk result (λ tree. tree ≡ leaf id 0 bytes.now) }
        ensures full { longest < length bytes.now → IsErr result }

        // A value that is put into a leaf is read back.
        ensures uint { HasUint id bytes.now result }
        ensures int { HasInt bytes.now result }
        ensures text { HasNoZero bytes.now → IfOk result (λ tree. text_of (body_of tree) ≡ bytes.now) }
    {
        Tree::of_body(alloc, id, 0, bytes)
    }

    /// Returns a copy of the tree, with the same offsets, so that it can be changed and written. Fails only if memory
    /// runs out.
    #[tactic(auto, using(crate::proofs::ContentLemmas::copies))]
    pub fn copy(&self, alloc: Global) -> Result<Tree, AllocError>
        ensures { IfOk result (λ copy. copy ≡ self.now) }
    {
        let content = match &self.content {
            Content::Body(body) => Content::Body(body.as_slice().to_vec(alloc)?),
            Content::Children(trees) => {
                let mut copies = Vec::new(alloc);
                for tree in trees {
                    copies.push(tree.copy(alloc)?)?;
                }
                Content::Children(copies)
            }
        };
        Ok(Tree {
            id: self.id,
            offset: self.offset,
            written: self.written,
            depth: self.depth,
            content,
        })
    }

    /// Returns the ID of the tree's Element, with its marker. Used by all readers of trees.
    pub fn id(&self) -> u32
        ensures { result ≡ id_of self.now }
    {
        self.id
    }

    /// Returns the offset in bytes of the Element's header in the file, or 0 if the Element is new. Messages on damage
    /// have it. Used by `empty`, `copy` and others.
    pub fn offset(&self) -> u64
        ensures { result ≡ offset_of self.now }
    {
        self.offset
    }

    /// Returns the number of nested masters of the tree, itself included, or 0 for a leaf. The limit is 32. Used by
    /// `copy`, `depth_around` and others.
    pub fn depth(&self) -> u8
        ensures exact { result ≡ depth self.now }
        ensures most { result ≤ deepest }
    {
        self.depth
    }

    /// Returns the children of the tree, in order; a leaf has none. Used by all readers of trees.
    #[tactic(auto, using(crate::proofs::ContentLemmas::changes))]
    pub fn children(&self) -> &[Tree]
        ensures exact { result.now ≡ children self.now }
        ensures room { depth_all (nodes_of result.now) < deepest }
    {
        self.content.kids()
    }

    /// Returns the first child with the ID `id`, or None if there is none. Used by all readers of values.
    pub fn child(&self, id: u32) -> Option<&Tree>
        ensures exact { option_copied result ≡ find (λ n. id_of n == id) (children self.now) }
        ensures room { IfSome result (λ tree. HasRoom tree.now) }
    {
        first_of(self.children(), id)
    }

    /// Returns the child with the number `k`, counted from 0, among the children with the ID `id`. Track checks find a
    /// TrackEntry or a second ContentEncoding with it. Used by `can_be_undone` of `track_records`.
    pub fn nth(&self, id: u32, k: usize) -> Option<&Tree>
        ensures exact { option_copied result ≡ slice_get (filter (λ n. id_of n == id) (children self.now)) k }
        ensures room { IfSome result (λ tree. HasRoom tree.now) }
    {
        nth_of(self.children(), id, k)
    }

    /// Returns the child with the number `k`, counted from 0 over all children, or None if there is none. Used to go
    /// through a list of Elements. Used by `trees_in`, `front_header` and others.
    pub fn at(&self, k: usize) -> Option<&Tree>
        ensures exact { option_copied result ≡ slice_get (children self.now) k }
        ensures room { IfSome result (λ tree. HasRoom tree.now) }
    {
        tree_at(self.children(), k)
    }

    /// Takes the tree apart, and returns its children without copying them. A leaf has none. Used for Seeks, for
    /// TrackEntries and to join records. Used by `first_seek_head` of `edit_plan` and others.
    #[tactic(auto, using(crate::proofs::ContentLemmas::changes))]
    pub fn into_children(self) -> Vec<Tree>
        ensures exact { result.items ≡ children self }
        ensures room { depth_all (nodes_of result.items) < deepest }
    {
        self.content.into_kids()
    }

    /// Returns the content of a leaf as bytes; a master has none. Used by all readers of values.
    #[tactic(auto, using(crate::proofs::ContentLemmas::changes))]
    pub fn body(&self) -> &[u8]
        ensures { result.now ≡ body_of self.now }
    {
        self.content.body()
    }

    /// Returns the value of the leaf as an unsigned integer (RFC 8794, section 7.2, Unsigned Integer Element). If it is
    /// empty, returns the schema's default, or 0. All readers of an unsigned integer in a tree use it. Used by
    /// `integer_in` and others.
    pub fn uint(&self) -> u64
        requires { length (body_of self.now) ≤ 8 }
        ensures { result ≡ uint_value (id_of self.now) (body_of self.now) }
    {
        let body = self.body();
        if body.is_empty() {
            uint_default(self.id()).unwrap_or(0)
        } else {
            read_uint(body)
        }
    }

    /// Returns the value of the leaf as a signed integer, or 0 if it is empty (RFC 8794, section 7.1, Signed Integer
    /// Element). Only test programs call it.
    pub fn int(&self) -> i64
        requires { length (body_of self.now) ≤ 8 }
        ensures { result ≡ int_of (body_of self.now) }
    {
        read_int(self.body())
    }

    /// Returns the bytes of the leaf as a text, up to its first zero byte (RFC 8794, sections 7.4, String Element, and
    /// 7.5, UTF-8 Element). Readers of names, titles and tags use it. Used by `text_of`.
    pub fn text(&self) -> &[u8]
        ensures { result.now ≡ text_of (body_of self.now) }
    {
        text_of(self.body())
    }

    /// Puts `child` in place of the first child with its ID, or at the end if there is none. Removes the other children
    /// with that ID. `propedit` and the writers of records set values so. On failure `child` is dropped.
    #[tactic(auto, using(crate::proofs::ContentLemmas::changes, tree_format::proofs::StandingLemmas::keeps))]
    pub fn set(&mut self, child: Tree) -> Result<(), AllocError>
        requires master { IsMaster self.old }
        requires room { HasRoom child }
        ensures ok { OnOk result (self.new ≡ with_children self.old (with_child child (children self.old))) }
        ensures err { OnErr result (self.new ≡ self.old) }

        // It fails if the children would be too long. In place of another child it takes no memory, so it fails only
        // then.
        ensures full { AreTooLong (with_child child (children self.old)) → IsErr result }
        ensures replaced { FailsIfTooLong self.old child result }

        // It stays a master. A valid child keeps it valid, and the bytes that `put` writes are read back.
        ensures master { IsMaster self.new }
        ensures sound { IsSound self.old → StandsIn (id_of self.old) child → IsSound self.new }
        ensures again { StaysReadable self.old child self.new }
    {
        let others = written_without(child.id(), self.content.kids());
        let written = others + child.written_len();
        if written > LONGEST {
            return Err(AllocError);
        }
        self.content.set(child)?;
        self.written = written;
        self.depth = depth_around(self.content.kids());
        Ok(())
    }

    /// Appends `child` to the children of the master, to build an Element that is written. On failure `child` is
    /// dropped.
    #[tactic(auto, using(crate::proofs::ContentLemmas::changes, tree_format::proofs::StandingLemmas::keeps))]
    pub fn push(&mut self, child: Tree) -> Result<(), AllocError>
        requires master { IsMaster self.old }
        requires room { HasRoom child }
        ensures ok { OnOk result (self.new ≡ with_children self.old (children self.old ++ child ∷ [])) }
        ensures err { OnErr result (self.new ≡ self.old) }
        ensures full { AreTooLong (children self.old ++ child ∷ []) → IsErr result }

        // It stays a master. A valid child keeps it valid, and the bytes that `put` writes are read back.
        ensures master { IsMaster self.new }
        ensures sound { IsSound self.old → StandsIn (id_of self.old) child → IsSound self.new }
        ensures again { StaysReadable self.old child self.new }
    {
        let written = self.written + child.written_len();
        let depth = self.depth.max(child.depth + 1);
        if written > LONGEST {
            return Err(AllocError);
        }
        self.content.push(child)?;
        self.written = written;
        self.depth = depth;
        Ok(())
    }

    /// Removes every child with the ID `id` from the master, without allocating. Used to delete a property, or what a
    /// written TrackEntry doesn't keep.
    #[tactic(auto, using(crate::proofs::ContentLemmas::changes, tree_format::proofs::StandingLemmas::keeps))]
    pub fn remove(&mut self, id: u32)
        requires { IsMaster self.old }
        ensures exact { self.new ≡ with_children self.old (without id (children self.old)) }

        // It stays a master and valid, and the bytes that `put` writes are read back.
        ensures master { IsMaster self.new }
        ensures sound { IsSound self.old → IsSound self.new }
        ensures again { (nodes : ℕ) → IsSound self.old → kept self.new ≤ nodes → IsReadAgain nodes self.new }
    {
        self.content.remove(id);
        self.written = written_together(self.content.kids());
        self.depth = depth_around(self.content.kids());
    }

    /// Returns the number of bytes of the tree as it is written, in its normal form, including the header; 0 for a Void
    /// or CRC-32. Used to size what is written. Used by `set`, `push` and others.
    #[tactic(auto, using(crate::proofs::ContentLemmas::written))]
    pub fn written_len(&self) -> u64
        ensures exact { result ≡ length (octets self.now) }
        ensures most { result < 2 ^ 57 }

        // A body, or the children together, never have more bytes than a size can express.
        ensures behind { length (content self.now) ≤ longest }
    {
        element_len(self.id, self.written)
    }

    /// Appends the tree to `out` in its normal form, for an output or an edit. Headers are as short as possible, Void
    /// and CRC-32 are left out at every depth, and other leaves keep their bytes. If memory runs out, nothing is
    /// appended.
    pub fn put(&self, out: &mut Bytes) -> Result<(), AllocError>
        ensures ok { OnOk result (out.new ≡ out.old ++ octets self.now) }
        ensures err { OnErr result (out.new ≡ out.old) }

        // The bytes are the header and the content, or nothing for a Void or a CRC-32.
        ensures header { octets self.now ≡ kept_octets (id_of self.now) (content self.now) }

        // The bytes after a valid master's header are read back, with a limit on nodes and without. New offsets, and
        // Elements that are left out, don't change the written bytes.
        ensures again { IsReadWhole self.now }
        ensures free { IsMaster self.now → IsSound self.now → IsReadWithoutLimits self.now }
        ensures stable { (offset base : ℕ) → octets (placed_in offset base self.now) ≡ octets self.now }
    {
        let mut octets = mem::replace(out, Bytes::new(self.content.alloc())).into_vec();
        let before = octets.len();
        let done = self.write(&mut octets);
        if done.is_err() {
            octets.truncate(before);
        }
        *out = Bytes::from_vec(octets);
        done
    }

    // Appends the tree to `out` in its normal form, for `put`. If memory runs out, `out` still begins with the bytes
    // that it had.
    #[tactic(auto, using(crate::proofs::ContentLemmas::written))]
    fn write(&self, out: &mut Vec<u8>) -> Result<(), AllocError>
        ensures ok { OnOk result (out.new.items ≡ out.old.items ++ octets self.now) }
        ensures err { OnErr result (take (length out.old.items) out.new.items ≡ out.old.items) }
    {
        if is_filler(self.id) {
            return Ok(());
        }
        write_header(self.id, self.written, out)?;
        match &self.content {
            Content::Body(body) => out.extend_from_slice(body.as_slice()),
            Content::Children(trees) => {
                for tree in trees {
                    tree.write(out)?;
                }
                Ok(())
            }
        }
    }
}
