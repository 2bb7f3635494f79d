//! Elements after the Clusters, with their places

ghost use Rattle.std.specs.Prelude.{◌≡◌, ◌≤◌, [], false, length, OnOk, IfOk, IfSome};
ghost use Rattle.mkv_schema.specs.declared.ids.TheConstants.{CHAPTERS, TAGS};
ghost use Rattle.tree_format.specs.Node.{id_of};
ghost use Rattle.tree_format.specs.NormalForm.{is_filler};
ghost use Rattle.output_model.specs.declared.TheConstants.{MAX_CUES};
ghost use Rattle.output_model.specs.Cues.{cues_elements};
ghost use Rattle.output_model.specs.Document.{tree_elements, back_with};
ghost use Rattle.cues_seekhead.specs.Places.{Adds, AddsBack};

use crate::cues::put_cues;
use crate::places::{add_seek, add_tree};
use ebml_tree::Tree;
use mkv_io::Bytes;
use mkv_schema::ids::CUES;
use output_model::{CuePoint, Seek};
use std::alloc::{AllocError, Global};

// Appends the Cues with `points` to `out`, and their Seek to `seeks`, or nothing without points. `out` has the Elements
// of an output after its Clusters, and begins `at` bytes inside the Segment's content. Used by `back_octets`.
fn add_cues(
    out: &mut Bytes,
    seeks: &mut Vec<Seek>,
    at: u64,
    points: &[CuePoint],
) -> Result<(), AllocError>
    requires { length points.now ≤ MAX_CUES }
    ensures { OnOk result (Adds at (cues_elements points.now) out.old out.new seeks.old.items seeks.new.items) }
{
    if points.is_empty() {
        return Ok(());
    }
    add_seek(seeks, CUES, at, out)?;
    put_cues(out, points)?;
    Ok(())
}

// Appends `tree`, the Chapters or Tags with the ID `id`, if present, to `out`, and its Seek to `seeks`. `out` has the
// Elements of an output after its Clusters, and begins `at` bytes inside the Segment's content. Used by `back_octets`.
fn add_tree_of(
    out: &mut Bytes,
    seeks: &mut Vec<Seek>,
    at: u64,
    tree: &Option<Tree>,
    id: u32,
) -> Result<(), AllocError>
    requires id { IfSome tree.now (λ n. id_of n ≡ id) }
    requires kept { is_filler id ≡ false }
    ensures { OnOk result (Adds at (tree_elements tree.now) out.old out.new seeks.old.items seeks.new.items) }
{
    if let Some(tree) = tree {
        add_tree(out, seeks, at, tree, id)?;
    }
    Ok(())
}

/// Returns the bytes that `finish` appends after the Clusters of an output: the Cues with `points`, Chapters and Tags,
/// if present. They begin `at` bytes inside the Segment's content. Appends their Seeks to `seeks`.
pub fn back_octets(
    alloc: Global,
    at: u64,
    points: &[CuePoint],
    chapters: &Option<Tree>,
    tags: &Option<Tree>,
    seeks: &mut Vec<Seek>,
) -> Result<Bytes, AllocError>
    requires points { length points.now ≤ MAX_CUES }
    requires chapters { IfSome chapters.now (λ n. id_of n ≡ CHAPTERS) }
    requires tags { IfSome tags.now (λ n. id_of n ≡ TAGS) }
    ensures { IfOk result (λ out. AddsBack at points.now chapters.now tags.now seeks.old.items seeks.new.items out) }
{
    let mut out = Bytes::new(alloc);
    add_cues(&mut out, seeks, at, points)?;
    add_tree_of(&mut out, seeks, at, chapters, mkv_schema::ids::CHAPTERS)?;
    add_tree_of(&mut out, seeks, at, tags, mkv_schema::ids::TAGS)?;
    Ok(out)
}
