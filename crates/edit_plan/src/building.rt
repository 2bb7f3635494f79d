//! The new Info and Tracks, as Elements at level 1 that replace the old ones.

ghost use Rattle.std.specs.Prelude.{◌≡◌, ◌≤◌, ◌<◌, ◌^◌, ◌++◌, true, false, ◌==◌, IfOk, OnOk, IsTrue, length, map, flat_map};
ghost use Rattle.ebml_numbers.specs.Number.{is_id};
ghost use Rattle.mkv_schema.specs.declared.ids.TheConstants.{CLUSTER};
ghost use Rattle.tree_format.specs.NormalForm.{octets};
ghost use Rattle.element_reader.specs.Collected.{IsInFile};
ghost use Rattle.edit_changes.specs.Change as change;
ghost use Rattle.edit_changes.specs.Plan as spec;
ghost use Rattle.edit_plan.specs.Shown.{shown};
ghost use Rattle.edit_plan.specs.Made.{AddsParts};

use crate::counting::{kept_all, sum};
use crate::part::Part;
use ebml_tree::Tree;
use edit_changes::{Trees, is_info, span_of};
use element_reader::{Header, Outline};
use mkv_io::{Bytes, LONGEST_FILE, List};
use mkv_schema::ids::{INFO, TRACKS};
use requests::Edit;
use std::alloc::{AllocError, Global};

/// Returns the bytes of the Elements `nodes`, in sequence: the body of the new Info or Tracks. More bytes than a file
/// can have fail as out of memory. `part` calls it.
fn body_of(alloc: Global, nodes: &[Tree]) -> Result<Bytes, AllocError>
    ensures exact { IfOk result (λ body. body ≡ flat_map octets nodes.now) }
    ensures short { IfOk result (λ body. length body ≤ 2 ^ 48) }
{
    let mut body = Bytes::new(alloc);
    for node in nodes {
        node.put(&mut body)?;
    }
    if body.len() as u64 > LONGEST_FILE {
        return Err(AllocError);
    }
    Ok(body)
}

/// Makes the part that replaces the Element with this `header` at level 1 of `outline` by one with the children
/// `nodes`, for `add_part`.
fn part(
    alloc: Global,
    outline: &Outline,
    header: &Header,
    nodes: &[Tree],
) -> Result<Part, AllocError>
    requires id { IsTrue (is_id header.now.id) }
    requires inside { IsInFile outline.now.total header.now }
    requires short { outline.now.total ≤ 2 ^ 48 }
    ensures { IfOk result (λ part. shown part ≡ spec.part outline.now.others nodes.now header.now) }
{
    let body = body_of(alloc, nodes)?;
    let nodes = sum(kept_all(nodes)?, 1)?;
    Ok(Part {
        id: header.id,
        place: header.offset,
        room: span_of(outline, header),
        nodes,
        body: Some(body),
    })
}

/// Appends to `parts` the first Element with the ID `id` at level 1 of `outline`, with the new children `nodes`. It
/// appends nothing if there is none. `parts` does this for the Info and for Tracks.
#[tactic(auto, using(crate::proofs::PartLemmas::firsts))]
fn add_part(
    alloc: Global,
    parts: &mut Vec<Part>,
    outline: &Outline,
    id: u32,
    nodes: &[Tree],
) -> Result<(), AllocError>
    requires id { IsTrue (is_id id) }
    requires other { (id == CLUSTER) ≡ false }
    requires short { outline.now.total ≤ 2 ^ 48 }
    ensures { OnOk result (AddsParts (spec.part_of true id outline.now.others nodes.now) parts.old.items parts.new.items) }
{
    if let Some(header) = outline.first(id) {
        parts.push(part(alloc, outline, &header, nodes)?)?;
    }
    Ok(())
}

/// Returns the children of the Info in the edited `trees`, which `parts` writes again; none if there is no Info.
fn info_nodes(trees: &Trees) -> &[Tree]
    ensures { result.now ≡ spec.info_nodes trees.now.info }
{
    match &trees.info {
        Some(info) => info.children(),
        None => &[],
    }
}

/// Checks whether one of `edits` is about the Info, which is then written again. `parts` calls it.
fn are_of_info(edits: &List<Edit>) -> bool
    ensures { result ≡ change.are_of_info edits.now }
{
    edits.as_slice().iter().any(|edit| is_info(edit.place))
}

/// Checks whether one of `edits` is about a track. Tracks is then written again. `parts` calls it.
fn are_of_tracks(edits: &List<Edit>) -> bool
    ensures { result ≡ change.are_of_tracks edits.now }
{
    edits.as_slice().iter().any(|edit| !is_info(edit.place))
}

/// Returns the parts of the plan of an edit: the Info and the Tracks, in this order, each if one of `edits` is about
/// it. Their edited children are in `trees`, and `outline` is the file's. `edit_writes` calls it after the edits are
/// made.
#[tactic(auto, unfolding(ebml_numbers::specs::Number::is_id))]
pub fn parts(
    alloc: Global,
    outline: &Outline,
    edits: &List<Edit>,
    trees: &Trees,
) -> Result<Vec<Part>, AllocError>
    requires { outline.now.total ≤ 2 ^ 48 }
    ensures { IfOk result (λ parts. map shown parts.items ≡ spec.parts outline.now.others edits.now trees.now) }
{
    let mut parts = Vec::new(alloc);
    if are_of_info(edits) {
        add_part(alloc, &mut parts, outline, INFO, info_nodes(trees))?;
    }
    if are_of_tracks(edits) {
        add_part(alloc, &mut parts, outline, TRACKS, trees.tracks.as_slice())?;
    }
    Ok(parts)
}
