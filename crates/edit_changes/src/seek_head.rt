//! The body of the SeekHead that replaces the file's old one when an Element has moved.

ghost use Rattle.std.specs.Prelude.{◌≡◌, ◌++◌, IfOk, IsTrue, OnOk, filter, flat_map};
ghost use Rattle.std.specs.List.{AllPass};
ghost use Rattle.ebml_numbers.specs.Number.{is_id};
ghost use Rattle.tree_format.specs.NormalForm.{octets};
ghost use Rattle.cues_seekhead.specs.Places.{AreIds};
ghost use Rattle.edit_changes.specs.SeekHead as spec;

use cues_seekhead::put_seeks;
use ebml_numbers::put_id;
use ebml_tree::Tree;
use mkv_io::Bytes;
use mkv_schema::ids::{SEEK, SEEK_ID};
use output_model::Seek;
use std::alloc::{AllocError, Global};

/// Checks whether `tree`, a child of the old SeekHead, is a Seek whose first SeekID is exactly the bytes of `id`.
/// `stays` does this for each moved ID.
fn is_seek_of(id: u32, tree: &Tree) -> bool
    requires { IsTrue (is_id id) }
    ensures { result ≡ spec.is_seek_of id tree.now }
{
    if tree.id() != SEEK {
        return false;
    }
    match tree.child(SEEK_ID) {
        Some(child) => child.body() == put_id(id).as_slice(),
        None => false,
    }
}

/// Checks whether `tree`, a child of the old SeekHead, is copied to the new one, for `put_staying`. A Seek of one of
/// `ids` isn't, since they get new Seeks.
fn stays(ids: &[u32], tree: &Tree) -> bool
    requires { AllPass is_id ids.now }
    ensures { result ≡ spec.stays ids.now tree.now }
{
    for id in ids {
        if is_seek_of(*id, tree) {
            return false;
        }
    }
    true
}

/// Appends to `out` the children `old` of the old SeekHead that are copied to the new one, for `seek_head_body`. The
/// Seeks of `ids` aren't, since they have new ones.
fn put_staying(out: &mut Bytes, ids: &[u32], old: &[Tree]) -> Result<(), AllocError>
    requires { AllPass is_id ids.now }
    ensures { OnOk result (out.new ≡ out.old ++ flat_map octets (filter (spec.stays ids.now) old.now)) }
{
    for tree in old {
        if stays(ids, tree) {
            tree.put(out)?;
        }
    }
    Ok(())
}

/// Returns the body of the new SeekHead, for a plan that rewrites it. It has `seeks`, the new Seeks of `ids`, followed
/// by the children in `old` that aren't Seeks of `ids`. `old` has the children of the old SeekHead.
pub fn seek_head_body(
    alloc: Global,
    ids: &[u32],
    seeks: &[Seek],
    old: &[Tree],
) -> Result<Bytes, AllocError>
    requires ids { AllPass is_id ids.now }
    requires seeks { AreIds seeks.now }
    ensures { IfOk result (λ out. out ≡ spec.seek_head_body ids.now seeks.now old.now) }
{
    let mut out = Bytes::new(alloc);
    put_seeks(&mut out, seeks)?;
    put_staying(&mut out, ids, old)?;
    Ok(out)
}
