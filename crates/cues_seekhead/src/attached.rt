//! AttachedFile, before and after its data: RFC 9559, section 5.1.6 (Attachments).

ghost use Rattle.std.specs.Prelude.{◌≡◌, ◌^◌, ◌≤◌, ◌++◌, length, flat_map, OnOk, IfOk};
ghost use Rattle.mkv_schema.specs.declared.ids.TheConstants.{FILE_DATA as FILE_DATA_ID};
ghost use Rattle.tree_format.specs.NormalForm.{octets, longest};
ghost use Rattle.tree_format.specs.Changes.{without};
ghost use Rattle.cues_seekhead.specs.Attached.{data_place, attached_body, attached_total, before_data, behind_data};

use crate::places::sized;
use crate::written::{element_len, put_header};
use ebml_tree::Tree;
use mkv_io::Bytes;
use mkv_schema::ids::{ATTACHED_FILE, FILE_DATA};
use output_model::Attachment;
use std::alloc::{AllocError, Global};

// Returns the index of the first FileData in `children`, the children of an AttachedFile, counted from 0, or their
// number if there is none. `octets_before_data` and `octets_behind_data` split the children there.
fn data_index(children: &[Tree]) -> usize
    ensures exact { result ≡ data_place children.now }
    ensures inside { result ≤ length children.now }
{
    let found = children.iter().position(|child| child.id() == FILE_DATA);
    found.unwrap_or(children.len())
}

// Returns the length in bytes of `children`, the children of an AttachedFile, without FileData. Fails as if memory ran
// out if a size can't express it. Used by `body_len`.
#[tactic(auto, using(ebml_tree::proofs::LoopLemmas::others))]
fn others_len(children: &[Tree]) -> Result<u64, AllocError>
    ensures exact { IfOk result (λ len. len ≡ length (flat_map octets (without FILE_DATA_ID children.now))) }
    ensures most { IfOk result (λ len. len ≤ longest) }
{
    let mut total = 0;
    for child in children {
        if child.id() != FILE_DATA {
            total = sized(total + child.written_len())?;
        }
    }
    Ok(total)
}

/// Appends the trees `children` to `out`, in their normal form: children of an AttachedFile before its data, or of an
/// Info around its Duration. Used by `octets_before_data` and `put_with_void`.
pub(crate) fn put_children(out: &mut Bytes, children: &[Tree]) -> Result<(), AllocError>
    ensures { OnOk result (out.new ≡ out.old ++ flat_map octets children.now) }
{
    for child in children {
        child.put(out)?;
    }
    Ok(())
}

// Appends `children` to `out`, the children of an AttachedFile after its data, except other FileData. Used by
// `octets_behind_data`.
fn put_others(out: &mut Bytes, children: &[Tree]) -> Result<(), AllocError>
    ensures { OnOk result (out.new ≡ out.old ++ flat_map octets (without FILE_DATA_ID children.now)) }
{
    for child in children {
        if child.id() != FILE_DATA {
            child.put(out)?;
        }
    }
    Ok(())
}

// Returns the length in bytes of the content of the AttachedFile of `attachment`, with its data, for the size in its
// header. Fails as if memory ran out if a size can't express it. Used by `attached_len` and `octets_before_data`.
#[tactic(auto, unfolding(ebml_numbers::specs::Number::is_id))]
fn body_len(attachment: &Attachment) -> Result<u64, AllocError>
    ensures exact { IfOk result (λ len. len ≡ attached_body attachment.now) }
    ensures most { IfOk result (λ len. len ≤ longest) }
    ensures data { IfOk result (λ len. attachment.now.len ≤ longest) }
{
    let others = others_len(attachment.entry.children())?;
    let data = element_len(FILE_DATA, sized(attachment.len)?);
    sized(others + data)
}

/// Returns the length in bytes of the AttachedFile of `attachment`, with its data, for the size of the Attachments.
/// Fails as if memory ran out if a size can't express it. Used by `attachments_len`.
#[tactic(auto, unfolding(ebml_numbers::specs::Number::is_id))]
pub fn attached_len(attachment: &Attachment) -> Result<u64, AllocError>
    ensures exact { IfOk result (λ len. len ≡ attached_total attachment.now) }
    ensures most { IfOk result (λ len. len ≤ 2 ^ 57) }
{
    let len = body_len(attachment)?;
    Ok(element_len(ATTACHED_FILE, len))
}

/// Returns the bytes of the AttachedFile of `attachment` before its data, with the headers of AttachedFile and
/// FileData. `merge` writes them before it copies the data from their file.
#[tactic(auto, unfolding(ebml_numbers::specs::Number::is_id))]
pub fn octets_before_data(alloc: Global, attachment: &Attachment) -> Result<Bytes, AllocError>
    ensures { IfOk result (λ out. out ≡ before_data attachment.now) }
{
    let mut out = Bytes::new(alloc);
    let children = attachment.entry.children();
    let (front, _) = children.split_at(data_index(children));
    put_header(&mut out, ATTACHED_FILE, body_len(attachment)?)?;
    put_children(&mut out, front)?;
    put_header(&mut out, FILE_DATA, attachment.len)?;
    Ok(out)
}

/// Returns the bytes of the AttachedFile of `attachment` after its data, which `merge` writes once it has copied the
/// data.
pub fn octets_behind_data(alloc: Global, attachment: &Attachment) -> Result<Bytes, AllocError>
    ensures { IfOk result (λ out. out ≡ behind_data attachment.now) }
{
    let mut out = Bytes::new(alloc);
    let children = attachment.entry.children();
    let (_, back) = children.split_at(data_index(children));
    put_others(&mut out, back)?;
    Ok(out)
}
