//! Elements that are appended with their places

ghost use Rattle.std.specs.Prelude.{◌≡◌, ◌+◌, ◌≤◌, [], ◌∷◌, ◌++◌, false, length, OnOk, IfOk};
ghost use Rattle.tree_format.specs.Node.{id_of};
ghost use Rattle.tree_format.specs.NormalForm.{is_filler, longest};
ghost use Rattle.output_model.specs.Document.{tree_element};
ghost use Rattle.cues_seekhead.specs.Places.{Adds};

use crate::written::put_tree;
use ebml_tree::Tree;
use mkv_io::Bytes;
use output_model::Seek;
use std::alloc::AllocError;

// Maximum number that a size of eight bytes can express: RFC 8794, section 6.2 (Unknown Data Size)
const LONGEST: u64 = 0xFF_FFFF_FFFF_FFFE;

/// Returns the length `len` in bytes if an Element's size field of eight bytes can express it. Otherwise fails as if
/// memory ran out. All lengths of an output's Elements pass it. Used by `others_len`, `body_len` and others.
pub fn sized(len: u64) -> Result<u64, AllocError>
    ensures { IfOk result (λ same. (same ≡ len) × (same ≤ longest)) }
{
    if len > LONGEST {
        return Err(AllocError);
    }
    Ok(len)
}

// Returns the position of the next Element in the Segment's content, in bytes: after `out`, which begins `at` bytes
// inside it. Fails as if memory ran out if the position is too large. Used by `add_seek`.
fn place_behind(at: u64, out: &Bytes) -> Result<u64, AllocError>
    ensures { IfOk result (λ place. place ≡ at + length out.now) }
{
    at.checked_add(out.len() as u64).ok_or(AllocError)
}

/// Appends to `seeks` the Seek of the next Element of an output, which has the ID `id` and follows `out`. `out` begins
/// `at` bytes inside the Segment's content.
pub(crate) fn add_seek(
    seeks: &mut Vec<Seek>,
    id: u32,
    at: u64,
    out: &Bytes,
) -> Result<(), AllocError>
    ensures { OnOk result (seeks.new.items ≡ seeks.old.items ++ record { id = id; position = at + length out.now } ∷ []) }
{
    let position = place_behind(at, out)?;
    seeks.push(Seek { id, position })?;
    Ok(())
}

/// Appends `tree`, the Tracks, Chapters or Tags of an output with the ID `id`, to `out`, and its Seek to `seeks`. `out`
/// begins `at` bytes inside the Segment's content. Used by `add_tree_of` and `open_octets`.
pub(crate) fn add_tree(
    out: &mut Bytes,
    seeks: &mut Vec<Seek>,
    at: u64,
    tree: &Tree,
    id: u32,
) -> Result<(), AllocError>
    requires id { id_of tree.now ≡ id }
    requires kept { is_filler id ≡ false }
    ensures { OnOk result (Adds at (tree_element tree.now ∷ []) out.old out.new seeks.old.items seeks.new.items) }
{
    add_seek(seeks, id, at, out)?;
    put_tree(out, tree)?;
    Ok(())
}
