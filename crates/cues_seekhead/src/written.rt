//! Elements that are appended to bytes in memory

ghost use Rattle.std.specs.Prelude.{◌≡◌, ◌+◌, ◌<◌, ◌≤◌, ◌++◌, false, length, OnOk, IsTrue};
ghost use Rattle.ebml_numbers.specs.Number.{all_ones, is_id};
ghost use Rattle.tree_format.specs.Node.{id_of};
ghost use Rattle.tree_format.specs.NormalForm.{header_octets, is_filler};
ghost use Rattle.output_model.specs.Element.{uint_element, octets_of};
ghost use Rattle.output_model.specs.Document.{tree_element};

use ebml_numbers::{put_id, put_size, put_uint, size_width};
use ebml_tree::Tree;
use mkv_io::Bytes;
use std::alloc::AllocError;

/// Appends to `out` the shortest header of an Element with the ID `id` and `len` bytes of content. Used for all
/// Elements of an output outside its Clusters.
pub(crate) fn put_header(out: &mut Bytes, id: u32, len: u64) -> Result<(), AllocError>
    requires id { IsTrue (is_id id) }
    requires len { len < all_ones 8 }
    ensures ok { OnOk result (out.new ≡ out.old ++ header_octets id len) }
{
    out.append(put_id(id).as_slice())?;
    out.append(put_size(len, size_width(len)).as_slice())?;
    Ok(())
}

/// Returns the length in bytes of an Element with the ID `id` and `len` bytes of content, with the shortest header.
/// Used for the sizes of all masters of an output outside its Clusters.
pub(crate) fn element_len(id: u32, len: u64) -> u64
    requires id { IsTrue (is_id id) }
    requires len { len < all_ones 8 }
    ensures exact { result ≡ length (header_octets id len) + len }
    ensures most { result ≤ len + 12 }
    ensures short { len < 127 → result ≤ len + 5 }
{
    u64::from(put_id(id).len) + u64::from(size_width(len)) + len
}

/// Returns the length in bytes of the Element `id` with the unsigned integer `value` in its fewest bytes, for the sizes
/// in Cues. Used by `positions_len` and `point_body_len`.
pub(crate) fn uint_len(id: u32, value: u64) -> u64
    requires { IsTrue (is_id id) }
    ensures exact { result ≡ length (octets_of (uint_element id value)) }
    ensures most { result ≤ 20 }
{
    element_len(id, u64::from(put_uint(value).len))
}

/// Appends to `out` the Element `id` of a Cues with the unsigned integer `value` in its fewest bytes. Used by
/// `put_positions` and `put_point`.
pub(crate) fn put_uint_element(out: &mut Bytes, id: u32, value: u64) -> Result<(), AllocError>
    requires { IsTrue (is_id id) }
    ensures ok { OnOk result (out.new ≡ out.old ++ octets_of (uint_element id value)) }
{
    let octets = put_uint(value);
    put_header(out, id, u64::from(octets.len))?;
    out.append(octets.as_slice())?;
    Ok(())
}

/// Appends to `out` the tree `tree` in its normal form: the Info, Tracks, Chapters or Tags of an output. Used by
/// `put_info` and `add_tree`.
pub(crate) fn put_tree(out: &mut Bytes, tree: &Tree) -> Result<(), AllocError>
    requires { is_filler (id_of tree.now) ≡ false }
    ensures ok { OnOk result (out.new ≡ out.old ++ octets_of (tree_element tree.now)) }
{
    tree.put(out)?;
    Ok(())
}
