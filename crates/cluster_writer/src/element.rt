//! Header of an Element, and Elements that are written as one

ghost use Rattle.std.specs.Prelude.{◌≡◌, ◌+◌, ◌<◌, ◌≤◌, ◌++◌, ◌&&◌, nat_lt, length, vec_len, IsTrue};
ghost use Rattle.std.specs.Vec.{vec_capacity};
ghost use Rattle.ebml_numbers.specs.Number.{all_ones, is_id};
ghost use Rattle.tree_format.specs.NormalForm.{header_octets};
ghost use Rattle.output_model.specs.Element.{octets_of, uint_element};
ghost use Rattle.cluster_writer.specs.Room.{Adds, HasRoom};

use ebml_numbers::{put_id, put_size, put_uint, size_width};

/// Appends the bytes `octets` to `out`, which has the capacity for them. Allocates no memory. Used by all functions
/// that append to the buffer of a Cluster.
pub fn add(out: &mut Vec<u8>, octets: &[u8])
    requires { HasRoom out.old (length octets.now) }
    ensures { Adds out.old out.new octets.now }
{
    let _ = out.extend_from_slice(octets);
}

/// Checks whether an Element header with the ID `id`, for `len` bytes of content, has two bytes, one for ID and size
/// each. The functions that measure or append a header take a quicker way then, as for most Elements in a Cluster.
pub(crate) fn is_short(id: u32, len: u64) -> bool
    ensures { result ≡ nat_lt id 256 && nat_lt len 127 }
{
    id < 256 && len < 127
}

/// Returns the length in bytes of an Element with the ID `id` and `len` bytes of content, with the shortest header.
/// Used for the lengths of blocks and groups before they are written.
pub fn element_len(id: u32, len: u64) -> u64
    requires id { IsTrue (is_id id) }
    requires len { len < all_ones 8 }
    ensures exact { result ≡ length (header_octets id len) + len }
    ensures most { result ≤ len + 16 }
{
    if is_short(id, len) {
        return 2 + len;
    }
    u64::from(put_id(id).len) + u64::from(size_width(len)) + len
}

/// Appends to `out` the shortest header of an Element with the ID `id` and `len` bytes of content. Allocates no memory.
/// Used for the blocks and groups of a Cluster.
pub fn add_header(out: &mut Vec<u8>, id: u32, len: u64)
    requires id { IsTrue (is_id id) }
    requires len { len < all_ones 8 }
    requires room { HasRoom out.old (length (header_octets id len)) }
    ensures { Adds out.old out.new (header_octets id len) }
{
    if is_short(id, len) {
        return add(out, &[id as u8, 0x80 + len as u8]);
    }
    add(out, put_id(id).as_slice());
    add(out, put_size(len, size_width(len)).as_slice());
}

// Checks whether an unsigned integer Element has three bytes: one each for ID, size and value. `uint_len` and
// `add_uint` take a quicker way then.
fn is_small(id: u32, value: u64) -> bool
    ensures { result ≡ nat_lt id 256 && nat_lt value 256 }
{
    id < 256 && value < 256
}

/// Returns the length in bytes of the unsigned integer Element with the ID `id` and the value `value`. Used for the
/// Timestamp and the BlockDuration.
pub fn uint_len(id: u32, value: u64) -> u64
    requires { IsTrue (is_id id) }
    ensures exact { result ≡ length (octets_of (uint_element id value)) }
    ensures most { result ≤ 24 }
{
    if is_small(id, value) {
        return 3;
    }
    element_len(id, u64::from(put_uint(value).len))
}

/// Appends to `out` the unsigned integer Element with the ID `id` and the value `value`. Allocates no memory. A
/// BlockDuration is written so.
pub fn add_uint(out: &mut Vec<u8>, id: u32, value: u64)
    requires id { IsTrue (is_id id) }
    requires room { HasRoom out.old (length (octets_of (uint_element id value))) }
    ensures { Adds out.old out.new (octets_of (uint_element id value)) }
{
    if is_small(id, value) {
        return add(out, &[id as u8, 0x81, value as u8]);
    }
    let octets = put_uint(value);
    add_header(out, id, u64::from(octets.len));
    add(out, octets.as_slice());
}
