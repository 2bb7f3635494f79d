//! Trees that are written in the normal form.

ghost use Rattle.std.specs.Prelude.{◌≡◌, ◌≤◌, ◌<◌, ◌^◌, ◌++◌, ℕ, List, length, take, OnOk, OnErr, IsTrue};
ghost use Rattle.ebml_numbers.specs.Number.{is_written_id};
ghost use Rattle.tree_format.specs.NormalForm.{is_filler, header_octets, kept_octets, longest};

use ebml_numbers::{put_id, put_size, size_width};
use mkv_schema::ids::{CRC_32, VOID};
use std::alloc::AllocError;

// Maximum number of bytes after an Element's header (RFC 8794, section 6.2, Unknown Data Size).
pub(super) const LONGEST: u64 = 0xFF_FFFF_FFFF_FFFE;

// Checks whether Elements with the ID `id` are left out when a tree is written: Void, and CRC-32 (RFC 8794, section
// 11.3, Global Elements). `write` and `element_len` call it.
pub(super) fn is_filler(id: u32) -> bool
    ensures { result ≡ is_filler id }
{
    id == VOID || id == CRC_32
}

// Returns the length in bytes of an Element with the ID `id` and `written` bytes of content, or 0 if it is left out.
// `written_len` adds them up.
#[tactic(auto, using(crate::proofs::ContentLemmas::lengths))]
pub(super) fn element_len(id: u32, written: u64) -> u64
    requires id { IsTrue (is_written_id id) }
    requires most { written ≤ longest }
    ensures exact { (body : List ℕ) → length body ≡ written → result ≡ length (kept_octets id body) }
    ensures most { result < 2 ^ 57 }
{
    if is_filler(id) {
        return 0;
    }
    u64::from(put_id(id).len) + u64::from(size_width(written)) + written
}

// Appends the header of an Element with the ID `id` and `written` bytes of content to `out`, before a tree's content.
// If memory runs out, `out` may have gained a part of it. `write` begins with it.
#[tactic(auto, using(crate::proofs::ContentLemmas::lengths))]
pub(super) fn write_header(id: u32, written: u64, out: &mut Vec<u8>) -> Result<(), AllocError>
    requires id { IsTrue (is_written_id id) }
    requires most { written ≤ longest }
    ensures ok { OnOk result (out.new.items ≡ out.old.items ++ header_octets id written) }
    ensures err { OnErr result (take (length out.old.items) out.new.items ≡ out.old.items) }
{
    out.extend_from_slice(put_id(id).as_slice())?;
    out.extend_from_slice(put_size(written, size_width(written)).as_slice())?;
    Ok(())
}
