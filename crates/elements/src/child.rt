//! The children of a master whose data is in memory: RFC 8794, section 7.7 (Master Element).

ghost use Rattle.std.specs.Prelude.{◌≡◌, ℕ, ◌+◌, ◌^◌, ◌<◌, ◌≤◌, List, length, IfOk};
ghost use Rattle.mkv_schema.specs.Element.{known, stated_end};
ghost use Rattle.mkv_schema.specs.Placed.{StandsAt, IsWhole};
ghost use Rattle.mkv_schema.specs.Value.{body_of};
ghost use Rattle.elements.specs.Parent.{setting_of};
ghost use Rattle.elements.specs.Body.{IsBody, IsChildAt};

use crate::header::read_header;
use crate::parent::Parent;
use ebml_numbers::Size;
use mkv_io::Damage;
use mkv_schema::Header;

/// Returns the header of the child at the offset `at` of a file of `total` bytes, or its damage. The master's data is
/// `body`, at the offset `base` of the file; `parent` is its kind. Used for the EBML header and for BlockGroups, which
/// are read whole.
pub fn child_at(
    parent: Parent,
    body: &[u8],
    base: u64,
    total: u64,
    at: u64,
) -> Result<Header, Damage>
    requires from { base ≤ at }
    requires inside { at < base + length body.now }
    requires short { base + length body.now ≤ 2 ^ 63 }
    ensures exact { IsChildAt (setting_of parent) base total body.now at result }
    ensures placed { IfOk result (StandsAt at (base + length body.now)) }
    ensures whole { IfOk result (IsWhole (setting_of parent) (base + length body.now)) }
{
    let end = base + body.len() as u64;
    read_header(&body[(at - base) as usize..], parent, total, at, end)
}

/// Returns the bytes of the data of `child`. Its master's data is `body`, at the offset `base` of the file. Used for
/// the values of the EBML header and of BlockGroups.
pub fn body_in<'a>(body: &'a [u8], base: u64, child: &Header) -> &'a [u8]
    requires from { base ≤ child.now.body }
    requires inside { stated_end child.now ≤ base + length body.now }
    ensures { (bytes : List ℕ) (total : ℕ) → IsBody bytes base total body.now → result.now ≡ body_of bytes child.now }
{
    let start = (child.body - base) as usize;
    &body[start..start + known(child.size) as usize]
}

/// Returns the number of bytes of an Element's data with the size `size`, or 0 if its size is unknown. Used by all
/// readers of Elements.
pub fn known(size: Size) -> u64
    ensures { result ≡ known size }
{
    match size {
        Size::Known(octets) => octets,
        Size::Unknown => 0,
    }
}
