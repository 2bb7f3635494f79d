//! Limits on the length of Elements.

ghost use Rattle.std.specs.Prelude.{◌≡◌};
ghost use Rattle.mkv_schema.specs.Outline.{over};

use elements::{damage_at, known};
use mkv_io::{Damage, Kind};
use mkv_schema::Header;

/// Returns the damage of the Element `header` if its data has more than `limit` bytes, or None. Used before the data of
/// the EBML header or another Element is read.
pub fn over(limit: u64, header: &Header) -> Option<Damage>
    ensures { result ≡ over limit header.now }
{
    if known(header.size) <= limit {
        return None;
    }
    Some(damage_at(Kind::HeaderTooLarge, header))
}
