//! The TimestampScale of a file that is indexed.

ghost use Rattle.std.specs.Prelude.{◌≡◌, ◌≤◌, IfSome, Ok};
ghost use Rattle.mkv_schema.specs.declared.ids.TheConstants.{INFO};
ghost use Rattle.ebml_tree.specs.Building.{IsRead};
ghost use Rattle.meta_records.specs.Records.{good_info, scale_of_info};

use ebml_tree::Tree;
use meta_records::{DEFAULT_SCALE, read_info};

/// Returns the nanoseconds per tick of a file with the first Info `info`, which was checked; 1,000,000 without an Info.
/// Used by `read_points`.
pub fn scale_of(info: &Option<Tree>) -> u64
    requires { IfSome info.now (IsRead INFO) }
    ensures value { good_info info.now ≡ Ok info.now → result ≡ scale_of_info info.now }
    ensures some { 1 ≤ result }
{
    let Some(info) = info else {
        return DEFAULT_SCALE;
    };
    match read_info(info) {
        Ok(values) => values.scale,
        Err(_) => DEFAULT_SCALE,
    }
}
