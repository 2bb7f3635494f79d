//! Values of an Info: RFC 9559, section 5.1.2 (Info).

ghost use Rattle.std.specs.Prelude.{◌≡◌, ◌<◌, ℕ, List, Some, Ok, IfOk};
ghost use Rattle.mkv_schema.specs.declared.ids.TheConstants.{INFO as INFO_ID};
ghost use Rattle.mkv_schema.specs.declared.element.Header.{Header};
ghost use Rattle.tree_format.specs.Standing.{IsSoundOf};
ghost use Rattle.file_format.specs.Info.{scale_of, info_refusal, first_info, info_tree, file_scale};
ghost use Rattle.meta_records.specs.Info.{IfFirst, info_of};

use ebml_tree::Tree;
use file_format::DEFAULT_SCALE;
use mkv_io::{Damage, Kind};
use mkv_schema::ids::TIMESTAMP_SCALE;

/// Values of an Info that the reader of blocks needs (RFC 9559, section 5.1.2, Info)
#[derive(Clone, Copy, Debug, PartialEq, Eq)]
pub struct Info {
    /// Nanoseconds per tick, at least 1
    pub scale: u64,
}

// Returns the nanoseconds per tick that the Info `info` gives, or the default, 1,000,000. For `read_info`.
fn scale_of(info: &Tree) -> u64
    requires { IsSoundOf INFO_ID info.now }
    ensures { result ≡ scale_of info.now }
{
    match info.child(TIMESTAMP_SCALE) {
        Some(scale) => scale.uint(),
        None => DEFAULT_SCALE,
    }
}

// Returns the damage of the Info `info` if its TimestampScale is 0, or None. For `read_info`.
fn refusal_of(info: &Tree) -> Option<Damage>
    requires { IsSoundOf INFO_ID info.now }
    ensures { result ≡ info_refusal info.now }
{
    let scale = info.child(TIMESTAMP_SCALE)?;
    if scale.uint() > 0 {
        return None;
    }
    Some(Damage {
        kind: Kind::BadValue,
        id: TIMESTAMP_SCALE,
        offset: scale.offset(),
    })
}

/// Returns the values of the Info `info`. Fails with `BadValue` at its TimestampScale if that is 0. An empty or absent
/// one is 1,000,000, the default. Used by all that needs a file's tick.
pub fn read_info(info: &Tree) -> Result<Info, Damage>
    requires { IsSoundOf INFO_ID info.now }
    ensures exact { result ≡ info_of info.now }
    ensures some { IfOk result (λ values. 0 < values.scale) }

    // The scale of a file's first Info is the file's.
    ensures file { IfFirst info.now (λ bytes segment. IfOk result (λ values. values.scale ≡ file_scale bytes segment)) }
{
    match refusal_of(info) {
        Some(damage) => Err(damage),
        None => Ok(Info {
            scale: scale_of(info),
        }),
    }
}
