//! JSON objects and arrays that are built step by step.

ghost use Rattle.std.specs.Prelude.{OnErr, OnOk};
ghost use Rattle.mkv_info.specs.Put.{PutsMember};

use serde_json::{Map, Value, put};
use std::alloc::{AllocError, Global};

/// Puts the member `key` with `value` into `object`, or leaves the object as it is if there is no value. Optional
/// properties of a track or file are put so. Used by `container_properties` and `properties_of`.
pub(crate) fn put_if(
    object: &mut Map<String, Value>,
    alloc: Global,
    key: &str,
    value: Option<Value>,
) -> Result<(), AllocError>
    ensures { OnOk result (PutsMember key.now value object.old.entries object.new.entries) }
{
    match value {
        Some(value) => put(object, alloc, key, value),
        None => Ok(()),
    }
}
