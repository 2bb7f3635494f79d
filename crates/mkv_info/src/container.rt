//! Properties of the whole file in the JSON of `merge -J`: RFC 9559, section 5.1.2 (Info Element).

ghost use Rattle.std.specs.Prelude.{◌≡◌, IfOk, IfSome};
ghost use Rattle.std.specs.Option.{option_copied};
ghost use Rattle.serde_json.specs.View.{view};
ghost use Rattle.meta_records.specs.Records.{IsGoodInfo};
ghost use Rattle.mkv_info.specs.Identification.{container_value, container_properties, title_of};

use crate::json::put_if;
use crate::values::{string_if, text_or_empty, unless_empty};
use ebml_tree::Tree;
use meta_records::scale_of;
use mkv_schema::ids::TITLE;
use serde_json::{Map, Value, json, put};
use std::alloc::{AllocError, Global};

/// Makes the value of the key `container` in the JSON of `merge -J`, for a file with the first Info `info`, if any: its
/// TimestampScale and Title as `properties`, and that it is Matroska.
pub(crate) fn container_value(alloc: Global, info: &Option<Tree>) -> Result<Value, AllocError>
    requires { IfSome info.now IsGoodInfo }
    ensures { IfOk result (λ value. view value ≡ container_value info.now) }
{
    let properties = container_properties(alloc, info)?;
    json!(in alloc; {
        "properties": properties,
        "recognized": true,
        "supported": true,
        "type": "Matroska"
    })
}

// Makes the properties of the whole file from its first Info, `info`, for `container_value`. They are TimestampScale in
// nanoseconds per tick, and Title, which is left out if it is empty.
fn container_properties(alloc: Global, info: &Option<Tree>) -> Result<Value, AllocError>
    requires { IfSome info.now IsGoodInfo }
    ensures { IfOk result (λ value. view value ≡ container_properties info.now) }
{
    let title = string_if(alloc, title_of(info))?;
    let mut properties = Map::new(alloc);
    put(
        &mut properties,
        alloc,
        "timestamp_scale",
        Value::from(scale_of(info)),
    )?;
    put_if(&mut properties, alloc, "title", title)?;
    Ok(Value::Object(properties))
}

// Returns the Title of `info`, the file's first Info, or None if it is empty or absent. `container_properties` calls
// it.
#[tactic(auto, using(crate::proofs::ValueLemmas::known))]
fn title_of(info: &Option<Tree>) -> Option<&str>
    requires { IfSome info.now IsGoodInfo }
    ensures { option_copied result ≡ title_of info.now }
{
    let Some(info) = info else {
        return None;
    };
    unless_empty(text_or_empty(info, TITLE))
}
