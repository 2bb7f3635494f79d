//! The tracks in the JSON of `merge -J`: RFC 9559, section 5.1.4 (Tracks Element).

ghost use Rattle.std.specs.Prelude.{◌≡◌, ◌++◌, All, IfOk, codes};
ghost use Rattle.std.specs.Option.{option_map};
ghost use Rattle.serde_json.specs.Data.{string};
ghost use Rattle.serde_json.specs.View.{view};
ghost use Rattle.mkv_schema.specs.declared.ids.TheConstants.{VIDEO as VIDEO_ID};
ghost use Rattle.tree_format.specs.Node.{id_of};
ghost use Rattle.tree_format.specs.Standing.{IsSoundOf};
ghost use Rattle.tree_format.specs.Values.{HasUint};
ghost use Rattle.track_records.specs.Sound.{IsEntry};
ghost use Rattle.mkv_info.specs.Json.{object_of};
ghost use Rattle.mkv_info.specs.ToldTracks.{dimensions_of, dimensions_text, flag, pixels_in, properties_of, track_value, tracks_value};

use crate::json::put_if;
use crate::values::{number_if, string_if, text_or_empty, unless_empty};
use ebml_tree::{Tree, integer_in, text_in, uint_in};
use mkv_schema::ids::{
    FLAG_DEFAULT, FLAG_ENABLED, FLAG_FORCED, LANGUAGE_BCP47, NAME, PIXEL_HEIGHT, PIXEL_WIDTH, VIDEO,
};
use serde_json::{Map, Value, json, put};
use std::alloc::{AllocError, Global};
use track_records::Track;

/// Makes the value of the key `tracks` in the JSON of `merge -J`: a list of the tracks in their order in the file,
/// numbered from 0.
pub(crate) fn tracks_value(alloc: Global, tracks: &[Track]) -> Result<Value, AllocError>
    requires { All (λ t. IsEntry t.entry) tracks.now }
    ensures { IfOk result (λ value. view value ≡ tracks_value tracks.now) }
{
    let mut values = Vec::new(alloc);
    for (index, track) in tracks.iter().enumerate() {
        values.push(track_value(alloc, index, track)?)?;
    }
    Ok(Value::Array(values))
}

// Makes the object of `track`, which has the index `id`, from 0, for `tracks_value`.
fn track_value(alloc: Global, id: usize, track: &Track) -> Result<Value, AllocError>
    requires { IsEntry track.now.entry }
    ensures { IfOk result (λ value. view value ≡ track_value id track.now) }
{
    let properties = properties_of(alloc, track)?;
    json!(in alloc; {
        "codec": track.codec.as_str(),
        "id": id,
        "properties": properties,
        "type": track.type_name()
    })
}

// Makes the object with the properties of `track`, for `track_value`. An absent property is left out.
#[tactic(auto, using(crate::proofs::ValueLemmas::known))]
fn properties_of(alloc: Global, track: &Track) -> Result<Value, AllocError>
    requires { IsEntry track.now.entry }
    ensures { IfOk result (λ value. view value ≡ object_of (properties_of track.now)) }
{
    let entry = &track.entry;
    let mut properties = Map::new(alloc);
    let codec = Value::try_from_str(alloc, track.codec.as_str())?;
    put(&mut properties, alloc, "codec_id", codec)?;
    put_if(
        &mut properties,
        alloc,
        "default_duration",
        number_if(track.default_duration),
    )?;
    put(
        &mut properties,
        alloc,
        "default_track",
        flag(entry, FLAG_DEFAULT),
    )?;
    put(
        &mut properties,
        alloc,
        "enabled_track",
        flag(entry, FLAG_ENABLED),
    )?;
    put(
        &mut properties,
        alloc,
        "forced_track",
        flag(entry, FLAG_FORCED),
    )?;
    let language = Value::try_from_str(alloc, track.language.as_str())?;
    put(&mut properties, alloc, "language", language)?;
    let bcp47 = string_if(alloc, text_in(entry, LANGUAGE_BCP47))?;
    put_if(&mut properties, alloc, "language_ietf", bcp47)?;
    put(&mut properties, alloc, "number", Value::from(track.number))?;
    let dimensions = dimensions_of(alloc, entry)?;
    put_if(&mut properties, alloc, "pixel_dimensions", dimensions)?;
    let name = string_if(alloc, unless_empty(text_or_empty(entry, NAME)))?;
    put_if(&mut properties, alloc, "track_name", name)?;
    put(&mut properties, alloc, "uid", Value::from(track.uid))?;
    Ok(Value::Object(properties))
}

// Returns the flag with the ID `id` in `entry`, a TrackEntry, as a JSON boolean, for `properties_of`. If it is absent,
// it is the default of the Matroska table.
fn flag(entry: &Tree, id: u32) -> Value
    requires entry { IsEntry entry.now }
    requires uint { HasUint (id_of entry.now) id }
    ensures { view result ≡ flag id entry.now }
{
    Value::Bool(uint_in(entry, id) != 0)
}

// Returns the pixel dimensions in the first Video of `entry`, a TrackEntry, as `WIDTHxHEIGHT`, for `properties_of`;
// None if one is absent. Used by `properties_of`.
fn dimensions_of(alloc: Global, entry: &Tree) -> Result<Option<Value>, AllocError>
    requires { IsEntry entry.now }
    ensures { IfOk result (λ value. option_map view value ≡ option_map string (dimensions_of entry.now)) }
{
    match entry.child(VIDEO) {
        Some(video) => pixels_in(alloc, video),
        None => Ok(None),
    }
}

// Returns PixelWidth and PixelHeight of `video`, a Video, as `WIDTHxHEIGHT`, or None if one is absent. `dimensions_of`
// calls it.
#[tactic(auto, using(crate::proofs::ValueLemmas::known))]
fn pixels_in(alloc: Global, video: &Tree) -> Result<Option<Value>, AllocError>
    requires { IsSoundOf VIDEO_ID video.now }
    ensures { IfOk result (λ value. option_map view value ≡ option_map string (pixels_in video.now)) }
{
    match (
        integer_in(video, PIXEL_WIDTH),
        integer_in(video, PIXEL_HEIGHT),
    ) {
        (Some(width), Some(height)) => {
            let text = format!(in alloc; "{width}x{height}")?;
            Ok(Some(Value::from(text)))
        }
        _ => Ok(None),
    }
}
