//! The whole identification of a file, as a JSON value and as its line of text.

ghost use Rattle.std.specs.Prelude.{◌≡◌, IfOk};
ghost use Rattle.serde_json.specs.View.{view};
ghost use Rattle.meta_records.specs.Records.{described_by};
ghost use Rattle.mkv_info.specs.Identification.{identification, identification_line};
ghost use Rattle.mkv_info.specs.Sound.{CanBeTold};

use crate::attachments::attachments_value;
use crate::chapters::{chapter_count, entries_value};
use crate::container::container_value;
use crate::tags::{Scope, tag_count, track_tags_value};
use crate::told_tracks::tracks_value;
use meta_records::Records;
use mkv_io::Text;
use serde_json::{Map, Value, put};
use std::alloc::{AllocError, Global};

/// Makes the line of JSON that `merge -J` prints for the file `name` with the records `records`. `tell` prints it.
pub fn identify(alloc: Global, name: &str, records: &Records) -> Result<Text, AllocError>
    requires { CanBeTold records.now }
    ensures { IfOk result (λ line. line ≡ identification_line name.now (described_by records.now)) }
{
    let value = identification(alloc, name, records)?;
    Ok(Text::from_string(value.to_string(alloc)?))
}

// Makes the JSON object that identifies the file `name` with the records `records`, for `identify`. Its keys are
// sorted.
#[tactic(auto, unfolding(crate::specs::Identification::identification))]
fn identification(alloc: Global, name: &str, records: &Records) -> Result<Value, AllocError>
    requires { CanBeTold records.now }
    ensures { IfOk result (λ value. view value ≡ identification name.now (described_by records.now)) }
{
    let mut object = Map::new(alloc);
    let attachments = attachments_value(alloc, records.attachments.as_slice())?;
    put(&mut object, alloc, "attachments", attachments)?;
    let chapters = entries_value(alloc, chapter_count(&records.chapters)?)?;
    put(&mut object, alloc, "chapters", chapters)?;
    let container = container_value(alloc, &records.info)?;
    put(&mut object, alloc, "container", container)?;
    let file_name = Value::try_from_str(alloc, name)?;
    put(&mut object, alloc, "file_name", file_name)?;
    let global_tags = entries_value(alloc, tag_count(&records.tags, Scope::Global)?)?;
    put(&mut object, alloc, "global_tags", global_tags)?;
    let track_tags = track_tags_value(alloc, &records.tags, records.tracks.as_slice())?;
    put(&mut object, alloc, "track_tags", track_tags)?;
    let tracks = tracks_value(alloc, records.tracks.as_slice())?;
    put(&mut object, alloc, "tracks", tracks)?;
    Ok(Value::Object(object))
}
