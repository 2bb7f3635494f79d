//! The attached files in the JSON of `merge -J`: RFC 9559, section 5.1.6 (Attachments Element).

ghost use Rattle.std.specs.Prelude.{◌≡◌, All, IfOk, map};
ghost use Rattle.serde_json.specs.View.{view};
ghost use Rattle.meta_records.specs.Attached.{in_file};
ghost use Rattle.mkv_info.specs.Attachments.{attachment_value, attachments_value};
ghost use Rattle.mkv_info.specs.Sound.{IsAttached};

use crate::values::text_or_empty;
use mkv_schema::ids::{FILE_DESCRIPTION, FILE_MEDIA_TYPE, FILE_NAME};
use output_model::Attachment;
use serde_json::{Value, json};
use std::alloc::{AllocError, Global};

/// Makes the value of the key `attachments` in the JSON of `merge -J`: a list of the attached files in their order in
/// the file, numbered from 1. Their data isn't read.
pub(crate) fn attachments_value(
    alloc: Global,
    attachments: &[Attachment],
) -> Result<Value, AllocError>
    requires { All IsAttached attachments.now }
    ensures { IfOk result (λ value. view value ≡ attachments_value (map in_file attachments.now)) }
{
    let mut values = Vec::new(alloc);
    for (index, attachment) in attachments.iter().enumerate() {
        values.push(attachment_value(alloc, index as u64 + 1, attachment)?)?;
    }
    Ok(Value::Array(values))
}

// Makes the object of the attached file `attachment` with the number `id`, counted from 1, for `attachments_value`.
#[tactic(auto, using(crate::proofs::ValueLemmas::known))]
fn attachment_value(alloc: Global, id: u64, attachment: &Attachment) -> Result<Value, AllocError>
    requires { IsAttached attachment.now }
    ensures { IfOk result (λ value. view value ≡ attachment_value id (in_file attachment.now)) }
{
    let entry = &attachment.entry;
    json!(in alloc; {
        "content_type": text_or_empty(entry, FILE_MEDIA_TYPE),
        "description": text_or_empty(entry, FILE_DESCRIPTION),
        "file_name": text_or_empty(entry, FILE_NAME),
        "id": id,
        "properties": {"uid": attachment.uid},
        "size": attachment.len
    })
}
