//! AttachedFile elements: RFC 9559, section 5.1.6 (Attachments).

ghost use Rattle.std.specs.Prelude.{◌≡◌, is_none, IfOk};
ghost use Rattle.std.specs.Option.{option_map_or, option_or};
ghost use Rattle.mkv_schema.specs.declared.ids.TheConstants.{ATTACHED_FILE as ATTACHED_ID, FILE_UID as FILE_UID_ID};
ghost use Rattle.mkv_io.specs.Faults.{HasCause};
ghost use Rattle.mkv_io.specs.Sources.{IfTold, IsLive, file_size};
ghost use Rattle.mkv_schema.specs.declared.element.Header.{Header as HeaderSeen};
ghost use Rattle.mkv_schema.specs.Element.{damage, known, stated_end};
ghost use Rattle.mkv_schema.specs.Outline.{where_it};
ghost use Rattle.tree_format.specs.Standing.{IsSoundOf};
ghost use Rattle.tree_format.specs.Values.{uint_in};
ghost use Rattle.meta_records.specs.Attachments.{parts_in};
ghost use Rattle.meta_records.specs.Walk.{ArePartsOf, AreSoundParts, IfPartsOf, IsAttachedIn, IsAttachedOf, IsChild, IsMissingOf, Meets, PaysInside, data_at, is_attachments_fault};

use crate::counts::Counts;
use crate::end::MetaEnd;
use crate::part::{Part, read_part};
use ebml_tree::{Tree, empty};
use elements::{damage, known};
use mkv_io::{Damage, FileId, Kind, Reads};
use mkv_schema::Header;
use mkv_schema::ids::{ATTACHED_FILE, FILE_DATA, FILE_UID};
use output_model::Attachment;
use std::alloc::Global;

/// Parts of an AttachedFile: its tree with an empty FileData, and the header of its first FileData, if any
#[derive(Drop)]
pub(crate) struct Parts {
    pub entry: Tree,
    pub first: Option<Header>,
}

// Reads the children of the AttachedFile with the header `attached`, except the data, and adds them to `counts`. For
// `read_attached`, when the attached files of a file are read.
fn read_parts<R: Reads>(
    alloc: Global,
    src: &mut R,
    file: FileId,
    counts: &mut Counts,
    attached: &Header,
) -> Result<Parts, MetaEnd>
    requires live { IsLive R.Reads src.old file }
    requires child { IsChild attached.now.offset (file_size R.Reads src.old file) attached.now }
    ensures meets { IfTold R.Reads src.old file (λ b. Meets (parts_in b attached.now) counts.old counts.new result) }
    ensures exact { IfOk result (λ parts. IfTold R.Reads src.old file (λ b. ArePartsOf b attached.now parts)) }
    ensures sound { IfOk result (AreSoundParts (stated_end attached.now)) }
    ensures standing { R.standing src.new ≡ R.standing src.old }
    ensures cause { HasCause is_attachments_fault (R.reading_faults src.old) (R.reading_faults src.new) result }
    ensures pays { PaysInside attached.now counts.old counts.new (R.octets_read src.old) (R.octets_read src.new) result }
{
    let end = attached.body + known(attached.size);
    let mut entry = empty(alloc, ATTACHED_FILE, attached.offset)?;
    let mut first = None;
    let mut at = attached.body;
    while at < end {
        let Part { header, leaf } = read_part(alloc, src, file, counts, at, end)?;
        entry.push(leaf)?;
        first = first_data(first, &header);
        at = header.body + known(header.size);
    }
    entry.set(Tree::leaf(alloc, FILE_DATA, &[])?)?;
    Ok(Parts { entry, first })
}

// Returns the header of the first FileData of an AttachedFile: `first`, if one was found before, or `child` if it is
// one. Returns None if there is none up to `child`. For `read_parts`, when the attached files of a file are read.
fn first_data(first: Option<Header>, child: &Header) -> Option<Header>
    ensures { result ≡ option_or first (data_at child.now) }
{
    if child.id == FILE_DATA {
        first.or(Some(*child))
    } else {
        first
    }
}

// Returns the FileUID of the AttachedFile `entry`, or 0 if it is absent. For `attached_of`, when the attached files of
// a file are read.
fn uid_of(entry: &Tree) -> u64
    requires { IsSoundOf ATTACHED_ID entry.now }
    ensures { result ≡ uint_in FILE_UID_ID entry.now }
{
    match entry.child(FILE_UID) {
        Some(uid) => uid.uint(),
        None => 0,
    }
}

// Returns the offset in the file of an attached file's data, or 0 if there is none. `first` is the header of the first
// FileData. For `attached_of`, when the attached files of a file are read.
fn place_of(first: Option<Header>) -> u64
    ensures { result ≡ option_map_or (λ (h : HeaderSeen). h.body) first 0 }
{
    match first {
        Some(header) => header.body,
        None => 0,
    }
}

// Returns the length of an attached file's data in bytes, or 0 if there is none. `first` is the header of the first
// FileData. For `attached_of`, when the attached files of a file are read.
fn len_of(first: Option<Header>) -> u64
    ensures { result ≡ option_map_or (λ (h : HeaderSeen). known h.size) first 0 }
{
    match first {
        Some(header) => known(header.size),
        None => 0,
    }
}

// Returns the damage of the AttachedFile with the header `attached` if it has no FileData, and so `first` is absent.
// Returns None otherwise. For `attached_of`, when the attached files of a file are read.
fn missing_data(first: Option<Header>, attached: &Header) -> Option<Damage>
    ensures { result ≡ where_it (is_none first) (damage Kind.MissingChild FILE_DATA attached.now.offset) }
{
    match first {
        Some(_) => None,
        None => Some(damage(Kind::MissingChild, FILE_DATA, attached.offset)),
    }
}

/// Attached file that was read, and its damage if it has no data
#[derive(Drop)]
pub(crate) struct Attached {
    pub attachment: Attachment,
    pub missing: Option<Damage>,
}

// Returns the attached file in `file` with the header `attached` and the parts `parts`, and its damage if it has no
// data. For `read_attached`, when the attached files of a file are read.
fn attached_of(file: FileId, attached: &Header, parts: Parts) -> Attached
    requires { AreSoundParts (stated_end attached.now) parts }
    ensures exact { IfPartsOf attached.now parts (IsAttachedOf file attached.now result.attachment) }
    ensures missing { IfPartsOf attached.now parts (IsMissingOf attached.now result.missing) }
    ensures sound { IsAttachedIn file (stated_end attached.now) result.attachment }
{
    let Parts { entry, first } = parts;
    let attachment = Attachment {
        uid: uid_of(&entry),
        file,
        at: place_of(first),
        len: len_of(first),
        entry,
    };
    Attached {
        attachment,
        missing: missing_data(first, attached),
    }
}

/// Reads the AttachedFile with the header `attached` in `file`, and adds its children to `counts`. Its data stay
/// unread. Called for each AttachedFile of an Attachments.
pub(crate) fn read_attached<R: Reads>(
    alloc: Global,
    src: &mut R,
    file: FileId,
    counts: &mut Counts,
    attached: &Header,
) -> Result<Attached, MetaEnd>
    requires live { IsLive R.Reads src.old file }
    requires child { IsChild attached.now.offset (file_size R.Reads src.old file) attached.now }
    ensures meets { IfTold R.Reads src.old file (λ b. Meets (parts_in b attached.now) counts.old counts.new result) }
    ensures exact { IfOk result (λ one. IfTold R.Reads src.old file (IsAttachedOf file attached.now one.attachment)) }
    ensures missing { IfOk result (λ one. IfTold R.Reads src.old file (IsMissingOf attached.now one.missing)) }
    ensures sound { IfOk result (λ one. IsAttachedIn file (stated_end attached.now) one.attachment) }
    ensures standing { R.standing src.new ≡ R.standing src.old }
    ensures cause { HasCause is_attachments_fault (R.reading_faults src.old) (R.reading_faults src.new) result }
    ensures pays { PaysInside attached.now counts.old counts.new (R.octets_read src.old) (R.octets_read src.new) result }
{
    let parts = read_parts(alloc, src, file, counts, attached)?;
    Ok(attached_of(file, attached, parts))
}
