//! Records of an output that are merged from its inputs

ghost use Rattle.std.specs.Prelude.{◌≡◌, All, IfOk, IfSome};
ghost use Rattle.mkv_schema.specs.declared.ids.TheConstants.{CHAPTERS, TAGS};
ghost use Rattle.ebml_tree.specs.Building.{IsRead};
ghost use Rattle.output_model.specs.Sound.{IsRecord};
ghost use Rattle.output_records.specs.Attachments.{merged_attachments};
ghost use Rattle.output_records.specs.Chapters.{joined_chapters, merged_chapters};
ghost use Rattle.output_records.specs.Inputs.{IsAttached, IsInput};
ghost use Rattle.output_records.specs.Tags.{HaveShortNumbers, numbers_of, merged_tags};

use crate::attachments::{attachments_of, file_numbers};
use crate::chapters::{chapter_numbers, edition_numbers, joined_chapters};
use crate::inputs::InputRecords;
use crate::records::with_some;
use crate::tags::joined_tags;
use crate::uids::Uids;
use ebml_tree::Tree;
use mkv_io::List;
use output_model::Attachment;
use record_changes::with_identifiers;
use std::alloc::{AllocError, Global};

/// Attached files, Chapters and Tags of an output
#[derive(Drop)]
pub struct MergedRecords {
    /// Attached files, each with its FileUID in the output
    pub attachments: List<Attachment>,
    /// Chapters, if there is an edition
    pub chapters: Option<Tree>,
    /// Tags, if there is a Tag
    pub tags: Option<Tree>,
}

// Returns the output's identifiers for the editions, chapters and attached files of all inputs, in their order.
// `joined` has the Chapters of all inputs. Used by `merge_records`.
fn numbers_of(alloc: Global, inputs: &[InputRecords], joined: &Tree) -> Result<Uids, AllocError>
    requires read { IsRead CHAPTERS joined.now }
    requires joined { joined.now ≡ joined_chapters inputs.now }
    ensures { IfOk result (λ numbers. numbers ≡ numbers_of inputs.now) }
{
    Ok(Uids {
        editions: edition_numbers(alloc, joined)?,
        chapters: chapter_numbers(alloc, joined)?,
        attachments: file_numbers(alloc, inputs)?,
    })
}

/// Merges the attached files, Chapters and Tags of all inputs into the ones of the output, when `merge` plans it.
///
/// The attached files and editions of all inputs follow in sequence, with the output's FileUIDs, EditionUIDs and
/// ChapterUIDs. For each kind, the first use of a positive identifier keeps it. The kept Tags follow, with the output's
/// identifiers in their targets. If an identifier is used twice in an input, its first use counts.
pub fn merge_records(alloc: Global, inputs: &[InputRecords]) -> Result<MergedRecords, AllocError>
    requires { All IsInput inputs.now }
    ensures attachments { IfOk result (λ made. made.attachments ≡ merged_attachments inputs.now) }
    ensures chapters { IfOk result (λ made. made.chapters ≡ merged_chapters inputs.now) }
    ensures tags { IfOk result (λ made. made.tags ≡ merged_tags inputs.now) }

    // The records can be written and read again.
    ensures attached { IfOk result (λ made. All IsAttached made.attachments) }
    ensures chaptered { IfOk result (λ made. IfSome made.chapters (IsRecord CHAPTERS)) }
    ensures tagged { IfOk result (λ made. IfSome made.tags (IsRecord TAGS)) }

    // The identifiers have 64 bits.
    ensures numbers { IfOk result (λ _. HaveShortNumbers (numbers_of inputs.now)) }
{
    let joined = joined_chapters(alloc, inputs)?;
    let numbers = numbers_of(alloc, inputs, &joined)?;
    let edition_uids = numbers.editions.as_slice();
    let chapter_uids = numbers.chapters.as_slice();
    let file_uids = numbers.attachments.as_slice();
    let attachments = attachments_of(alloc, inputs, file_uids)?;
    let chapters = with_identifiers(alloc, &joined, edition_uids, chapter_uids)?;
    let tags = joined_tags(alloc, inputs, &numbers)?;
    Ok(MergedRecords {
        attachments,
        chapters: with_some(chapters),
        tags: with_some(tags),
    })
}
