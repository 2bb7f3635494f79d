//! Look-ups in the table by ID. Each goes through the 107 rows in order, up to the row of the ID. The look-up of a
//! Global Element's parent does so twice.
ghost use Rattle.std.specs.Prelude.{◌≡◌, ◌≢◌, ◌<◌, ◌^◌, ◌↔◌, ℕ, nat_eq, false, Some, IsTrue, IsSome, IfSome, All};
ghost use Rattle.std.specs.Option.{option_map, option_copied};
ghost use Rattle.std.specs.List.{IsDistinct};
ghost use Rattle.ebml_numbers.specs.Number.{is_id};
ghost use Rattle.mkv_schema.specs.Schema.{table_ids, name_of, kind_of, is_master, is_level0, is_level1, allows, may_stand, kind_under, uint_default, text_default};

use crate::ids::{CHAPTER_DISPLAY, SEGMENT};
use crate::kind::{ElementKind, Row};
use crate::parents::Parents;
use crate::table::{DefaultValue, look_up};

/// Returns the row of the ID `id`, which has its marker bit, or None if the table doesn't have it. Readers and messages
/// find the name and kind of an Element with it.
#[tactic(auto, using(crate::proofs::SchemaLemmas::laws))]
pub fn row(id: u32) -> Option<Row>
    ensures id { IfSome result (λ row. row.id ≡ id) }
    ensures name { option_map (λ row. row.name.now) result ≡ name_of id }
    ensures kind { option_map (λ row. row.kind) result ≡ kind_of id }

    // No two rows share an ID, and each ID except ChapterDisplay's is a valid one.
    ensures distinct { IsDistinct nat_eq table_ids }
    ensures below { All (λ n. n < 2 ^ 32) table_ids }
    ensures valid { IsSome result → id ≢ CHAPTER_DISPLAY → IsTrue (is_id id) }
{
    look_up(id).map(|entry| entry.row)
}

/// Checks whether the table has `id` as a master, whose content is read as Elements. Readers of trees ask for each
/// child. Used by `allows` and others.
pub fn is_master(id: u32) -> bool
    ensures exact { result ≡ is_master id }
    ensures kind { IsTrue result ↔ (kind_of id ≡ Some ElementKind.Master) }
{
    look_up(id).is_some_and(|entry| entry.row.kind == ElementKind::Master)
}

/// Checks whether the table has `id` at level 0: EBML, or Segment (RFC 8794, section 8, EBML Document). Such an Element
/// ends a Segment or Cluster of unknown size. Used by `ends_segment` of `elements`.
#[tactic(auto, using(crate::proofs::SchemaLemmas::laws))]
pub fn is_level0(id: u32) -> bool
    ensures exact { result ≡ is_level0 id }
    ensures master { IsTrue result → IsTrue (is_master id) }
    ensures root { IsTrue result → (parent : ℕ) → may_stand id parent ≡ false }
{
    look_up(id).is_some_and(|entry| entry.parents == Parents::Root)
}

/// Checks whether the table has `id` as a child of Segment (RFC 9559, section 5.1, Segment Element). This excludes Void
/// and CRC-32, which any master may have. Such an Element ends a Cluster of unknown size. Used by `ends_cluster` of
/// `elements`.
#[tactic(auto, using(crate::proofs::SchemaLemmas::laws))]
pub fn is_level1(id: u32) -> bool
    ensures exact { result ≡ is_level1 id }
    ensures master { IsTrue result → IsTrue (is_master id) }
    ensures child { IsTrue result → IsTrue (may_stand id SEGMENT) }
{
    look_up(id).is_some_and(|entry| entry.parents == Parents::ChildOf(SEGMENT))
}

/// Checks whether an Element `id` may be a direct child of an Element `parent`. Level 0 isn't a parent. Every master
/// may have Void and CRC-32 (RFC 8794, section 11.3, Global Elements). Readers of trees check each child so. Used by
/// `is_master_in` of `ebml_tree`.
#[tactic(auto, using(crate::proofs::SchemaLemmas::laws))]
pub fn may_stand(id: u32, parent: u32) -> bool
    ensures exact { result ≡ may_stand id parent }
    ensures known { IsTrue result → IsSome (kind_of id) }
    ensures parent { IsTrue result → IsTrue (is_master parent) }
{
    look_up(id).is_some_and(|entry| allows(entry.parents, id, parent))
}

/// Returns the kind of an Element `id` as a direct child of `parent`, or None if the table doesn't have it there. The
/// check of a leaf's value uses it.
#[tactic(auto, using(crate::proofs::SchemaLemmas::laws))]
pub fn kind_under(id: u32, parent: u32) -> Option<ElementKind>
    ensures { result ≡ kind_under id parent }
{
    let entry = look_up(id)?;
    allows(entry.parents, id, parent).then_some(entry.row.kind)
}

/// Checks whether the ID `parent` is one of the parents `parents` of the Element `id`, for `may_stand` and
/// `kind_under`.
fn allows(parents: Parents, id: u32, parent: u32) -> bool
    ensures { result ≡ allows parents id parent }
{
    match parents {
        Parents::Root => false,
        Parents::AnyMaster => is_master(parent),
        Parents::ChildOf(own) => parent == own,
        Parents::ChildOfOrItself(own) => parent == own || parent == id,
    }
}

/// Returns the default of the integer Element `id`, which is its value if it is empty or missing. Returns None if the
/// standards give none. Readers of unsigned integers use it.
#[tactic(auto, using(crate::proofs::SchemaLemmas::laws))]
pub fn uint_default(id: u32) -> Option<u64>
    ensures exact { result ≡ uint_default id }
    ensures kind { IsSome result → kind_of id ≡ Some ElementKind.Uint }
{
    match look_up(id)?.default {
        Some(DefaultValue::Number(number)) => Some(number),
        _ => None,
    }
}

/// Returns the default of the text Element `id`, which is its value if it is missing: `eng` for Language and
/// ChapLanguage. Returns None if the standards give none. Readers of texts use it.
#[tactic(auto, using(crate::proofs::SchemaLemmas::laws))]
pub fn text_default(id: u32) -> Option<&'static str>
    ensures exact { option_copied result ≡ text_default id }
    ensures kind { IsSome result → kind_of id ≡ Some ElementKind.Ascii }
{
    match look_up(id)?.default {
        Some(DefaultValue::Text(text)) => Some(text),
        _ => None,
    }
}
