//! The room of an Element at level 1: its own bytes and the Voids that follow it directly.

ghost use Rattle.std.specs.Prelude.{◌≡◌, ◌≤◌, ◌==◌, if◌then◌else◌};
ghost use Rattle.mkv_schema.specs.Element.{stated_end};
ghost use Rattle.element_reader.specs.Collected.{IsInFile};
ghost use Rattle.edit_changes.specs.Plan as plan;
ghost use Rattle.edit_changes.specs.Span as spec;
ghost use Rattle.edit_changes.specs.Written.{behind_void};

use element_reader::{Header, Outline};
use elements::known;
use mkv_schema::ids::VOID;

/// Returns the offset after the Element with this header, whose size is known. `total` is the length of the file.
/// `span_of` and `end_behind` call it.
fn end_of(total: u64, header: &Header) -> u64
    requires inside { stated_end header.now ≤ total }
    ensures exact { result ≡ stated_end header.now }
{
    header.body + known(header.size)
}

/// Returns the offset after `next` if it is a Void that begins at `end`, or else `end`, in a file of `total` bytes. It
/// is one step of `span_of` over the Voids after an Element.
fn end_behind(total: u64, end: u64, next: &Header) -> u64
    requires next { stated_end next.now ≤ total }
    requires end { end ≤ total }
    ensures exact { result ≡ behind_void end next.now }
    ensures most { result ≤ total }
{
    if next.id == VOID && next.offset == end {
        return end_of(total, next);
    }
    end
}

/// Returns the room in bytes of the Element at level 1 with this `header`: its length and the Voids that follow it
/// directly in `outline`. A plan asks for it for the Info, Tracks, SeekHead and Cues. Used by `part` of `edit_plan` and
/// others.
#[tactic(auto, using(crate::proofs::OutlineLemmas::spans))]
pub fn span_of(outline: &Outline, header: &Header) -> u64
    requires { IsInFile outline.now.total header.now }
    ensures exact { result ≡ spec.span_of header.now outline.now.others }
    ensures most { result ≤ outline.now.total }
{
    let total = outline.total();
    let mut end = end_of(total, header);
    for k in 0..outline.count() {
        end = end_behind(total, end, &outline.at(k));
    }
    end.saturating_sub(header.offset)
}

/// Returns 1 if the Element with this header has the ID `id`, and 0 if not, for `number_of`.
fn one_of(id: u32, header: &Header) -> u64
    ensures exact { result ≡ if header.now.id == id then 1 else 0 }
    ensures most { result ≤ 1 }
{
    if header.id == id { 1 } else { 0 }
}

/// Returns the number of Elements with the ID `id`, other than Clusters, at level 1 of the file with this outline. An
/// Element with a twin can't move. Used by `twin_refusal`.
#[tactic(auto, using(crate::proofs::OutlineLemmas::numbers))]
pub fn number_of(outline: &Outline, id: u32) -> u64
    ensures { result ≡ plan.number_of id outline.now.others }
{
    let mut number = 0;
    for k in 0..outline.count() {
        number += one_of(id, &outline.at(k));
    }
    number
}
