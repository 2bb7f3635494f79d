//! Options of the whole output of a merge, collected from its items.

ghost use Rattle.std.specs.Prelude.{◌≡◌, IfOk};
ghost use Rattle.merge_words.specs.Output as spec;

use crate::attached::attached;
use crate::files::files;
use crate::item::{Item, stands};
use crate::options::Subject;
use crate::said::{file_in, numbers_copy, value_in};
use mkv_io::{List, Text};
use requests::{MergeWords, SplitWords};
use std::alloc::{AllocError, Global};
use word_values::{Value, name};

const DEFAULT_SCALE: u64 = 1_000_000;

const DEFAULT_BLOCKS: u32 = 65_535;

const DEFAULT_SPAN: u64 = 5_000_000_000;

/// Returns the request of the merge that the items `items` of a complete command line ask for. `read_merge` calls it
/// last.
#[tactic(auto, unfolding(crate::specs::Output::merge_words))]
pub(crate) fn merge_words(alloc: Global, items: &[Item]) -> Result<MergeWords, AllocError>
    ensures { IfOk result (λ words. words ≡ spec.merge_words items.now) }
{
    Ok(MergeWords {
        output: output_in(alloc, items)?,
        webm: stands(Subject::Webm, items),
        title: title_in(alloc, items)?,
        chapters: file_in(alloc, Subject::ChapterFile, items)?,
        scale: scale_in(items),
        blocks: blocks_in(items),
        span: span_in(items),
        split: split_in(alloc, items)?,
        files: files(alloc, items)?,
        uuids: uuids_in(alloc, items)?,
        link: stands(Subject::Link, items),
        duration: stands(Subject::Duration, items),
        append_damaged: stands(Subject::AppendDamaged, items),
        attached: attached(alloc, items)?,
        order: order_in(alloc, items)?,
    })
}

// Returns the name of the output, the value of `-o` among `items`, or an empty text without it. For `merge_words`, when
// the command line of `merge` is read.
fn output_in(alloc: Global, items: &[Item]) -> Result<Text, AllocError>
    ensures { IfOk result (λ name. name ≡ spec.output_in items.now) }
{
    match file_in(alloc, Subject::Output, items)? {
        Some(output) => Ok(output),
        None => Ok(Text::new(alloc)),
    }
}

// Returns the title of the output, the value of `--title` among `items`, if it is given. For `merge_words`.
fn title_in(alloc: Global, items: &[Item]) -> Result<Option<Text>, AllocError>
    ensures { IfOk result (λ title. title ≡ spec.title_in items.now) }
{
    match value_in(Subject::Title, items) {
        Some(Value::Text(text)) => Ok(Some(name(alloc, text.as_str())?)),
        _ => Ok(None),
    }
}

// Returns the nanoseconds per tick of the output, the value of `--timestamp-scale` among `items`, or the default,
// 1,000,000. For `merge_words`.
fn scale_in(items: &[Item]) -> u64
    ensures { result ≡ spec.scale_in items.now }
{
    match value_in(Subject::Scale, items) {
        Some(Value::Scale(scale)) => *scale,
        _ => DEFAULT_SCALE,
    }
}

// Returns the maximum number of blocks in a Cluster that `--cluster-length` among `items` gives, or the default,
// 65,535. For `merge_words`.
fn blocks_in(items: &[Item]) -> u32
    ensures { result ≡ spec.blocks_in items.now }
{
    match value_in(Subject::ClusterLength, items) {
        Some(Value::Blocks(blocks)) => *blocks,
        _ => DEFAULT_BLOCKS,
    }
}

// Returns the maximum distance in nanoseconds from a Cluster's Timestamp to its last block that `--cluster-length`
// among `items` gives, or the default, 5 seconds. For `merge_words`.
fn span_in(items: &[Item]) -> u64
    ensures { result ≡ spec.span_in items.now }
{
    match value_in(Subject::ClusterLength, items) {
        Some(Value::Span(span)) => *span,
        _ => DEFAULT_SPAN,
    }
}

// Returns the SegmentUUIDs that `--segment-uid` among `items` gives, or none. For `merge_words`.
fn uuids_in(alloc: Global, items: &[Item]) -> Result<List<u128>, AllocError>
    ensures { IfOk result (λ uuids. uuids ≡ spec.uuids_in items.now) }
{
    match value_in(Subject::Uuids, items) {
        Some(Value::Uuids(uuids)) => Ok(List::from_vec(Vec::from_slice(alloc, uuids.as_slice())?)),
        _ => Ok(List::new(alloc)),
    }
}

// Returns the tracks that come first in the output, the value of `--track-order` among `items`, or none without it. For
// `merge_words`.
fn order_in(alloc: Global, items: &[Item]) -> Result<List<(u64, u64)>, AllocError>
    ensures { IfOk result (λ order. order ≡ spec.order_in items.now) }
{
    match value_in(Subject::Order, items) {
        Some(Value::Order(order)) => Ok(List::from_vec(Vec::from_slice(alloc, order.as_slice())?)),
        _ => Ok(List::new(alloc)),
    }
}

// Returns the rule for parts of the output that `--split` among `items` gives, or None if it isn't given. For
// `merge_words`.
fn split_in(alloc: Global, items: &[Item]) -> Result<Option<SplitWords>, AllocError>
    ensures { IfOk result (λ split. split ≡ spec.split_in items.now) }
{
    match value_in(Subject::Split, items) {
        Some(Value::Split(split)) => Ok(Some(split_copy(alloc, split)?)),
        _ => Ok(None),
    }
}

// Returns a copy of the rule for parts `split`. For `split_in`, when the command line of `merge` is read.
fn split_copy(alloc: Global, split: &SplitWords) -> Result<SplitWords, AllocError>
    ensures { IfOk result (λ copy. copy ≡ split.now) }
{
    match split {
        SplitWords::Duration { by } => Ok(SplitWords::Duration { by: *by }),
        SplitWords::Times { at } => Ok(SplitWords::Times {
            at: numbers_copy(alloc, at)?,
        }),
        SplitWords::Parts { spans } => Ok(SplitWords::Parts {
            spans: List::from_vec(Vec::from_slice(alloc, spans.as_slice())?),
        }),
        SplitWords::AllChapters => Ok(SplitWords::AllChapters),
        SplitWords::Chapters { numbers } => Ok(SplitWords::Chapters {
            numbers: numbers_copy(alloc, numbers)?,
        }),
        SplitWords::Size { limit } => Ok(SplitWords::Size { limit: *limit }),
    }
}
