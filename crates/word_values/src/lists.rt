//! Values of options that are lists with commas, such as track IDs and times.

ghost use Rattle.std.specs.Prelude.{◌≡◌, ℕ, List, Option};
ghost use Rattle.word_values.specs.Answers.{ReadsValue};
ghost use Rattle.word_values.specs.Lists as spec;
ghost use Rattle.word_values.specs.Lists.{pieces, each};
ghost use Rattle.word_values.specs.Numbers as numbers;

use crate::numbers::{cut, cut_text, size, time, uuid};
use crate::usage::ValueEnd;
use mkv_io::List;
use requests::{Select, SpanWords, SplitWords, number};
use std::alloc::Global;

/// Greatest number of identifiers that `--segment-uid` may give for the parts of an output.
const MAX_UUIDS: usize = 1024;

/// Form of the items of a list with commas.
trait Piece {
    /// Value of an item of this form.
    type Value: Drop;

    ghost spelled: { List ℕ → Option Self.Value };

    /// Returns the value of the item `word`, or None if it doesn't have this form. `list_of` reads each item of a list
    /// so.
    fn read(word: &[u8]) -> Option<Self::Value>
        ensures { result ≡ spelled word.now };
}

/// Form of an item that is a decimal number, such as a track ID
struct NumberPiece;

impl Piece for NumberPiece {
    type Value = u64;

    ghost spelled = { numbers.number };

    /// Reads the item `word`, a decimal number, for `numbers`; None if it isn't one.
    fn read(word: &[u8]) -> Option<u64> {
        number(word)
    }
}

/// Form of an item that is a time
struct TimePiece;

impl Piece for TimePiece {
    type Value = u64;

    ghost spelled = { numbers.time };

    /// Reads the item `word`, a time, as nanoseconds, for `times`; None if it isn't one.
    fn read(word: &[u8]) -> Option<u64> {
        time(word)
    }
}

/// Form of an item that is an identifier of 32 hexadecimal digits
struct UuidPiece;

impl Piece for UuidPiece {
    type Value = u128;

    ghost spelled = { numbers.uuid };

    /// Reads the item `word`, an identifier of 32 hexadecimal digits, for `uuids`; None if it isn't one.
    fn read(word: &[u8]) -> Option<u128> {
        uuid(word)
    }
}

/// Form of an item that is a period, `a-b` or `a-`
struct SpanPiece;

impl Piece for SpanPiece {
    type Value = SpanWords;

    ghost spelled = { spec.span };

    /// Reads the item `word`, a period, `a-b` or `a-`, for `spans`; None if it isn't one.
    fn read(word: &[u8]) -> Option<SpanWords> {
        span(word)
    }
}

/// Form of an item that is a track of an input, `FILE:ID`
struct PlacePiece;

impl Piece for PlacePiece {
    type Value = (u64, u64);

    ghost spelled = { spec.place };

    /// Reads the item `word`, a track of an input, `FILE:ID`, for `order`; None if it isn't one.
    fn read(word: &[u8]) -> Option<(u64, u64)> {
        place(word)
    }
}

/// Reads the items of `word` that its commas separate, at least one, for each option whose value is a list. Fails with
/// `Bad` if one of them doesn't have the form. Used by `numbers`, `times` and others.
fn list_of<P: Piece>(alloc: Global, word: &[u8]) -> Result<List<P::Value>, ValueEnd>
    ensures { ReadsValue result (each P.spelled (pieces word.now)) }
{
    let mut list = List::new(alloc);
    let mut rest = word;
    while let Some((piece, after)) = cut(rest, b',') {
        let Some(value) = P::read(piece) else {
            return Err(ValueEnd::Bad);
        };
        list.push(value)?;
        rest = after;
    }
    let Some(last) = P::read(rest) else {
        return Err(ValueEnd::Bad);
    };
    list.push(last)?;
    Ok(list)
}

/// Reads `word`, a list of decimal numbers with commas between them, at least one: track IDs, or the numbers of
/// chapters. Fails with `Bad` if it isn't one. `ids` and `chapters` call it.
#[tactic(auto, unfolding(crate::specs::Lists::numbers))]
pub(crate) fn numbers(alloc: Global, word: &[u8]) -> Result<List<u64>, ValueEnd>
    ensures { ReadsValue result (spec.numbers word.now) }
{
    list_of::<NumberPiece>(alloc, word)
}

/// Reads `word`, the value of `--video-tracks` and its like: track IDs with commas, or `!` and the IDs that are
/// excluded. `value_of` calls it. Fails with `Bad` if it is neither.
#[tactic(auto, unfolding(crate::specs::Lists::ids))]
pub(crate) fn ids(alloc: Global, word: &[u8]) -> Result<Select, ValueEnd>
    ensures { ReadsValue result (spec.ids word.now) }
{
    match word {
        [b'!', rest @ ..] => Ok(Select::AllBut {
            ids: numbers(alloc, rest)?,
        }),
        _ => Ok(Select::These {
            ids: numbers(alloc, word)?,
        }),
    }
}

/// Reads `word`, the value of `--track-order`: tracks with commas between them, at least one, each as the number of its
/// input, `:` and its ID. All must differ, or it fails with `Bad`. `value_of` calls it.
#[tactic(auto, unfolding(crate::specs::Lists::order))]
pub(crate) fn order(alloc: Global, word: &[u8]) -> Result<List<(u64, u64)>, ValueEnd>
    ensures { ReadsValue result (spec.order word.now) }
{
    let list = list_of::<PlacePiece>(alloc, word)?;
    if pairs_differ(list.as_slice()) {
        Ok(list)
    } else {
        Err(ValueEnd::Bad)
    }
}

/// Reads `word`, an item of `--track-order`: the number of an input, `:` and a track ID. It is None for any other.
#[tactic(auto, unfolding(crate::specs::Lists::place))]
fn place(word: &[u8]) -> Option<(u64, u64)>
    ensures { result ≡ spec.place word.now }
{
    let (file, id) = cut(word, b':')?;
    let file = number(file)?;
    let id = number(id)?;
    Some((file, id))
}

/// Checks whether all of `pairs`, the tracks of `--track-order` with their inputs, are different. `order` calls it.
fn pairs_differ(pairs: &[(u64, u64)]) -> bool
    ensures { result ≡ spec.pairs_differ pairs.now }
{
    for (k, pair) in pairs.iter().enumerate() {
        if has_pair(&pairs[k + 1..], *pair) {
            return false;
        }
    }
    true
}

/// Checks whether `pair`, a track with its input, is one of `pairs`, for `pairs_differ`.
fn has_pair(pairs: &[(u64, u64)], pair: (u64, u64)) -> bool
    ensures { result ≡ spec.has_pair pair pairs.now }
{
    pairs
        .iter()
        .any(|other| other.0 == pair.0 && other.1 == pair.1)
}

/// Reads `word`, times with commas between them, at least one, as nanoseconds, for `--split timestamps:`. Each must be
/// above the previous one, or it fails with `Bad`. `split` calls it.
#[tactic(auto, unfolding(crate::specs::Lists::times))]
fn times(alloc: Global, word: &[u8]) -> Result<List<u64>, ValueEnd>
    ensures { ReadsValue result (spec.times word.now) }
{
    let list = list_of::<TimePiece>(alloc, word)?;
    if ascend(list.as_slice()) {
        Ok(list)
    } else {
        Err(ValueEnd::Bad)
    }
}

/// Checks whether each of `times`, in nanoseconds, is above the previous one, for `times`.
fn ascend(times: &[u64]) -> bool
    ensures { result ≡ spec.ascend times.now }
{
    for k in 1..times.len() {
        if times[k] <= times[k - 1] {
            return false;
        }
    }
    true
}

/// Reads `word`, periods with commas between them, at least one, for `--split parts:`. No period may begin before the
/// end of the previous one, or it fails with `Bad`. `split` calls it.
#[tactic(auto, unfolding(crate::specs::Lists::spans))]
fn spans(alloc: Global, word: &[u8]) -> Result<List<SpanWords>, ValueEnd>
    ensures { ReadsValue result (spec.spans word.now) }
{
    let list = list_of::<SpanPiece>(alloc, word)?;
    if follow(list.as_slice()) {
        Ok(list)
    } else {
        Err(ValueEnd::Bad)
    }
}

/// Reads the period `word`, an item of `--split parts:`: `a-b`, or `a-` for one without an end; both are times. Returns
/// nanoseconds, or None if it isn't one.
#[tactic(auto, unfolding(crate::specs::Lists::span))]
fn span(word: &[u8]) -> Option<SpanWords>
    ensures { result ≡ spec.span word.now }
{
    let (start, end) = cut(word, b'-')?;
    let start = time(start)?;
    if end.is_empty() {
        return Some(SpanWords { start, end: None });
    }
    let end = time(end)?;
    Some(SpanWords {
        start,
        end: Some(end),
    })
}

/// Checks whether each of `spans` begins before its end and not before the end of the previous one, for `spans`. Only
/// the last may have no end.
fn follow(spans: &[SpanWords]) -> bool
    ensures { result ≡ spec.follow 0 spans.now }
{
    let mut least = 0;
    for (k, span) in spans.iter().enumerate() {
        if span.start < least {
            return false;
        }
        match span.end {
            None => return k + 1 == spans.len(),
            Some(end) => {
                if end <= span.start {
                    return false;
                }
                least = end;
            }
        }
    }
    true
}

/// Reads `word`, the value of `--segment-uid`: identifiers with commas between them, 1 to 1024, all different. Fails
/// with `Bad` if it isn't so.
#[tactic(auto, unfolding(crate::specs::Lists::uuids))]
pub(crate) fn uuids(alloc: Global, word: &[u8]) -> Result<List<u128>, ValueEnd>
    ensures { ReadsValue result (spec.uuids word.now) }
{
    let list = list_of::<UuidPiece>(alloc, word)?;
    if list.len() <= MAX_UUIDS && differ(list.as_slice()) {
        Ok(list)
    } else {
        Err(ValueEnd::Bad)
    }
}

/// Checks whether all of `numbers`, the identifiers of `--segment-uid`, are different. `uuids` calls it.
fn differ(numbers: &[u128]) -> bool
    ensures { result ≡ spec.differ numbers.now }
{
    for (k, number) in numbers.iter().enumerate() {
        if numbers[k + 1..].contains(number) {
            return false;
        }
    }
    true
}

/// Reads `word`, the value of `--split`: `duration:`, `timestamps:`, `chapters:`, `parts:` or `size:`, followed by its
/// own value. `value_of` calls it. Fails with `Bad` for any other.
#[tactic(auto, unfolding(crate::specs::Lists::split, crate::specs::Lists::split_of))]
pub(crate) fn split(alloc: Global, word: &str) -> Result<SplitWords, ValueEnd>
    ensures { ReadsValue result (spec.split word.now) }
{
    let Some((kind, rest)) = cut_text(word, ':') else {
        return Err(ValueEnd::Bad);
    };
    let rest = rest.as_bytes();
    match kind {
        "duration" => duration(rest).ok_or(ValueEnd::Bad),
        "timestamps" => Ok(SplitWords::Times {
            at: times(alloc, rest)?,
        }),
        "chapters" => chapters(alloc, rest),
        "parts" => Ok(SplitWords::Parts {
            spans: spans(alloc, rest)?,
        }),
        "size" => {
            let Some(limit) = size(rest) else {
                return Err(ValueEnd::Bad);
            };
            Ok(SplitWords::Size { limit })
        }
        _ => Err(ValueEnd::Bad),
    }
}

/// Reads `word`, the value after `--split duration:`, a time above 0: the split into parts of that duration in
/// nanoseconds. It is None for any other. `split` calls it.
#[tactic(auto, unfolding(crate::specs::Lists::duration))]
fn duration(word: &[u8]) -> Option<SplitWords>
    ensures { result ≡ spec.duration word.now }
{
    let by = time(word)?;
    if by > 0 {
        Some(SplitWords::Duration { by })
    } else {
        None
    }
}

/// Reads `word`, the value after `--split chapters:`: `all`, or the numbers of chapters, from 1, with commas between
/// them. `split` calls it.
#[tactic(auto, unfolding(crate::specs::Lists::chapters))]
fn chapters(alloc: Global, word: &[u8]) -> Result<SplitWords, ValueEnd>
    ensures { ReadsValue result (spec.chapters word.now) }
{
    if word == b"all".as_slice() {
        return Ok(SplitWords::AllChapters);
    }
    Ok(SplitWords::Chapters {
        numbers: numbers(alloc, word)?,
    })
}
