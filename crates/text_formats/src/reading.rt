//! Reading of SubRip, in this project's grammar. The head of an entry is its number line and its time line. Each line
//! is read once.

ghost use Rattle.std.specs.Prelude.{◌≡◌, ◌+◌, ◌<◌, ◌^◌, ◌++◌, length, IfOk, IfErr, OnOk, None, false, true, MatchOption};
ghost use Rattle.std.specs.Str.Lines.{lines};
ghost use Rattle.text_formats.specs.Lines.{lines_of};
ghost use Rattle.text_formats.specs.Ends.{Blames, Reads};
ghost use Rattle.text_formats.specs.Srt as spec;
ghost use Rattle.text_formats.specs.Srt.{first_bad, entries, text_of, before_head};
ghost use Rattle.text_formats.specs.Walk.{Behind, IsTextLine, bad_from, is_bad_at};
ghost use Rattle.text_formats.specs.Reading.{AreWithin, GoesOn, HeadRead, IsWithin, breaks};

use crate::end::TextEnd;
use crate::fields::text;
use crate::lines::{behind_mark, next_line};
use crate::times::{Times, is_number, times_of};
use mkv_io::{Entry, List, Text};
use std::alloc::{AllocError, Global};

/// Head of an entry that was read: its times, the bytes after it, and the number of its second line, from 1.
#[derive(Clone, Copy)]
struct Head<'a> {
    times: Times,
    rest: &'a [u8],
    number: u64,
}

// Checks whether `line` has `-->`, the arrow between two times. `plain` calls it.
fn has_arrow(line: &[u8]) -> bool
    ensures { result ≡ spec.has_arrow line.now }
{
    for at in 0..line.len() {
        if line[at..].starts_with(b"-->") {
            return true;
        }
    }
    false
}

// Returns `line` as text, if it may be a line of an entry's text: UTF-8 without `-->`; otherwise None. `skip_front` and
// `read_text` call it for each line.
fn plain(line: &[u8]) -> Option<&str>
    ensures { MatchOption result (is_bad_at Behind false line.now ≡ true) (λ text. IsTextLine line.now text.now) }
{
    if has_arrow(line) {
        return None;
    }
    text(line)
}

// Returns the head of an entry that begins with `line`, or None if none does. `line` has the number `number`, from 1,
// and the bytes `after` follow it. Fails with `Bad` if the end is before the start. `skip_front` and `read_text` call
// it for each line.
fn read_head<'a>(line: &[u8], after: &'a [u8], number: u64) -> Result<Option<Head<'a>>, TextEnd>
    requires room { number + length after.now < 2 ^ 64 }
    ensures is { HeadRead line.now (lines after.now) number result }
    ensures within { IfOk result (IsWithin number after.now) }
{
    if !is_number(line) {
        return Ok(None);
    }
    let Some((second, rest)) = next_line(after) else {
        return Ok(None);
    };
    let Some(times) = times_of(second) else {
        return Ok(None);
    };
    let number = number + 1;
    if times.end < times.start {
        return Err(TextEnd::Bad { line: number });
    }
    let Some(_text) = text(second) else {
        return Err(TextEnd::Bad { line: number });
    };
    Ok(Some(Head {
        times,
        rest,
        number,
    }))
}

// Reads the empty lines before the first entry in `text`, and the head of that entry; returns None if there is no
// entry. `read_entries` calls it first. Fails with `Bad` for another line.
fn skip_front(text: &[u8]) -> Result<Option<Head<'_>>, TextEnd>
    ensures ok { IfOk result (GoesOn (first_bad (lines text.now)) (lines text.now)) }
    ensures err { IfErr result (λ e. Blames e (first_bad (lines text.now))) }
    ensures within { IfOk result (IsWithin 0 text.now) }
{
    let mut rest = text;
    let mut number = 0;
    while let Some((line, after)) = next_line(rest) {
        number += 1;
        let Some(_text) = plain(line) else {
            return Err(TextEnd::Bad { line: number });
        };
        match read_head(line, after, number) {
            Err(end) => return Err(end),
            Ok(Some(head)) => return Ok(Some(head)),
            Ok(None) => {}
        }
        if !line.is_empty() {
            return Err(TextEnd::Bad { line: number });
        }
        rest = after;
    }
    Ok(None)
}

// Appends `count` line feeds and then `line` to `text`, the text of an entry. `read_text` calls it.
fn add_line(text: &mut Text, count: u64, line: &str) -> Result<(), AllocError>
    ensures { OnOk result (text.new ≡ text.old ++ (breaks count ++ line.now)) }
{
    for _ in 0..count {
        text.append("\n")?;
    }
    text.append(line)
}

// Reads the text of an entry in `from`, the bytes after its head, and the next head, or None if there is none. `before`
// is the number of lines before `from`. `read_entries` calls it for each entry.
fn read_text<'a>(
    alloc: Global,
    from: &'a [u8],
    before: u64,
) -> Result<(Text, Option<Head<'a>>), TextEnd>
    requires room { before + length from.now < 2 ^ 64 }
    ensures text { IfOk result (λ p. p.0 ≡ text_of (before_head (lines from.now))) }
    ensures ok { IfOk result (λ p. GoesOn (bad_from Behind (before + 1) (lines from.now)) (lines from.now) p.1) }
    ensures err { IfErr result (λ e. Blames e (bad_from Behind (before + 1) (lines from.now))) }
    ensures within { IfOk result (λ p. IsWithin before from.now p.1) }
{
    let mut text = Text::new(alloc);
    let mut count = 0;
    let mut rest = from;
    let mut number = before;
    while let Some((line, after)) = next_line(rest) {
        number += 1;
        let Some(words) = plain(line) else {
            return Err(TextEnd::Bad { line: number });
        };
        match read_head(line, after, number) {
            Err(end) => return Err(end),
            Ok(Some(head)) => return Ok((text, Some(head))),
            Ok(None) => {}
        }
        if line.is_empty() {
            count += 1;
        } else {
            add_line(&mut text, count, words)?;
            count = 1;
        }
        rest = after;
    }
    Ok((text, None))
}

// Reads the entries in `bytes`, the content of a SubRip file, in the file's order, with times in nanoseconds.
// `read_srt` calls it. It fails with the number, from 1, of the first bad line.
fn read_entries(alloc: Global, bytes: &[u8]) -> Result<Vec<Entry>, TextEnd>
    ensures ok { IfOk result (λ es. entries (lines_of bytes.now) ≡ es.items) }
    ensures good { OnOk result (first_bad (lines_of bytes.now) ≡ None) }
    ensures err { IfErr result (λ e. Blames e (first_bad (lines_of bytes.now))) }
    ensures within { IfOk result (λ es. AreWithin (length bytes.now) es.items) }
{
    let mut list = Vec::new(alloc);
    let mut next = skip_front(behind_mark(bytes))?;
    while let Some(head) = next {
        let (text, after) = read_text(alloc, head.rest, head.number)?;
        list.push(Entry {
            start: head.times.start,
            duration: head.times.end - head.times.start,
            text,
        })?;
        next = after;
    }
    Ok(list)
}

/// Reads the entries in `bytes`, the content of a SubRip file, sorted by start; entries with the same start keep their
/// order. `merge` calls it for a SubRip input. Times are in nanoseconds. It fails with the number, from 1, of the first
/// bad line. A line is bad if it isn't UTF-8. It is bad if it has `-->` but isn't the second line of a head, or if its
/// end is before its start. A line before the first entry is bad unless it is empty.
pub fn read_srt(alloc: Global, bytes: &[u8]) -> Result<List<Entry>, TextEnd>
    ensures exact { Reads result (spec.srt bytes.now) }
    ensures within { IfOk result (AreWithin (length bytes.now)) }
{
    match read_entries(alloc, bytes) {
        Err(end) => Err(end),
        Ok(mut list) => match list.sort_by_key(|entry| entry.start) {
            Err(_) => Err(TextEnd::Memory),
            Ok(()) => Ok(List::from_vec(list)),
        },
    }
}
