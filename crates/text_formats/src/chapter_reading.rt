//! Reading of OGM simple chapters, in this project's grammar. Each line is read once.

ghost use Rattle.std.specs.Prelude.{◌≡◌, ◌<◌, length, IfOk, option_map};
ghost use Rattle.text_formats.specs.Ends.{Reads};
ghost use Rattle.text_formats.specs.Pairs as spec;
ghost use Rattle.text_formats.specs.Turn.{Turns, timed_in, timed_of};

use crate::end::TextEnd;
use crate::fields::{behind, cut, digits, minutes_or_seconds, text};
use crate::lines::{behind_mark, next_line};
use mkv_io::{List, Text};
use std::alloc::{AllocError, Global};

/// Nanoseconds in a millisecond
const MILLISECOND: u64 = 1_000_000;

/// Simple chapter of a file: its start in nanoseconds and its name.
#[derive(Debug, Drop)]
pub struct Chapter {
    pub start: u64,
    pub name: Text,
}

/// First line of a chapter: the digits of its number, and its time in nanoseconds.
#[derive(Clone, Copy)]
struct FirstLine<'a> {
    number: &'a [u8],
    start: u64,
}

// Reads the time `word`, `HH:MM:SS.mmm`; returns nanoseconds, or None if it has another form. `first_line` calls it.
#[tactic(auto, unfolding(crate::specs::Pairs::time_of))]
fn time_of(word: &[u8]) -> Option<u64>
    ensures { result ≡ spec.time_of word.now }
{
    let (hours, rest) = cut(word, b':')?;
    let (minutes, rest) = cut(rest, b':')?;
    let (seconds, thousandths) = cut(rest, b'.')?;
    let hours = digits(2, 2, hours)?;
    let minutes = minutes_or_seconds(minutes)?;
    let seconds = minutes_or_seconds(seconds)?;
    let thousandths = digits(3, 3, thousandths)?;
    Some(((hours * 60 + minutes) * 60_000 + (seconds * 1000 + thousandths)) * MILLISECOND)
}

// Reads the first line of a chapter, `CHAPTERnn=` and a time, where nn are two to four digits. Returns None if `line`
// has another form. `take_line` calls it.
#[tactic(auto, unfolding(crate::specs::Pairs::first_line))]
fn first_line(line: &[u8]) -> Option<FirstLine<'_>>
    ensures { option_map timed_of result ≡ spec.first_line line.now }
{
    let rest = behind(b"CHAPTER", line)?;
    let (number, time) = cut(rest, b'=')?;
    digits(2, 4, number)?;
    let start = time_of(time)?;
    Some(FirstLine { number, start })
}

// Reads the second line of a chapter, `CHAPTERnnNAME=` and a name in UTF-8, and returns the name. `number` has the
// digits nn of the first line. Returns None if `line` has another form. `take_line` calls it.
#[tactic(auto, unfolding(crate::specs::Pairs::second_line))]
fn second_line<'a>(number: &[u8], line: &'a [u8]) -> Option<&'a str>
    ensures { option_map (λ s. s.now) result ≡ spec.second_line number.now line.now }
{
    let rest = behind(b"CHAPTER", line)?;
    let rest = behind(number, rest)?;
    text(behind(b"NAME=", rest)?)
}

// Makes the chapter that starts at `start` nanoseconds and has the name `words`, for `take_line`.
fn named(alloc: Global, start: u64, words: &str) -> Result<Chapter, AllocError>
    ensures { IfOk result (λ chapter. chapter ≡ spec.chapter start words.now) }
{
    let mut name = Text::new(alloc);
    name.append(words)?;
    Ok(Chapter { start, name })
}

// Takes `line`, which isn't empty and has the number `number`, counted from 1. If `due` is a first line, it must be the
// second line, and the chapter is added to `list`; the result is None. If not, it must be a first line, which is
// returned. `read_pairs` calls it for each line.
fn take_line<'a>(
    alloc: Global,
    list: &mut List<Chapter>,
    due: Option<FirstLine<'_>>,
    line: &'a [u8],
    number: u64,
) -> Result<Option<FirstLine<'a>>, TextEnd>
    requires { 0 < length line.now }
    ensures { Turns list.old list.new line.now number (timed_in due.entry) result }
{
    let Some(due) = due else {
        return match first_line(line) {
            Some(first) => Ok(Some(first)),
            None => Err(TextEnd::Bad { line: number }),
        };
    };
    let Some(words) = second_line(due.number, line) else {
        return Err(TextEnd::Bad { line: number });
    };
    let chapter = named(alloc, due.start, words)?;
    list.push(chapter)?;
    Ok(None)
}

/// Reads the chapters in `bytes`, the content of a file of simple chapters, in the file's order, for a chapter file of
/// `merge`. It fails with the number, from 1, of the first bad line: one that is neither empty nor the line that is
/// due. If the last name is missing, that is the line after the last.
pub fn read_pairs(alloc: Global, bytes: &[u8]) -> Result<List<Chapter>, TextEnd>
    ensures exact { Reads result (spec.simple bytes.now) }
{
    let mut list = List::new(alloc);
    let mut due = None;
    let mut rest = behind_mark(bytes);
    let mut number = 0;
    while let Some((line, after)) = next_line(rest) {
        number += 1;
        if !line.is_empty() {
            match take_line(alloc, &mut list, due, line, number) {
                Ok(next) => due = next,
                Err(end) => return Err(end),
            }
        }
        rest = after;
    }
    match due {
        None => Ok(list),
        Some(_) => Err(TextEnd::Bad { line: number + 1 }),
    }
}
