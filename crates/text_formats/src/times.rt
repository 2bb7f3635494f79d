//! Reading of the two lines that begin an entry of SubRip: its number and its times.

ghost use Rattle.std.specs.Prelude.{◌≡◌, ◌<◌, ◌≤◌, length, IfSome, option_map};
ghost use Rattle.std.specs.Char.{is_ascii_digit};
ghost use Rattle.std.specs.List.{prefix_len, list_all};
ghost use Rattle.text_formats.specs.Times as spec;

use crate::fields::{behind, cut, digits, minutes_or_seconds};

/// Nanoseconds in a millisecond
const MILLISECOND: u64 = 1_000_000;

/// Start and end of an entry, in nanoseconds.
#[derive(Clone, Copy, Debug)]
pub(crate) struct Times {
    pub start: u64,
    pub end: u64,
}

/// Reads `SS,mmm` or `SS.mmm` at the start of `word`; returns milliseconds, or None if it has another form. `clock`
/// calls it.
#[tactic(auto, unfolding(crate::specs::Times::seconds))]
fn seconds(word: &[u8]) -> Option<u64>
    ensures same { result ≡ spec.seconds word.now }
    ensures small { IfSome result (λ n. n < 60000) }
    ensures room { IfSome result (λ n. 6 ≤ length word.now) }
{
    if word.len() < 6 {
        return None;
    }
    let seconds = minutes_or_seconds(&word[..2])?;
    let thousandths = digits(3, 3, &word[3..6])?;
    if word[2] == b',' || word[2] == b'.' {
        Some(seconds * 1000 + thousandths)
    } else {
        None
    }
}

/// Reads a time `HH:MM:SS,mmm`, whose hours have two to four digits, at the start of `word`. Returns it in nanoseconds,
/// with the bytes after it, or None if it has another form. `times_of` calls it.
#[tactic(auto, unfolding(crate::specs::Times::clock))]
fn clock(word: &[u8]) -> Option<(u64, &[u8])>
    ensures same { option_map (λ p. (p.0, p.1.now)) result ≡ spec.clock word.now }
    ensures small { IfSome result (λ p. p.0 < spec.latest) }
{
    let (hours, rest) = cut(word, b':')?;
    let (minutes, rest) = cut(rest, b':')?;
    let hours = digits(2, 4, hours)?;
    let minutes = minutes_or_seconds(minutes)?;
    let thousandths = seconds(rest)?;
    let time = ((hours * 60 + minutes) * 60_000 + thousandths) * MILLISECOND;
    Some((time, &rest[6..]))
}

/// Reads the second line of a head: two times with ` --> ` between them, and anything after a space. Returns the times
/// in nanoseconds, or None if it has another form. `read_head` calls it.
#[tactic(auto, unfolding(crate::specs::Times::times))]
pub(crate) fn times_of(line: &[u8]) -> Option<Times>
    ensures same { result ≡ spec.times line.now }
    ensures small { IfSome result (λ t. t.end < spec.latest) }
{
    let (start, rest) = clock(line)?;
    let rest = behind(b" --> ", rest)?;
    let (end, tail) = clock(rest)?;
    if is_tail(tail) {
        Some(Times { start, end })
    } else {
        None
    }
}

/// Checks whether `word`, the rest of a line after its end time, is empty or begins with a space. `times_of` calls it.
fn is_tail(word: &[u8]) -> bool
    ensures { result ≡ spec.is_tail word.now }
{
    word.is_empty() || word[0] == b' '
}

/// Checks whether `line` is the first line of a head: 1 to 9 digits, followed by spaces and tabs. `read_head` calls it.
#[tactic(auto, unfolding(crate::specs::Times::is_number))]
pub(crate) fn is_number(line: &[u8]) -> bool
    ensures { result ≡ spec.is_number line.now }
{
    let n = digits_in_front(line);
    if n < 1 || n > 9 {
        return false;
    }
    all_blank(&line[n..])
}

/// Checks whether all bytes of `word` are spaces or tabs. `is_number` calls it for the rest of a line.
fn all_blank(word: &[u8]) -> bool
    ensures { result ≡ list_all spec.is_blank word.now }
{
    word.iter().all(|b| *b == b' ' || *b == b'\t')
}

/// Returns the number of digits that `line` begins with. `is_number` calls it.
fn digits_in_front(line: &[u8]) -> usize
    ensures same { result ≡ prefix_len is_ascii_digit line.now }
    ensures within { result ≤ length line.now }
{
    line.iter().take_while(|b| b.is_ascii_digit()).count()
}
