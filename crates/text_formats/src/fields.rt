//! The fields of a line of a text file.

ghost use Rattle.std.specs.Prelude.{◌≡◌, ◌<◌, ◌≤◌, ◌^◌, true, false, IfSome, MatchOption, option_map};
ghost use Rattle.std.specs.Str.{is_utf8};
ghost use Rattle.mkv_io.specs.Octets as octets;
ghost use Rattle.text_formats.specs.Fields as spec;

use crate::lines::place_of;
use std::str;

/// Splits `word` at the first byte that is `octet`; returns the parts before and after it, or None if there is no such
/// byte. Readers of text files use it. Used by `time_of`, `first_line` and others.
#[tactic(auto, unfolding(mkv_io::specs::Octets::cut))]
pub fn cut(word: &[u8], octet: u8) -> Option<(&[u8], &[u8])>
    ensures { option_map (λ p. (p.0.now, p.1.now)) result ≡ octets.cut octet word.now }
{
    let at = place_of(word, octet)?;
    Some((&word[..at], &word[at + 1..]))
}

/// Returns `word` without the prefix `front`, or None if it hasn't this prefix. Readers of text files use it.
pub fn behind<'a>(front: &[u8], word: &'a [u8]) -> Option<&'a [u8]>
    ensures { option_map (λ p. p.now) result ≡ spec.behind front.now word.now }
{
    word.strip_prefix(front)
}

/// Returns the value of `word` if it consists of `least` to `most` decimal digits; otherwise None. Readers of text
/// files use it. Used by `time_of`, `first_line` and others.
#[tactic(auto, unfolding(crate::specs::Fields::digits))]
pub fn digits(least: usize, most: usize, word: &[u8]) -> Option<u64>
    requires { most ≤ 18 }
    ensures same { result ≡ spec.digits least most word.now }
    ensures small { IfSome result (λ n. n < 10 ^ most) }
{
    if word.len() < least || word.len() > most {
        return None;
    }
    let mut value: u64 = 0;
    for octet in word {
        if !octet.is_ascii_digit() {
            return None;
        }
        value = value * 10 + u64::from(*octet - b'0');
    }
    Some(value)
}

/// Reads `word`, the minutes or seconds of a time: two digits, below 60. Returns None if it has another form. Readers
/// of times use it. Used by `time_of`, `seconds` and others.
#[tactic(auto, unfolding(crate::specs::Fields::minutes_or_seconds))]
pub fn minutes_or_seconds(word: &[u8]) -> Option<u64>
    ensures same { result ≡ spec.minutes_or_seconds word.now }
    ensures small { IfSome result (λ n. n < 60) }
{
    let value = digits(2, 2, word)?;
    if value < 60 { Some(value) } else { None }
}

/// Returns `octets` as text, or None if they aren't UTF-8. Readers of text files use it.
#[tactic(auto, using(crate::proofs::FieldsLemmas::texts))]
pub fn text(octets: &[u8]) -> Option<&str>
    ensures { MatchOption result (is_utf8 octets.now ≡ false) (λ s. (is_utf8 octets.now ≡ true) × (s.now ≡ octets.now)) }
{
    str::from_utf8(octets).ok()
}
