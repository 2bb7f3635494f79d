//! Readers of numbers, times and sizes in arguments.

ghost use Rattle.std.specs.Prelude.{◌≡◌, ◌==◌, ◌^◌, ◌<◌, IfSome, option_map};
ghost use Rattle.std.specs.List.{position};
ghost use Rattle.mkv_io.specs.Octets as octets;
ghost use Rattle.word_values.specs.Numbers as spec;
ghost use Rattle.requests.specs.Decimal.{below};

use requests::{number, whole};

/// Nanoseconds in a second
const SECOND: u64 = 1_000_000_000;

/// Nanoseconds in a millisecond
const MILLISECOND: u64 = 1_000_000;

/// Times of at least this number of nanoseconds are refused as too large.
const TIME_LIMIT: u64 = 1 << 63;

/// Delays of at least this number of nanoseconds are refused as too large, in either direction.
const DELAY_LIMIT: u64 = 1 << 55;

/// Splits `word` at the first byte that is `octet`, such as a comma or a colon; returns the parts before and after it,
/// or None if there is no such byte. Used by all readers of an option's value.
#[tactic(auto, unfolding(mkv_io::specs::Octets::cut))]
pub(crate) fn cut(word: &[u8], octet: u8) -> Option<(&[u8], &[u8])>
    ensures { option_map (λ p. (p.0.now, p.1.now)) result ≡ octets.cut octet word.now }
{
    let at = place_of(word, octet)?;
    Some((&word[..at], &word[at + 1..]))
}

/// Splits `word` at the first `mark`, an ASCII character; returns the parts before and after it, or None if it has no
/// `mark`. `--split` and track options are divided at `:`, and edits of `propedit` at `=`.
pub fn cut_text(word: &str, mark: char) -> Option<(&str, &str)>
    requires { mark < 128 }
    ensures { option_map (λ p. (p.0.now, p.1.now)) result ≡ octets.cut mark word.now }
{
    word.split_once(mark)
}

/// Returns the index, from 0, of the first byte of `word` that is `octet`, or None, for `cut`.
fn place_of(word: &[u8], octet: u8) -> Option<usize>
    ensures { result ≡ position (λ b. b == octet) word.now }
{
    word.iter().position(|b| *b == octet)
}

/// Reads `word`, the value of `--sync` after the track: milliseconds with or without `-`. Returns nanoseconds, or None
/// if it isn't one. `track_value` calls it.
#[tactic(auto, unfolding(crate::specs::Numbers::delay))]
pub(crate) fn delay(word: &[u8]) -> Option<i64>
    ensures { result ≡ spec.delay word.now }
{
    match word {
        [b'-', rest @ ..] => Some(-(delay_size(rest)? as i64)),
        _ => Some(delay_size(word)? as i64),
    }
}

/// Reads `word`, a delay in milliseconds without its sign, and returns it in nanoseconds, for `delay`. It must be below
/// 2^55 ns, or it is None.
#[tactic(auto, unfolding(crate::specs::Numbers::delay_size))]
fn delay_size(word: &[u8]) -> Option<u64>
    ensures same { result ≡ spec.delay_size word.now }
    ensures small { IfSome result (λ n. n < 2 ^ 55) }
{
    let time = number(word)?.checked_mul(MILLISECOND)?;
    if time < DELAY_LIMIT { Some(time) } else { None }
}

/// Reads the time `word` of an option: `H:MM:SS`, with or without a fraction of up to nine digits, or digits followed
/// by `s`. Returns nanoseconds, below 2^63, or None if it isn't one. Used by `read`, `span` and others.
#[tactic(auto, unfolding(crate::specs::Numbers::time))]
pub(crate) fn time(word: &[u8]) -> Option<u64>
    ensures { result ≡ spec.time word.now }
{
    let time = match word {
        [front @ .., b's'] => whole(front)?.checked_mul(SECOND)?,
        _ => clock(word)?,
    };
    if time < TIME_LIMIT { Some(time) } else { None }
}

/// Reads the time `word`, `H:MM:SS` with or without a fraction, and returns nanoseconds, or None if it isn't one, for
/// `time`.
#[tactic(auto, unfolding(crate::specs::Numbers::clock))]
fn clock(word: &[u8]) -> Option<u64>
    ensures { result ≡ below (2 ^ 64) (spec.clock word.now) }
{
    let (hours, rest) = cut(word, b':')?;
    let (minutes, rest) = cut(rest, b':')?;
    let hours = whole(hours)?;
    let minutes = minutes_or_seconds(minutes)?;
    let rest = seconds(rest)?;
    hours
        .checked_mul(3600)?
        .checked_add(minutes * 60)?
        .checked_mul(SECOND)?
        .checked_add(rest)
}

/// Reads `word`, the two digits of minutes or seconds in a time, which must be below 60, for `clock`. Returns None if
/// they aren't so.
#[tactic(auto, unfolding(crate::specs::Numbers::minutes_or_seconds))]
fn minutes_or_seconds(word: &[u8]) -> Option<u64>
    ensures same { result ≡ spec.minutes_or_seconds word.now }
    ensures small { IfSome result (λ n. n < 60) }
{
    if word.len() != 2 {
        return None;
    }
    let value = whole(word)?;
    if value < 60 { Some(value) } else { None }
}

/// Reads `word`, the seconds of a time, `SS` with or without a fraction, for `clock`; returns nanoseconds, or None.
#[tactic(auto, unfolding(crate::specs::Numbers::seconds))]
fn seconds(word: &[u8]) -> Option<u64>
    ensures same { result ≡ spec.seconds word.now }
    ensures small { IfSome result (λ n. n < 60000000000) }
{
    match cut(word, b'.') {
        None => Some(minutes_or_seconds(word)? * SECOND),
        Some((whole, rest)) => {
            let seconds = minutes_or_seconds(whole)? * SECOND;
            Some(seconds + fraction(rest)?)
        }
    }
}

/// Reads `word`, the 1 to 9 digits after the point of a time, for `seconds`; returns nanoseconds, or None.
#[tactic(auto, using(requests::proofs::DecimalLemmas::whole_short, crate::proofs::NumbersLemmas::fraction_small), unfolding(crate::specs::Numbers::fraction))]
fn fraction(word: &[u8]) -> Option<u64>
    ensures same { result ≡ spec.fraction word.now }
    ensures small { IfSome result (λ n. n < 1000000000) }
{
    if word.len() > 9 {
        return None;
    }
    let value = whole(word)?;
    Some(value * 10u64.pow(9 - word.len() as u32))
}

/// Reads `word`, the value after `--split size:`, in bytes: a number, with or without the unit `k`, `m` or `g` (1024,
/// its square and its cube). A product that is too large for 64 bits is 2^64 - 1. Returns None if it isn't one. `split`
/// calls it.
#[tactic(auto, unfolding(crate::specs::Numbers::size))]
pub(crate) fn size(word: &[u8]) -> Option<u64>
    ensures { result ≡ spec.size word.now }
{
    match word {
        [front @ .., b'k'] => Some(amount(front)?.saturating_mul(1 << 10)),
        [front @ .., b'm'] => Some(amount(front)?.saturating_mul(1 << 20)),
        [front @ .., b'g'] => Some(amount(front)?.saturating_mul(1 << 30)),
        _ => amount(word),
    }
}

/// Reads `word`, the number of a size: 1 to 12 digits, at least 1, for `size`. Returns None if it isn't so.
#[tactic(auto, using(requests::proofs::DecimalLemmas::whole_short), unfolding(crate::specs::Numbers::amount))]
fn amount(word: &[u8]) -> Option<u64>
    ensures { result ≡ spec.amount word.now }
{
    if word.len() > 12 {
        return None;
    }
    let value = whole(word)?;
    if value >= 1 { Some(value) } else { None }
}

/// Reads `word`, an identifier of 32 hexadecimal digits of `--segment-uid`, as a number, the highest digit first.
/// Returns None if it isn't one.
#[tactic(auto, using(crate::proofs::NumbersLemmas::hex_more), unfolding(crate::specs::Numbers::uuid))]
pub(crate) fn uuid(word: &[u8]) -> Option<u128>
    ensures { result ≡ spec.uuid word.now }
{
    if word.len() != 32 {
        return None;
    }
    let mut value: u128 = 0;
    for octet in word {
        let digit = char::from(*octet).to_digit(16)?;
        value = value * 16 + u128::from(digit);
    }
    Some(value)
}
