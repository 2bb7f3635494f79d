//! Readers of decimal numbers, for the options of a command line.

ghost use Rattle.std.specs.Prelude.{◌≡◌, ◌^◌, ◌<◌};
ghost use Rattle.requests.specs.Decimal as spec;
ghost use Rattle.requests.specs.Decimal.{below};

/// Reads `word` as a decimal number of one or more digits, below 2^64; otherwise returns None. `number` and the readers
/// of option values use it.
#[tactic(auto, unfolding(crate::specs::Decimal::whole))]
pub fn whole(word: &[u8]) -> Option<u64>
    ensures { result ≡ below (2 ^ 64) (spec.whole word.now) }
{
    if word.is_empty() {
        return None;
    }
    let mut value: u64 = 0;
    for octet in word {
        if !octet.is_ascii_digit() {
            return None;
        }
        let digit = u64::from(*octet - b'0');
        value = value.checked_mul(10)?.checked_add(digit)?;
    }
    Some(value)
}

/// Reads `word` as a decimal number of 1 to 18 digits; otherwise returns None. The readers of option values use it.
#[tactic(auto, using(crate::proofs::DecimalLemmas::whole_short), unfolding(crate::specs::Decimal::number))]
pub fn number(word: &[u8]) -> Option<u64>
    ensures { result ≡ spec.number word.now }
{
    if word.len() > 18 {
        return None;
    }
    whole(word)
}
