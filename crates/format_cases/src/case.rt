//! A case of the tests, read from a line of standard input.

use std::alloc::{AllocError, Global};

/// Arguments of the call that a case tests.
#[derive(Drop)]
pub struct Case {
    /// Element ID, or 0 if the case has none.
    pub id: u32,
    /// Number whose meaning depends on the call, or 0 if the case has none.
    pub number: u64,
    pub octets: Vec<u8>,
}

impl Case {
    /// Reads the case in `line`, a line of the test program's input: a word, an ID in hexadecimal digits, a number, and
    /// bytes in hexadecimal digits. The bytes of a word such as `A3B4*3` are repeated three times. Fails only without
    /// memory.
    pub fn read(alloc: Global, line: &str) -> Result<Case, AllocError> {
        let mut words = line.split_whitespace().skip(1);
        let id = id_of(words.next());
        let number = number_of(words.next());
        let mut octets = Vec::new(alloc);
        for word in words {
            add_word(alloc, word, &mut octets)?;
        }
        Ok(Case { id, number, octets })
    }
}

/// Returns the first word of `line`, which names the call of the case, or an empty text. Used by `answer`.
pub fn word_of(line: &str) -> &str {
    line.split_whitespace().next().unwrap_or("")
}

/// Returns the Element ID that `word` spells in hexadecimal digits, or 0 if there is no ID, for `Case::read`.
fn id_of(word: Option<&str>) -> u32 {
    match word {
        Some(digits) => u32::from_str_radix(digits, 16).unwrap_or(0),
        None => 0,
    }
}

/// Returns the number that `word` spells in decimal, or 0 if there is none, for `Case::read`.
fn number_of(word: Option<&str>) -> u64 {
    match word {
        Some(digits) => digits.parse().unwrap_or(0),
        None => 0,
    }
}

/// Appends to `octets` the bytes that `word` spells in hexadecimal digits, or none if it isn't hexadecimal.
/// `Case::read` calls it for each word after the number.
fn add_word(alloc: Global, word: &str, octets: &mut Vec<u8>) -> Result<(), AllocError> {
    let (digits, times) = repeated(word);
    match hex::decode(alloc, digits) {
        Ok(once) => add_times(once.as_slice(), times, octets),
        Err(_) => Ok(()),
    }
}

/// Returns the digits of `word` before its `*`, and the number after it: how often their bytes are repeated, or 1.
/// `add_word` calls it.
fn repeated(word: &str) -> (&str, u32) {
    match word.split_once('*') {
        Some((digits, times)) => (digits, times.parse().unwrap_or(0)),
        None => (word, 1),
    }
}

/// Appends `times` copies of `once` to `octets`, for a word of a case such as `A3B4*3`. Used by `add_word`.
fn add_times(once: &[u8], times: u32, octets: &mut Vec<u8>) -> Result<(), AllocError> {
    for _ in 0..times {
        octets.extend_from_slice(once)?;
    }
    Ok(())
}
