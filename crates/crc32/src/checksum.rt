//! The checksum of bytes that come in parts.

ghost use Rattle.std.specs.Prelude.{◌≡◌, ℕ, ◌+◌, ◌*◌, ◌^◌, ◌<◌, ◌≤◌, List, [], ◌∷◌, ◌++◌, length};
ghost use Rattle.std.specs.Int.{to_le_bytes, w64};
ghost use Rattle.crc32.specs.Checksum.{crc32, after_bytes};
ghost use Rattle.crc32.specs.Tables.{shifts};

use crate::tables::Tables;
use std::marker::Model;

/// Number of bytes that a turn of [`Crc32::update`] takes: two words.
const TURN: usize = 2 * WORD;

/// Number of bytes of a word.
const WORD: usize = 8;

/// Checksum of bytes that come in parts. Contracts see it as a number, the CRC-32 of the parts that `update` got.
#[derive(Drop)]
pub struct Crc32 {
    value: u32,
}

impl Model for Crc32 {
    ghost Value = { ℕ };

    ghost view = { λ crc. crc.value };
}

impl Crc32 {
    /// Returns the checksum of no bytes, to which `update` adds parts.
    pub fn new() -> Self
        ensures { result ≡ crc32 [] }
    {
        Crc32 { value: 0 }
    }

    /// Adds the part `bytes`, of any length, after the other parts. `value` returns the checksum of all parts. Never
    /// fails.
    pub fn update(&mut self, tables: &Tables, bytes: &[u8])
        ensures { (before : List ℕ) → self.old ≡ crc32 before → self.new ≡ crc32 (before ++ bytes.now) }
    {
        self.value = !after_bytes(tables, !self.value, bytes);
    }

    /// Returns the CRC-32 of the parts that `update` got. A CRC-32 Element stores it in little-endian order.
    pub fn value(&self) -> u32
        ensures { result ≡ self.now }
    {
        self.value
    }
}

/// Returns the register after `bytes` if it is `register` before them, for `update`.
fn after_bytes(tables: &Tables, register: u32, bytes: &[u8]) -> u32
    ensures { result ≡ after_bytes register bytes.now }
{
    let turns = bytes.len() / TURN;
    let mut after = register;
    'turns: for turn in 0..turns {
        after = after_turn(tables, after, &bytes[TURN * turn..TURN * turn + TURN]);
    }
    'rest: for place in TURN * turns..bytes.len() {
        after = after_byte(tables, after, bytes[place]);
    }
    after
}

/// Returns the register after `byte` if it is `register` before it. `after_bytes` calls it for the last bytes.
fn after_byte(tables: &Tables, register: u32, byte: u8) -> u32
    ensures { result ≡ after_bytes register (byte ∷ []) }
{
    let mixed = register ^ u32::from(byte);
    tables.word(0, (mixed % 256) as u8) ^ (mixed / 256)
}

/// Returns the register after the 16 bytes `bytes` if it is `register` before them. `after_bytes` calls it.
#[inline(always)]
fn after_turn(tables: &Tables, register: u32, bytes: &[u8]) -> u32
    requires { length bytes.now ≡ TURN }
    ensures { result ≡ after_bytes register bytes.now }
{
    let first = u64::from(register) ^ number_of(&bytes[..WORD]);
    after_word(tables, first, WORD) ^ after_word(tables, number_of(&bytes[WORD..]), 0)
}

/// Returns the eight bytes `bytes` as a little-endian number, for `after_turn`.
#[inline(always)]
fn number_of(bytes: &[u8]) -> u64
    requires { length bytes.now ≡ WORD }
    ensures { to_le_bytes w64 result ≡ bytes.now }
{
    u64::from_le_bytes([
        bytes[0], bytes[1], bytes[2], bytes[3], bytes[4], bytes[5], bytes[6], bytes[7],
    ])
}

/// Returns the register `word` after the shifts of its own eight bytes and of `later` more, for `after_turn`.
#[inline(always)]
fn after_word(tables: &Tables, word: u64, later: usize) -> u32
    requires { later ≤ WORD }
    ensures { result ≡ shifts (8 * (later + WORD)) word }
{
    let mut left = word;
    let mut after = 0;
    'bytes: for place in 0..WORD {
        after ^= tables.word(later + WORD - 1 - place, (left % 256) as u8);
        left /= 256;
    }
    after
}
