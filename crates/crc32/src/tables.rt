//! Tables of registers after the shifts of whole bytes.

ghost use Rattle.std.specs.Prelude.{◌≡◌, ℕ, ◌+◌, ◌*◌, ◌^◌, ◌<◌, ◌≤◌};
ghost use Rattle.crc32.specs.Checksum.{shifted};
ghost use Rattle.crc32.specs.Tables.{shifts, HoldShifts};

/// Generator polynomial of degree 32 without its highest term. Bit 31 - i is the coefficient of x^i.
const GENERATOR: u32 = 0xEDB8_8320;

/// Number of bytes that [`Tables`] has a table for.
pub(crate) const TABLES: usize = 16;

/// Number of values of a byte, and of words in a table.
pub(crate) const BYTES: usize = 256;

/// Tables with which a [`Crc32`](crate::Crc32) takes 16 bytes at a time, of 16 KiB together. They are made once and
/// serve each checksum.
#[derive(Drop)]
pub struct Tables {
    // The word at `256 * k + byte` is the register `byte` after `8 * (k + 1)` shifts.
    words: [u32; BYTES * TABLES],
    ghost hold_shifts: { HoldShifts words },
}

impl Tables {
    /// Makes the tables for `Crc32::update`, in tens of microseconds.
    pub fn new() -> Self {
        let mut words = [0; BYTES * TABLES];
        'places: for place in 0..BYTES * TABLES {
            let word = if place < BYTES {
                place as u32
            } else {
                words[place - BYTES]
            };
            words[place] = eight_shifts(word);
        }
        Tables { words }
    }

    /// Returns the register `byte` after `8 * (k + 1)` shifts, for `after_word` and `after_byte`.
    #[inline(always)]
    pub(crate) fn word(&self, k: usize, byte: u8) -> u32
        requires { k < TABLES }
        ensures { result ≡ shifts (8 * (k + 1)) byte }
    {
        self.words[BYTES * k + byte as usize]
    }
}

/// Returns the register `word` after one shift, for `eight_shifts`.
fn shifted(word: u32) -> u32
    ensures { result ≡ shifted word }
{
    if word % 2 == 0 {
        word / 2
    } else {
        (word / 2) ^ GENERATOR
    }
}

/// Returns the register `word` after the shifts of one byte, for `Tables::new`.
fn eight_shifts(word: u32) -> u32
    ensures { result ≡ shifts 8 word }
{
    let mut register = word;
    'shifts: for _count in 0..8_u32 {
        register = shifted(register);
    }
    register
}
