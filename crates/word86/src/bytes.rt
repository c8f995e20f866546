//! The bits of a byte, and words in memory, the low byte first.

ghost use Rattle.std.specs.Prelude.{◌≡◌, ◌+◌, ◌<◌, length};
ghost use Rattle.word86.specs.Bytes.{is_set, word_in, with_word};

use byteorder::{ByteOrder, LittleEndian};

/// Whether a bit of a byte is 1; bit 0 is the lowest.
pub fn is_set(byte: u8, bit: u8) -> bool
    requires { bit < 8 }
    ensures { result ≡ is_set byte bit }
{
    (byte >> bit) % 2 == 1
}

/// The word whose low byte stands at this index.
pub fn word_at(bytes: &[u8], at: usize) -> u16
    requires { at + 1 < length bytes.now }
    ensures { result ≡ word_in bytes.now at }
{
    LittleEndian::read_u16(&bytes[at..at + 2])
}

/// Puts a word, its low byte at this index.
pub fn put_word(bytes: &mut [u8], at: usize, value: u16)
    requires { at + 1 < length bytes.old }
    ensures { bytes.new ≡ with_word bytes.old at value }
{
    let mut pair = [0; 2];
    LittleEndian::write_u16(&mut pair, value);
    let [low, high] = pair;
    bytes[at] = low;
    bytes[at + 1] = high;
}
