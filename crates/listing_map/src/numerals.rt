//! Hexadecimal numbers in capitals.

ghost use Rattle.std.specs.Prelude.{◌≡◌, ◌<◌};
ghost use Rattle.listing_map.specs.Lines.{hex_digit, hex2, hex4, hex5};

const DIGITS: [u8; 16] = *b"0123456789ABCDEF";

/// The two digits of each byte, one byte's after the other's.
const PAIRS: [u8; 512] = *b"\
    000102030405060708090A0B0C0D0E0F\
    101112131415161718191A1B1C1D1E1F\
    202122232425262728292A2B2C2D2E2F\
    303132333435363738393A3B3C3D3E3F\
    404142434445464748494A4B4C4D4E4F\
    505152535455565758595A5B5C5D5E5F\
    606162636465666768696A6B6C6D6E6F\
    707172737475767778797A7B7C7D7E7F\
    808182838485868788898A8B8C8D8E8F\
    909192939495969798999A9B9C9D9E9F\
    A0A1A2A3A4A5A6A7A8A9AAABACADAEAF\
    B0B1B2B3B4B5B6B7B8B9BABBBCBDBEBF\
    C0C1C2C3C4C5C6C7C8C9CACBCCCDCECF\
    D0D1D2D3D4D5D6D7D8D9DADBDCDDDEDF\
    E0E1E2E3E4E5E6E7E8E9EAEBECEDEEEF\
    F0F1F2F3F4F5F6F7F8F9FAFBFCFDFEFF";

/// A digit, 0 to 9 or A to F.
#[inline(always)]
fn digit(value: u16) -> u8
    requires { value < 16 }
    ensures { result ≡ hex_digit value }
{
    DIGITS[usize::from(value)]
}

/// A byte as two digits.
#[inline(always)]
pub(crate) fn hex_byte(value: u8) -> [u8; 2]
    ensures { result ≡ hex2 value }
{
    let place = 2 * usize::from(value);
    [PAIRS[place], PAIRS[place + 1]]
}

/// A word as four digits.
#[tactic(auto, using(crate::proofs::Pairs::word_digits))]
#[inline(always)]
pub(crate) fn hex_word(value: u16) -> [u8; 4]
    ensures { result ≡ hex4 value }
{
    let [a, b] = hex_byte((value / 256) as u8);
    let [c, d] = hex_byte((value % 256) as u8);
    [a, b, c, d]
}

/// The low 16 bits of a number as four digits.
pub(crate) fn hex_low_word(value: u64) -> [u8; 4]
    ensures { result ≡ hex4 value }
{
    [
        digit((value / 4096 % 16) as u16),
        digit((value / 256 % 16) as u16),
        digit((value / 16 % 16) as u16),
        digit((value % 16) as u16),
    ]
}

/// A physical address, of 20 bits, as five digits. Of a greater number the low 20 bits are written.
pub(crate) fn hex_address(address: u32) -> [u8; 5]
    ensures { result ≡ hex5 address }
{
    [
        digit((address / 65536 % 16) as u16),
        digit((address / 4096 % 16) as u16),
        digit((address / 256 % 16) as u16),
        digit((address / 16 % 16) as u16),
        digit((address % 16) as u16),
    ]
}
