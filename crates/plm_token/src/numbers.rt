//! The values of numbers.

ghost use Rattle.std.specs.Prelude.{◌≡◌, ◌≤◌, ◌<◌, length, cond, Some, None, IfSome};
ghost use Rattle.plm_token.specs.Names.{normal};
ghost use Rattle.plm_token.specs.Numbers.{is_digit_of, digit_value, digits_from, numeral_of};

use crate::letters::Letters;

/// The greatest number that a text may have.
const GREATEST: u32 = 0xF_FFFF;

/// The value of a number of any base, where it is one and is at most 0FFFFFH.
pub fn numeral(text: &[u8]) -> Option<u32>
    ensures { result ≡ numeral_of (normal text.now) }
{
    let mut number = text;
    while let Some((last, front)) = number.split_last() {
        match *last {
            b'$' => number = front,
            b'B' | b'b' => return value(front, 2),
            b'O' | b'o' | b'Q' | b'q' => return value(front, 8),
            b'D' | b'd' => return value(front, 10),
            b'H' | b'h' => return value(front, 16),
            _ => return value(number, 10),
        }
    }
    value(number, 10)
}

/// The value of digits of a base, where all are and it is at most the greatest.
fn value(digits: &[u8], base: u32) -> Option<u32>
    requires some { 0 < base }
    requires small { base ≤ 16 }
    ensures { result ≡ digits_from base 0 (normal digits.now) }
{
    let mut letters = Letters::new(digits);
    let mut value = 0;
    while let Some(letter) = letters.next() {
        value = value * base + digit(letter, base)?;
        if value > GREATEST {
            return None;
        }
    }
    Some(value)
}

/// The value of a digit of a base.
fn digit(letter: u8, base: u32) -> Option<u32>
    ensures value { result ≡ cond (is_digit_of base letter) (Some (digit_value letter)) None }
    ensures below { IfSome result (λ d. d < base) }
{
    let digit = match letter {
        b'0'..=b'9' => letter - b'0',
        b'A'..=b'F' => letter - b'A' + 10,
        _ => return None,
    };
    let digit = u32::from(digit);
    if digit < base { Some(digit) } else { None }
}
