//! Words as numbers with sign, in two's complement: the arithmetic of INTEGER, where it differs from that of WORD. Its rules are this
//! project's own (docs/LANGUAGE.md).

ghost use Rattle.std.specs.Prelude.{◌≡◌, ◌≢◌, ◌⊎◌, pos, negsuc, int_div, int_rem, Some, None, if◌then◌else◌};
ghost use Rattle.word86.specs.Signed.{signed, signed_word, has_quotient, signed_quotient, signed_remainder, signed_less};

/// The number that a word is with sign: from -32,768 to 32,767.
pub fn signed16(value: u16) -> i16
    ensures { result ≡ signed 65536 value }
{
    if value < 0x8000 {
        value as i16
    } else {
        (i32::from(value) - 0x1_0000) as i16
    }
}

/// The word of a number with sign: from 0 to 32,767 for one that is not negative, from 32,768 to 65,535 for a negative one.
pub fn unsigned16(value: i16) -> u16
    ensures { result ≡ signed_word value }
{
    if value >= 0 {
        value as u16
    } else {
        (i32::from(value) + 0x1_0000) as u16
    }
}

/// The quotient, towards zero, and the remainder, which has the sign of the dividend. Asks for a divisor that is not zero, and for
/// other numbers than -32,768 and -1.
pub fn idiv16(a: i16, b: i16) -> (i16, i16)
    requires divisor { b ≢ pos 0 }
    requires pair { (a ≢ negsuc 32767) ⊎ (b ≢ negsuc 0) }
    ensures quotient { result.0 ≡ int_div a b }
    ensures remainder { result.1 ≡ int_rem a b }
{
    (a / b, a % b)
}

/// Whether one word is below another, with sign.
pub(crate) fn signed_less(left: u16, right: u16) -> bool
    ensures { result ≡ signed_less left right }
{
    signed16(left) < signed16(right)
}

// Quotient and remainder of two words with sign, if there are any.
fn signed_division(left: u16, right: u16) -> Option<(i16, i16)>
    ensures { result ≡ (if has_quotient left right then Some (int_div (signed 65536 left) (signed 65536 right), int_rem (signed 65536 left) (signed 65536 right)) else None) }
{
    if right == 0 || (left == 0x8000 && right == 0xFFFF) {
        return None;
    }
    Some(idiv16(signed16(left), signed16(right)))
}

/// The quotient of two words with sign, if there is one.
pub(crate) fn signed_quotient(left: u16, right: u16) -> Option<u16>
    ensures { result ≡ signed_quotient left right }
{
    match signed_division(left, right) {
        None => None,
        Some((quotient, _)) => Some(unsigned16(quotient)),
    }
}

/// The remainder of two words with sign, if there is one.
pub(crate) fn signed_remainder(left: u16, right: u16) -> Option<u16>
    ensures { result ≡ signed_remainder left right }
{
    match signed_division(left, right) {
        None => None,
        Some((_, remainder)) => Some(unsigned16(remainder)),
    }
}
