//! Multiplication, division and numbers with sign.

ghost use Rattle.std.specs.Prelude.{◌≡◌, ◌<◌, ◌≤◌, ◌*◌, ◌%◌, IfSome};
ghost use Rattle.i86_table.specs.declared.instruction.Signedness.TheVariants.{Unsigned, Signed};
ghost use Rattle.word86.specs.Access.{values};
ghost use Rattle.i86_table.specs.Arithmetic.{sign_extended, sign_word, magnitude, is_negative, with_sign, carry_and_overflow, multiplied, divided};

use crate::flags::Flags;
use crate::instruction::Signedness;
use crate::outcome::{Division, Product};
use crate::width::size;
use word86::Width;

/// A byte as a word of the same signed value, as CBW has it and distances of one byte.
#[inline(always)]
pub fn sign_extended(byte: u8) -> u16
    ensures { result ≡ sign_extended byte }
{
    u16::from(byte.wrapping_add(128)).wrapping_add(65408)
}

/// The upper word of a word's signed value, as CWD puts it into DX.
pub fn sign_word(word: u16) -> u16
    ensures { result ≡ sign_word word }
{
    if word < 32768 { 0 } else { 65535 }
}

/// The absolute value of a number in two's complement of `size` values.
fn magnitude(size: u64, a: u64) -> u64
    requires { a < size }
    ensures { result ≡ magnitude size a }
{
    if a < size / 2 { a } else { size - a }
}

fn is_negative(size: u64, a: u64) -> bool
    ensures { result ≡ is_negative size a }
{
    a >= size / 2
}

/// The number of this sign and absolute value.
fn with_sign(size: u64, negative: bool, magnitude: u64) -> u64
    requires some { 0 < size }
    requires fits { magnitude ≤ size }
    ensures { result ≡ with_sign size negative magnitude }
{
    if negative {
        (size - magnitude) % size
    } else {
        magnitude
    }
}

fn carry_and_overflow(value: bool, flags: Flags) -> Flags
    ensures { result ≡ carry_and_overflow value flags }
{
    flags.with(Flags::CARRY, value).with(Flags::OVERFLOW, value)
}

#[tactic(auto, unfolding(crate::specs::Arithmetic::multiplied))]
fn multiply_unsigned(width: Width, a: u16, b: u16, flags: Flags) -> Product
    requires left { a < values width }
    requires right { b < values width }
    ensures value { result ≡ multiplied Unsigned width a b flags }
    ensures fits { result.value < values width * values width }
{
    let value = u32::from(a) * u32::from(b);
    Product {
        value,
        flags: carry_and_overflow(value >= size(width), flags),
    }
}

#[tactic(auto, unfolding(crate::specs::Arithmetic::multiplied))]
fn multiply_signed(width: Width, a: u16, b: u16, flags: Flags) -> Product
    requires left { a < values width }
    requires right { b < values width }
    ensures value { result ≡ multiplied Signed width a b flags }
    ensures fits { result.value < values width * values width }
{
    let size = u64::from(size(width));
    let (a, b) = (u64::from(a), u64::from(b));
    let product = magnitude(size, a) * magnitude(size, b);
    let negative = is_negative(size, a) != is_negative(size, b);
    let needed = if negative {
        product > size / 2
    } else {
        product >= size / 2
    };
    Product {
        value: with_sign(size * size, negative, product) as u32,
        flags: carry_and_overflow(needed, flags),
    }
}

/// The product of MUL or IMUL, of twice the width; CF and OF tell whether its upper half is needed to hold it.
pub(crate) fn multiply(
    signedness: Signedness,
    width: Width,
    a: u16,
    b: u16,
    flags: Flags,
) -> Product
    requires left { a < values width }
    requires right { b < values width }
    ensures value { result ≡ multiplied signedness width a b flags }
    ensures fits { result.value < values width * values width }
{
    match signedness {
        Signedness::Unsigned => multiply_unsigned(width, a, b, flags),
        Signedness::Signed => multiply_signed(width, a, b, flags),
    }
}

#[tactic(auto, unfolding(crate::specs::Arithmetic::divided))]
fn divide_unsigned(width: Width, dividend: u32, divisor: u16) -> Option<Division>
    requires { divisor < values width }
    ensures value { result ≡ divided Unsigned width dividend divisor }
    ensures fits { IfSome result (λ d. (d.quotient < values width) × (d.remainder < values width)) }
{
    if divisor == 0 {
        return None;
    }
    let divisor = u32::from(divisor);
    let quotient = dividend / divisor;
    if quotient >= size(width) {
        return None;
    }
    Some(Division {
        quotient: quotient as u16,
        remainder: (dividend % divisor) as u16,
    })
}

#[tactic(auto, unfolding(crate::specs::Arithmetic::divided))]
fn divide_signed(width: Width, dividend: u32, divisor: u16) -> Option<Division>
    requires left { dividend < values width * values width }
    requires right { divisor < values width }
    ensures value { result ≡ divided Signed width dividend divisor }
    ensures fits { IfSome result (λ d. (d.quotient < values width) × (d.remainder < values width)) }
{
    if divisor == 0 {
        return None;
    }
    let size = u64::from(size(width));
    let (a, b) = (u64::from(dividend), u64::from(divisor));
    let (magnitude_a, magnitude_b) = (magnitude(size * size, a), magnitude(size, b));
    let negative_dividend = is_negative(size * size, a);
    let negative = negative_dividend != is_negative(size, b);
    let quotient = magnitude_a / magnitude_b;
    let limit = if negative { size / 2 } else { size / 2 - 1 };
    if quotient > limit {
        return None;
    }
    Some(Division {
        quotient: with_sign(size, negative, quotient) as u16,
        remainder: with_sign(size, negative_dividend, magnitude_a % magnitude_b) as u16,
    })
}

/// Quotient and remainder of DIV or IDIV; `None`, the fault, where the divisor is 0 or the quotient out of its range.
pub fn divide(signedness: Signedness, width: Width, dividend: u32, divisor: u16) -> Option<Division>
    requires left { dividend < values width * values width }
    requires right { divisor < values width }
    ensures value { result ≡ divided signedness width dividend divisor }
    ensures fits { IfSome result (λ d. (d.quotient < values width) × (d.remainder < values width)) }
{
    match signedness {
        Signedness::Unsigned => divide_unsigned(width, dividend, divisor),
        Signedness::Signed => divide_signed(width, dividend, divisor),
    }
}
