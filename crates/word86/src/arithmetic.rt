//! The arithmetic of BYTE and WORD: every result wraps to its width.

ghost use Rattle.std.specs.Prelude.{◌≡◌, ◌≢◌, ◌+◌, ◌-◌, ◌*◌, ◌/◌, ◌%◌, ◌^◌, ◌<◌, ◌≤◌, ℕ};
ghost use Rattle.word86.specs.Access.{values};
ghost use Rattle.word86.specs.Arithmetic.{bits, low, rotated, rotated_left, rotated_right};

use crate::width::Width;

impl Width {
    /// The number of bits.
    pub fn bits(self) -> u32
        ensures { result ≡ bits self }
    {
        match self {
            Width::Byte => 8,
            Width::Word => 16,
        }
    }

    /// The low bits of a number.
    pub fn low(self, value: u32) -> u16
        ensures { result ≡ low self value }
    {
        match self {
            Width::Byte => (value % 0x100) as u16,
            Width::Word => (value % 0x1_0000) as u16,
        }
    }
}

/// The sum of two BYTEs, modulo 256.
pub fn add8(a: u8, b: u8) -> u8
    ensures { result ≡ (a + b) % 256 }
{
    ((u16::from(a) + u16::from(b)) % 0x100) as u8
}

/// The sum of two WORDs, modulo 65,536.
pub fn add16(a: u16, b: u16) -> u16
    ensures { result ≡ (a + b) % 65536 }
{
    a.wrapping_add(b)
}

/// The difference of two WORDs, modulo 65,536.
pub fn sub16(a: u16, b: u16) -> u16
    ensures { result ≡ (a + 65536 - b) % 65536 }
{
    a.wrapping_sub(b)
}

/// The low 16 bits of a product.
pub fn mul16(a: u16, b: u16) -> u16
    ensures { result ≡ (a * b) % 65536 }
{
    a.wrapping_mul(b)
}

/// The quotient and the remainder; asks for a divisor that is not zero.
pub fn div16(a: u16, b: u16) -> (u16, u16)
    requires { 0 < b }
    ensures quotient { result.0 ≡ a / b }
    ensures remainder { result.1 ≡ a % b }
{
    (a / b, a % b)
}

/// The low bits of a value shifted left by `count` places, with zeros coming in.
pub fn shl(width: Width, value: u16, count: u8) -> u16
    ensures { result ≡ low width (value * 2 ^ count) }
{
    if count >= 16 {
        return 0;
    }
    width.low(u32::from(value) << u32::from(count))
}

/// The value, of which the low bits count, shifted right by `count` places, with zeros coming in.
pub fn shr(width: Width, value: u16, count: u8) -> u16
    ensures { result ≡ low width value / 2 ^ count }
{
    if count >= 16 {
        return 0;
    }
    width.low(u32::from(value)) >> u32::from(count)
}

// The low bits turned left by fewer places than they are.
fn rotate(width: Width, value: u16, places: u32) -> u16
    requires { places ≤ bits width }
    ensures { result ≡ rotated width value places }
{
    let turned = u32::from(width.low(u32::from(value))) << places;
    width.low(u32::from(width.low(turned)) + (turned >> width.bits()))
}

/// The low bits of a value rotated left by `count` places.
pub fn rol(width: Width, value: u16, count: u8) -> u16
    ensures { result ≡ rotated_left width value count }
{
    rotate(width, value, u32::from(count) % width.bits())
}

/// The low bits of a value rotated right by `count` places.
pub fn ror(width: Width, value: u16, count: u8) -> u16
    ensures { result ≡ rotated_right width value count }
{
    rotate(width, value, width.bits() - u32::from(count) % width.bits())
}
