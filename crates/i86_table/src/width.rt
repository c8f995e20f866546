//! The range of a width.

ghost use Rattle.std.specs.Prelude.{◌≡◌, ◌<◌, ◌%◌};
ghost use Rattle.word86.specs.Access.{values};
ghost use Rattle.i86_table.specs.Arithmetic.{half_of, sign};

use word86::Width;

/// How many values there are.
pub(crate) fn size(width: Width) -> u32
    ensures { result ≡ values width }
{
    match width {
        Width::Byte => 256,
        Width::Word => 65536,
    }
}

/// The value of the highest bit.
pub(crate) fn half(width: Width) -> u32
    ensures { result ≡ half_of width }
{
    match width {
        Width::Byte => 128,
        Width::Word => 32768,
    }
}

/// The remainder of a number.
pub(crate) fn wrap(width: Width, number: u32) -> u16
    ensures value { result ≡ number % values width }
    ensures fits { result < values width }
{
    match width {
        Width::Byte => (number % 256) as u16,
        Width::Word => (number % 65536) as u16,
    }
}

/// Whether the highest bit is set.
pub(crate) fn sign(width: Width, value: u16) -> bool
    ensures { result ≡ sign width value }
{
    u32::from(value) >= half(width)
}
