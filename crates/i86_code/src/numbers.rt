//! The numbers that registers and operations have in an encoding.

ghost use Rattle.std.specs.Prelude.{◌≡◌, ◌<◌, ℕ};
ghost use Rattle.i86_table.specs.Numbers.{byte_register_code, word_register_code, segment_code};
ghost use Rattle.i86_code.specs.Opcode.{operation_at, condition_at, byte_register_at, word_register_at, segment_at, loadable_at, width_at};
ghost use Rattle.i86_code.specs.Forms.{operation_code, condition_code, width_code};

use i86_table::{AluOperation, Condition, LoadableSegment, Register8, Register16, Segment};
use word86::Width;

/// A register of a width, by its number in the register field of an address byte.
pub trait Numbered: Copy {
    /// The register of a number below 8.
    ghost at: { ℕ → Self };

    /// The number of a register.
    ghost code: { Self → ℕ };

    /// The register of a number below 8.
    fn from_number(number: u8) -> Self
        ensures { result ≡ at number };

    /// The number of a register.
    fn number(self) -> u8
        ensures value { result ≡ code self }
        ensures fits { result < 8 };
}

impl Numbered for Register8 {
    ghost at = { byte_register_at };

    ghost code = { byte_register_code };

    fn from_number(number: u8) -> Register8 {
        match number {
            0 => Register8::Al,
            1 => Register8::Cl,
            2 => Register8::Dl,
            3 => Register8::Bl,
            4 => Register8::Ah,
            5 => Register8::Ch,
            6 => Register8::Dh,
            _ => Register8::Bh,
        }
    }

    fn number(self) -> u8 {
        Register8::number(self)
    }
}

impl Numbered for Register16 {
    ghost at = { word_register_at };

    ghost code = { word_register_code };

    fn from_number(number: u8) -> Register16 {
        match number {
            0 => Register16::Ax,
            1 => Register16::Cx,
            2 => Register16::Dx,
            3 => Register16::Bx,
            4 => Register16::Sp,
            5 => Register16::Bp,
            6 => Register16::Si,
            _ => Register16::Di,
        }
    }

    fn number(self) -> u8 {
        Register16::number(self)
    }
}

/// The arithmetic operation of a number below 8, ADD being 0 and CMP 7.
pub(crate) fn operation(number: u8) -> AluOperation
    ensures { result ≡ operation_at number }
{
    match number {
        0 => AluOperation::Add,
        1 => AluOperation::Or,
        2 => AluOperation::Adc,
        3 => AluOperation::Sbb,
        4 => AluOperation::And,
        5 => AluOperation::Sub,
        6 => AluOperation::Xor,
        _ => AluOperation::Cmp,
    }
}

/// The number of an arithmetic operation.
pub(crate) fn operation_number(operation: AluOperation) -> u8
    ensures value { result ≡ operation_code operation }
    ensures fits { result < 8 }
{
    operation as u8
}

/// The condition of a number below 16, O being 0 and G 15.
pub(crate) fn condition(number: u8) -> Condition
    ensures { result ≡ condition_at number }
{
    match number {
        0 => Condition::Overflow,
        1 => Condition::NotOverflow,
        2 => Condition::Below,
        3 => Condition::NotBelow,
        4 => Condition::Equal,
        5 => Condition::NotEqual,
        6 => Condition::BelowOrEqual,
        7 => Condition::Above,
        8 => Condition::Sign,
        9 => Condition::NotSign,
        10 => Condition::ParityEven,
        11 => Condition::ParityOdd,
        12 => Condition::Less,
        13 => Condition::NotLess,
        14 => Condition::LessOrEqual,
        _ => Condition::Greater,
    }
}

/// The number of a condition.
pub(crate) fn condition_number(condition: Condition) -> u8
    ensures value { result ≡ condition_code condition }
    ensures fits { result < 16 }
{
    condition as u8
}

/// The segment register of a number below 4, ES being 0 and DS 3.
pub(crate) fn segment(number: u8) -> Segment
    ensures { result ≡ segment_at number }
{
    match number {
        0 => Segment::Es,
        1 => Segment::Cs,
        2 => Segment::Ss,
        _ => Segment::Ds,
    }
}

/// The number of a segment register.
pub(crate) fn segment_number(segment: Segment) -> u8
    ensures value { result ≡ segment_code segment }
    ensures fits { result < 4 }
{
    segment as u8
}

/// The segment register of a number below 4 that MOV and POP may load: CS is none.
pub(crate) fn loadable(number: u8) -> Option<LoadableSegment>
    ensures { result ≡ loadable_at number }
{
    match number {
        0 => Some(LoadableSegment::Es),
        2 => Some(LoadableSegment::Ss),
        3 => Some(LoadableSegment::Ds),
        _ => None,
    }
}

/// The width that the lowest bit of an opcode byte says.
pub(crate) fn width(byte: u8) -> Width
    ensures { result ≡ width_at byte }
{
    if byte % 2 == 0 {
        Width::Byte
    } else {
        Width::Word
    }
}

/// The lowest bit of an opcode byte: 0 for bytes, 1 for words.
pub(crate) fn width_number(width: Width) -> u8
    ensures value { result ≡ width_code width }
    ensures fits { result < 2 }
{
    width as u8
}
