//! The operators of expressions and their values (PL/M-86 User's Guide, expressions and built-in procedures; every result
//! wraps to its width).

ghost use Rattle.std.specs.Prelude.{◌≡◌};
ghost use Rattle.word86.specs.Operation.{truth, unary_value, binary_value, quotient, remainder};

use crate::arithmetic::{rol, ror, shl, shr};
use crate::signed::{signed_less, signed_quotient, signed_remainder};
use crate::width::Width;

/// An operator, or built-in, of one operand.
#[derive(Debug, Clone, Copy, PartialEq, Eq)]
pub enum UnaryOperation {
    Plus,
    /// Zero less the operand.
    Minus,
    Not,
    /// The low byte.
    Low,
    /// The high byte: 0 of a BYTE.
    High,
    /// The WORD of the same value.
    Double,
}

/// An operator, or built-in, of two operands.
#[derive(Debug, Clone, Copy, PartialEq, Eq)]
pub enum BinaryOperation {
    Multiply,
    Divide,
    Modulo,
    Add,
    Subtract,
    Equal,
    NotEqual,
    Less,
    LessEqual,
    Greater,
    GreaterEqual,
    And,
    Or,
    ExclusiveOr,
    ShiftLeft,
    ShiftRight,
    RotateLeft,
    RotateRight,
    /// Of numbers with sign, towards zero.
    DivideSigned,
    /// Of numbers with sign, with the sign of the dividend.
    ModuloSigned,
    LessSigned,
    LessEqualSigned,
    GreaterSigned,
    GreaterEqualSigned,
}

impl UnaryOperation {
    /// The value at an operand of this width.
    pub fn value(self, width: Width, operand: u16) -> u16
        ensures { result ≡ unary_value self width operand }
    {
        match self {
            UnaryOperation::Plus | UnaryOperation::Double => operand,
            UnaryOperation::Minus => width.low(0x1_0000 - u32::from(operand)),
            UnaryOperation::Not => width.low(0xFFFF - u32::from(operand)),
            UnaryOperation::Low => operand % 0x100,
            UnaryOperation::High => operand / 0x100,
        }
    }
}

// What a relation answers.
fn truth(holds: bool) -> u16
    ensures { result ≡ truth holds }
{
    if holds { 0xFF } else { 0 }
}

fn quotient(dividend: u16, divisor: u16) -> Option<u16>
    ensures { result ≡ quotient dividend divisor }
{
    dividend.checked_div(divisor)
}

fn remainder(dividend: u16, divisor: u16) -> Option<u16>
    ensures { result ≡ remainder dividend divisor }
{
    dividend.checked_rem(divisor)
}

impl BinaryOperation {
    /// The value at two operands, of which it is this width; nothing is divided by zero, nor with sign -32,768 by -1. Relations
    /// compare whole numbers and answer 0FFH or 0; a shift's count is the low byte of its second operand. What has a sign takes
    /// its operands for words in two's complement, whatever the width.
    pub fn value(self, width: Width, left: u16, right: u16) -> Option<u16>
        ensures { result ≡ binary_value self width left right }
    {
        let (x, y) = (u32::from(left), u32::from(right));
        let count = (right % 0x100) as u8;
        match self {
            BinaryOperation::Divide => quotient(left, right),
            BinaryOperation::Modulo => remainder(left, right),
            BinaryOperation::Multiply => Some(width.low(x * y)),
            BinaryOperation::Add => Some(width.low(x + y)),
            BinaryOperation::Subtract => Some(width.low(x + 0x1_0000 - y)),
            BinaryOperation::Equal => Some(truth(left == right)),
            BinaryOperation::NotEqual => Some(truth(left != right)),
            BinaryOperation::Less => Some(truth(left < right)),
            BinaryOperation::LessEqual => Some(truth(left <= right)),
            BinaryOperation::Greater => Some(truth(left > right)),
            BinaryOperation::GreaterEqual => Some(truth(left >= right)),
            BinaryOperation::And => Some(left & right),
            BinaryOperation::Or => Some(left | right),
            BinaryOperation::ExclusiveOr => Some(left ^ right),
            BinaryOperation::ShiftLeft => Some(shl(width, left, count)),
            BinaryOperation::ShiftRight => Some(shr(width, left, count)),
            BinaryOperation::RotateLeft => Some(rol(width, left, count)),
            BinaryOperation::RotateRight => Some(ror(width, left, count)),
            BinaryOperation::DivideSigned => signed_quotient(left, right),
            BinaryOperation::ModuloSigned => signed_remainder(left, right),
            BinaryOperation::LessSigned => Some(truth(signed_less(left, right))),
            BinaryOperation::LessEqualSigned => Some(truth(!signed_less(right, left))),
            BinaryOperation::GreaterSigned => Some(truth(signed_less(right, left))),
            BinaryOperation::GreaterEqualSigned => Some(truth(!signed_less(left, right))),
        }
    }
}
