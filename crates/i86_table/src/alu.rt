//! Sums, differences and bitwise operations on bytes and words, with their flags.

ghost use Rattle.std.specs.Prelude.{◌≡◌, ◌<◌};
ghost use Rattle.word86.specs.Access.{values};
ghost use Rattle.i86_table.specs.Arithmetic.{operated, tested, changed};

use crate::instruction::{AluOperation, UnaryOperation};
use crate::late_flags::LateFlags;
use crate::width::size;
use word86::Width;

impl LateFlags {
    /// The result of ADD, OR, ADC, SBB, AND, SUB or XOR; CMP answers its first operand.
    #[tactic(auto, using(std::proofs::lemmas::Nat::and_le_l, std::proofs::lemmas::Nat::widths, crate::proofs::LateLaws::combined_value), unfolding(crate::specs::Arithmetic::operated))]
    #[inline(always)]
    pub(crate) fn operate(&mut self, operation: AluOperation, width: Width, a: u16, b: u16) -> u16
        requires left { a < values width }
        requires right { b < values width }
        ensures value { result ≡ (operated operation width a b self.old).value }
        ensures flags { self.new ≡ (operated operation width a b self.old).flags }
        ensures fits { result < values width }
    {
        match operation {
            AluOperation::Add => self.add(width, a, b, false),
            AluOperation::Or => self.combine(width, a | b),
            AluOperation::Adc => {
                let carry = self.carry();
                self.add(width, a, b, carry)
            }
            AluOperation::Sbb => {
                let carry = self.carry();
                self.subtract(width, a, b, carry)
            }
            AluOperation::And => self.combine(width, a & b),
            AluOperation::Sub => self.subtract(width, a, b, false),
            AluOperation::Xor => self.combine(width, a ^ b),
            AluOperation::Cmp => {
                self.subtract(width, a, b, false);
                a
            }
        }
    }

    /// Sets the flags of TEST: those of AND.
    #[inline(always)]
    pub(crate) fn test(&mut self, width: Width, a: u16, b: u16)
        ensures { self.new ≡ tested width a b self.old }
    {
        self.combine(width, a & b);
    }

    /// The result of NOT, NEG, INC or DEC.
    #[tactic(auto, unfolding(crate::specs::Arithmetic::changed))]
    #[inline(always)]
    pub(crate) fn change(&mut self, operation: UnaryOperation, width: Width, a: u16) -> u16
        requires { a < values width }
        ensures value { result ≡ (changed operation width a self.old).value }
        ensures flags { self.new ≡ (changed operation width a self.old).flags }
        ensures fits { result < values width }
    {
        match operation {
            UnaryOperation::Not => (size(width) - 1 - u32::from(a)) as u16,
            UnaryOperation::Neg => self.subtract(width, 0, a, false),
            UnaryOperation::Inc => self.increment(width, a),
            UnaryOperation::Dec => self.decrement(width, a),
        }
    }
}
