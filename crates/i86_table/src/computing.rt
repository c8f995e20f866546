//! Operations with the flags that the registers hold.

ghost use Rattle.std.specs.Prelude.{◌≡◌, ◌<◌, ◌*◌};
ghost use Rattle.word86.specs.Access.{values};
ghost use Rattle.i86_table.specs.Arithmetic.{operated, tested, changed, shifted, multiplied, has, with_flag};
ghost use Rattle.i86_table.specs.Condition.{holds};
ghost use Rattle.i86_table.specs.State.{with_flags};

use crate::flags::Flags;
use crate::instruction::{AluOperation, Condition, ShiftOperation, Signedness, UnaryOperation};
use crate::multiplication::multiply;
use crate::registers::Regs;
use word86::Width;

impl Regs {
    /// The result of ADD, OR, ADC, SBB, AND, SUB or XOR, with its flags set; CMP answers its first operand.
    #[inline(always)]
    pub fn operate(&mut self, operation: AluOperation, width: Width, a: u16, b: u16) -> u16
        requires left { a < values width }
        requires right { b < values width }
        ensures value { result ≡ (operated operation width a b self.old.flags).value }
        ensures flags { self.new ≡ with_flags (operated operation width a b self.old.flags).flags self.old }
        ensures fits { result < values width }
    {
        self.status.operate(operation, width, a, b)
    }

    /// Sets the flags of TEST.
    #[inline(always)]
    pub fn test(&mut self, width: Width, a: u16, b: u16)
        ensures { self.new ≡ with_flags (tested width a b self.old.flags) self.old }
    {
        self.status.test(width, a, b);
    }

    /// The result of NOT, NEG, INC or DEC, with its flags set.
    #[inline(always)]
    pub fn change(&mut self, operation: UnaryOperation, width: Width, a: u16) -> u16
        requires { a < values width }
        ensures value { result ≡ (changed operation width a self.old.flags).value }
        ensures flags { self.new ≡ with_flags (changed operation width a self.old.flags).flags self.old }
        ensures fits { result < values width }
    {
        self.status.change(operation, width, a)
    }

    /// The result of a shift or rotation by a count that is not masked, with its flags set.
    #[inline(always)]
    pub fn shift(&mut self, operation: ShiftOperation, width: Width, a: u16, count: u8) -> u16
        requires { a < values width }
        ensures value { result ≡ (shifted operation width a count self.old.flags).value }
        ensures flags { self.new ≡ with_flags (shifted operation width a count self.old.flags).flags self.old }
        ensures fits { result < values width }
    {
        self.status.shift(operation, width, a, count)
    }

    /// The product of MUL or IMUL, of twice the width, with its flags set.
    pub fn multiply(&mut self, signedness: Signedness, width: Width, a: u16, b: u16) -> u32
        requires left { a < values width }
        requires right { b < values width }
        ensures value { result ≡ (multiplied signedness width a b self.old.flags).value }
        ensures flags { self.new ≡ with_flags (multiplied signedness width a b self.old.flags).flags self.old }
        ensures fits { result < values width * values width }
    {
        let product = multiply(signedness, width, a, b, self.flags());
        self.set_flags(product.flags);
        product.value
    }

    /// Whether the flags let a conditional jump be taken.
    #[inline(always)]
    pub fn holds(&self, condition: Condition) -> bool
        ensures { result ≡ holds condition self.now.flags }
    {
        self.status.holds(condition)
    }

    /// Sets or clears a flag.
    pub fn set_flag(&mut self, flag: Flags, value: bool)
        ensures { self.new ≡ with_flags (with_flag flag value self.old.flags) self.old }
    {
        self.set_flags(self.flags().with(flag, value));
    }

    /// Whether IF is set: interrupts are let in.
    #[inline(always)]
    pub fn lets_interrupts_in(&self) -> bool
        ensures { result ≡ has self.now.flags 512 }
    {
        self.status.lets_interrupts_in()
    }
}
