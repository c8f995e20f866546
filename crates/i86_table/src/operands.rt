//! What operands name.

ghost use Rattle.std.specs.Prelude.{◌≡◌, ◌+◌, ◌%◌};
ghost use Rattle.i86_table.specs.State.{word_of, start_of, offset_of, port_of, target};

use crate::instruction::{Address, Base, Operands, Port, RmOperand};
use crate::registers::{Register16, Regs};

impl Regs {
    /// The sum of two word registers, modulo 65,536.
    #[inline(always)]
    fn sum(&self, first: Register16, second: Register16) -> u16
        ensures { result ≡ (word_of self.now first + word_of self.now second) % 65536 }
    {
        self.word(first).wrapping_add(self.word(second))
    }

    /// The sum of base registers that an address begins with, modulo 65,536.
    fn start(&self, base: Base) -> u16
        ensures { result ≡ start_of self.now base }
    {
        match base {
            Base::BxSi => self.sum(Register16::Bx, Register16::Si),
            Base::BxDi => self.sum(Register16::Bx, Register16::Di),
            Base::BpSi => self.sum(Register16::Bp, Register16::Si),
            Base::BpDi => self.sum(Register16::Bp, Register16::Di),
            Base::Si => self.word(Register16::Si),
            Base::Di => self.word(Register16::Di),
            Base::Bp => self.word(Register16::Bp),
            Base::Bx => self.word(Register16::Bx),
        }
    }

    /// The offset of an operand in its segment, modulo 65,536.
    pub fn offset(&self, address: Address) -> u16
        ensures { result ≡ offset_of self.now address }
    {
        match address {
            Address::Direct(offset) => offset,
            Address::Based { base, displacement } => self.start(base).wrapping_add(displacement),
        }
    }

    /// The port that IN and OUT name.
    pub fn port(&self, port: Port) -> u16
        ensures { result ≡ port_of self.now port }
    {
        match port {
            Port::Fixed(number) => u16::from(number),
            Port::Dx => self.word(Register16::Dx),
        }
    }
}

impl<R: Copy, I: Copy> Operands<R, I> {
    /// What the operands change.
    pub fn target(self) -> RmOperand<R>
        ensures { result ≡ target self }
    {
        match self {
            Operands::FromRegister(place, _) | Operands::Immediate(place, _) => place,
            Operands::FromMemory(register, _) => RmOperand::Register(register),
        }
    }
}
