//! Operands of both widths, by one text.

ghost use Rattle.std.specs.Prelude.{◌≡◌, ◌<◌, ◌≤◌, ◌+◌};
ghost use Rattle.word86.specs.Access.{values};
ghost use Rattle.arrayvec.specs.ArrayVec.{array_vec_len};
ghost use Rattle.cpu8086.specs.Machine.{machine};
ghost use Rattle.cpu8086.specs.Operand.{Bank, bytes, words, located, in_memory, held, put, source, mask};

use crate::bus::Bus;
use crate::memory::{Labels, load, store};
use i86_table::{Memory, Operands, Register8, Register16, Regs, RmOperand, TestMask};
use word86::Width;

/// Where an operand lies: in a register, or at a segment's value and an offset.
#[derive(Clone, Copy)]
pub(crate) enum Spot<R> {
    Register(R),
    Memory { segment: u16, offset: u16 },
}

/// A register of one width, by which operand code is written once for both.
pub(crate) trait Operand: Copy {
    /// An immediate operand of this width.
    type Immediate: Copy;

    ghost bank: { Bank Self Self.Immediate };

    fn width() -> Width
        ensures { result ≡ bank.width };

    fn value(self, registers: &Regs) -> u16
        ensures value { result ≡ bank.value registers.now self }
        ensures fits { result < values bank.width };

    fn set(self, registers: &mut Regs, value: u16)
        requires { value < values bank.width }
        ensures { registers.new ≡ bank.with_value registers.old self value };

    /// The number that an immediate operand is.
    fn number(immediate: Self::Immediate) -> u16
        ensures value { result ≡ bank.number immediate }
        ensures fits { result < values bank.width };
}

impl Operand for Register8 {
    type Immediate = u8;

    ghost bank = { bytes };

    fn width() -> Width {
        Width::Byte
    }

    fn value(self, registers: &Regs) -> u16 {
        u16::from(registers.byte(self))
    }

    fn set(self, registers: &mut Regs, value: u16) {
        registers.set_byte(self, value as u8);
    }

    fn number(immediate: u8) -> u16 {
        u16::from(immediate)
    }
}

impl Operand for Register16 {
    type Immediate = u16;

    ghost bank = { words };

    fn width() -> Width {
        Width::Word
    }

    fn value(self, registers: &Regs) -> u16 {
        registers.word(self)
    }

    fn set(self, registers: &mut Regs, value: u16) {
        registers.set_word(self, value);
    }

    fn number(immediate: u16) -> u16 {
        immediate
    }
}

#[inline(always)]
pub(crate) fn locate_memory<R: Operand>(registers: &Regs, memory: &Memory) -> Spot<R>
    ensures { result ≡ in_memory registers.now memory.now }
{
    Spot::Memory {
        segment: registers.segment(memory.segment),
        offset: registers.offset(memory.address),
    }
}

#[inline(always)]
pub(crate) fn locate<R: Operand>(registers: &Regs, place: &RmOperand<R>) -> Spot<R>
    ensures { result ≡ located registers.now place.now }
{
    match place {
        RmOperand::Register(register) => Spot::Register(*register),
        RmOperand::Memory(memory) => locate_memory(registers, memory),
    }
}

impl<R: Operand> Spot<R> {
    #[inline(always)]
    pub(crate) fn read<B: Bus>(self, registers: &Regs, bus: &B) -> u16
        ensures value { result ≡ held B.model R.bank registers.now (B.world bus.now) self }
        ensures fits { result < values R.bank.width }
    {
        match self {
            Spot::Register(register) => register.value(registers),
            Spot::Memory { segment, offset } => load(bus, R::width(), segment, offset),
        }
    }

    #[tactic(auto, unfolding(crate::specs::Machine::stored_access))]
    #[inline(always)]
    pub(crate) fn write<B: Bus>(
        self,
        registers: &mut Regs,
        bus: &mut B,
        labels: &mut Labels,
        value: u16,
    )
        requires fits { value < values R.bank.width }
        requires room { array_vec_len labels.old < 4 }
        ensures after { machine registers.new (B.world bus.new) labels.new.items
            ≡ put B.model R.bank self value (machine registers.old (B.world bus.old) labels.old.items) }
        ensures room { array_vec_len labels.new ≤ array_vec_len labels.old + 1 }
    {
        match self {
            Spot::Register(register) => register.set(registers, value),
            Spot::Memory { segment, offset } => {
                store(bus, labels, R::width(), segment, offset, value);
            }
        }
    }
}

#[inline(always)]
pub(crate) fn read_memory<R: Operand, B: Bus>(registers: &Regs, bus: &B, memory: &Memory) -> u16
    ensures value { result ≡ held B.model R.bank registers.now (B.world bus.now) (in_memory registers.now memory.now) }
    ensures fits { result < values R.bank.width }
{
    locate_memory::<R>(registers, memory).read(registers, bus)
}

#[inline(always)]
pub(crate) fn read_source<R: Operand, B: Bus>(
    registers: &Regs,
    bus: &B,
    operands: &Operands<R, R::Immediate>,
) -> u16
    ensures value { result ≡ source B.model R.bank registers.now (B.world bus.now) operands.now }
    ensures fits { result < values R.bank.width }
{
    match operands {
        Operands::FromRegister(_, register) => register.value(registers),
        Operands::FromMemory(_, memory) => read_memory::<R, B>(registers, bus, memory),
        Operands::Immediate(_, immediate) => R::number(*immediate),
    }
}

#[inline(always)]
pub(crate) fn read_mask<R: Operand>(registers: &Regs, tested: &TestMask<R, R::Immediate>) -> u16
    ensures value { result ≡ mask R.bank registers.now tested.now }
    ensures fits { result < values R.bank.width }
{
    match tested {
        TestMask::Register(register) => register.value(registers),
        TestMask::Immediate(immediate) => R::number(*immediate),
    }
}
