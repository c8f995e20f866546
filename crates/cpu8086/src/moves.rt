//! Instructions that move data.

ghost use Rattle.std.specs.Prelude.{◌≡◌, ◌<◌, ◌≤◌, ◌%◌};
ghost use Rattle.word86.specs.Access.{values};
ghost use Rattle.arrayvec.specs.ArrayVec.{array_vec_len};
ghost use Rattle.i86_table.specs.State.{port_of};
ghost use Rattle.cpu8086.specs.Machine.{machine};
ghost use Rattle.cpu8086.specs.Moves.{exchanged_bytes, exchanged_words, byte_converted, word_converted, accumulator, with_accumulator, in_label, out_label, moved, exchanged_with, moved_from_segment, moved_to_segment, pushed_value, pushed_place, popped_to, popped_to_segment, read_in, written_out};

use crate::bus::Bus;
use crate::memory::{Labels, pop, push};
use crate::operand::{Operand, locate, locate_memory, read_source};
use i86_table::{
    BytePair, LoadableSegment, Memory, Operands, Port, Register8, Register16, Regs, RmOperand,
    Segment, WordPair, sign_extended, sign_word,
};
use word86::{Label, Width};

/// MOV.
#[tactic(auto, unfolding(crate::specs::Moves::moved))]
#[inline(never)]
pub(crate) fn move_operands<R: Operand, B: Bus>(
    registers: &mut Regs,
    bus: &mut B,
    labels: &mut Labels,
    operands: &Operands<R, R::Immediate>,
)
    requires { array_vec_len labels.old < 4 }
    ensures { machine registers.new (B.world bus.new) labels.new.items
        ≡ moved B.model R.bank operands.now (machine registers.old (B.world bus.old) labels.old.items) }
{
    let value = read_source(registers, bus, operands);
    match operands {
        Operands::FromRegister(place, _) | Operands::Immediate(place, _) => {
            locate(registers, place).write(registers, bus, labels, value);
        }
        Operands::FromMemory(register, _) => register.set(registers, value),
    }
}

/// XCHG of a register with memory.
#[tactic(auto, unfolding(crate::specs::Moves::exchanged_with))]
#[inline(never)]
pub(crate) fn exchange_with<R: Operand, B: Bus>(
    registers: &mut Regs,
    bus: &mut B,
    labels: &mut Labels,
    register: R,
    memory: &Memory,
)
    requires { array_vec_len labels.old < 4 }
    ensures { machine registers.new (B.world bus.new) labels.new.items
        ≡ exchanged_with B.model R.bank register memory.now (machine registers.old (B.world bus.old) labels.old.items) }
{
    let spot = locate_memory::<R>(registers, memory);
    let value = spot.read(registers, bus);
    let stored = register.value(registers);
    spot.write(registers, bus, labels, stored);
    register.set(registers, value);
}

/// XCHG of two byte registers.
#[inline(never)]
pub(crate) fn exchange_bytes(registers: &mut Regs, pair: &BytePair)
    ensures { registers.new ≡ exchanged_bytes pair.now registers.old }
{
    let first = registers.byte(pair.first);
    let second = registers.byte(pair.second);
    registers.set_byte(pair.first, second);
    registers.set_byte(pair.second, first);
}

/// XCHG of two word registers.
#[inline(never)]
pub(crate) fn exchange_words(registers: &mut Regs, pair: &WordPair)
    ensures { registers.new ≡ exchanged_words pair.now registers.old }
{
    let first = registers.word(pair.first);
    let second = registers.word(pair.second);
    registers.set_word(pair.first, second);
    registers.set_word(pair.second, first);
}

/// CBW.
#[inline(never)]
pub(crate) fn convert_byte(registers: &mut Regs)
    ensures { registers.new ≡ byte_converted registers.old }
{
    registers.set_word(Register16::Ax, sign_extended(registers.byte(Register8::Al)));
}

/// CWD.
#[inline(never)]
pub(crate) fn convert_word(registers: &mut Regs)
    ensures { registers.new ≡ word_converted registers.old }
{
    registers.set_word(Register16::Dx, sign_word(registers.word(Register16::Ax)));
}

/// MOV from a segment register.
#[tactic(auto, unfolding(crate::specs::Moves::moved_from_segment))]
#[inline(never)]
pub(crate) fn move_from_segment<B: Bus>(
    registers: &mut Regs,
    bus: &mut B,
    labels: &mut Labels,
    place: &RmOperand<Register16>,
    segment: Segment,
)
    requires { array_vec_len labels.old < 4 }
    ensures { machine registers.new (B.world bus.new) labels.new.items
        ≡ moved_from_segment B.model place.now segment (machine registers.old (B.world bus.old) labels.old.items) }
{
    let value = registers.segment(segment);
    locate(registers, place).write(registers, bus, labels, value);
}

/// MOV to a segment register.
#[tactic(auto, unfolding(crate::specs::Moves::moved_to_segment))]
#[inline(never)]
pub(crate) fn move_to_segment<B: Bus>(
    registers: &mut Regs,
    bus: &B,
    segment: LoadableSegment,
    place: &RmOperand<Register16>,
)
    ensures { registers.new ≡ moved_to_segment B.model segment place.now (B.world bus.now) registers.old }
{
    let value = locate(registers, place).read(registers, bus);
    registers.set_segment(segment, value);
}

#[inline(always)]
fn pushed_value<B: Bus>(registers: &Regs, bus: &B, place: &RmOperand<Register16>) -> u16
    ensures { result ≡ pushed_value B.model place.now (B.world bus.now) registers.now }
{
    match place {
        RmOperand::Register(Register16::Sp) => registers.word(Register16::Sp).wrapping_sub(2),
        _ => locate(registers, place).read(registers, bus),
    }
}

/// PUSH: of SP the decreased value is stored.
#[tactic(auto, unfolding(crate::specs::Moves::pushed_place))]
#[inline(never)]
pub(crate) fn push_place<B: Bus>(
    registers: &mut Regs,
    bus: &mut B,
    labels: &mut Labels,
    place: &RmOperand<Register16>,
)
    requires { array_vec_len labels.old < 4 }
    ensures { machine registers.new (B.world bus.new) labels.new.items
        ≡ pushed_place B.model place.now (machine registers.old (B.world bus.old) labels.old.items) }
{
    let value = pushed_value(registers, bus, place);
    push(registers, bus, labels, value);
}

/// POP.
#[tactic(auto, unfolding(crate::specs::Moves::popped_to))]
#[inline(never)]
pub(crate) fn pop_to<B: Bus>(
    registers: &mut Regs,
    bus: &mut B,
    labels: &mut Labels,
    place: &RmOperand<Register16>,
)
    requires { array_vec_len labels.old < 4 }
    ensures { machine registers.new (B.world bus.new) labels.new.items
        ≡ popped_to B.model place.now (machine registers.old (B.world bus.old) labels.old.items) }
{
    let value = pop(registers, bus);
    locate(registers, place).write(registers, bus, labels, value);
}

/// POP of a segment register.
#[tactic(auto, unfolding(crate::specs::Moves::popped_to_segment))]
#[inline(never)]
pub(crate) fn pop_to_segment<B: Bus>(registers: &mut Regs, bus: &B, segment: LoadableSegment)
    ensures { registers.new ≡ popped_to_segment B.model segment (B.world bus.now) registers.old }
{
    let value = pop(registers, bus);
    registers.set_segment(segment, value);
}

/// AL or AX.
#[inline(always)]
pub(crate) fn accumulator(width: Width, registers: &Regs) -> u16
    ensures value { result ≡ accumulator width registers.now }
    ensures fits { result < values width }
{
    match width {
        Width::Byte => u16::from(registers.byte(Register8::Al)),
        Width::Word => registers.word(Register16::Ax),
    }
}

#[inline(always)]
fn set_accumulator(width: Width, registers: &mut Regs, value: u16)
    requires { value < values width }
    ensures { registers.new ≡ with_accumulator width registers.old value }
{
    match width {
        Width::Byte => registers.set_byte(Register8::Al, value as u8),
        Width::Word => registers.set_word(Register16::Ax, value),
    }
}

#[inline(always)]
fn wrapped(width: Width, value: u16) -> u16
    ensures value { result ≡ value % values width }
    ensures fits { result < values width }
{
    match width {
        Width::Byte => value % 256,
        Width::Word => value,
    }
}

#[inline(always)]
fn in_label(width: Width, port: u16, value: u16) -> Label
    requires { value < values width }
    ensures { result ≡ in_label width port value }
{
    match width {
        Width::Byte => Label::In(port, value as u8),
        Width::Word => Label::InW(port, value),
    }
}

#[inline(always)]
fn out_label(width: Width, port: u16, value: u16) -> Label
    requires { value < values width }
    ensures { result ≡ out_label width port value }
{
    match width {
        Width::Byte => Label::Out(port, value as u8),
        Width::Word => Label::OutW(port, value),
    }
}

/// IN.
#[tactic(auto, unfolding(crate::specs::Moves::read_in))]
#[inline(never)]
pub(crate) fn input<B: Bus>(
    registers: &mut Regs,
    bus: &mut B,
    labels: &mut Labels,
    width: Width,
    port: Port,
)
    requires { array_vec_len labels.old < 4 }
    ensures { machine registers.new (B.world bus.new) labels.new.items
        ≡ read_in B.model width port (machine registers.old (B.world bus.old) labels.old.items) }
{
    let port = registers.port(port);
    let value = wrapped(width, bus.port_in(width, port));
    set_accumulator(width, registers, value);
    labels.push(in_label(width, port, value));
}

/// OUT, and the label that shows it.
#[inline(always)]
pub(crate) fn write_out<B: Bus>(registers: &Regs, bus: &mut B, width: Width, port: Port) -> Label
    ensures label { result ≡ out_label width (port_of registers.now port) (accumulator width registers.now) }
    ensures after { B.world bus.new ≡ B.model.port_out (B.world bus.old) width (port_of registers.now port) (accumulator width registers.now) }
{
    let port = registers.port(port);
    let value = accumulator(width, registers);
    bus.port_out(width, port, value);
    out_label(width, port, value)
}

/// OUT.
#[tactic(auto, unfolding(crate::specs::Moves::written_out))]
#[inline(never)]
pub(crate) fn output<B: Bus>(
    registers: &Regs,
    bus: &mut B,
    labels: &mut Labels,
    width: Width,
    port: Port,
)
    requires { array_vec_len labels.old < 4 }
    ensures { machine registers.now (B.world bus.new) labels.new.items
        ≡ written_out B.model width port (machine registers.now (B.world bus.old) labels.old.items) }
{
    labels.push(write_out(registers, bus, width, port));
}
