//! Instructions that change where the processor goes on.

ghost use Rattle.std.specs.Prelude.{◌≡◌, ◌<◌, ◌≤◌};
ghost use Rattle.i86_table.specs.Condition.{holds};
ghost use Rattle.i86_table.specs.State.{with_ip};
ghost use Rattle.arrayvec.specs.ArrayVec.{array_vec_len};
ghost use Rattle.cpu8086.specs.Machine.{machine};
ghost use Rattle.i86_table.specs.Arithmetic.{without_trap_and_interrupts};
ghost use Rattle.cpu8086.specs.Control.{named_offset, flag_word, jumped, jumped_if, looped, called_at, called, called_to, returned, returned_dropping, flags_popped, returned_from_interrupt, interrupted};

use crate::bus::Bus;
use crate::memory::{Labels, pop, push};
use crate::operand::locate;
use bitflags::Flags as _;
use i86_table::{Condition, Flags, Register16, Regs, RmOperand, Segment, sign_extended};

/// The flags as they are pushed: a bit without a name is 0.
#[inline(always)]
pub(crate) fn flag_word(flags: Flags) -> u16
    ensures { result ≡ flag_word flags }
{
    flags.bits() & 0xFD5
}

// The flags with which an interrupt begins.
#[inline(always)]
fn without_trap_and_interrupts(flags: Flags) -> Flags
    ensures { result ≡ without_trap_and_interrupts flags }
{
    flags.with(Flags::TRAP, false).with(Flags::INTERRUPT, false)
}

/// A jump by a distance of one word.
#[inline(always)]
pub(crate) fn jump(registers: &mut Regs, distance: u16)
    ensures { registers.new ≡ jumped distance registers.old }
{
    registers.set_ip(registers.ip().wrapping_add(distance));
}

/// A conditional jump by a distance of one byte.
#[inline(always)]
pub(crate) fn jump_if(registers: &mut Regs, taken: bool, distance: u8)
    ensures { registers.new ≡ jumped_if taken distance registers.old }
{
    if taken {
        jump(registers, sign_extended(distance));
    }
}

/// A jump on a condition.
#[inline(never)]
pub(crate) fn jump_on(registers: &mut Regs, condition: Condition, distance: u8)
    ensures { registers.new ≡ jumped_if (holds condition registers.old.flags) distance registers.old }
{
    jump_if(registers, registers.holds(condition), distance);
}

/// JMP to an offset in a register or in memory.
#[inline(never)]
pub(crate) fn jump_to<B: Bus>(registers: &mut Regs, bus: &B, place: &RmOperand<Register16>)
    ensures { registers.new ≡ with_ip (named_offset B.model place.now (B.world bus.now) registers.old) registers.old }
{
    registers.set_ip(locate(registers, place).read(registers, bus));
}

/// LOOP.
#[inline(always)]
pub(crate) fn count_and_jump(registers: &mut Regs, distance: u8)
    ensures { registers.new ≡ looped distance registers.old }
{
    let count = registers.word(Register16::Cx).wrapping_sub(1);
    registers.set_word(Register16::Cx, count);
    jump_if(registers, count != 0, distance);
}

#[tactic(auto, unfolding(crate::specs::Control::called_at))]
#[inline(always)]
fn call_at<B: Bus>(registers: &mut Regs, bus: &mut B, labels: &mut Labels, ip: u16)
    requires { array_vec_len labels.old < 4 }
    ensures { machine registers.new (B.world bus.new) labels.new.items
        ≡ called_at B.model ip (machine registers.old (B.world bus.old) labels.old.items) }
{
    push(registers, bus, labels, registers.ip());
    registers.set_ip(ip);
}

/// CALL by a distance.
#[tactic(auto, unfolding(crate::specs::Control::called))]
#[inline(never)]
pub(crate) fn call<B: Bus>(registers: &mut Regs, bus: &mut B, labels: &mut Labels, distance: u16)
    requires { array_vec_len labels.old < 4 }
    ensures { machine registers.new (B.world bus.new) labels.new.items
        ≡ called B.model distance (machine registers.old (B.world bus.old) labels.old.items) }
{
    let ip = registers.ip().wrapping_add(distance);
    call_at(registers, bus, labels, ip);
}

/// CALL of an offset in a register or in memory, which is taken before the push.
#[tactic(auto, unfolding(crate::specs::Control::called_to))]
#[inline(never)]
pub(crate) fn call_to<B: Bus>(
    registers: &mut Regs,
    bus: &mut B,
    labels: &mut Labels,
    place: &RmOperand<Register16>,
)
    requires { array_vec_len labels.old < 4 }
    ensures { machine registers.new (B.world bus.new) labels.new.items
        ≡ called_to B.model place.now (machine registers.old (B.world bus.old) labels.old.items) }
{
    let ip = locate(registers, place).read(registers, bus);
    call_at(registers, bus, labels, ip);
}

/// RET.
#[tactic(auto, unfolding(crate::specs::Control::returned))]
#[inline(always)]
pub(crate) fn return_near<B: Bus>(registers: &mut Regs, bus: &B)
    ensures { registers.new ≡ returned B.model (B.world bus.now) registers.old }
{
    let ip = pop(registers, bus);
    registers.set_ip(ip);
}

/// RET that drops this number of bytes more.
#[tactic(auto, unfolding(crate::specs::Control::returned_dropping))]
#[inline(never)]
pub(crate) fn return_dropping<B: Bus>(registers: &mut Regs, bus: &B, count: u16)
    ensures { registers.new ≡ returned_dropping B.model count (B.world bus.now) registers.old }
{
    return_near(registers, bus);
    let sp = registers.word(Register16::Sp).wrapping_add(count);
    registers.set_word(Register16::Sp, sp);
}

/// POPF: a bit without a name is dropped.
#[tactic(auto, unfolding(crate::specs::Control::flags_popped))]
#[inline(never)]
pub(crate) fn pop_flags<B: Bus>(registers: &mut Regs, bus: &B)
    ensures { registers.new ≡ flags_popped B.model (B.world bus.now) registers.old }
{
    let word = pop(registers, bus);
    registers.set_flags(Flags::of_word(word));
}

/// IRET.
#[tactic(auto, unfolding(crate::specs::Control::returned_from_interrupt))]
#[inline(never)]
pub(crate) fn return_from_interrupt<B: Bus>(registers: &mut Regs, bus: &B)
    ensures { registers.new ≡ returned_from_interrupt B.model (B.world bus.now) registers.old }
{
    return_near(registers, bus);
    let segment = pop(registers, bus);
    registers.set_code_segment(segment);
    pop_flags(registers, bus);
}

/// Enters the interrupt of a number.
#[tactic(auto, unfolding(crate::specs::Control::interrupted))]
#[inline(never)]
pub(crate) fn interrupt<B: Bus>(registers: &mut Regs, bus: &mut B, labels: &mut Labels, number: u8)
    requires { array_vec_len labels.old ≤ 1 }
    ensures { machine registers.new (B.world bus.new) labels.new.items
        ≡ interrupted B.model number (machine registers.old (B.world bus.old) labels.old.items) }
{
    let flags = flag_word(registers.flags());
    push(registers, bus, labels, flags);
    registers.set_flags(without_trap_and_interrupts(registers.flags()));
    push(registers, bus, labels, registers.segment(Segment::Cs));
    push(registers, bus, labels, registers.ip());
    let vector = 4 * u16::from(number);
    registers.set_ip(bus.load_word(0, vector));
    registers.set_code_segment(bus.load_word(0, vector + 2));
}
