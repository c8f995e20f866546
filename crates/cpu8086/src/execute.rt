//! The table of effects.
//!
//! An instruction is lent, and each kind of it has a function of its own: what a turn does not need is not copied, and the
//! table is one jump.

ghost use Rattle.std.specs.Prelude.{◌≡◌, ◌≤◌};
ghost use Rattle.arrayvec.specs.ArrayVec.{array_vec_len};
ghost use Rattle.cpu8086.specs.Machine.{machine};
ghost use Rattle.cpu8086.specs.Control.{set_flag};
ghost use Rattle.cpu8086.specs.Effect.{effect};
ghost use Rattle.cpu8086.specs.declared.cpu.Phase.TheVariants.{Running};
ghost use Rattle.cpu8086.specs.Turn.{phase_after};

use crate::arithmetic::{
    change_byte, change_in_place, compute, compute_byte, divide_byte, divide_word, multiply_byte,
    multiply_word, shift_place, test_place,
};
use crate::bus::Bus;
use crate::control::{
    call, call_to, count_and_jump, flag_word, jump, jump_if, jump_on, jump_to, pop_flags,
    return_dropping, return_from_interrupt, return_near,
};
use crate::cpu::Phase;
use crate::memory::{Labels, push};
use crate::moves::{
    convert_byte, convert_word, exchange_bytes, exchange_with, exchange_words, input,
    move_from_segment, move_operands, move_to_segment, output, pop_to, pop_to_segment, push_place,
};
use crate::strings::{move_string, store_string};
use bitflags::Flags as _;
use i86_table::{Flags, Instr, Register16, Regs};

#[inline(never)]
fn set_flag(registers: &mut Regs, flag: Flags, value: bool)
    ensures { registers.new ≡ set_flag flag.0 value registers.old }
{
    registers.set_flag(flag, value);
}

/// Does an instruction that began at `start`, and leaves its phase; the instruction pointer is past it.
#[tactic(auto, unfolding(crate::specs::Effect::effect))]
#[inline(always)]
pub(crate) fn execute<B: Bus>(
    registers: &mut Regs,
    phase: &mut Phase,
    bus: &mut B,
    labels: &mut Labels,
    instruction: &Instr,
    start: u16,
)
    requires room { array_vec_len labels.old ≤ 1 }
    requires running { phase.old ≡ Running }
    ensures phase { phase.new ≡ phase_after instruction.now }
    ensures after { machine registers.new (B.world bus.new) labels.new.items
        ≡ effect B.model instruction.now start (machine registers.old (B.world bus.old) labels.old.items) }
{
    match instruction {
        Instr::Nop => {}
        Instr::AluByte(operation, operands) => compute_byte(
            registers, bus, labels, *operation, operands,
        ),
        Instr::AluWord(operation, operands) => compute(
            registers, bus, labels, *operation, operands,
        ),
        Instr::UnaryByte(operation, place) => {
            change_byte(registers, bus, labels, *operation, place);
        }
        Instr::UnaryWord(operation, place) => {
            change_in_place(registers, bus, labels, *operation, place);
        }
        Instr::TestByte(place, mask) => test_place(registers, bus, place, mask),
        Instr::TestWord(place, mask) => test_place(registers, bus, place, mask),
        Instr::ShiftByte(operation, place, count) => {
            shift_place(registers, bus, labels, *operation, place, *count);
        }
        Instr::ShiftWord(operation, place, count) => {
            shift_place(registers, bus, labels, *operation, place, *count);
        }
        Instr::MultiplyByte(signedness, place) => multiply_byte(registers, bus, *signedness, place),
        Instr::MultiplyWord(signedness, place) => multiply_word(registers, bus, *signedness, place),
        Instr::DivideByte(signedness, place) => {
            divide_byte(registers, bus, labels, *signedness, place);
        }
        Instr::DivideWord(signedness, place) => {
            divide_word(registers, bus, labels, *signedness, place);
        }
        Instr::ConvertByte => convert_byte(registers),
        Instr::ConvertWord => convert_word(registers),
        Instr::MoveByte(operands) => move_operands(registers, bus, labels, operands),
        Instr::MoveWord(operands) => move_operands(registers, bus, labels, operands),
        Instr::MoveFromSegment(place, segment) => {
            move_from_segment(registers, bus, labels, place, *segment);
        }
        Instr::MoveToSegment(segment, place) => move_to_segment(registers, bus, *segment, place),
        Instr::LoadAddress(register, address) => {
            registers.set_word(*register, registers.offset(*address));
        }
        Instr::ExchangeBytes(pair) => exchange_bytes(registers, pair),
        Instr::ExchangeWords(pair) => exchange_words(registers, pair),
        Instr::ExchangeMemoryByte(register, memory) => {
            exchange_with(registers, bus, labels, *register, memory);
        }
        Instr::ExchangeMemoryWord(register, memory) => {
            exchange_with(registers, bus, labels, *register, memory);
        }
        Instr::Push(place) => push_place(registers, bus, labels, place),
        Instr::Pop(place) => pop_to(registers, bus, labels, place),
        Instr::PushSegment(segment) => push(registers, bus, labels, registers.segment(*segment)),
        Instr::PopSegment(segment) => pop_to_segment(registers, bus, *segment),
        Instr::PushFlags => push(registers, bus, labels, flag_word(registers.flags())),
        Instr::PopFlags => pop_flags(registers, bus),
        Instr::MoveString {
            width,
            source,
            repeat,
        } => move_string(registers, bus, labels, *width, *source, *repeat, start),
        Instr::StoreString { width, repeat } => {
            store_string(registers, bus, labels, *width, *repeat, start);
        }
        Instr::In(width, port) => input(registers, bus, labels, *width, *port),
        Instr::Out(width, port) => output(registers, bus, labels, *width, *port),
        Instr::JumpIf(condition, distance) => {
            jump_on(registers, *condition, *distance);
        }
        Instr::Loop(distance) => count_and_jump(registers, *distance),
        Instr::JumpIfCxZero(distance) => {
            jump_if(registers, registers.word(Register16::Cx) == 0, *distance);
        }
        Instr::JumpShort(distance) => jump_if(registers, true, *distance),
        Instr::Jump(distance) => jump(registers, *distance),
        Instr::JumpTo(place) => jump_to(registers, bus, place),
        Instr::JumpFar { offset, segment } => {
            registers.set_ip(*offset);
            registers.set_code_segment(*segment);
        }
        Instr::Call(distance) => call(registers, bus, labels, *distance),
        Instr::CallTo(place) => call_to(registers, bus, labels, place),
        Instr::Return => return_near(registers, bus),
        Instr::ReturnDropping(count) => return_dropping(registers, bus, *count),
        Instr::InterruptReturn => return_from_interrupt(registers, bus),
        Instr::ComplementCarry => {
            let carry = registers.flags().contains(Flags::CARRY);
            set_flag(registers, Flags::CARRY, !carry);
        }
        Instr::ClearCarry => set_flag(registers, Flags::CARRY, false),
        Instr::SetCarry => set_flag(registers, Flags::CARRY, true),
        Instr::DisableInterrupts => set_flag(registers, Flags::INTERRUPT, false),
        Instr::EnableInterrupts => {
            set_flag(registers, Flags::INTERRUPT, true);
            *phase = Phase::AfterSti;
        }
        Instr::ClearDirection => set_flag(registers, Flags::DIRECTION, false),
        Instr::SetDirection => set_flag(registers, Flags::DIRECTION, true),
        Instr::Halt => *phase = Phase::Halted,
    }
}
