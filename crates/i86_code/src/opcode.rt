//! What each opcode byte says, and the byte that says it: of 256 bytes those of the table, each with the fields that come after it.

ghost use Rattle.std.specs.Prelude.{◌≡◌, ◌<◌, ◌≤◌};
ghost use Rattle.i86_code.specs.Opcode.{opcode_at, opcode_below_40, opcode_below_80, opcode_below_90, opcode_below_a0, opcode_below_c0, opcode_below_e0, opcode_below_f0, opcode_from_f0, push_segment_at, pop_segment_at, field_kind_of};
ghost use Rattle.i86_code.specs.Forms.{opcode_byte};

use crate::form::{FieldKind, Opcode};
use crate::numbers::{
    Numbered, condition, condition_number, loadable, operation, operation_number, segment,
    segment_number, width, width_number,
};
use i86_table::{Count, Register8, Register16};
use word86::Width;

/// PUSH of a segment register: 06H, 0EH, 16H, 1EH.
fn push_segment(byte: u8) -> Option<Opcode>
    ensures { result ≡ push_segment_at byte }
{
    if byte < 0x20 {
        Some(Opcode::PushSegment(segment(byte / 8)))
    } else {
        None
    }
}

/// POP of a segment register, but CS: 07H, 17H, 1FH.
fn pop_segment(byte: u8) -> Option<Opcode>
    ensures { result ≡ pop_segment_at byte }
{
    if byte < 0x20 {
        let segment = loadable(byte / 8)?;
        Some(Opcode::PopSegment(segment))
    } else {
        None
    }
}

/// The opcode of a byte below 40H: arithmetic, and segment registers on the stack.
#[tactic(auto, unfolding(crate::specs::Opcode::opcode_below_40))]
fn below_40(byte: u8) -> Option<Opcode>
    requires { byte < 0x40 }
    ensures { result ≡ opcode_below_40 byte }
{
    match byte % 8 {
        0..=1 => Some(Opcode::AluToPlace(operation(byte / 8), width(byte))),
        2..=3 => Some(Opcode::AluToRegister(operation(byte / 8), width(byte))),
        4..=5 => Some(Opcode::AluAccumulator(operation(byte / 8), width(byte))),
        6 => push_segment(byte),
        _ => pop_segment(byte),
    }
}

/// The opcode of a byte from 40H to 7FH: INC, DEC, PUSH, POP of word registers, and conditional jumps.
#[tactic(auto, unfolding(crate::specs::Opcode::opcode_below_80))]
fn below_80(byte: u8) -> Option<Opcode>
    requires low { 0x40 ≤ byte }
    requires high { byte < 0x80 }
    ensures { result ≡ opcode_below_80 byte }
{
    match byte {
        0x00..=0x47 => Some(Opcode::Increment(Register16::from_number(byte - 0x40))),
        0x48..=0x4F => Some(Opcode::Decrement(Register16::from_number(byte - 0x48))),
        0x50..=0x57 => Some(Opcode::Push(Register16::from_number(byte - 0x50))),
        0x58..=0x5F => Some(Opcode::Pop(Register16::from_number(byte - 0x58))),
        0x60..=0x6F => None,
        _ => Some(Opcode::JumpIf(condition(byte - 0x70))),
    }
}

/// The opcode of a byte from 80H to 8FH: arithmetic with numbers, TEST, XCHG, MOV, LEA, POP.
#[tactic(auto, unfolding(crate::specs::Opcode::opcode_below_90))]
fn below_90(byte: u8) -> Option<Opcode>
    requires low { 0x80 ≤ byte }
    requires high { byte < 0x90 }
    ensures { result ≡ opcode_below_90 byte }
{
    match byte {
        0x00..=0x81 => Some(Opcode::AluImmediate(width(byte))),
        0x82 => None,
        0x83 => Some(Opcode::AluShort),
        0x84..=0x85 => Some(Opcode::Test(width(byte))),
        0x86..=0x87 => Some(Opcode::Exchange(width(byte))),
        0x88..=0x89 => Some(Opcode::MoveToPlace(width(byte))),
        0x8A..=0x8B => Some(Opcode::MoveToRegister(width(byte))),
        0x8C => Some(Opcode::MoveFromSegment),
        0x8D => Some(Opcode::LoadAddress),
        0x8E => Some(Opcode::MoveToSegment),
        _ => Some(Opcode::PopPlace),
    }
}

/// The opcode of a byte from 90H to 9FH: XCHG with AX, CBW, CWD, PUSHF, POPF.
#[tactic(auto, unfolding(crate::specs::Opcode::opcode_below_a0))]
fn below_a0(byte: u8) -> Option<Opcode>
    requires low { 0x90 ≤ byte }
    ensures { result ≡ opcode_below_a0 byte }
{
    match byte {
        0x00..=0x97 => Some(Opcode::ExchangeAccumulator(Register16::from_number(byte - 0x90))),
        0x98 => Some(Opcode::ConvertByte),
        0x99 => Some(Opcode::ConvertWord),
        0x9C => Some(Opcode::PushFlags),
        0x9D => Some(Opcode::PopFlags),
        _ => None,
    }
}

/// The opcode of a byte from 0A0H to 0BFH: MOV and TEST of the accumulator, strings, MOV of numbers to registers.
#[tactic(auto, unfolding(crate::specs::Opcode::opcode_below_c0))]
fn below_c0(byte: u8) -> Option<Opcode>
    requires low { 0xA0 ≤ byte }
    requires high { byte < 0xC0 }
    ensures { result ≡ opcode_below_c0 byte }
{
    match byte {
        0x00..=0xA1 => Some(Opcode::MoveFromDirect(width(byte))),
        0xA2..=0xA3 => Some(Opcode::MoveToDirect(width(byte))),
        0xA4..=0xA5 => Some(Opcode::MoveString(width(byte))),
        0xA6..=0xA7 => None,
        0xA8..=0xA9 => Some(Opcode::TestAccumulator(width(byte))),
        0xAA..=0xAB => Some(Opcode::StoreString(width(byte))),
        0xAC..=0xAF => None,
        0xB0..=0xB7 => Some(Opcode::MoveRegisterByte(Register8::from_number(byte - 0xB0))),
        _ => Some(Opcode::MoveRegisterWord(Register16::from_number(byte - 0xB8))),
    }
}

/// The opcode of a byte from 0C0H to 0DFH: RET, MOV of numbers, IRET, shifts.
#[tactic(auto, unfolding(crate::specs::Opcode::opcode_below_e0))]
fn below_e0(byte: u8) -> Option<Opcode>
    ensures { result ≡ opcode_below_e0 byte }
{
    match byte {
        0xC2 => Some(Opcode::ReturnDropping),
        0xC3 => Some(Opcode::Return),
        0xC6 | 0xC7 => Some(Opcode::MoveImmediate(width(byte))),
        0xCF => Some(Opcode::InterruptReturn),
        0xD0 | 0xD1 => Some(Opcode::Shift(width(byte), Count::One)),
        0xD2 | 0xD3 => Some(Opcode::Shift(width(byte), Count::Cl)),
        _ => None,
    }
}

/// The opcode of a byte from 0E0H to 0EFH: LOOP, JCXZ, ports, CALL, JMP.
#[tactic(auto, unfolding(crate::specs::Opcode::opcode_below_f0))]
fn below_f0(byte: u8) -> Option<Opcode>
    requires low { 0xE0 ≤ byte }
    requires high { byte < 0xF0 }
    ensures { result ≡ opcode_below_f0 byte }
{
    match byte {
        0x00..=0xE1 => None,
        0xE2 => Some(Opcode::Loop),
        0xE3 => Some(Opcode::JumpIfCxZero),
        0xE4..=0xE5 => Some(Opcode::InFixed(width(byte))),
        0xE6..=0xE7 => Some(Opcode::OutFixed(width(byte))),
        0xE8 => Some(Opcode::Call),
        0xE9 => Some(Opcode::Jump),
        0xEA => Some(Opcode::JumpFar),
        0xEB => Some(Opcode::JumpShort),
        0xEC..=0xED => Some(Opcode::InDx(width(byte))),
        _ => Some(Opcode::OutDx(width(byte))),
    }
}

/// The opcode of a byte from 0F0H on: HLT, flags, and the two groups.
#[tactic(auto, unfolding(crate::specs::Opcode::opcode_from_f0))]
fn from_f0(byte: u8) -> Option<Opcode>
    requires { 0xF0 ≤ byte }
    ensures { result ≡ opcode_from_f0 byte }
{
    match byte {
        0x00..=0xF3 => None,
        0xF4 => Some(Opcode::Halt),
        0xF5 => Some(Opcode::ComplementCarry),
        0xF6..=0xF7 => Some(Opcode::UnaryGroup(width(byte))),
        0xF8 => Some(Opcode::ClearCarry),
        0xF9 => Some(Opcode::SetCarry),
        0xFA => Some(Opcode::DisableInterrupts),
        0xFB => Some(Opcode::EnableInterrupts),
        0xFC => Some(Opcode::ClearDirection),
        0xFD => Some(Opcode::SetDirection),
        _ => Some(Opcode::StepGroup(width(byte))),
    }
}

impl Opcode {
    /// The opcode that a byte is.
    #[tactic(auto, unfolding(crate::specs::Opcode::opcode_at))]
    pub fn at(byte: u8) -> Option<Opcode>
        ensures { result ≡ opcode_at byte }
    {
        match byte {
            0x00..=0x3F => below_40(byte),
            0x40..=0x7F => below_80(byte),
            0x80..=0x8F => below_90(byte),
            0x90..=0x9F => below_a0(byte),
            0xA0..=0xBF => below_c0(byte),
            0xC0..=0xDF => below_e0(byte),
            0xE0..=0xEF => below_f0(byte),
            _ => from_f0(byte),
        }
    }

    /// What follows the opcode.
    pub fn field_kind(self) -> FieldKind
        ensures { result ≡ field_kind_of self }
    {
        match self {
            Opcode::AluToPlace(_, _)
            | Opcode::AluToRegister(_, _)
            | Opcode::Test(_)
            | Opcode::Exchange(_)
            | Opcode::MoveToPlace(_)
            | Opcode::MoveToRegister(_)
            | Opcode::MoveFromSegment
            | Opcode::LoadAddress
            | Opcode::MoveToSegment
            | Opcode::PopPlace
            | Opcode::Shift(_, _)
            | Opcode::StepGroup(_) => FieldKind::Address,
            Opcode::UnaryGroup(width) => FieldKind::Group(width),
            Opcode::AluAccumulator(_, Width::Byte)
            | Opcode::TestAccumulator(Width::Byte)
            | Opcode::MoveRegisterByte(_)
            | Opcode::JumpIf(_)
            | Opcode::Loop
            | Opcode::JumpIfCxZero
            | Opcode::JumpShort
            | Opcode::InFixed(_)
            | Opcode::OutFixed(_) => FieldKind::Byte,
            Opcode::AluAccumulator(_, Width::Word)
            | Opcode::TestAccumulator(Width::Word)
            | Opcode::MoveRegisterWord(_)
            | Opcode::MoveFromDirect(_)
            | Opcode::MoveToDirect(_)
            | Opcode::ReturnDropping
            | Opcode::Call
            | Opcode::Jump => FieldKind::Word,
            Opcode::AluImmediate(Width::Byte)
            | Opcode::MoveImmediate(Width::Byte)
            | Opcode::AluShort => FieldKind::AddressByte,
            Opcode::AluImmediate(Width::Word) | Opcode::MoveImmediate(Width::Word) => {
                FieldKind::AddressWord
            }
            Opcode::JumpFar => FieldKind::TwoWords,
            Opcode::PushSegment(_)
            | Opcode::PopSegment(_)
            | Opcode::Increment(_)
            | Opcode::Decrement(_)
            | Opcode::Push(_)
            | Opcode::Pop(_)
            | Opcode::ExchangeAccumulator(_)
            | Opcode::ConvertByte
            | Opcode::ConvertWord
            | Opcode::PushFlags
            | Opcode::PopFlags
            | Opcode::MoveString(_)
            | Opcode::StoreString(_)
            | Opcode::Return
            | Opcode::InterruptReturn
            | Opcode::InDx(_)
            | Opcode::OutDx(_)
            | Opcode::Halt
            | Opcode::ComplementCarry
            | Opcode::ClearCarry
            | Opcode::SetCarry
            | Opcode::DisableInterrupts
            | Opcode::EnableInterrupts
            | Opcode::ClearDirection
            | Opcode::SetDirection => FieldKind::Nothing,
        }
    }

    /// The byte of an opcode.
    #[tactic(auto, unfolding(crate::specs::Forms::opcode_byte))]
    pub fn byte(self) -> u8
        ensures { result ≡ opcode_byte self }
    {
        match self {
            Opcode::AluToPlace(operation, width) => {
                8 * operation_number(operation) + width_number(width)
            }
            Opcode::AluToRegister(operation, width) => {
                8 * operation_number(operation) + 2 + width_number(width)
            }
            Opcode::AluAccumulator(operation, width) => {
                8 * operation_number(operation) + 4 + width_number(width)
            }
            Opcode::PushSegment(segment) => 6 + 8 * segment_number(segment),
            Opcode::PopSegment(segment) => 7 + 8 * segment_number(segment.segment()),
            Opcode::Increment(register) => 0x40 + register.number(),
            Opcode::Decrement(register) => 0x48 + register.number(),
            Opcode::Push(register) => 0x50 + register.number(),
            Opcode::Pop(register) => 0x58 + register.number(),
            Opcode::JumpIf(condition) => 0x70 + condition_number(condition),
            Opcode::AluImmediate(width) => 0x80 + width_number(width),
            Opcode::AluShort => 0x83,
            Opcode::Test(width) => 0x84 + width_number(width),
            Opcode::Exchange(width) => 0x86 + width_number(width),
            Opcode::MoveToPlace(width) => 0x88 + width_number(width),
            Opcode::MoveToRegister(width) => 0x8A + width_number(width),
            Opcode::MoveFromSegment => 0x8C,
            Opcode::LoadAddress => 0x8D,
            Opcode::MoveToSegment => 0x8E,
            Opcode::PopPlace => 0x8F,
            Opcode::ExchangeAccumulator(register) => 0x90 + register.number(),
            Opcode::ConvertByte => 0x98,
            Opcode::ConvertWord => 0x99,
            Opcode::PushFlags => 0x9C,
            Opcode::PopFlags => 0x9D,
            Opcode::MoveFromDirect(width) => 0xA0 + width_number(width),
            Opcode::MoveToDirect(width) => 0xA2 + width_number(width),
            Opcode::MoveString(width) => 0xA4 + width_number(width),
            Opcode::TestAccumulator(width) => 0xA8 + width_number(width),
            Opcode::StoreString(width) => 0xAA + width_number(width),
            Opcode::MoveRegisterByte(register) => 0xB0 + register.number(),
            Opcode::MoveRegisterWord(register) => 0xB8 + register.number(),
            Opcode::ReturnDropping => 0xC2,
            Opcode::Return => 0xC3,
            Opcode::MoveImmediate(width) => 0xC6 + width_number(width),
            Opcode::InterruptReturn => 0xCF,
            Opcode::Shift(width, Count::One) => 0xD0 + width_number(width),
            Opcode::Shift(width, Count::Cl) => 0xD2 + width_number(width),
            Opcode::Loop => 0xE2,
            Opcode::JumpIfCxZero => 0xE3,
            Opcode::InFixed(width) => 0xE4 + width_number(width),
            Opcode::OutFixed(width) => 0xE6 + width_number(width),
            Opcode::Call => 0xE8,
            Opcode::Jump => 0xE9,
            Opcode::JumpFar => 0xEA,
            Opcode::JumpShort => 0xEB,
            Opcode::InDx(width) => 0xEC + width_number(width),
            Opcode::OutDx(width) => 0xEE + width_number(width),
            Opcode::Halt => 0xF4,
            Opcode::ComplementCarry => 0xF5,
            Opcode::UnaryGroup(width) => 0xF6 + width_number(width),
            Opcode::ClearCarry => 0xF8,
            Opcode::SetCarry => 0xF9,
            Opcode::DisableInterrupts => 0xFA,
            Opcode::EnableInterrupts => 0xFB,
            Opcode::ClearDirection => 0xFC,
            Opcode::SetDirection => 0xFD,
            Opcode::StepGroup(width) => 0xFE + width_number(width),
        }
    }
}
