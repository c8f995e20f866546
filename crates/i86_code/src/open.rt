//! The bytes of instructions with a word that is known only later.

ghost use Rattle.std.specs.Prelude.{◌≡◌, length};
ghost use Rattle.i86_code.specs.Open.{back_of, open_bytes, IsOpen};
ghost use Rattle.i86_code.specs.Inner.OpenForms.{far_form, in_memory, with_far, byte_form, word_form, compare_byte_form, compare_word_form, test_byte_form, open_form, ConstantFits};

use crate::choosing::{accumulator_form, is_al, is_ax, is_near, plain, prefix_at};
use crate::form::{Fields, Form, Opcode, RegisterOrMemory};
use crate::numbers::{Numbered, operation_number};
use arrayvec::ArrayVec;
use i86_table::{Address, AluOperation, Memory, Open, Register8, Register16, Use};
use word86::Width;

/// The spelling of an address that has a word for its number, however small it is.
fn far_form(address: Address) -> RegisterOrMemory
    ensures { result ≡ far_form address }
{
    match address {
        Address::Direct(offset) => RegisterOrMemory::Direct(offset),
        Address::Based { base, displacement } => RegisterOrMemory::Far(base, displacement),
    }
}

/// A form with an operand in memory.
fn in_memory(opcode: Opcode, memory: Memory, fields: Fields) -> Form
    ensures { result ≡ in_memory opcode memory fields }
{
    Form {
        prefixes: prefix_at(memory.segment, memory.address),
        opcode,
        fields,
    }
}

/// A form with an address byte and such an address.
fn with_far(opcode: Opcode, number: u8, memory: Memory) -> Form
    ensures { result ≡ with_far opcode number memory }
{
    let fields = Fields::Address(number, far_form(memory.address));
    in_memory(opcode, memory, fields)
}

/// The form of a byte register and an operand in memory.
fn byte_form(usage: Use, register: Register8, memory: Memory) -> Form
    ensures { result ≡ byte_form usage register memory }
{
    match usage {
        Use::Load => {
            let other = with_far(
                Opcode::MoveToRegister(Width::Byte),
                register.number(),
                memory,
            );
            let short = Opcode::MoveFromDirect(Width::Byte);
            accumulator_form(is_al(register), short, other, &memory)
        }
        Use::Store => {
            let other = with_far(Opcode::MoveToPlace(Width::Byte), register.number(), memory);
            let short = Opcode::MoveToDirect(Width::Byte);
            accumulator_form(is_al(register), short, other, &memory)
        }
        Use::Operate(operation) => {
            let opcode = Opcode::AluToRegister(operation, Width::Byte);
            with_far(opcode, register.number(), memory)
        }
    }
}

/// The form of a word register and an operand in memory.
fn word_form(usage: Use, register: Register16, memory: Memory) -> Form
    ensures { result ≡ word_form usage register memory }
{
    match usage {
        Use::Load => {
            let other = with_far(
                Opcode::MoveToRegister(Width::Word),
                register.number(),
                memory,
            );
            let short = Opcode::MoveFromDirect(Width::Word);
            accumulator_form(is_ax(register), short, other, &memory)
        }
        Use::Store => {
            let other = with_far(Opcode::MoveToPlace(Width::Word), register.number(), memory);
            let short = Opcode::MoveToDirect(Width::Word);
            accumulator_form(is_ax(register), short, other, &memory)
        }
        Use::Operate(operation) => {
            let opcode = Opcode::AluToRegister(operation, Width::Word);
            with_far(opcode, register.number(), memory)
        }
    }
}

/// The form of CMP of the byte at a place and a constant.
fn compare_byte_form(memory: Memory, constant: u8) -> Form
    ensures { result ≡ compare_byte_form memory constant }
{
    let code = operation_number(AluOperation::Cmp);
    let fields = Fields::AddressByte(code, far_form(memory.address), constant);
    in_memory(Opcode::AluImmediate(Width::Byte), memory, fields)
}

/// The form of CMP of the word at a place and a constant: 83H where a byte says it, else 81H.
fn compare_word_form(memory: Memory, constant: u16) -> Form
    ensures { result ≡ compare_word_form memory constant }
{
    let code = operation_number(AluOperation::Cmp);
    let place = far_form(memory.address);
    if is_near(constant) {
        let fields = Fields::AddressByte(code, place, (constant % 256) as u8);
        in_memory(Opcode::AluShort, memory, fields)
    } else {
        let fields = Fields::AddressWord(code, place, constant);
        in_memory(Opcode::AluImmediate(Width::Word), memory, fields)
    }
}

/// The form of TEST of the byte at a place and a mask.
fn test_byte_form(memory: Memory, mask: u8) -> Form
    ensures { result ≡ test_byte_form memory mask }
{
    let fields = Fields::TestByte(far_form(memory.address), mask);
    in_memory(Opcode::UnaryGroup(Width::Byte), memory, fields)
}

/// The form with this number, which has a word for it.
fn open_form(instruction: Open, number: u16) -> Form
    ensures { result ≡ open_form instruction number }
{
    let fields = Fields::Word(number);
    match instruction {
        Open::Number(register) => plain(Opcode::MoveRegisterWord(register), fields),
        Open::OperateAx(operation) => {
            plain(Opcode::AluAccumulator(operation, Width::Word), fields)
        }
        Open::Byte(usage, register, spot) => byte_form(usage, register, spot.at(number)),
        Open::Word(usage, register, spot) => word_form(usage, register, spot.at(number)),
        Open::CompareByte(spot, constant) => compare_byte_form(spot.at(number), constant),
        Open::CompareWord(spot, constant) => compare_word_form(spot.at(number), constant),
        Open::TestByte(spot, mask) => test_byte_form(spot.at(number), mask),
        Open::JumpTo(spot) => with_far(Opcode::StepGroup(Width::Word), 4, spot.at(number)),
        Open::Call => plain(Opcode::Call, fields),
        Open::Jump => plain(Opcode::Jump, fields),
    }
}

/// The law that a constant behind the word fits its type.
fn constant_fits(instruction: Open)
    ensures { ConstantFits instruction }
{
    match instruction {
        Open::CompareByte(_, _constant) | Open::TestByte(_, _constant) => {}
        Open::CompareWord(_, _constant) => {}
        Open::Number(_) | Open::OperateAx(_) | Open::Byte(_, _, _) | Open::Word(_, _, _) => {}
        Open::JumpTo(_) | Open::Call | Open::Jump => {}
    }
}

/// The bytes of an instruction with this number in its word, the low byte first. Whatever number stands in that word, they
/// spell the instruction with it; where the number is small, `encode` may write a shorter form.
pub fn encode_open(instruction: Open, number: u16) -> ArrayVec<u8, 8>
    ensures bytes { result.items ≡ open_bytes instruction number }
    ensures whatever_number { IsOpen instruction }
{
    constant_fits(instruction);
    open_form(instruction, number).bytes()
}

/// How many bytes stand behind the word, 0 to 2: those of a constant.
pub fn bytes_behind(instruction: Open) -> usize
    ensures { result ≡ length (back_of instruction) }
{
    match instruction {
        Open::CompareByte(_, _) | Open::TestByte(_, _) => 1,
        Open::CompareWord(_, constant) if is_near(constant) => 1,
        Open::CompareWord(_, _) => 2,
        Open::Number(_) | Open::OperateAx(_) | Open::Byte(_, _, _) | Open::Word(_, _, _) => 0,
        Open::JumpTo(_) | Open::Call | Open::Jump => 0,
    }
}
