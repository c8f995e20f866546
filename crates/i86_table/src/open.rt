//! Instructions with a word that is known only when the parts of a program are placed.

ghost use Rattle.std.specs.Prelude.{◌≡◌};
ghost use Rattle.i86_table.specs.Open.{spot_memory, closed};

use crate::instruction::{
    Address, AluOperation, Base, Instr, Memory, Operands, RmOperand, TestMask,
};
use crate::registers::{Register8, Register16, Segment};

/// What an instruction does with its register and its operand in memory.
#[derive(Clone, Copy)]
pub enum Use {
    /// MOV register,operand.
    Load,
    /// MOV operand,register.
    Store,
    /// The operation on the register and the operand.
    Operate(AluOperation),
}

/// A place in memory but for its number: its segment, and the registers to which the number is added.
#[derive(Clone, Copy)]
pub struct Spot {
    pub segment: Segment,
    pub base: Option<Base>,
}

impl Spot {
    /// The place with this number: its offset, or the displacement from its registers.
    pub fn at(self, number: u16) -> Memory
        ensures { result ≡ spot_memory self number }
    {
        let address = match self.base {
            None => Address::Direct(number),
            Some(base) => Address::Based {
                base,
                displacement: number,
            },
        };
        Memory {
            segment: self.segment,
            address,
        }
    }
}

/// An instruction but for one word, behind which at most a constant stands.
#[derive(Clone, Copy)]
pub enum Open {
    /// MOV register,number.
    Number(Register16),
    /// The operation on AX and the number.
    OperateAx(AluOperation),
    /// A byte register and the byte at a place of this number.
    Byte(Use, Register8, Spot),
    /// A word register and the word at a place of this number.
    Word(Use, Register16, Spot),
    /// CMP of the byte at a place of this number and a constant.
    CompareByte(Spot, u8),
    /// CMP of the word at a place of this number and a constant.
    CompareWord(Spot, u16),
    /// TEST of the byte at a place of this number and a mask.
    TestByte(Spot, u8),
    /// JMP to the offset that lies at a place of this number.
    JumpTo(Spot),
    /// CALL by this distance, modulo 65,536.
    Call,
    /// JMP by this distance, modulo 65,536.
    Jump,
}

/// The instruction of a byte register and an operand in memory.
fn with_byte(usage: Use, register: Register8, memory: Memory) -> Instr
    ensures { result ≡ Rattle.i86_table.specs.Open.with_byte usage register memory }
{
    match usage {
        Use::Load => Instr::MoveByte(Operands::FromMemory(register, memory)),
        Use::Store => Instr::MoveByte(Operands::FromRegister(RmOperand::Memory(memory), register)),
        Use::Operate(operation) => {
            Instr::AluByte(operation, Operands::FromMemory(register, memory))
        }
    }
}

/// The instruction of a word register and an operand in memory.
fn with_word(usage: Use, register: Register16, memory: Memory) -> Instr
    ensures { result ≡ Rattle.i86_table.specs.Open.with_word usage register memory }
{
    match usage {
        Use::Load => Instr::MoveWord(Operands::FromMemory(register, memory)),
        Use::Store => Instr::MoveWord(Operands::FromRegister(RmOperand::Memory(memory), register)),
        Use::Operate(operation) => {
            Instr::AluWord(operation, Operands::FromMemory(register, memory))
        }
    }
}

impl Open {
    /// The instruction with this number.
    pub fn closed(self, number: u16) -> Instr
        ensures { result ≡ closed self number }
    {
        match self {
            Open::Number(register) => {
                Instr::MoveWord(Operands::Immediate(RmOperand::Register(register), number))
            }
            Open::OperateAx(operation) => {
                let ax = RmOperand::Register(Register16::Ax);
                Instr::AluWord(operation, Operands::Immediate(ax, number))
            }
            Open::Byte(usage, register, spot) => with_byte(usage, register, spot.at(number)),
            Open::Word(usage, register, spot) => with_word(usage, register, spot.at(number)),
            Open::CompareByte(spot, constant) => {
                let place = RmOperand::Memory(spot.at(number));
                Instr::AluByte(AluOperation::Cmp, Operands::Immediate(place, constant))
            }
            Open::CompareWord(spot, constant) => {
                let place = RmOperand::Memory(spot.at(number));
                Instr::AluWord(AluOperation::Cmp, Operands::Immediate(place, constant))
            }
            Open::TestByte(spot, mask) => {
                let place = RmOperand::Memory(spot.at(number));
                Instr::TestByte(place, TestMask::Immediate(mask))
            }
            Open::JumpTo(spot) => Instr::JumpTo(RmOperand::Memory(spot.at(number))),
            Open::Call => Instr::Call(number),
            Open::Jump => Instr::Jump(number),
        }
    }
}
