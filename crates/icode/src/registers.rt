//! Which of the processor's registers an instruction changes: an interrupt procedure saves these.

ghost use Rattle.std.specs.Prelude.{◌≡◌};
ghost use Rattle.icode.specs.Registers.{none, just_accumulator, just_right, just_high, joined, of_operator, is_direct, of_direct, of_read, of_port, of_test, of_drop, of_right, of_low, changes};

use crate::instruction::{Instruction, LowByte, Right, Test};
use word86::{BinaryOperation, Width};

/// The registers that instructions use, named by what they serve for, and whether each is among those that are meant.
#[derive(Clone, Copy, PartialEq, Eq)]
pub struct Registers {
    /// AX: the accumulator.
    pub accumulator: bool,
    /// CX: an operator's right operand.
    pub right: bool,
    /// DX: a port, and the high half of a product or a dividend.
    pub high: bool,
    /// BX: an address.
    pub address: bool,
    /// BP: where the stack stands.
    pub frame: bool,
}

const NONE: Registers = Registers {
    accumulator: false,
    right: false,
    high: false,
    address: false,
    frame: false,
};

const ACCUMULATOR: Registers = Registers {
    accumulator: true,
    ..NONE
};

const RIGHT: Registers = Registers {
    right: true,
    ..NONE
};

const HIGH: Registers = Registers { high: true, ..NONE };

const ADDRESS: Registers = Registers {
    address: true,
    ..NONE
};

const FRAME: Registers = Registers {
    frame: true,
    ..NONE
};

impl Registers {
    /// None of them.
    pub fn none() -> Registers
        ensures { result ≡ none }
    {
        NONE
    }

    /// Those of either one.
    pub fn joined(self, other: Registers) -> Registers
        ensures { result ≡ joined self other }
    {
        Registers {
            accumulator: self.accumulator || other.accumulator,
            right: self.right || other.right,
            high: self.high || other.high,
            address: self.address || other.address,
            frame: self.frame || other.frame,
        }
    }
}

// Of an operator on the accumulator and the right operand.
fn of_operator(operation: BinaryOperation) -> Registers
    ensures { result ≡ of_operator operation }
{
    let high = match operation {
        BinaryOperation::Multiply
        | BinaryOperation::Divide
        | BinaryOperation::Modulo
        | BinaryOperation::DivideSigned
        | BinaryOperation::ModuloSigned => true,
        BinaryOperation::Add
        | BinaryOperation::Subtract
        | BinaryOperation::Equal
        | BinaryOperation::NotEqual
        | BinaryOperation::Less
        | BinaryOperation::LessEqual
        | BinaryOperation::Greater
        | BinaryOperation::GreaterEqual
        | BinaryOperation::And
        | BinaryOperation::Or
        | BinaryOperation::ExclusiveOr
        | BinaryOperation::ShiftLeft
        | BinaryOperation::ShiftRight
        | BinaryOperation::RotateLeft
        | BinaryOperation::RotateRight
        | BinaryOperation::LessSigned
        | BinaryOperation::LessEqualSigned
        | BinaryOperation::GreaterSigned
        | BinaryOperation::GreaterEqualSigned => false,
    };
    Registers {
        accumulator: true,
        right: true,
        high,
        ..NONE
    }
}

/// Whether the operator needs no register for a right operand that is a constant or a word in memory.
pub fn is_direct(operation: BinaryOperation) -> bool
    ensures { result ≡ is_direct operation }
{
    match operation {
        BinaryOperation::Add
        | BinaryOperation::Subtract
        | BinaryOperation::And
        | BinaryOperation::Or
        | BinaryOperation::ExclusiveOr => true,
        BinaryOperation::Multiply
        | BinaryOperation::Divide
        | BinaryOperation::Modulo
        | BinaryOperation::Equal
        | BinaryOperation::NotEqual
        | BinaryOperation::Less
        | BinaryOperation::LessEqual
        | BinaryOperation::Greater
        | BinaryOperation::GreaterEqual
        | BinaryOperation::ShiftLeft
        | BinaryOperation::ShiftRight
        | BinaryOperation::RotateLeft
        | BinaryOperation::RotateRight
        | BinaryOperation::DivideSigned
        | BinaryOperation::ModuloSigned
        | BinaryOperation::LessSigned
        | BinaryOperation::LessEqualSigned
        | BinaryOperation::GreaterSigned
        | BinaryOperation::GreaterEqualSigned => false,
    }
}

fn of_direct(operation: BinaryOperation) -> Registers
    ensures { result ≡ of_direct operation }
{
    if is_direct(operation) {
        ACCUMULATOR
    } else {
        of_operator(operation)
    }
}

fn of_read(width: Width, operation: BinaryOperation) -> Registers
    ensures { result ≡ of_read width operation }
{
    match width {
        Width::Byte => of_operator(operation),
        Width::Word => of_direct(operation),
    }
}

fn of_port(port: u16) -> Registers
    ensures { result ≡ of_port port }
{
    if port >= 256 { HIGH } else { NONE }
}

fn of_test(test: Test) -> Registers
    ensures { result ≡ of_test test }
{
    match test {
        Test::Plain(_, Width::Byte, _) | Test::Top(_) => RIGHT,
        Test::Low(_, Right::Top) => RIGHT,
        Test::Low(_, Right::Constant(_)) | Test::Low(_, Right::Plain(_)) => NONE,
        Test::Odd | Test::Constant(_, _) | Test::Plain(_, Width::Word, _) => NONE,
        Test::Named(_, _, _, _) | Test::OddNamed(_) => NONE,
    }
}

fn of_right(right: Right) -> Registers
    ensures { result ≡ of_right right }
{
    match right {
        Right::Top => ACCUMULATOR.joined(RIGHT),
        Right::Constant(_) | Right::Plain(_) => ACCUMULATOR,
    }
}

fn of_low(low: LowByte) -> Registers
    ensures { result ≡ of_low low }
{
    match low {
        LowByte::Constant(_) | LowByte::Load(_) | LowByte::High => ACCUMULATOR,
        LowByte::LoadAt(_) | LowByte::LoadThere => ACCUMULATOR.joined(ADDRESS),
        LowByte::Receive => ACCUMULATOR.joined(HIGH),
        LowByte::ReceiveFrom(port) => ACCUMULATOR.joined(of_port(port)),
        LowByte::Operate(_, right) => of_right(right),
    }
}

fn of_drop(count: usize) -> Registers
    ensures { result ≡ of_drop count }
{
    if count == 1 { RIGHT } else { NONE }
}

impl Instruction {
    /// The registers that the instruction's own instructions can change. None changes another one but the stack pointer and the flags.
    pub fn changes(self) -> Registers
        ensures { result ≡ changes self }
    {
        match self {
            Instruction::Constant(_)
            | Instruction::Locate(_)
            | Instruction::LocateAt(_)
            | Instruction::Load(_, _)
            | Instruction::Unary(_, _)
            | Instruction::Next(_, _, _, _) => ACCUMULATOR,
            Instruction::LoadAt(_, _)
            | Instruction::LoadThere(_)
            | Instruction::StoreAt(_, _)
            | Instruction::StoreThere(_)
            | Instruction::StoreConstantAt(_, _, _) => ACCUMULATOR.joined(ADDRESS),
            Instruction::StoreTop(_, _) => RIGHT,
            Instruction::Pick(_) => ACCUMULATOR.joined(FRAME),
            Instruction::Drop(count) => of_drop(count),
            Instruction::Low(low, _) => of_low(low),
            Instruction::Binary(operation, _) => of_operator(operation),
            Instruction::BinaryConstant(operation, _, _) => of_direct(operation),
            Instruction::BinaryPlain(operation, _, read, _) => of_read(read, operation),
            Instruction::Send(_) | Instruction::Receive(_) => ACCUMULATOR.joined(HIGH),
            Instruction::SendTo(_, port) => of_port(port),
            Instruction::ReceiveFrom(_, port) => ACCUMULATOR.joined(of_port(port)),
            Instruction::AheadUnless(test, _) | Instruction::BackUnless(test, _) => of_test(test),
            Instruction::Switch(_) => ADDRESS,
            Instruction::Push
            | Instruction::Store(_, _)
            | Instruction::Ahead(_)
            | Instruction::Back(_)
            | Instruction::Case(_)
            | Instruction::Invoke(_)
            | Instruction::Leave
            | Instruction::Enable
            | Instruction::Disable
            | Instruction::Halt
            | Instruction::Finish => NONE,
        }
    }
}
