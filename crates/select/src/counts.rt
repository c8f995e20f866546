//! How many steps each instruction of the intermediate code has.

ghost use Rattle.std.specs.Prelude.{◌≡◌, ◌≤◌, ◌++◌, [], length};
ghost use Rattle.i86_table.specs.declared.registers.Register16.TheVariants.{Ax};
ghost use Rattle.select.specs.Rows.{plain, commutes, from_stack, core, changed, narrow, narrow_sum, counted, exponent, by_product, by_quotient, by_remainder, by_constant, left_by, right_by, by_read, unless, again, received, sent, picked, with_register, registers_of, steps_in, cleared, by_right, low_received, low_row};
ghost use Rattle.i86_table.specs.declared.instruction.AluOperation.{AluOperation};

use crate::operators::{commutes, exponent};
use icode::{High, Instruction, LowByte, Registers, Right, Test, is_direct};
use word86::{BinaryOperation, Place, UnaryOperation, Width};

/// Of a value of this width in AX.
fn narrow_count(width: Width) -> usize
    ensures value { result ≡ length (plain (narrow width)) }
    ensures few { result ≤ 1 }
{
    match width {
        Width::Byte => 1,
        Width::Word => 0,
    }
}

/// Of an operator on AX and CX.
fn core_count(operation: BinaryOperation, width: Width) -> usize
    ensures value { result ≡ length (plain (core operation width)) }
    ensures few { result ≤ 6 }
{
    match operation {
        BinaryOperation::Multiply
        | BinaryOperation::Add
        | BinaryOperation::Subtract
        | BinaryOperation::ShiftLeft => 1 + narrow_count(width),
        BinaryOperation::ShiftRight | BinaryOperation::RotateLeft | BinaryOperation::RotateRight =>
            {
                match width {
                    Width::Byte => 2,
                    Width::Word => 1,
                }
            }
        BinaryOperation::And | BinaryOperation::Or | BinaryOperation::ExclusiveOr => 1,
        BinaryOperation::Divide | BinaryOperation::DivideSigned => 2,
        BinaryOperation::Modulo
        | BinaryOperation::Less
        | BinaryOperation::Greater
        | BinaryOperation::ModuloSigned => 3,
        BinaryOperation::Equal | BinaryOperation::LessEqual | BinaryOperation::GreaterEqual => 4,
        BinaryOperation::NotEqual | BinaryOperation::LessSigned | BinaryOperation::GreaterSigned =>
            5,
        BinaryOperation::LessEqualSigned | BinaryOperation::GreaterEqualSigned => 6,
    }
}

/// Of an operator on the value on top and AX.
fn binary_count(operation: BinaryOperation, width: Width) -> usize
    ensures { result ≡ length (plain (from_stack (commutes operation) ++ core operation width)) }
{
    if commutes(operation) {
        1 + core_count(operation, width)
    } else {
        2 + core_count(operation, width)
    }
}

/// Of an operator on AX.
fn changed_count(operation: UnaryOperation, width: Width) -> usize
    ensures value { result ≡ length (plain (changed operation width)) }
    ensures few { result ≤ 2 }
{
    match operation {
        UnaryOperation::Plus | UnaryOperation::Low | UnaryOperation::Double => 1,
        UnaryOperation::Minus | UnaryOperation::Not => 1 + narrow_count(width),
        UnaryOperation::High => 2,
    }
}

/// Of a sum or a difference of this width in AX, behind its first instruction.
fn narrow_sum_count(operation: BinaryOperation, width: Width) -> usize
    ensures value { result ≡ length (plain (narrow_sum operation width)) }
    ensures few { result ≤ 1 }
{
    match operation {
        BinaryOperation::Add | BinaryOperation::Subtract => narrow_count(width),
        BinaryOperation::Multiply
        | BinaryOperation::Divide
        | BinaryOperation::Modulo
        | BinaryOperation::Equal
        | BinaryOperation::NotEqual
        | BinaryOperation::Less
        | BinaryOperation::LessEqual
        | BinaryOperation::Greater
        | BinaryOperation::GreaterEqual
        | BinaryOperation::And
        | BinaryOperation::Or
        | BinaryOperation::ExclusiveOr
        | BinaryOperation::ShiftLeft
        | BinaryOperation::ShiftRight
        | BinaryOperation::RotateLeft
        | BinaryOperation::RotateRight
        | BinaryOperation::DivideSigned
        | BinaryOperation::ModuloSigned
        | BinaryOperation::LessSigned
        | BinaryOperation::LessEqualSigned
        | BinaryOperation::GreaterSigned
        | BinaryOperation::GreaterEqualSigned => 0,
    }
}

/// Of a shift to the left by a constant.
fn left_count(width: Width, count: u8) -> usize
    ensures value { result ≡ length (plain (counted count (left_by width))) }
    ensures few { result ≤ 3 }
{
    if count == 1 {
        1 + narrow_count(width)
    } else {
        2 + narrow_count(width)
    }
}

/// Of a shift to the right by a constant.
fn right_count(width: Width, count: u8) -> usize
    ensures value { result ≡ length (plain (counted count (right_by width))) }
    ensures few { result ≤ 3 }
{
    match width {
        Width::Byte => if count == 1 { 2 } else { 3 },
        Width::Word => if count == 1 { 1 } else { 2 },
    }
}

/// Of a product with a constant.
fn product_count(width: Width, number: u16) -> usize
    ensures value { result ≡ length (plain (by_product width number (exponent number))) }
    ensures few { result ≤ 7 }
{
    let Some(count) = exponent(number) else {
        return 1 + core_count(BinaryOperation::Multiply, width);
    };
    left_count(width, count)
}

/// Of a quotient by a constant.
fn quotient_count(width: Width, number: u16) -> usize
    ensures value { result ≡ length (plain (by_quotient width number (exponent number))) }
    ensures few { result ≤ 7 }
{
    let Some(count) = exponent(number) else {
        return 1 + core_count(BinaryOperation::Divide, width);
    };
    right_count(Width::Word, count)
}

/// Of a remainder by a constant.
fn remainder_count(width: Width, number: u16) -> usize
    ensures value { result ≡ length (plain (by_remainder width number (exponent number))) }
    ensures few { result ≤ 7 }
{
    let Some(_) = exponent(number) else {
        return 1 + core_count(BinaryOperation::Modulo, width);
    };
    1
}

/// Of an operator on AX and a constant.
fn constant_count(operation: BinaryOperation, width: Width, number: u16) -> usize
    ensures value { result ≡ length (plain (by_constant operation width number)) }
    ensures few { result ≤ 8 }
{
    let count = (number % 256) as u8;
    match operation {
        BinaryOperation::Add | BinaryOperation::Subtract => 1 + narrow_count(width),
        BinaryOperation::And | BinaryOperation::Or | BinaryOperation::ExclusiveOr => 1,
        BinaryOperation::Multiply => product_count(width, number),
        BinaryOperation::Divide => quotient_count(width, number),
        BinaryOperation::Modulo => remainder_count(width, number),
        BinaryOperation::ShiftLeft => left_count(width, count),
        BinaryOperation::ShiftRight => right_count(width, count),
        BinaryOperation::Equal
        | BinaryOperation::NotEqual
        | BinaryOperation::Less
        | BinaryOperation::LessEqual
        | BinaryOperation::Greater
        | BinaryOperation::GreaterEqual
        | BinaryOperation::RotateLeft
        | BinaryOperation::RotateRight
        | BinaryOperation::DivideSigned
        | BinaryOperation::ModuloSigned => 1 + core_count(operation, width),
        BinaryOperation::LessSigned => 2 + core_count(BinaryOperation::Less, width),
        BinaryOperation::LessEqualSigned => 2 + core_count(BinaryOperation::LessEqual, width),
        BinaryOperation::GreaterSigned => 2 + core_count(BinaryOperation::Greater, width),
        BinaryOperation::GreaterEqualSigned => 2 + core_count(BinaryOperation::GreaterEqual, width),
    }
}

/// Of an operator on AX and what is read with a width at a place.
fn read_count(operation: BinaryOperation, width: Width, read: Width, place: Place) -> usize
    ensures value { result ≡ length (by_read operation width read place) }
    ensures few { result ≤ 8 }
{
    match read {
        Width::Byte => 2 + core_count(operation, width),
        Width::Word => {
            if is_direct(operation) {
                1 + narrow_sum_count(operation, width)
            } else {
                1 + core_count(operation, width)
            }
        }
    }
}

/// Of what becomes of the high byte.
fn cleared_count(high: High) -> usize
    ensures value { result ≡ length (plain (cleared high)) }
    ensures few { result ≤ 1 }
{
    match high {
        High::Kept => 0,
        High::Cleared => 1,
    }
}

/// Of an operator on low bytes.
fn operand_count(right: Right, high: High) -> usize
    ensures value { (operation : AluOperation) → result ≡ length (by_right operation right (cleared high)) }
    ensures few { result ≤ 4 }
{
    match right {
        Right::Constant(_) | Right::Plain(_) => 1 + cleared_count(high),
        Right::Top => 3 + cleared_count(high),
    }
}

/// Of a low byte that is read from a port.
fn low_received_count(port: u16, high: High) -> usize
    ensures value { result ≡ length (plain (low_received port (cleared high))) }
    ensures few { result ≤ 3 }
{
    if port >= 256 {
        2 + cleared_count(high)
    } else {
        1 + cleared_count(high)
    }
}

/// Of what the low byte gets.
fn low_count(low: LowByte, high: High) -> usize
    ensures value { result ≡ length (low_row low (cleared high)) }
    ensures few { result ≤ 4 }
{
    match low {
        LowByte::Constant(_) | LowByte::Load(_) | LowByte::High => 1 + cleared_count(high),
        LowByte::LoadAt(_) | LowByte::LoadThere | LowByte::Receive => 2 + cleared_count(high),
        LowByte::ReceiveFrom(port) => low_received_count(port, high),
        LowByte::Operate(_, right) => operand_count(right, high),
    }
}

/// Of a jump unless a test holds.
fn unless_count(test: Test) -> usize
    ensures value { result ≡ length (unless test 0) }
    ensures few { result ≤ 4 }
{
    match test {
        Test::Odd | Test::Constant(_, _) | Test::Plain(_, Width::Word, _) => 2,
        Test::Plain(_, Width::Byte, _) => 4,
        Test::Low(_, Right::Constant(_)) | Test::Low(_, Right::Plain(_)) => 2,
        Test::Named(_, _, _, _) | Test::OddNamed(_) => 2,
        Test::Top(_) | Test::Low(_, Right::Top) => 3,
    }
}

/// Of a jump if a sum stays in the range of its width.
fn again_count(width: Width, number: u16) -> usize
    ensures value { result ≡ length (again width number 0) }
    ensures few { result ≤ 1 }
{
    match width {
        Width::Byte => if number >= 256 { 0 } else { 1 },
        Width::Word => 1,
    }
}

/// Of what reads a port.
fn received_count(width: Width, port: u16) -> usize
    ensures value { result ≡ length (plain (received width port)) }
    ensures few { result ≤ 3 }
{
    if port >= 256 {
        2 + narrow_count(width)
    } else {
        1 + narrow_count(width)
    }
}

/// Of what writes a port.
fn sent_count(width: Width, port: u16) -> usize
    ensures value { result ≡ length (plain (sent width port)) }
    ensures few { result ≤ 2 }
{
    if port >= 256 { 2 } else { 1 }
}

/// Of what fetches a word of the stack, whichever it is.
fn picked_count(above: usize) -> usize
    ensures value { result ≡ length (plain (picked above)) }
    ensures few { result ≤ 2 }
{
    2
}

/// One for a register that is saved.
fn one_if(saved: bool) -> usize
    ensures value { result ≡ length (with_register saved Ax []) }
    ensures few { result ≤ 1 }
{
    if saved { 1 } else { 0 }
}

/// How many registers are saved.
pub(crate) fn saved_count(saves: Registers) -> usize
    ensures value { result ≡ length (registers_of saves) }
    ensures few { result ≤ 5 }
{
    one_if(saves.accumulator)
        + one_if(saves.right)
        + one_if(saves.high)
        + one_if(saves.address)
        + one_if(saves.frame)
}

/// How many steps an instruction has in a routine that saves these registers.
pub(crate) fn steps_of(saves: Registers, instruction: Instruction) -> usize
    ensures { result ≡ steps_in saves instruction }
{
    match instruction {
        Instruction::Constant(_)
        | Instruction::Locate(_)
        | Instruction::LocateAt(_)
        | Instruction::Push
        | Instruction::Drop(_)
        | Instruction::Store(_, _)
        | Instruction::Ahead(_)
        | Instruction::Back(_)
        | Instruction::Case(_)
        | Instruction::Invoke(_)
        | Instruction::Leave
        | Instruction::Disable => 1,
        Instruction::StoreTop(_, _) | Instruction::Enable | Instruction::Halt => 2,
        Instruction::StoreAt(_, _)
        | Instruction::StoreThere(_)
        | Instruction::StoreConstantAt(_, _, _)
        | Instruction::Send(_) => 3,
        Instruction::Switch(_) => 5,
        Instruction::Low(low, high) => low_count(low, high),
        Instruction::Load(width, _) => 1 + narrow_count(width),
        Instruction::LoadAt(width, _)
        | Instruction::LoadThere(width)
        | Instruction::Receive(width) => 2 + narrow_count(width),
        Instruction::Pick(above) => picked_count(above),
        Instruction::Unary(operation, width) => changed_count(operation, width),
        Instruction::Binary(operation, width) => binary_count(operation, width),
        Instruction::BinaryConstant(operation, width, number) => {
            constant_count(operation, width, number)
        }
        Instruction::BinaryPlain(operation, width, read, place) => {
            read_count(operation, width, read, place)
        }
        Instruction::SendTo(width, port) => sent_count(width, port),
        Instruction::ReceiveFrom(width, port) => received_count(width, port),
        Instruction::AheadUnless(test, _) | Instruction::BackUnless(test, _) => unless_count(test),
        Instruction::Next(width, _, number, _) => 2 + again_count(width, number),
        Instruction::Finish => saved_count(saves) + 1,
    }
}
