//! The instructions of operators.

ghost use Rattle.std.specs.Prelude.{◌≡◌, ◌++◌, IsOkUnless, OnOk};
ghost use Rattle.select.specs.Rows.{plain, commutes, from_stack, sign_turned, core, changed, narrow, narrow_right, then_narrow, spread, inverted, shift_word, shift_byte, left_by, right_by, turned_round, direct, narrow_sum, sum_number, sum_with, increment, step_added, load_count, counted, exponent, by_number, by_product, by_quotient, by_remainder, by_turned, by_constant};

use crate::part::Step;
use crate::put::{add, all, alu, alu_number, clear_byte, exchange, load_number, pop};
use i86_table::{
    AluOperation, Count, Instr, Operands, Register8, Register16, RmOperand, ShiftOperation,
    Signedness, UnaryOperation,
};
use word86::{BinaryOperation, Fault, Width, add16};

const AX: Register16 = Register16::Ax;

const CX: Register16 = Register16::Cx;

/// Whether an operator's operands may change places.
pub(crate) fn commutes(operation: BinaryOperation) -> bool
    ensures { result ≡ commutes operation }
{
    match operation {
        BinaryOperation::Multiply
        | BinaryOperation::Add
        | BinaryOperation::And
        | BinaryOperation::Or
        | BinaryOperation::ExclusiveOr => true,
        BinaryOperation::Divide
        | BinaryOperation::Modulo
        | BinaryOperation::Subtract
        | BinaryOperation::Equal
        | BinaryOperation::NotEqual
        | BinaryOperation::Less
        | BinaryOperation::LessEqual
        | BinaryOperation::Greater
        | BinaryOperation::GreaterEqual
        | BinaryOperation::ShiftLeft
        | BinaryOperation::ShiftRight
        | BinaryOperation::RotateLeft
        | BinaryOperation::RotateRight
        | BinaryOperation::DivideSigned
        | BinaryOperation::ModuloSigned
        | BinaryOperation::LessSigned
        | BinaryOperation::LessEqualSigned
        | BinaryOperation::GreaterSigned
        | BinaryOperation::GreaterEqualSigned => false,
    }
}

/// A value of this width in AX.
pub(crate) fn narrow(steps: &mut Vec<Step>, width: Width) -> Result<(), Fault>
    ensures steps { OnOk result (steps.new.items ≡ steps.old.items ++ plain (narrow width)) }
    ensures memory { IsOkUnless result Fault.Memory }
{
    match width {
        Width::Byte => all(steps, &[clear_byte(Register8::Ah)]),
        Width::Word => Ok(()),
    }
}

/// A value of this width in CX.
pub(crate) fn narrow_right(steps: &mut Vec<Step>, width: Width) -> Result<(), Fault>
    ensures steps { OnOk result (steps.new.items ≡ steps.old.items ++ plain (narrow_right width)) }
    ensures memory { IsOkUnless result Fault.Memory }
{
    match width {
        Width::Byte => all(steps, &[clear_byte(Register8::Ch)]),
        Width::Word => Ok(()),
    }
}

/// An instruction, and a value of this width in AX.
pub(crate) fn then_narrow(
    steps: &mut Vec<Step>,
    width: Width,
    instruction: Instr,
) -> Result<(), Fault>
    ensures steps { OnOk result (steps.new.items ≡ steps.old.items ++ plain (then_narrow width instruction)) }
    ensures memory { IsOkUnless result Fault.Memory }
{
    match width {
        Width::Byte => all(steps, &[instruction, clear_byte(Register8::Ah)]),
        Width::Word => all(steps, &[instruction]),
    }
}

// SBB AL,AL: 0FFH where the carry is set, else 0.
fn spread() -> Instr
    ensures { result ≡ spread }
{
    Instr::AluByte(
        AluOperation::Sbb,
        Operands::FromRegister(RmOperand::Register(Register8::Al), Register8::Al),
    )
}

// NOT AL.
fn inverted() -> Instr
    ensures { result ≡ inverted }
{
    Instr::UnaryByte(UnaryOperation::Not, RmOperand::Register(Register8::Al))
}

// ADD of the sign bit, which turns it.
fn sign_turned(register: Register16) -> Instr
    ensures { result ≡ sign_turned register }
{
    alu_number(AluOperation::Add, register, 0x8000)
}

fn shift_word(operation: ShiftOperation, count: Count) -> Instr
    ensures { result ≡ shift_word operation count }
{
    Instr::ShiftWord(operation, RmOperand::Register(AX), count)
}

fn shift_byte(operation: ShiftOperation) -> Instr
    ensures { result ≡ shift_byte operation }
{
    Instr::ShiftByte(operation, RmOperand::Register(Register8::Al), Count::Cl)
}

fn left_by(steps: &mut Vec<Step>, width: Width, count: Count) -> Result<(), Fault>
    ensures steps { OnOk result (steps.new.items ≡ steps.old.items ++ plain (left_by width count)) }
    ensures memory { IsOkUnless result Fault.Memory }
{
    then_narrow(steps, width, shift_word(ShiftOperation::Shl, count))
}

fn right_by(steps: &mut Vec<Step>, width: Width, count: Count) -> Result<(), Fault>
    ensures steps { OnOk result (steps.new.items ≡ steps.old.items ++ plain (right_by width count)) }
    ensures memory { IsOkUnless result Fault.Memory }
{
    let shift = shift_word(ShiftOperation::Shr, count);
    match width {
        Width::Byte => all(steps, &[clear_byte(Register8::Ah), shift]),
        Width::Word => all(steps, &[shift]),
    }
}

/// AX, or AL alone, turned round by CL.
fn rotate(steps: &mut Vec<Step>, width: Width, operation: ShiftOperation) -> Result<(), Fault>
    ensures steps { OnOk result (steps.new.items ≡ steps.old.items ++ plain (turned_round operation width)) }
    ensures memory { IsOkUnless result Fault.Memory }
{
    match width {
        Width::Byte => all(steps, &[shift_byte(operation), clear_byte(Register8::Ah)]),
        Width::Word => all(steps, &[shift_word(operation, Count::Cl)]),
    }
}

/// An operator on AX and CX.
pub(crate) fn core(
    steps: &mut Vec<Step>,
    operation: BinaryOperation,
    width: Width,
) -> Result<(), Fault>
    ensures steps { OnOk result (steps.new.items ≡ steps.old.items ++ plain (core operation width)) }
    ensures memory { IsOkUnless result Fault.Memory }
{
    let clear = clear_byte(Register8::Ah);
    let (zero_dx, swap) = (load_number(Register16::Dx, 0), exchange(Register16::Dx));
    let divide = Instr::DivideWord(Signedness::Unsigned, RmOperand::Register(CX));
    let subtract = alu(AluOperation::Sub, AX, CX);
    let one = alu_number(AluOperation::Cmp, AX, 1);
    let forth = alu(AluOperation::Cmp, AX, CX);
    let back = alu(AluOperation::Cmp, CX, AX);
    let (fill, flip) = (spread(), inverted());
    let widen = Instr::ConvertWord;
    let divide_signed = Instr::DivideWord(Signedness::Signed, RmOperand::Register(CX));
    let (left, right) = (sign_turned(AX), sign_turned(CX));
    match operation {
        BinaryOperation::Multiply => {
            let multiply = Instr::MultiplyWord(Signedness::Unsigned, RmOperand::Register(CX));
            then_narrow(steps, width, multiply)
        }
        BinaryOperation::Divide => all(steps, &[zero_dx, divide]),
        BinaryOperation::Modulo => all(steps, &[zero_dx, divide, swap]),
        BinaryOperation::Add => then_narrow(steps, width, alu(AluOperation::Add, AX, CX)),
        BinaryOperation::Subtract => then_narrow(steps, width, subtract),
        BinaryOperation::Equal => all(steps, &[subtract, one, fill, clear]),
        BinaryOperation::NotEqual => all(steps, &[subtract, one, fill, flip, clear]),
        BinaryOperation::Less => all(steps, &[forth, fill, clear]),
        BinaryOperation::LessEqual => all(steps, &[back, fill, flip, clear]),
        BinaryOperation::Greater => all(steps, &[back, fill, clear]),
        BinaryOperation::GreaterEqual => all(steps, &[forth, fill, flip, clear]),
        BinaryOperation::And => all(steps, &[alu(AluOperation::And, AX, CX)]),
        BinaryOperation::Or => all(steps, &[alu(AluOperation::Or, AX, CX)]),
        BinaryOperation::ExclusiveOr => all(steps, &[alu(AluOperation::Xor, AX, CX)]),
        BinaryOperation::ShiftLeft => left_by(steps, width, Count::Cl),
        BinaryOperation::ShiftRight => right_by(steps, width, Count::Cl),
        BinaryOperation::RotateLeft => rotate(steps, width, ShiftOperation::Rol),
        BinaryOperation::RotateRight => rotate(steps, width, ShiftOperation::Ror),
        BinaryOperation::DivideSigned => all(steps, &[widen, divide_signed]),
        BinaryOperation::ModuloSigned => all(steps, &[widen, divide_signed, swap]),
        BinaryOperation::LessSigned => all(steps, &[left, right, forth, fill, clear]),
        BinaryOperation::LessEqualSigned => all(steps, &[left, right, back, fill, flip, clear]),
        BinaryOperation::GreaterSigned => all(steps, &[left, right, back, fill, clear]),
        BinaryOperation::GreaterEqualSigned => all(steps, &[left, right, forth, fill, flip, clear]),
    }
}

/// An operator on the value on top, which goes, and AX.
pub(crate) fn binary(
    steps: &mut Vec<Step>,
    operation: BinaryOperation,
    width: Width,
) -> Result<(), Fault>
    ensures steps { OnOk result (steps.new.items ≡ steps.old.items ++ plain (from_stack (commutes operation) ++ core operation width)) }
    ensures memory { IsOkUnless result Fault.Memory }
{
    if commutes(operation) {
        all(steps, &[pop(CX)])?;
        core(steps, operation, width)
    } else {
        all(steps, &[exchange(CX), pop(AX)])?;
        core(steps, operation, width)
    }
}

/// An operator on AX.
pub(crate) fn changed(
    steps: &mut Vec<Step>,
    operation: word86::UnaryOperation,
    width: Width,
) -> Result<(), Fault>
    ensures steps { OnOk result (steps.new.items ≡ steps.old.items ++ plain (changed operation width)) }
    ensures memory { IsOkUnless result Fault.Memory }
{
    let clear = clear_byte(Register8::Ah);
    match operation {
        word86::UnaryOperation::Plus | word86::UnaryOperation::Double => all(steps, &[Instr::Nop]),
        word86::UnaryOperation::Minus => {
            let negate = Instr::UnaryWord(UnaryOperation::Neg, RmOperand::Register(AX));
            then_narrow(steps, width, negate)
        }
        word86::UnaryOperation::Not => {
            let invert = Instr::UnaryWord(UnaryOperation::Not, RmOperand::Register(AX));
            then_narrow(steps, width, invert)
        }
        word86::UnaryOperation::Low => all(steps, &[clear]),
        word86::UnaryOperation::High => {
            let high = Instr::MoveByte(Operands::FromRegister(
                RmOperand::Register(Register8::Al),
                Register8::Ah,
            ));
            all(steps, &[high, clear])
        }
    }
}

/// The arithmetic of an operator that takes its right operand where it lies.
pub(crate) fn direct(operation: BinaryOperation) -> AluOperation
    ensures { result ≡ direct operation }
{
    match operation {
        BinaryOperation::Add => AluOperation::Add,
        BinaryOperation::Subtract => AluOperation::Sub,
        BinaryOperation::And => AluOperation::And,
        BinaryOperation::Or => AluOperation::Or,
        BinaryOperation::Multiply
        | BinaryOperation::Divide
        | BinaryOperation::Modulo
        | BinaryOperation::Equal
        | BinaryOperation::NotEqual
        | BinaryOperation::Less
        | BinaryOperation::LessEqual
        | BinaryOperation::Greater
        | BinaryOperation::GreaterEqual
        | BinaryOperation::ExclusiveOr
        | BinaryOperation::ShiftLeft
        | BinaryOperation::ShiftRight
        | BinaryOperation::RotateLeft
        | BinaryOperation::RotateRight
        | BinaryOperation::DivideSigned
        | BinaryOperation::ModuloSigned
        | BinaryOperation::LessSigned
        | BinaryOperation::LessEqualSigned
        | BinaryOperation::GreaterSigned
        | BinaryOperation::GreaterEqualSigned => AluOperation::Xor,
    }
}

/// A sum or a difference of this width in AX.
pub(crate) fn narrow_sum(
    steps: &mut Vec<Step>,
    operation: BinaryOperation,
    width: Width,
) -> Result<(), Fault>
    ensures steps { OnOk result (steps.new.items ≡ steps.old.items ++ plain (narrow_sum operation width)) }
    ensures memory { IsOkUnless result Fault.Memory }
{
    match operation {
        BinaryOperation::Add | BinaryOperation::Subtract => narrow(steps, width),
        BinaryOperation::Multiply
        | BinaryOperation::Divide
        | BinaryOperation::Modulo
        | BinaryOperation::Equal
        | BinaryOperation::NotEqual
        | BinaryOperation::Less
        | BinaryOperation::LessEqual
        | BinaryOperation::Greater
        | BinaryOperation::GreaterEqual
        | BinaryOperation::And
        | BinaryOperation::Or
        | BinaryOperation::ExclusiveOr
        | BinaryOperation::ShiftLeft
        | BinaryOperation::ShiftRight
        | BinaryOperation::RotateLeft
        | BinaryOperation::RotateRight
        | BinaryOperation::DivideSigned
        | BinaryOperation::ModuloSigned
        | BinaryOperation::LessSigned
        | BinaryOperation::LessEqualSigned
        | BinaryOperation::GreaterSigned
        | BinaryOperation::GreaterEqualSigned => Ok(()),
    }
}

/// A sum or a difference of this width with a constant, but for its high byte.
fn sum_number(operation: AluOperation, width: Width, number: u16) -> Instr
    ensures { result ≡ sum_number operation width number }
{
    match width {
        Width::Byte => {
            let al = RmOperand::Register(Register8::Al);
            Instr::AluByte(operation, Operands::Immediate(al, (number % 256) as u8))
        }
        Width::Word => alu_number(operation, AX, number),
    }
}

/// The same; INC and DEC have one byte.
fn sum_with(one: UnaryOperation, operation: AluOperation, width: Width, number: u16) -> Instr
    ensures { result ≡ sum_with one operation width number }
{
    if number == 1 {
        Instr::UnaryWord(one, RmOperand::Register(AX))
    } else {
        sum_number(operation, width, number)
    }
}

/// One added to AL or AX.
fn increment(width: Width) -> Instr
    ensures { result ≡ increment width }
{
    match width {
        Width::Byte => Instr::UnaryByte(UnaryOperation::Inc, RmOperand::Register(Register8::Al)),
        Width::Word => Instr::UnaryWord(UnaryOperation::Inc, RmOperand::Register(AX)),
    }
}

/// A step added to AL or AX, whose flags are asked afterwards.
pub(crate) fn step_added(width: Width, number: u16) -> Instr
    ensures { result ≡ step_added width number }
{
    if number == 1 {
        increment(width)
    } else {
        sum_number(AluOperation::Add, width, number)
    }
}

/// CL gets a shift's count.
fn load_count(count: u8) -> Instr
    ensures { result ≡ load_count count }
{
    Instr::MoveByte(Operands::Immediate(RmOperand::Register(Register8::Cl), count))
}

fn left_by_constant(steps: &mut Vec<Step>, width: Width, count: u8) -> Result<(), Fault>
    ensures steps { OnOk result (steps.new.items ≡ steps.old.items ++ plain (counted count (left_by width))) }
    ensures memory { IsOkUnless result Fault.Memory }
{
    if count == 1 {
        return left_by(steps, width, Count::One);
    }
    add(steps, load_count(count))?;
    left_by(steps, width, Count::Cl)
}

fn right_by_constant(steps: &mut Vec<Step>, width: Width, count: u8) -> Result<(), Fault>
    ensures steps { OnOk result (steps.new.items ≡ steps.old.items ++ plain (counted count (right_by width))) }
    ensures memory { IsOkUnless result Fault.Memory }
{
    if count == 1 {
        return right_by(steps, width, Count::One);
    }
    add(steps, load_count(count))?;
    right_by(steps, width, Count::Cl)
}

/// The exponent of a small power of two.
pub(crate) fn exponent(number: u16) -> Option<u8>
    ensures { result ≡ exponent number }
{
    match number {
        2 => Some(1),
        4 => Some(2),
        8 => Some(3),
        16 => Some(4),
        _ => None,
    }
}

/// An operator on AX and a constant that goes to CX.
fn by_number(
    steps: &mut Vec<Step>,
    operation: BinaryOperation,
    width: Width,
    number: u16,
) -> Result<(), Fault>
    ensures steps { OnOk result (steps.new.items ≡ steps.old.items ++ plain (by_number operation width number)) }
    ensures memory { IsOkUnless result Fault.Memory }
{
    add(steps, load_number(CX, number))?;
    core(steps, operation, width)
}

/// A product.
fn by_product(steps: &mut Vec<Step>, width: Width, number: u16) -> Result<(), Fault>
    ensures steps { OnOk result (steps.new.items ≡ steps.old.items ++ plain (by_product width number (exponent number))) }
    ensures memory { IsOkUnless result Fault.Memory }
{
    let Some(count) = exponent(number) else {
        return by_number(steps, BinaryOperation::Multiply, width, number);
    };
    left_by_constant(steps, width, count)
}

/// A quotient.
fn by_quotient(steps: &mut Vec<Step>, width: Width, number: u16) -> Result<(), Fault>
    ensures steps { OnOk result (steps.new.items ≡ steps.old.items ++ plain (by_quotient width number (exponent number))) }
    ensures memory { IsOkUnless result Fault.Memory }
{
    let Some(count) = exponent(number) else {
        return by_number(steps, BinaryOperation::Divide, width, number);
    };
    right_by_constant(steps, Width::Word, count)
}

/// A remainder.
fn by_remainder(steps: &mut Vec<Step>, width: Width, number: u16) -> Result<(), Fault>
    ensures steps { OnOk result (steps.new.items ≡ steps.old.items ++ plain (by_remainder width number (exponent number))) }
    ensures memory { IsOkUnless result Fault.Memory }
{
    let Some(_) = exponent(number) else {
        return by_number(steps, BinaryOperation::Modulo, width, number);
    };
    add(
        steps,
        alu_number(AluOperation::And, AX, number.saturating_sub(1)),
    )
}

/// A relation of words with sign, by the one of words, where both have their sign bits turned.
fn by_turned(
    steps: &mut Vec<Step>,
    unsigned: BinaryOperation,
    width: Width,
    number: u16,
) -> Result<(), Fault>
    ensures steps { OnOk result (steps.new.items ≡ steps.old.items ++ plain (by_turned unsigned width number)) }
    ensures memory { IsOkUnless result Fault.Memory }
{
    add(steps, sign_turned(AX))?;
    by_number(steps, unsigned, width, add16(number, 0x8000))
}

/// An operator on AX and a constant.
pub(crate) fn by_constant(
    steps: &mut Vec<Step>,
    operation: BinaryOperation,
    width: Width,
    number: u16,
) -> Result<(), Fault>
    ensures steps { OnOk result (steps.new.items ≡ steps.old.items ++ plain (by_constant operation width number)) }
    ensures memory { IsOkUnless result Fault.Memory }
{
    let count = (number % 256) as u8;
    match operation {
        BinaryOperation::Add => {
            let sum = sum_with(UnaryOperation::Inc, AluOperation::Add, width, number);
            then_narrow(steps, width, sum)
        }
        BinaryOperation::Subtract => {
            let difference = sum_with(UnaryOperation::Dec, AluOperation::Sub, width, number);
            then_narrow(steps, width, difference)
        }
        BinaryOperation::And | BinaryOperation::Or | BinaryOperation::ExclusiveOr => {
            add(steps, alu_number(direct(operation), AX, number))
        }
        BinaryOperation::Multiply => by_product(steps, width, number),
        BinaryOperation::Divide => by_quotient(steps, width, number),
        BinaryOperation::Modulo => by_remainder(steps, width, number),
        BinaryOperation::ShiftLeft => left_by_constant(steps, width, count),
        BinaryOperation::ShiftRight => right_by_constant(steps, width, count),
        BinaryOperation::Equal
        | BinaryOperation::NotEqual
        | BinaryOperation::Less
        | BinaryOperation::LessEqual
        | BinaryOperation::Greater
        | BinaryOperation::GreaterEqual
        | BinaryOperation::RotateLeft
        | BinaryOperation::RotateRight
        | BinaryOperation::DivideSigned
        | BinaryOperation::ModuloSigned => by_number(steps, operation, width, number),
        BinaryOperation::LessSigned => by_turned(steps, BinaryOperation::Less, width, number),
        BinaryOperation::LessEqualSigned => {
            by_turned(steps, BinaryOperation::LessEqual, width, number)
        }
        BinaryOperation::GreaterSigned => by_turned(steps, BinaryOperation::Greater, width, number),
        BinaryOperation::GreaterEqualSigned => {
            by_turned(steps, BinaryOperation::GreaterEqual, width, number)
        }
    }
}
