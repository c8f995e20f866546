//! The values of expressions that are made of constants.

use plm_decl::{Expression, Operation, ScalarType};
use plm_syntax::{BinaryOperator, UnaryOperator};
use plm_type::{number_type, result_type};
use word86::signed16;

/// What numbers are where they stand: BYTEs where they fit one, or INTEGERs.
#[derive(Clone, Copy)]
enum Sense {
    WithoutSign,
    WithSign,
}

/// A value, as its bits are without a sign, and its type.
#[derive(Clone, Copy)]
pub(crate) struct Constant {
    pub value: u32,
    scalar: ScalarType,
}

/// A value of this type, of which the low bits count.
fn cut(value: u32, scalar: ScalarType) -> Constant {
    let values = if scalar == ScalarType::Byte {
        0x100
    } else {
        0x1_0000
    };
    Constant {
        value: value % values,
        scalar,
    }
}

fn number(sense: Sense, value: u32) -> Option<Constant> {
    let without_sign = number_type(u64::from(value))?;
    let scalar = match sense {
        Sense::WithoutSign => without_sign,
        Sense::WithSign => ScalarType::Integer,
    };
    Some(cut(value, scalar))
}

fn signed(operator: UnaryOperator, operand: Constant) -> Constant {
    match operator {
        UnaryOperator::Plus => operand,
        UnaryOperator::Minus => cut(0u32.wrapping_sub(operand.value), operand.scalar),
        UnaryOperator::Not => cut(!operand.value, operand.scalar),
    }
}

/// What a relation gives.
fn truth(holds: bool) -> u32 {
    if holds { 0xFF } else { 0 }
}

/// What an operator gives, of which the low bits count; nothing where it divides.
fn outcome(operator: BinaryOperator, one: u32, other: u32) -> Option<u32> {
    match operator {
        BinaryOperator::Add => Some(one.wrapping_add(other)),
        BinaryOperator::Subtract => Some(one.wrapping_sub(other)),
        BinaryOperator::Multiply => Some(one.wrapping_mul(other)),
        BinaryOperator::And => Some(one & other),
        BinaryOperator::Or => Some(one | other),
        BinaryOperator::ExclusiveOr => Some(one ^ other),
        BinaryOperator::Equal => Some(truth(one == other)),
        BinaryOperator::NotEqual => Some(truth(one != other)),
        BinaryOperator::Less => Some(truth(one < other)),
        BinaryOperator::LessEqual => Some(truth(one <= other)),
        BinaryOperator::Greater => Some(truth(one > other)),
        BinaryOperator::GreaterEqual => Some(truth(one >= other)),
        BinaryOperator::Divide | BinaryOperator::Modulo => None,
    }
}

fn joined(operator: BinaryOperator, left: Constant, right: Constant) -> Option<Constant> {
    let value = outcome(operator, left.value, right.value)?;
    Some(cut(value, result_type(operator, left.scalar, right.scalar)))
}

/// The value of an expression, where it is made of constants.
pub(crate) fn constant_value(e: &Expression) -> Option<Constant> {
    value_of(e, Sense::WithoutSign)
}

/// Whether a condition holds, whose lowest bit counts, where it is made of constants.
pub(crate) fn condition(test: &Expression) -> Option<bool> {
    Some(constant_value(test)?.value % 2 == 1)
}

/// The case that a DO CASE comes to, counted from 0, where that is made of constants.
pub(crate) fn selected(selector: &Expression) -> Option<usize> {
    Some(constant_value(selector)?.value as usize)
}

/// Whether a DO CASE may come to the case of this number.
pub(crate) fn may_be_selected(selected: Option<usize>, number: usize) -> bool {
    match selected {
        Some(selected) => selected == number,
        None => true,
    }
}

/// The value of an expression that is INTEGER throughout, where it is made of constants.
pub(crate) fn integer_value(e: &Expression) -> Option<i32> {
    let word = u16::try_from(value_of(e, Sense::WithSign)?.value).ok()?;
    Some(i32::from(signed16(word)))
}

#[cycle(valuing)]
fn value_of(e: &Expression, sense: Sense) -> Option<Constant> {
    match e {
        Expression::Number(numeral) => number(sense, numeral.value),
        Expression::Parenthesised(_, inner) => value_of(inner, sense),
        Expression::Unary(_, operator, operand) => {
            Some(signed(*operator, value_of(operand, sense)?))
        }
        Expression::Chain { first, others } => operated(others, value_of(first, sense)?, sense),
        Expression::Text(_, _)
        | Expression::Reference(_)
        | Expression::Location(_)
        | Expression::Embedded(_, _, _) => None,
    }
}

#[cycle(valuing)]
fn operated(operations: &[Operation], first: Constant, sense: Sense) -> Option<Constant> {
    let mut value = first;
    for operation in operations {
        let right = value_of(&operation.operand, sense)?;
        value = joined(operation.operator, value, right)?;
    }
    Some(value)
}
