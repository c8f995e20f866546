//! Built-in procedures: how many arguments each takes, the type of its value, and the tree that stands for its call.

ghost use Rattle.std.specs.Prelude.{◌≡◌, ◌∷◌, [], IfOk, option_map};
ghost use Rattle.plm_decl.specs.ResolvedView.{selector_of};
ghost use Rattle.plm_type.specs.Rest.{Unary};
ghost use Rattle.plm_type.specs.Types as scalars;
ghost use Rattle.plm_type.specs.Typing as typing;
ghost use Rattle.plm_type.specs.Trees as spec;
ghost use Rattle.plm_type.specs.Inner.Builtins.{the_only};
ghost use Rattle.plm_type.specs.View as view;

use crate::program::{Expression, Line, Operation, Target};
use crate::typer::{alone, paired};
use crate::types::{are_known, has_integer, may_be_integers, may_be_numbers, width_of};
use plm_decl::{Builtin, ScalarType, Selector};
use std::alloc::{AllocError, Global};
use word86::{BinaryOperation, UnaryOperation, Width};

/// What LENGTH, LAST and SIZE answer where there are `elements` elements of `size` bytes each.
pub fn measured(builtin: Builtin, elements: u64, size: u64) -> u64
    ensures { result ≡ typing.measured builtin elements size }
{
    match builtin {
        Builtin::Length => elements,
        Builtin::Last => elements.saturating_sub(1),
        // The others measure nothing, and are not asked.
        Builtin::Size
        | Builtin::Low
        | Builtin::High
        | Builtin::Double
        | Builtin::ShiftLeft
        | Builtin::ShiftRight
        | Builtin::RotateLeft
        | Builtin::RotateRight
        | Builtin::Input
        | Builtin::InputWord
        | Builtin::Output
        | Builtin::OutputWord
        | Builtin::Signed
        | Builtin::Unsigned => elements.saturating_mul(size),
    }
}

/// Whether it is LENGTH, LAST or SIZE.
pub fn is_measure(builtin: Builtin) -> bool
    ensures { result ≡ typing.is_measure builtin }
{
    match builtin {
        Builtin::Length | Builtin::Last | Builtin::Size => true,
        Builtin::Low
        | Builtin::High
        | Builtin::Double
        | Builtin::ShiftLeft
        | Builtin::ShiftRight
        | Builtin::RotateLeft
        | Builtin::RotateRight
        | Builtin::Input
        | Builtin::InputWord
        | Builtin::Output
        | Builtin::OutputWord
        | Builtin::Signed
        | Builtin::Unsigned => false,
    }
}

/// The first of several types.
pub fn first_type(types: &[Option<ScalarType>]) -> Option<ScalarType>
    ensures { result ≡ typing.first_type types.now }
{
    match types.first() {
        Some(scalar) => *scalar,
        None => None,
    }
}

/// The types after the first.
pub fn other_types(types: &[Option<ScalarType>]) -> &[Option<ScalarType>]
    ensures { result.now ≡ typing.other_types types.now }
{
    match types.split_first() {
        Some((_, others)) => others,
        None => types,
    }
}

/// What each of its arguments is wanted as: UNSIGN takes an INTEGER.
pub fn wanted_arguments(builtin: Builtin) -> &'static [Option<ScalarType>]
    ensures { result.now ≡ typing.wanted_arguments builtin }
{
    match builtin {
        Builtin::Unsigned => &[Some(ScalarType::Integer)],
        Builtin::ShiftLeft | Builtin::ShiftRight | Builtin::RotateLeft | Builtin::RotateRight => {
            &[None, None]
        }
        Builtin::Length
        | Builtin::Last
        | Builtin::Size
        | Builtin::Low
        | Builtin::High
        | Builtin::Double
        | Builtin::Input
        | Builtin::InputWord
        | Builtin::Output
        | Builtin::OutputWord
        | Builtin::Signed => &[None],
    }
}

/// How many arguments it takes.
pub fn arity(builtin: Builtin) -> usize
    ensures { result ≡ typing.arity builtin }
{
    wanted_arguments(builtin).len()
}

/// Whether its arguments may have these types: numbers, but for UNSIGN.
pub fn may_be_arguments(builtin: Builtin, types: &[Option<ScalarType>]) -> bool
    ensures { result ≡ typing.may_be_arguments builtin types.now }
{
    if has_integer(wanted_arguments(builtin)) {
        may_be_integers(types)
    } else {
        may_be_numbers(types)
    }
}

/// The type of its value.
pub fn builtin_type(builtin: Builtin, types: &[Option<ScalarType>]) -> Option<ScalarType>
    ensures { result ≡ typing.builtin_type builtin types.now }
{
    match builtin {
        Builtin::Low | Builtin::High | Builtin::Input => Some(ScalarType::Byte),
        Builtin::Double | Builtin::InputWord | Builtin::Unsigned => Some(ScalarType::Word),
        Builtin::Signed => Some(ScalarType::Integer),
        Builtin::ShiftLeft | Builtin::ShiftRight | Builtin::RotateLeft | Builtin::RotateRight =>
            first_type(types),
        Builtin::Length | Builtin::Last | Builtin::Size | Builtin::Output | Builtin::OutputWord =>
            None,
    }
}

/// The type of a port as a target.
pub fn port_type(builtin: Builtin) -> Option<ScalarType>
    ensures { result ≡ typing.port_type builtin }
{
    match builtin {
        Builtin::Output => Some(ScalarType::Byte),
        Builtin::OutputWord => Some(ScalarType::Word),
        Builtin::Length
        | Builtin::Last
        | Builtin::Size
        | Builtin::Low
        | Builtin::High
        | Builtin::Double
        | Builtin::ShiftLeft
        | Builtin::ShiftRight
        | Builtin::RotateLeft
        | Builtin::RotateRight
        | Builtin::Input
        | Builtin::InputWord
        | Builtin::Signed
        | Builtin::Unsigned => None,
    }
}

/// Whether it is a target alone.
pub fn is_target(builtin: Builtin) -> bool
    ensures { result ≡ typing.is_target builtin }
{
    port_type(builtin).is_some()
}

/// Whether no member follows a name.
pub fn is_plain(selector: &Selector) -> bool
    ensures { result ≡ typing.is_plain (selector_of selector.now) }
{
    match selector {
        Selector::None => true,
        Selector::Member(_, _) | Selector::Element(_, _, _) => false,
    }
}

/// Whether it takes arguments of these types.
pub fn builtin_fits(builtin: Builtin, selector: &Selector, types: &[Option<ScalarType>]) -> bool
    ensures { result ≡ typing.builtin_fits builtin (selector_of selector.now) types.now }
{
    is_plain(selector)
        && types.len() == arity(builtin)
        && are_known(types)
        && may_be_arguments(builtin, types)
}

/// A number as a constant; numbers above 65,535 are refused.
pub fn constant(value: u64) -> Expression
    ensures { view.expression_of result ≡ spec.constant value }
{
    match u16::try_from(value) {
        Ok(value) => Expression::Constant(value),
        Err(_) => Expression::Constant(0),
    }
}

/// A string's value: its first character is the high byte.
pub fn text_value(characters: &[u8]) -> u64
    ensures { result ≡ spec.text_value characters.now }
{
    match characters {
        [only] => u64::from(*only),
        [high, low] => u64::from(*high) * 0x100 + u64::from(*low),
        [] | [_, _, _, ..] => 0,
    }
}

/// The one expression of a list.
fn only(mut trees: Vec<Expression>) -> Option<Expression>
    ensures { option_map view.expression_of result ≡ the_only (view.expressions_of trees.items) }
{
    if trees.len() == 1 { trees.pop() } else { None }
}

/// A unary operator with its operand, which has this width.
pub fn applied(
    alloc: Global,
    operation: UnaryOperation,
    width: Width,
    operand: Expression,
) -> Result<Expression, AllocError>
    ensures { IfOk result (λ r. view.expression_of r ≡ Unary operation width (view.expression_of operand)) }
{
    let operand = Box::new(alloc, operand)?;
    Ok(Expression::Unary(operation, width, operand))
}

fn operated(
    alloc: Global,
    operation: UnaryOperation,
    width: Width,
    trees: Vec<Expression>,
) -> Result<Expression, AllocError>
    ensures { IfOk result (λ r. view.expression_of r ≡ spec.operated operation width (view.expressions_of trees.items)) }
{
    match only(trees) {
        Some(tree) => applied(alloc, operation, width, tree),
        None => Ok(Expression::Constant(0)),
    }
}

fn read_port(alloc: Global, width: Width, trees: Vec<Expression>) -> Result<Expression, AllocError>
    ensures { IfOk result (λ r. view.expression_of r ≡ spec.read_port width (view.expressions_of trees.items)) }
{
    match only(trees) {
        Some(tree) => Ok(Expression::Input(width, Box::new(alloc, tree)?)),
        None => Ok(Expression::Constant(0)),
    }
}

/// A port as a target.
pub fn to_port(builtin: Builtin, trees: Vec<Expression>) -> Target
    ensures { view.target_of result ≡ spec.to_port builtin (view.expressions_of trees.items) }
{
    match only(trees) {
        Some(tree) => Target::Port(width_of(port_type(builtin)), tree),
        None => Target::Port(Width::Word, Expression::Constant(0)),
    }
}

/// A left operand, and one more operator with its right operand.
pub fn operation(
    alloc: Global,
    left: Expression,
    operation: Operation,
) -> Result<Expression, AllocError>
    ensures { IfOk result (λ r. view.expression_of r ≡ view.chained (view.expression_of left) (operation ∷ [])) }
{
    if let Expression::Chain(first, mut others) = left {
        others.push(operation)?;
        return Ok(Expression::Chain(first, others));
    }
    let (left, others) = paired(left, alone(alloc, operation))?;
    Ok(Expression::Chain(Box::new(alloc, left)?, others))
}

fn shifted(
    alloc: Global,
    line: Line,
    operator: BinaryOperation,
    width: Width,
    mut trees: Vec<Expression>,
) -> Result<Expression, AllocError>
    ensures { IfOk result (λ r. view.expression_of r ≡ spec.shifted line.module (line.line) operator width (view.expressions_of trees.items)) }
{
    if trees.len() != 2 {
        return Ok(Expression::Constant(0));
    }
    match trees.pop().zip(trees.pop()) {
        Some((count, shifted)) => operation(
            alloc,
            shifted,
            Operation {
                line,
                operation: operator,
                width,
                operand: count,
            },
        ),
        None => Ok(Expression::Constant(0)),
    }
}

/// What it does with arguments, the first of which has this width.
pub fn builtin_value(
    alloc: Global,
    line: Line,
    builtin: Builtin,
    width: Width,
    trees: Vec<Expression>,
) -> Result<Expression, AllocError>
    ensures { IfOk result (λ r. view.expression_of r ≡ spec.builtin_value line.module line.line builtin width (view.expressions_of trees.items)) }
{
    match builtin {
        Builtin::Low => operated(alloc, UnaryOperation::Low, width, trees),
        Builtin::High => operated(alloc, UnaryOperation::High, width, trees),
        Builtin::Double | Builtin::Signed | Builtin::Unsigned => {
            operated(alloc, UnaryOperation::Double, width, trees)
        }
        Builtin::ShiftLeft => shifted(alloc, line, BinaryOperation::ShiftLeft, width, trees),
        Builtin::ShiftRight => shifted(alloc, line, BinaryOperation::ShiftRight, width, trees),
        Builtin::RotateLeft => shifted(alloc, line, BinaryOperation::RotateLeft, width, trees),
        Builtin::RotateRight => shifted(alloc, line, BinaryOperation::RotateRight, width, trees),
        Builtin::Input => read_port(alloc, Width::Byte, trees),
        Builtin::InputWord => read_port(alloc, Width::Word, trees),
        Builtin::Length | Builtin::Last | Builtin::Size | Builtin::Output | Builtin::OutputWord =>
            Ok(Expression::Constant(0)),
    }
}

/// The width of a list's first value.
pub fn first_width(types: &[Option<ScalarType>]) -> Width
    ensures { result ≡ scalars.width_of (typing.first_type types.now) }
{
    width_of(first_type(types))
}
