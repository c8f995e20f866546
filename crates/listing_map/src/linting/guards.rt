//! Subscripts that one side of AND or OR reads and another one tests: all sides are evaluated.

use crate::explaining::references::{reference_of, variable_of};
use crate::noted::Noted;
use plm_decl::{Expression, Form, Names, Operation, Reference, ScalarType, Selector};
use plm_syntax::BinaryOperator;
use plm_type::is_relation;
use std::alloc::{AllocError, Global};

/// How many values a BYTE has.
const BYTES: u32 = 256;

/// Whether it is AND or OR.
pub(crate) fn joins_tests(operator: BinaryOperator) -> bool {
    match operator {
        BinaryOperator::And | BinaryOperator::Or => true,
        BinaryOperator::Multiply
        | BinaryOperator::Divide
        | BinaryOperator::Modulo
        | BinaryOperator::Add
        | BinaryOperator::Subtract
        | BinaryOperator::Equal
        | BinaryOperator::NotEqual
        | BinaryOperator::Less
        | BinaryOperator::LessEqual
        | BinaryOperator::Greater
        | BinaryOperator::GreaterEqual
        | BinaryOperator::ExclusiveOr => false,
    }
}

/// AND or OR, where it is among the operators of one precedence: the two have not the same one.
pub(crate) fn joining(operations: &[Operation]) -> Option<BinaryOperator> {
    for operation in operations {
        if joins_tests(operation.operator) {
            return Some(operation.operator);
        }
    }
    None
}

/// Whether a reference has neither a subscript nor a member.
fn is_plain(reference: &Reference) -> bool {
    match reference.selector {
        Selector::None => reference.subscripts.is_empty(),
        Selector::Member(_, _) | Selector::Element(_, _, _) => false,
    }
}

/// The variable that an expression is, without a subscript and a member.
fn plain_variable(e: &Expression) -> Option<usize> {
    let reference = reference_of(e)?;
    let number = variable_of(reference.binding)?;
    is_plain(reference).then_some(number)
}

fn is_byte(names: &Names, number: usize) -> bool {
    match names.variables.get(number) {
        Some(variable) => variable.form == Form::Scalar(ScalarType::Byte),
        None => false,
    }
}

/// Whether an array has an element for each value of a BYTE.
fn has_bytes(names: &Names, array: usize) -> bool {
    match names.variables.get(array) {
        Some(variable) => variable.dimension.unwrap_or(0) >= BYTES,
        None => false,
    }
}

/// The variable that a subscript of this reference is, where it may be no element's number.
fn subscript_of(reference: &Reference, names: &Names) -> Option<usize> {
    let array = variable_of(reference.binding)?;
    let subscript = plain_variable(reference.subscripts.first()?)?;
    let is_element = is_byte(names, subscript) && has_bytes(names, array);
    (!is_element).then_some(subscript)
}

/// An array that is read, by the place of its token, with the variable that is its subscript.
#[derive(Clone, Copy)]
pub(crate) struct Reading {
    pub place: usize,
    pub subscript: usize,
}

/// The first array that an expression reads with a plain variable for a subscript, which may be no element's number.
#[cycle(reading)]
pub(crate) fn array_read(e: &Expression, names: &Names) -> Option<Reading> {
    match e {
        Expression::Reference(reference) => Some(Reading {
            place: reference.place.token as usize,
            subscript: subscript_of(reference, names)?,
        }),
        Expression::Parenthesised(_, inner) => array_read(inner, names),
        Expression::Unary(_, _, operand) => array_read(operand, names),
        Expression::Chain { first, others } => match array_read(first, names) {
            Some(found) => Some(found),
            None => reading_in(others, names),
        },
        Expression::Number(_)
        | Expression::Text(_, _)
        | Expression::Location(_)
        | Expression::Embedded(_, _, _) => None,
    }
}

#[cycle(reading)]
fn reading_in(operations: &[Operation], names: &Names) -> Option<Reading> {
    for operation in operations {
        let found = array_read(&operation.operand, names);
        if found.is_some() {
            return found;
        }
    }
    None
}

/// A variable that the side of this number compares with something.
#[derive(Clone, Copy)]
struct Test {
    variable: usize,
    side: usize,
}

/// What the sides of AND or OR compare: by variables, and each by its sides.
#[derive(Drop)]
pub(crate) struct Tested {
    tests: Vec<Test>,
}

impl Tested {
    /// Of a first side, which has the number 0, and of those behind AND or OR among these, which count from 1 on.
    pub fn of(
        alloc: Global,
        first: &Expression,
        operations: &[Operation],
    ) -> Result<Tested, AllocError> {
        let mut noted = Noted::new(alloc);
        push_tests(first, 0, &mut noted);
        for (number, operation) in operations.iter().enumerate() {
            if joins_tests(operation.operator) {
                push_tests(&operation.operand, number.saturating_add(1), &mut noted);
            }
        }
        let mut tests = noted.whole()?;
        tests.sort_by_key(|test: &Test| (test.variable, test.side))?;
        Ok(Tested { tests })
    }

    /// Whether another side than that of this number compares a variable.
    pub fn is_beside(&self, variable: usize, side: usize) -> bool {
        let from = self.tests.partition_point(|test| test.variable < variable);
        let to = self.tests.partition_point(|test| test.variable <= variable);
        self.is_other(from, variable, side) || self.is_other(to.saturating_sub(1), variable, side)
    }

    /// Whether the test at this place is of a variable, and of another side than that of this number.
    fn is_other(&self, at: usize, variable: usize, side: usize) -> bool {
        match self.tests.get(at) {
            Some(test) => test.variable == variable && test.side != side,
            None => false,
        }
    }
}

/// Adds the variables that an expression compares with something.
#[cycle(testing)]
fn push_tests(e: &Expression, side: usize, tests: &mut Noted<Test>) {
    match e {
        Expression::Parenthesised(_, inner) => push_tests(inner, side, tests),
        Expression::Unary(_, _, operand) => push_tests(operand, side, tests),
        Expression::Chain { first, others } => {
            push_tests(first, side, tests);
            push_tests_in(others, plain_variable(first), side, tests)
        }
        Expression::Number(_)
        | Expression::Text(_, _)
        | Expression::Reference(_)
        | Expression::Location(_)
        | Expression::Embedded(_, _, _) => {}
    }
}

#[cycle(testing)]
fn push_tests_in(
    operations: &[Operation],
    left: Option<usize>,
    side: usize,
    tests: &mut Noted<Test>,
) {
    for operation in operations {
        if is_relation(operation.operator) {
            push_test(left, side, tests);
            push_test(plain_variable(&operation.operand), side, tests);
        }
        push_tests(&operation.operand, side, tests);
    }
}

fn push_test(variable: Option<usize>, side: usize, tests: &mut Noted<Test>) {
    if let Some(variable) = variable {
        tests.add(Test { variable, side });
    }
}
