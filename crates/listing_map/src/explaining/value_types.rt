//! The types of expressions, as far as a sentence about a fault wants them.

use crate::explaining::reason::Type;
use crate::explaining::references::{reference_of, variable_of};
use plm_decl::{Binding, Builtin, Expression, Location, Names, Operation, Reference};
use plm_syntax::{BinaryOperator, Numeral, Position, UnaryOperator};
use plm_type::{
    Numbers, binary_type, builtin_type, designated, is_bitwise, is_measure, is_target,
    location_type, measure, number_type, port_type, text_type, unary_type, variable_type,
};

/// The names by which expressions are typed.
#[derive(Clone, Copy)]
pub(crate) struct Types<'n> {
    pub names: &'n Names,
}

/// What is known of an expression: its type, and its numbers.
#[derive(Clone, Copy)]
pub(crate) struct Typed {
    pub scalar: Type,
    pub numbers: Numbers,
}

impl Typed {
    /// Of what has other operands than numbers.
    pub fn of(scalar: Type) -> Typed {
        Typed {
            scalar,
            numbers: Numbers::Other,
        }
    }

    fn of_number(number: Numeral) -> Typed {
        let value = u64::from(number.value);
        Typed {
            scalar: number_type(value),
            numbers: Numbers::of(value, number.place),
        }
    }

    /// The first number that no INTEGER can have, where it turns INTEGER.
    pub fn misfit(self, into: Type) -> Option<Position> {
        if !self.numbers.turn(into) {
            return None;
        }
        match self.numbers {
            Numbers::Other | Numbers::Fits => None,
            Numbers::Least(place) | Numbers::Beyond(place) => Some(place),
        }
    }

    /// The value where one of this type is wanted.
    pub fn wanted(self, into: Type) -> Typed {
        if !self.numbers.turn(into) {
            return self;
        }
        Typed::of(if self.numbers.fit() { into } else { None })
    }

    fn parenthesised(self) -> Typed {
        Typed {
            scalar: self.scalar,
            numbers: self.numbers.settled(),
        }
    }

    fn signed_by(self, operator: UnaryOperator) -> Typed {
        Typed {
            scalar: unary_type(operator, self.scalar),
            numbers: self.numbers.signed_by(operator),
        }
    }
}

/// What is wanted beside an operand of this type: AND, OR and XOR turn none INTEGER.
pub(crate) fn beside(operator: BinaryOperator, other: Type) -> Type {
    if is_bitwise(operator) { None } else { other }
}

/// The operands of an operator, each where one is wanted beside the other.
pub(crate) fn paired(operator: BinaryOperator, left: Typed, right: Typed) -> (Typed, Typed) {
    (
        left.wanted(beside(operator, right.scalar)),
        right.wanted(beside(operator, left.scalar)),
    )
}

fn operated(operator: BinaryOperator, left: Typed, right: Typed) -> Typed {
    let (one, other) = paired(operator, left, right);
    Typed {
        scalar: binary_type(operator, one.scalar, other.scalar),
        numbers: left.numbers.with_operator(operator, right.numbers),
    }
}

impl Types<'_> {
    /// The type of a variable.
    pub fn variable_type(&self, number: usize) -> Type {
        variable_type(self.names.variables.get(number).copied())
    }

    /// The type of a procedure's value.
    fn procedure_type(&self, number: usize) -> Type {
        self.names.procedures.get(number)?.returned
    }

    /// The type of LENGTH, LAST or SIZE of these arguments.
    fn measure(&self, builtin: Builtin, arguments: &[Expression]) -> Type {
        let [argument] = arguments else {
            return None;
        };
        let reference = reference_of(argument)?;
        let variable = *self.names.variables.get(variable_of(reference.binding)?)?;
        let count = reference.subscripts.len();
        number_type(measure(builtin, Some(variable), count, &reference.selector))
    }

    /// The type of an expression.
    pub fn expression(&self, e: &Expression) -> Type {
        self.typed(e).scalar
    }

    /// What is known of an expression.
    #[cycle(typing)]
    pub fn typed(&self, e: &Expression) -> Typed {
        match e {
            Expression::Number(number) => Typed::of_number(*number),
            Expression::Text(_, text) => Typed::of(text_type(text)),
            Expression::Reference(reference) => Typed::of(self.value(reference)),
            Expression::Location(location) => match location {
                Location::Reference(_, form, _) | Location::Constants(_, form, _) => {
                    Typed::of(Some(location_type(*form)))
                }
            },
            Expression::Parenthesised(_, inner) => self.typed(inner).parenthesised(),
            Expression::Embedded(_, target, value) => {
                let into = self.value(target);
                Typed::of(self.typed(value).wanted(into).scalar)
            }
            Expression::Unary(_, operator, operand) => self.typed(operand).signed_by(*operator),
            Expression::Chain { first, others } => {
                let left = self.typed(first);
                self.operations(others, left)
            }
        }
    }

    /// What is known of operators with their right operands, after such a left one.
    #[cycle(typing)]
    fn operations(&self, operations: &[Operation], left: Typed) -> Typed {
        let mut value = left;
        for operation in operations {
            value = self.operation(operation, value);
        }
        value
    }

    /// What is known of an operator with its right operand, after such a left one.
    #[cycle(typing)]
    pub fn operation(&self, operation: &Operation, left: Typed) -> Typed {
        operated(operation.operator, left, self.typed(&operation.operand))
    }

    /// The type of a reference as a value.
    #[cycle(typing)]
    pub fn value(&self, reference: &Reference) -> Type {
        match reference.binding {
            Binding::Variable(number) => {
                let variable = self.names.variables.get(number)?;
                designated(variable, &reference.selector)
            }
            Binding::Procedure(number) => self.procedure_type(number),
            Binding::Builtin(builtin) => self.builtin(builtin, &reference.subscripts),
            Binding::Nothing => None,
        }
    }

    /// The type of a built-in's value, and of a port as a target. LENGTH, LAST and SIZE have that of their number.
    #[cycle(typing)]
    fn builtin(&self, builtin: Builtin, arguments: &[Expression]) -> Type {
        if is_measure(builtin) {
            return self.measure(builtin, arguments);
        }
        if is_target(builtin) {
            return port_type(builtin);
        }
        match arguments {
            [] => builtin_type(builtin, &[]),
            [first, ..] => builtin_type(builtin, &[self.typed(first).scalar]),
        }
    }
}
