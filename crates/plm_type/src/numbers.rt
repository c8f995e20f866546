//! Number expressions: what has numbers as its only operands. Beside an INTEGER, and where one is wanted, it is INTEGER throughout.

ghost use Rattle.std.specs.Prelude.{◌≡◌};
ghost use Rattle.plm_type.specs.Numbers as spec;
ghost use Rattle.plm_type.specs.Inner.Turned.{operations_of, all_turned};
ghost use Rattle.plm_type.specs.View as view;

use crate::program::{Expression, Operation};
use crate::types::{is_bitwise, is_integer, is_relation, with_sign};
use plm_decl::ScalarType;
use plm_syntax::{BinaryOperator, Position, UnaryOperator};
use word86::Width;

/// The numbers of an expression.
#[derive(Clone, Copy)]
pub enum Numbers {
    /// It has other operands than numbers.
    Other,
    /// A number expression, whose numbers an INTEGER can have.
    Fits,
    /// 32,768 alone, which an INTEGER can have directly after a minus.
    Least(Position),
    /// A number expression, and the first number that no INTEGER can have.
    Beyond(Position),
}

impl Numbers {
    /// Those of one number.
    pub fn of(value: u64, place: Position) -> Numbers
        ensures { result ≡ spec.of_number value place }
    {
        if value <= 32_767 {
            Numbers::Fits
        } else if value == 32_768 {
            Numbers::Least(place)
        } else {
            Numbers::Beyond(place)
        }
    }

    /// Of an operand that stands not directly after a minus.
    pub fn settled(self) -> Numbers
        ensures { result ≡ spec.settled self }
    {
        match self {
            Numbers::Other => Numbers::Other,
            Numbers::Fits => Numbers::Fits,
            Numbers::Least(place) | Numbers::Beyond(place) => Numbers::Beyond(place),
        }
    }

    fn after_minus(self) -> Numbers
        ensures { result ≡ spec.after_minus self }
    {
        match self {
            Numbers::Other => Numbers::Other,
            Numbers::Fits | Numbers::Least(_) => Numbers::Fits,
            Numbers::Beyond(place) => Numbers::Beyond(place),
        }
    }

    /// Of a unary operator with its operand.
    pub fn signed_by(self, operator: UnaryOperator) -> Numbers
        ensures { result ≡ spec.signed_by operator self }
    {
        match operator {
            UnaryOperator::Minus => self.after_minus(),
            UnaryOperator::Plus => self.settled(),
            UnaryOperator::Not => Numbers::Other,
        }
    }

    fn are_of_expression(self) -> bool
        ensures { result ≡ spec.is_number_expression self }
    {
        match self {
            Numbers::Other => false,
            Numbers::Fits | Numbers::Least(_) | Numbers::Beyond(_) => true,
        }
    }

    /// Whether it is a number expression, and an INTEGER can have its numbers.
    pub fn fit(self) -> bool
        ensures { result ≡ spec.fits self }
    {
        match self {
            Numbers::Fits => true,
            Numbers::Other | Numbers::Least(_) | Numbers::Beyond(_) => false,
        }
    }

    /// Whether the expression turns INTEGER where a value of this type is wanted.
    pub fn turn(self, scalar: Option<ScalarType>) -> bool
        ensures { result ≡ spec.turns scalar self }
    {
        is_integer(scalar) && self.are_of_expression()
    }

    fn joined(self, right: Numbers) -> Numbers
        ensures { result ≡ spec.joined self right }
    {
        match self {
            Numbers::Other => Numbers::Other,
            Numbers::Fits => right,
            Numbers::Least(_) | Numbers::Beyond(_) => {
                if right.are_of_expression() {
                    self
                } else {
                    Numbers::Other
                }
            }
        }
    }

    /// Of an operator between two operands.
    pub fn with_operator(self, operator: BinaryOperator, right: Numbers) -> Numbers
        ensures { result ≡ spec.both_numbers operator self right }
    {
        if is_bitwise(operator) || is_relation(operator) {
            Numbers::Other
        } else {
            self.settled().joined(right.settled())
        }
    }
}

/// Turns a number expression INTEGER.
#[cycle(turn)]
pub fn as_integer(e: &mut Expression)
    ensures { view.expression_of e.new ≡ spec.integer_of (view.expression_of e.old) }
{
    match e {
        Expression::Unary(_, width, operand) => {
            *width = Width::Word;
            as_integer(operand);
        }
        Expression::Chain(first, others) => {
            as_integer(first);
            all_as_integer(others);
        }
        Expression::Constant(_)
        | Expression::Plain(_, _)
        | Expression::Variable(_, _)
        | Expression::Location(_)
        | Expression::Embedded(_, _)
        | Expression::Input(_, _)
        | Expression::Call(_, _) => {}
    }
}

#[cycle(turn)]
fn all_as_integer(operations: &mut [Operation])
    ensures { operations_of operations.new ≡ all_turned (operations_of operations.old) }
{
    for operation in operations {
        operation.width = Width::Word;
        operation.operation = with_sign(operation.operation);
        as_integer(&mut operation.operand);
    }
}
