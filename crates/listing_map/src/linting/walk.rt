//! What is found in expressions and statements.

use crate::explaining::references::variable_of;
use crate::explaining::value_types::{Typed, Types};
use crate::linting::constants::{
    Constant, condition, constant_value, integer_value, may_be_selected, selected,
};
use crate::linting::guards::{Tested, array_read, joining, joins_tests};
use crate::linting::outside::outside;
use crate::linting::{Finding, Found};
use crate::noted::Noted;
use plm_decl::{
    Binding, Bounds, Expression, Location, Names, Operation, Reference, ScalarType, Selector,
    Statement,
};
use plm_syntax::{BinaryOperator, Position};
use plm_type::{is_integer, is_measure};
use std::alloc::{AllocError, Global};

/// Where findings are looked for: the names, and the module that statements are of.
#[derive(Clone, Copy)]
struct Walk<'n> {
    alloc: Global,
    types: Types<'n>,
    module: usize,
}

fn is_division(operator: BinaryOperator) -> bool {
    match operator {
        BinaryOperator::Divide | BinaryOperator::Modulo => true,
        BinaryOperator::Multiply
        | BinaryOperator::Add
        | BinaryOperator::Subtract
        | BinaryOperator::Equal
        | BinaryOperator::NotEqual
        | BinaryOperator::Less
        | BinaryOperator::LessEqual
        | BinaryOperator::Greater
        | BinaryOperator::GreaterEqual
        | BinaryOperator::And
        | BinaryOperator::Or
        | BinaryOperator::ExclusiveOr => false,
    }
}

/// The token of what a target stores to: its member's, if it has one.
fn held_at(target: &Reference) -> Position {
    match &target.selector {
        Selector::None => target.place,
        Selector::Member(place, _) | Selector::Element(place, _, _) => *place,
    }
}

/// The least and the greatest value of a type.
#[derive(Clone, Copy)]
struct Span {
    least: i64,
    greatest: i64,
}

/// The values of a type; none of a POINTER or of what has no type.
fn values_of(scalar: Option<ScalarType>) -> Option<Span> {
    match scalar {
        Some(ScalarType::Byte) => Some(Span {
            least: 0,
            greatest: 0xFF,
        }),
        Some(ScalarType::Word) => Some(Span {
            least: 0,
            greatest: 0xFFFF,
        }),
        Some(ScalarType::Integer) => Some(Span {
            least: -0x8000,
            greatest: 0x7FFF,
        }),
        Some(ScalarType::Pointer) | None => None,
    }
}

/// Whether no value among these stands in this relation to a constant on its right.
fn is_never(operator: BinaryOperator, among: Span, value: i64) -> bool {
    match operator {
        BinaryOperator::Equal => value < among.least || value > among.greatest,
        BinaryOperator::GreaterEqual => value > among.greatest,
        BinaryOperator::Greater => value >= among.greatest,
        BinaryOperator::Less => value <= among.least,
        BinaryOperator::LessEqual => value < among.least,
        BinaryOperator::NotEqual
        | BinaryOperator::Multiply
        | BinaryOperator::Divide
        | BinaryOperator::Modulo
        | BinaryOperator::Add
        | BinaryOperator::Subtract
        | BinaryOperator::And
        | BinaryOperator::Or
        | BinaryOperator::ExclusiveOr => false,
    }
}

/// The value of a constant on the right of an operator, beside an operand of this type.
fn value_beside(left: Option<ScalarType>, e: &Expression) -> Option<i64> {
    if is_integer(left) {
        return Some(i64::from(integer_value(e)?));
    }
    Some(i64::from(constant_value(e)?.value))
}

/// Whether a divisor is 0. Where numbers alone stand, they may be INTEGERs throughout: it is 0 as such, too.
fn is_zero(left: Typed, divisor: &Expression) -> bool {
    let may_turn = left.numbers.turn(Some(ScalarType::Integer));
    if may_turn && integer_value(divisor) != Some(0) {
        return false;
    }
    value_beside(left.scalar, divisor) == Some(0)
}

impl Walk<'_> {
    /// Adds what is found at a token, if something is.
    fn add(&self, place: Position, finding: Option<Finding>, found: &mut Noted<Found>) {
        if let Some(finding) = finding {
            found.add(Found {
                module: self.module,
                place: place.token as usize,
                finding,
            });
        }
    }

    /// A constant subscript by which an access leaves the bytes of its name.
    fn access(&self, reference: &Reference, found: &mut Noted<Found>) {
        let Some(number) = variable_of(reference.binding) else {
            return;
        };
        let Some(variable) = self.types.names.variables.get(number) else {
            return;
        };
        match outside(variable, reference) {
            Some((place, finding)) => self.add(place, Some(finding), found),
            None => {}
        }
    }

    /// A division by zero, or a comparison that is never true.
    fn operator(&self, left: Typed, operation: &Operation, found: &mut Noted<Found>) {
        let Some(right) = value_beside(left.scalar, &operation.operand) else {
            return;
        };
        if is_division(operation.operator) && is_zero(left, &operation.operand) {
            self.add(operation.place, Some(Finding::ZeroDivisor), found);
        }
        let is_never = match values_of(left.scalar) {
            Some(among) => is_never(operation.operator, among, right),
            None => false,
        };
        let finding = if is_integer(left.scalar) {
            Finding::NeverTrueWithSign
        } else {
            Finding::NeverTrue
        };
        self.add(operation.place, is_never.then_some(finding), found)
    }

    /// An array that the side of this number reads, if another side of AND or OR tests its subscript.
    fn guard(
        &self,
        e: &Expression,
        side: usize,
        operator: BinaryOperator,
        tested: &Tested,
        found: &mut Noted<Found>,
    ) {
        let Some(read) = array_read(e, self.types.names) else {
            return;
        };
        if tested.is_beside(read.subscript, side) {
            found.add(Found {
                module: self.module,
                place: read.place,
                finding: Finding::Unguarded(operator),
            });
        }
    }

    /// The arrays that sides of AND or OR read, whose subscripts other sides test.
    fn guards(&self, first: &Expression, operations: &[Operation], found: &mut Noted<Found>) {
        let Some(operator) = joining(operations) else {
            return;
        };
        match Tested::of(self.alloc, first, operations) {
            Ok(tested) => self.guards_of(operator, first, operations, &tested, found),
            Err(AllocError) => found.lack(),
        }
    }

    /// The same, by this operator and where these sides are tested.
    fn guards_of(
        &self,
        operator: BinaryOperator,
        first: &Expression,
        operations: &[Operation],
        tested: &Tested,
        found: &mut Noted<Found>,
    ) {
        self.guard(first, 0, operator, tested, found);
        for (number, operation) in operations.iter().enumerate() {
            if joins_tests(operation.operator) {
                let side = number.saturating_add(1);
                self.guard(&operation.operand, side, operator, tested, found);
            }
        }
    }

    /// A constant that its target does not hold.
    fn store(&self, target: &Reference, value: Option<Constant>, found: &mut Noted<Found>) {
        let is_byte = self.types.value(target) == Some(ScalarType::Byte);
        let finding = match value {
            Some(value) if is_byte && value.value > 0xFF => Some(Finding::TooLarge(value.value)),
            Some(_) | None => None,
        };
        self.add(held_at(target), finding, found)
    }

    #[cycle(linting)]
    fn expression(&self, e: &Expression, found: &mut Noted<Found>) {
        match e {
            Expression::Number(_) | Expression::Text(_, _) => {}
            Expression::Reference(reference) => self.reference(reference, found),
            Expression::Location(location) => self.location(location, found),
            Expression::Parenthesised(_, inner) => self.expression(inner, found),
            Expression::Embedded(_, target, value) => {
                self.reference(target, found);
                self.expression(value, found);
                self.store(target, constant_value(value), found)
            }
            Expression::Unary(_, _, operand) => self.expression(operand, found),
            Expression::Chain { first, others } => {
                self.expression(first, found);
                let left = self.types.typed(first);
                self.operations(others, left, found);
                self.guards(first, others, found)
            }
        }
    }

    /// What is found in operators with their right operands, after such a first one.
    #[cycle(linting)]
    fn operations(&self, operations: &[Operation], left: Typed, found: &mut Noted<Found>) {
        let mut value = left;
        for operation in operations {
            self.expression(&operation.operand, found);
            self.operator(value, operation, found);
            value = self.types.operation(operation, value);
        }
    }

    #[cycle(linting)]
    fn list(&self, es: &[Expression], found: &mut Noted<Found>) {
        for e in es {
            self.expression(e, found);
        }
    }

    /// What is found in a reference that is evaluated: LENGTH, LAST and SIZE evaluate none.
    #[cycle(linting)]
    fn reference(&self, reference: &Reference, found: &mut Noted<Found>) {
        let is_measured = match reference.binding {
            Binding::Builtin(builtin) => is_measure(builtin),
            Binding::Variable(_) | Binding::Procedure(_) | Binding::Nothing => false,
        };
        if is_measured {
            return;
        }
        self.access(reference, found);
        self.parts(reference, found)
    }

    /// What is found in the subscripts or arguments of a reference, and in its member's subscript.
    #[cycle(linting)]
    fn parts(&self, reference: &Reference, found: &mut Noted<Found>) {
        self.list(&reference.subscripts, found);
        match &reference.selector {
            Selector::None | Selector::Member(_, _) => {}
            Selector::Element(_, _, subscript) => self.expression(subscript, found),
        }
    }

    /// A location makes no access.
    #[cycle(linting)]
    fn location(&self, location: &Location, found: &mut Noted<Found>) {
        match location {
            Location::Reference(_, _, reference) => self.parts(reference, found),
            Location::Constants(_, _, _) => {}
        }
    }

    fn assignment(&self, targets: &[Reference], value: &Expression, found: &mut Noted<Found>) {
        let kept = constant_value(value);
        for target in targets {
            self.reference(target, found);
            self.store(target, kept, found);
        }
        self.expression(value, found)
    }

    fn bounds(&self, bounds: &Bounds, found: &mut Noted<Found>) {
        self.expression(&bounds.from, found);
        self.expression(&bounds.to, found);
        match &bounds.step {
            Some(step) => self.expression(step, found),
            None => {}
        }
    }

    #[cycle(linting_statement)]
    fn statement(&self, statement: &Statement, found: &mut Noted<Found>) {
        match statement {
            Statement::Empty(_)
            | Statement::Return(_)
            | Statement::Enable(_)
            | Statement::Disable(_)
            | Statement::Halt(_) => {}
            Statement::Assign(targets, value) => self.assignment(targets, value, found),
            Statement::Call(_, reference) => self.reference(reference, found),
            Statement::ReturnValue(_, value) => self.expression(value, found),
            Statement::If(_, test, then) => {
                self.expression(test, found);
                self.arm(then, condition(test) != Some(false), found)
            }
            Statement::IfElse(_, test, then, other) => {
                self.expression(test, found);
                self.arm(then, condition(test) != Some(false), found);
                self.arm(other, condition(test) != Some(true), found)
            }
            Statement::Do(_, body) => self.statements(body, found),
            Statement::While(_, test, body) => {
                self.expression(test, found);
                match condition(test) {
                    Some(false) => {}
                    Some(true) | None => self.statements(body, found),
                }
            }
            Statement::Case(_, selector, cases) => {
                self.expression(selector, found);
                self.cases(cases, selected(selector), found)
            }
            Statement::Iterate(_, _, bounds, body) => {
                self.bounds(bounds, found);
                self.statements(body, found)
            }
        }
    }

    /// An arm of IF, where its condition may lead to it.
    #[cycle(linting_statement)]
    fn arm(&self, statement: &Statement, is_come_to: bool, found: &mut Noted<Found>) {
        if is_come_to {
            self.statement(statement, found);
        }
    }

    /// The cases that may be selected.
    #[cycle(linting_statement)]
    fn cases(&self, cases: &[Statement], selected: Option<usize>, found: &mut Noted<Found>) {
        for (number, case) in cases.iter().enumerate() {
            self.arm(case, may_be_selected(selected, number), found);
        }
    }

    #[cycle(linting_statement)]
    fn statements(&self, statements: &[Statement], found: &mut Noted<Found>) {
        for statement in statements {
            self.statement(statement, found);
        }
    }
}

/// Adds what is found in the bodies of all procedures, and in main.
pub(crate) fn add_walked(alloc: Global, names: &Names, found: &mut Noted<Found>) {
    let types = Types { names };
    for procedure in &names.procedures {
        let walk = Walk {
            alloc,
            types,
            module: procedure.module,
        };
        walk.statements(&procedure.body, found);
    }
    let walk = Walk {
        alloc,
        types,
        module: names.main.module,
    };
    walk.statements(&names.main.statements, found)
}
