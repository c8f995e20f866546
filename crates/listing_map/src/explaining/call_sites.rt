//! Where texts call procedures, and where they let interrupts in: by the calls, ENABLE and HALT that stand in them, in the order of the text.

use crate::noted::Noted;
use plm_decl::{Binding, Bounds, Expression, Location, Operation, Reference, Selector, Statement};
use plm_syntax::Position;
use plm_type::is_measure;

/// What a text does.
#[derive(Clone, Copy)]
pub(crate) enum Effect {
    /// It calls a procedure, by its number.
    Calls(usize),
    /// It has ENABLE or HALT.
    LetsIn,
}

/// What a text does, and the token that does it.
#[derive(Clone, Copy)]
pub(crate) struct Site {
    pub effect: Effect,
    pub place: Position,
}

/// Whether what is used so does not evaluate its parts: LENGTH, LAST and SIZE.
fn is_unevaluated(binding: Binding) -> bool {
    match binding {
        Binding::Builtin(builtin) => is_measure(builtin),
        Binding::Variable(_) | Binding::Procedure(_) | Binding::Nothing => false,
    }
}

#[cycle(sites)]
fn add_expression(e: &Expression, sites: &mut Noted<Site>) {
    match e {
        Expression::Number(_) | Expression::Text(_, _) => {}
        Expression::Reference(reference) => add_value(reference, sites),
        Expression::Location(location) => add_location(location, sites),
        Expression::Parenthesised(_, inner) => add_expression(inner, sites),
        Expression::Embedded(_, target, value) => {
            add_parts(target, sites);
            add_expression(value, sites)
        }
        Expression::Unary(_, _, operand) => add_expression(operand, sites),
        Expression::Chain { first, others } => {
            add_expression(first, sites);
            add_operations(others, sites)
        }
    }
}

#[cycle(sites)]
fn add_operations(operations: &[Operation], sites: &mut Noted<Site>) {
    for operation in operations {
        add_expression(&operation.operand, sites);
    }
}

#[cycle(sites)]
fn add_list(es: &[Expression], sites: &mut Noted<Site>) {
    for e in es {
        add_expression(e, sites);
    }
}

#[cycle(sites)]
fn add_location(location: &Location, sites: &mut Noted<Site>) {
    match location {
        Location::Reference(_, _, reference) => add_parts(reference, sites),
        Location::Constants(_, _, _) => {}
    }
}

/// Subscripts or arguments, and a member's subscript.
#[cycle(sites)]
fn add_parts(reference: &Reference, sites: &mut Noted<Site>) {
    if is_unevaluated(reference.binding) {
        return;
    }
    add_list(&reference.subscripts, sites);
    match &reference.selector {
        Selector::None | Selector::Member(_, _) => {}
        Selector::Element(_, _, subscript) => add_expression(subscript, sites),
    }
}

/// A reference whose value is wanted: of a procedure, it calls it.
#[cycle(sites)]
fn add_value(reference: &Reference, sites: &mut Noted<Site>) {
    match reference.binding {
        Binding::Procedure(number) => {
            sites.add(Site {
                effect: Effect::Calls(number),
                place: reference.place,
            });
            add_parts(reference, sites)
        }
        Binding::Variable(_) | Binding::Builtin(_) | Binding::Nothing => {
            add_parts(reference, sites)
        }
    }
}

fn add_targets(targets: &[Reference], sites: &mut Noted<Site>) {
    for target in targets {
        add_parts(target, sites);
    }
}

fn add_bounds(bounds: &Bounds, sites: &mut Noted<Site>) {
    add_expression(&bounds.from, sites);
    add_expression(&bounds.to, sites);
    match &bounds.step {
        Some(step) => add_expression(step, sites),
        None => {}
    }
}

fn add_letting_in(place: Position, sites: &mut Noted<Site>) {
    sites.add(Site {
        effect: Effect::LetsIn,
        place,
    });
}

#[cycle(statement_sites)]
fn add_statement(statement: &Statement, sites: &mut Noted<Site>) {
    match statement {
        Statement::Assign(targets, value) => {
            add_targets(targets, sites);
            add_expression(value, sites)
        }
        Statement::Call(_, reference) => add_value(reference, sites),
        Statement::ReturnValue(_, value) => add_expression(value, sites),
        Statement::Enable(place) | Statement::Halt(place) => add_letting_in(*place, sites),
        Statement::If(_, test, then) => {
            add_expression(test, sites);
            add_statement(then, sites)
        }
        Statement::IfElse(_, test, then, other) => {
            add_expression(test, sites);
            add_statement(then, sites);
            add_statement(other, sites)
        }
        Statement::Do(_, body) => add_statements(body, sites),
        Statement::While(_, test, body) | Statement::Case(_, test, body) => {
            add_expression(test, sites);
            add_statements(body, sites)
        }
        Statement::Iterate(_, _, bounds, body) => {
            add_bounds(bounds, sites);
            add_statements(body, sites)
        }
        Statement::Empty(_) | Statement::Return(_) | Statement::Disable(_) => {}
    }
}

/// Adds what these statements do.
#[cycle(statement_sites)]
pub(crate) fn add_statements(statements: &[Statement], sites: &mut Noted<Site>) {
    for statement in statements {
        add_statement(statement, sites);
    }
}
