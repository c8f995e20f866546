//! What texts call, and whether they let interrupts in: by the calls, ENABLE and HALT that stand in them, whatever the types of
//! what stands around them.

ghost use Rattle.std.specs.Prelude.{◌≡◌, ◌++◌, OnOk};
ghost use Rattle.plm_decl.specs.ResolvedView as resolved;
ghost use Rattle.plm_type.specs.Effects as spec;
ghost use Rattle.plm_type.specs.Inner.Effects as inner;

use crate::builtins::is_measure;
use plm_decl::{
    Binding, Bounds, Expression, Location, Operation, Reference, Selector, Statement,
    resolved_trees_have_their_lists,
};
use std::alloc::AllocError;

/// What a text does that matters to interrupt procedures.
#[derive(Clone, Copy)]
pub enum Effect {
    /// It calls a procedure, by its number.
    Calls(usize),
    /// It has ENABLE or HALT.
    Enables,
}

/// Whether what is used so does not evaluate its parts: LENGTH, LAST and SIZE.
fn is_unevaluated(binding: Binding) -> bool
    ensures { result ≡ spec.is_unevaluated binding }
{
    match binding {
        Binding::Builtin(builtin) => is_measure(builtin),
        Binding::Variable(_) | Binding::Procedure(_) | Binding::Nothing => false,
    }
}

#[cycle(effects)]
fn add_expression(e: &Expression, effects: &mut Vec<Effect>) -> Result<(), AllocError>
    ensures { OnOk result (effects.new.items ≡ effects.old.items ++ spec.of_expression (resolved.expression_of e.now)) }
{
    resolved_trees_have_their_lists();
    match e {
        Expression::Number(_) | Expression::Text(_, _) => Ok(()),
        Expression::Reference(reference) => add_value(reference, effects),
        Expression::Location(location) => add_location(location, effects),
        Expression::Parenthesised(_, inner) => add_expression(inner, effects),
        Expression::Embedded(_, target, value) => {
            add_parts(target, effects)?;
            add_expression(value, effects)
        }
        Expression::Unary(_, _, operand) => add_expression(operand, effects),
        Expression::Chain { first, others } => {
            add_expression(first, effects)?;
            add_operations(others, effects)
        }
    }
}

#[cycle(effects)]
fn add_operations(operations: &[Operation], effects: &mut Vec<Effect>) -> Result<(), AllocError>
    ensures { OnOk result (effects.new.items ≡ effects.old.items ++ inner.of_operations operations.now) }
{
    for operation in operations {
        add_expression(&operation.operand, effects)?;
    }
    Ok(())
}

#[cycle(effects)]
fn add_list(es: &[Expression], effects: &mut Vec<Effect>) -> Result<(), AllocError>
    ensures { OnOk result (effects.new.items ≡ effects.old.items ++ spec.of_list (resolved.expressions_of es.now)) }
{
    for e in es {
        add_expression(e, effects)?;
    }
    Ok(())
}

#[cycle(effects)]
fn add_location(location: &Location, effects: &mut Vec<Effect>) -> Result<(), AllocError>
    ensures { OnOk result (effects.new.items ≡ effects.old.items ++ spec.of_location (resolved.location_of location.now)) }
{
    resolved_trees_have_their_lists();
    match location {
        Location::Reference(_, _, reference) => add_parts(reference, effects),
        Location::Constants(_, _, _) => Ok(()),
    }
}

/// A member's subscript.
#[cycle(effects)]
fn add_selector(selector: &Selector, effects: &mut Vec<Effect>) -> Result<(), AllocError>
    ensures { OnOk result (effects.new.items ≡ effects.old.items ++ spec.of_selector (resolved.selector_of selector.now)) }
{
    match selector {
        Selector::None | Selector::Member(_, _) => Ok(()),
        Selector::Element(_, _, subscript) => add_expression(subscript, effects),
    }
}

/// Subscripts or arguments, and a member's subscript.
#[cycle(effects)]
fn add_parts(reference: &Reference, effects: &mut Vec<Effect>) -> Result<(), AllocError>
    ensures { OnOk result (effects.new.items ≡ effects.old.items ++ spec.of_parts (resolved.reference_of reference.now)) }
{
    if is_unevaluated(reference.binding) {
        return Ok(());
    }
    add_list(&reference.subscripts, effects)?;
    add_selector(&reference.selector, effects)
}

/// A reference whose value is wanted: of a procedure, it calls it.
#[cycle(effects)]
fn add_value(reference: &Reference, effects: &mut Vec<Effect>) -> Result<(), AllocError>
    ensures { OnOk result (effects.new.items ≡ effects.old.items ++ spec.of_value (resolved.reference_of reference.now)) }
{
    match reference.binding {
        Binding::Procedure(number) => {
            effects.push(Effect::Calls(number))?;
            add_parts(reference, effects)
        }
        Binding::Variable(_) | Binding::Builtin(_) | Binding::Nothing => {
            add_parts(reference, effects)
        }
    }
}

fn add_targets(targets: &[Reference], effects: &mut Vec<Effect>) -> Result<(), AllocError>
    ensures { OnOk result (effects.new.items ≡ effects.old.items ++ spec.of_targets (resolved.references_of targets.now)) }
{
    for target in targets {
        add_parts(target, effects)?;
    }
    Ok(())
}

fn add_step(step: &Option<Expression>, effects: &mut Vec<Effect>) -> Result<(), AllocError>
    ensures { OnOk result (effects.new.items ≡ effects.old.items ++ spec.of_step (resolved.step_of step.now)) }
{
    match step {
        None => Ok(()),
        Some(step) => add_expression(step, effects),
    }
}

fn add_bounds(bounds: &Bounds, effects: &mut Vec<Effect>) -> Result<(), AllocError>
    ensures { OnOk result (effects.new.items ≡ effects.old.items ++ (spec.of_expression (resolved.expression_of bounds.now.from) ++ (spec.of_expression (resolved.expression_of bounds.now.to) ++ spec.of_step (resolved.step_of bounds.now.step)))) }
{
    add_expression(&bounds.from, effects)?;
    add_expression(&bounds.to, effects)?;
    add_step(&bounds.step, effects)
}

#[cycle(statement_effects)]
fn add_statement(statement: &Statement, effects: &mut Vec<Effect>) -> Result<(), AllocError>
    ensures { OnOk result (effects.new.items ≡ effects.old.items ++ spec.of_statement (resolved.statement_of statement.now)) }
{
    resolved_trees_have_their_lists();
    match statement {
        Statement::Assign(targets, value) => {
            add_targets(targets, effects)?;
            add_expression(value, effects)
        }
        Statement::Call(_, reference) => add_value(reference, effects),
        Statement::ReturnValue(_, value) => add_expression(value, effects),
        Statement::Enable(_) | Statement::Halt(_) => {
            effects.push(Effect::Enables)?;
            Ok(())
        }
        Statement::If(_, test, then) => {
            add_expression(test, effects)?;
            add_statement(then, effects)
        }
        Statement::IfElse(_, test, then, other) => {
            add_expression(test, effects)?;
            add_statement(then, effects)?;
            add_statement(other, effects)
        }
        Statement::Do(_, body) => add_statements(body, effects),
        Statement::While(_, test, body) => {
            add_expression(test, effects)?;
            add_statements(body, effects)
        }
        Statement::Case(_, value, cases) => {
            add_expression(value, effects)?;
            add_statements(cases, effects)
        }
        Statement::Iterate(_, _, bounds, body) => {
            add_bounds(bounds, effects)?;
            add_statements(body, effects)
        }
        Statement::Empty(_) | Statement::Return(_) | Statement::Disable(_) => Ok(()),
    }
}

/// What these statements do, added after the rest.
#[cycle(statement_effects)]
pub fn add_statements(statements: &[Statement], effects: &mut Vec<Effect>) -> Result<(), AllocError>
    ensures { OnOk result (effects.new.items ≡ effects.old.items ++ spec.of_statements (resolved.statements_of statements.now)) }
{
    for statement in statements {
        add_statement(statement, effects)?;
    }
    Ok(())
}
