//! Which procedures a body calls, by the calls that stand in its typed tree.

ghost use Rattle.std.specs.Prelude.{◌≡◌, ◌++◌, IfOk, OnOk, map};
ghost use Rattle.plm_type.specs.Calls as spec;
ghost use Rattle.plm_type.specs.Inner.Calls as inner;
ghost use Rattle.plm_type.specs.Inner.Reach.{rows};
ghost use Rattle.plm_type.specs.View as view;

use crate::program::{Expression, Loop, Operation, Procedure, Reference, Statement, Target};
use std::alloc::{AllocError, Global};

#[cycle(calls)]
fn add_calls(e: &Expression, called: &mut Vec<usize>) -> Result<(), AllocError>
    ensures { OnOk result (called.new.items ≡ called.old.items ++ spec.calls_in (view.expression_of e.now)) }
{
    match e {
        Expression::Constant(_) | Expression::Plain(_, _) => Ok(()),
        Expression::Variable(_, reference) | Expression::Location(reference) => {
            add_reference(reference, called)
        }
        Expression::Unary(_, _, operand) => add_calls(operand, called),
        Expression::Chain(first, others) => {
            add_calls(first, called)?;
            add_operations(others, called)
        }
        Expression::Embedded(target, value) => {
            add_calls(value, called)?;
            add_target(target, called)
        }
        Expression::Input(_, port) => add_calls(port, called),
        Expression::Call(procedure, arguments) => {
            called.push(*procedure)?;
            add_arguments(arguments, called)
        }
    }
}

#[cycle(calls)]
fn add_operations(operations: &[Operation], called: &mut Vec<usize>) -> Result<(), AllocError>
    ensures { OnOk result (called.new.items ≡ called.old.items ++ inner.operation_calls operations.now) }
{
    for operation in operations {
        add_calls(&operation.operand, called)?;
    }
    Ok(())
}

#[cycle(calls)]
fn add_arguments(arguments: &[Expression], called: &mut Vec<usize>) -> Result<(), AllocError>
    ensures { OnOk result (called.new.items ≡ called.old.items ++ spec.argument_calls (view.expressions_of arguments.now)) }
{
    for argument in arguments {
        add_calls(argument, called)?;
    }
    Ok(())
}

#[cycle(calls)]
fn add_reference(reference: &Reference, called: &mut Vec<usize>) -> Result<(), AllocError>
    ensures { OnOk result (called.new.items ≡ called.old.items ++ spec.reference_calls (view.reference_of reference.now)) }
{
    for subscript in &reference.subscripts {
        add_calls(&subscript.index, called)?;
    }
    Ok(())
}

#[cycle(calls)]
fn add_target(target: &Target, called: &mut Vec<usize>) -> Result<(), AllocError>
    ensures { OnOk result (called.new.items ≡ called.old.items ++ spec.target_calls (view.target_of target.now)) }
{
    match target {
        Target::Plain(_, _) => Ok(()),
        Target::Variable(_, reference) => add_reference(reference, called),
        Target::Port(_, port) => add_calls(port, called),
    }
}

fn add_targets(targets: &[Target], called: &mut Vec<usize>) -> Result<(), AllocError>
    ensures { OnOk result (called.new.items ≡ called.old.items ++ inner.all_target_calls (map view.target_of targets.now)) }
{
    for target in targets {
        add_target(target, called)?;
    }
    Ok(())
}

fn add_assignment(
    first: &Target,
    others: &[Target],
    value: &Expression,
    called: &mut Vec<usize>,
) -> Result<(), AllocError>
    ensures { OnOk result (called.new.items ≡ called.old.items ++ (spec.calls_in (view.expression_of value.now) ++ spec.targets_calls (view.targets_of (view.target_of first.now) others.now))) }
{
    add_calls(value, called)?;
    add_target(first, called)?;
    add_targets(others, called)
}

#[cycle(statement_calls)]
fn add_statement(statement: &Statement, called: &mut Vec<usize>) -> Result<(), AllocError>
    ensures { OnOk result (called.new.items ≡ called.old.items ++ spec.statement_calls (view.statement_of statement.now)) }
{
    match statement {
        Statement::Assign(first, others, value) => add_assignment(first, others, value, called),
        Statement::Evaluate(value) | Statement::ReturnValue(_, value) => add_calls(value, called),
        Statement::If(test, then, other) => {
            add_calls(test, called)?;
            add_statements(then, called)?;
            add_statements(other, called)
        }
        Statement::Block(body) => add_statements(body, called),
        Statement::While(test, body) => {
            add_calls(test, called)?;
            add_statements(body, called)
        }
        Statement::Case(value, cases) => {
            add_calls(value, called)?;
            add_statements(cases, called)
        }
        Statement::Iterate(first, rounds) => {
            add_calls(first, called)?;
            add_rounds(rounds, called)
        }
        Statement::Empty
        | Statement::Return
        | Statement::Enable
        | Statement::Disable
        | Statement::Halt => Ok(()),
    }
}

#[cycle(statement_calls)]
fn add_rounds(rounds: &Loop, called: &mut Vec<usize>) -> Result<(), AllocError>
    ensures { OnOk result (called.new.items ≡ called.old.items ++ spec.loop_calls (view.loop_of rounds.now)) }
{
    add_calls(&rounds.bound, called)?;
    add_calls(&rounds.step, called)?;
    add_statements(&rounds.body, called)
}

#[cycle(statement_calls)]
pub fn add_statements(
    statements: &[Box<Statement>],
    called: &mut Vec<usize>,
) -> Result<(), AllocError>
    ensures { OnOk result (called.new.items ≡ called.old.items ++ spec.statements_calls (view.statements_of statements.now)) }
{
    for statement in statements {
        add_statement(statement, called)?;
    }
    Ok(())
}

/// Whom each procedure calls.
pub fn call_graph(alloc: Global, procedures: &[Procedure]) -> Result<Vec<Vec<usize>>, AllocError>
    ensures { IfOk result (λ graph. rows graph.items ≡ spec.graph_of (map view.procedure_of procedures.now)) }
{
    let mut graph = Vec::new(alloc);
    for procedure in procedures {
        let mut called = Vec::new(alloc);
        add_statements(&procedure.body, &mut called)?;
        graph.push(called)?;
    }
    Ok(graph)
}
