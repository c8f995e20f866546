//! Which statements have no code.

ghost use Rattle.std.specs.Prelude.{◌≡◌, ℕ, ◌≤◌, length, drop, nat_le};
ghost use Rattle.plm_type.specs.View.{statement_of, statements_of};
ghost use Rattle.lower.specs.Statements.{is_silent, are_silent, exit_before, stays, all_stay};

use crate::conditions::always;
use plm_type::{Statement, trees_have_their_lists};

/// Whether nothing stands for a statement: for the empty one, and for a block of such.
#[cycle(silence)]
pub fn is_silent(statement: &Statement) -> bool
    ensures { result ≡ is_silent (statement_of statement.now) }
{
    trees_have_their_lists();
    match statement {
        Statement::Empty => true,
        Statement::Block(body) => are_silent(body),
        Statement::Assign(_, _, _)
        | Statement::Evaluate(_)
        | Statement::Return
        | Statement::ReturnValue(_, _)
        | Statement::Enable
        | Statement::Disable
        | Statement::Halt
        | Statement::If(_, _, _)
        | Statement::While(_, _)
        | Statement::Case(_, _)
        | Statement::Iterate(_, _) => false,
    }
}

/// Whether nothing stands for statements.
#[cycle(silence)]
pub fn are_silent(body: &[Box<Statement>]) -> bool
    ensures { result ≡ are_silent (statements_of body.now) }
{
    with_code(body) == 0
}

/// How many statements there are up to the last one that has code. It is looked for from the end.
#[cycle(silence)]
pub fn with_code(body: &[Box<Statement>]) -> usize
    ensures { (k : ℕ) → k ≤ length body.now → nat_le result k ≡ are_silent (statements_of (drop k body.now)) }
{
    for k in (0..body.len()).rev() {
        if !is_silent(&body[k]) {
            return k + 1;
        }
    }
    0
}

/// Where control goes on after a statement: at what comes next, if that has code.
pub fn exit_before(silent: bool, exit: usize) -> usize
    ensures { result ≡ exit_before silent exit }
{
    if silent { exit } else { 0 }
}

// Whether control never comes to the end of a statement: a RETURN with a value, or a DO WHILE that goes on for ever.
fn stays(statement: &Statement) -> bool
    ensures { result ≡ stays (statement_of statement.now) }
{
    trees_have_their_lists();
    match statement {
        Statement::ReturnValue(_, _) => true,
        Statement::While(condition, _) => always(condition),
        Statement::Empty
        | Statement::Block(_)
        | Statement::Assign(_, _, _)
        | Statement::Evaluate(_)
        | Statement::Return
        | Statement::Enable
        | Statement::Disable
        | Statement::Halt
        | Statement::If(_, _, _)
        | Statement::Case(_, _)
        | Statement::Iterate(_, _) => false,
    }
}

/// Whether control never comes to the end of statements, by the last one.
pub fn all_stay(body: &[Box<Statement>]) -> bool
    ensures { result ≡ all_stay (statements_of body.now) }
{
    match body {
        [] => false,
        [.., last] => stays(last),
    }
}
