//! Which DO WHILE of a routine have no test in its code: those whose condition is a constant that holds.

use crate::noted::Noted;
use plm_type::{Expression, Statement};

/// Whether a condition is a constant that holds. An operator is none, even where its value is known.
fn always(condition: &Expression) -> bool {
    match condition {
        Expression::Constant(value) => value % 2 == 1,
        Expression::Chain(first, others) => match others.as_slice() {
            [] => always(first),
            [_, ..] => false,
        },
        Expression::Plain(_, _)
        | Expression::Variable(_, _)
        | Expression::Location(_)
        | Expression::Unary(_, _, _)
        | Expression::Embedded(_, _)
        | Expression::Input(_, _)
        | Expression::Call(_, _) => false,
    }
}

#[cycle(rounds)]
fn note(tree: &Statement, endless: &mut Noted<bool>) {
    match tree {
        Statement::While(condition, body) => {
            endless.add(always(condition));
            note_all(body, endless)
        }
        Statement::If(_, arm, otherwise) => {
            note_all(arm, endless);
            note_all(otherwise, endless)
        }
        Statement::Block(body) | Statement::Case(_, body) => note_all(body, endless),
        Statement::Iterate(_, rounds) => note_all(&rounds.body, endless),
        Statement::Empty
        | Statement::Assign(_, _, _)
        | Statement::Evaluate(_)
        | Statement::Return
        | Statement::ReturnValue(_, _)
        | Statement::Enable
        | Statement::Disable
        | Statement::Halt => {}
    }
}

/// Adds for each DO WHILE of these statements, in the order of the source, whether its condition is a constant that holds.
#[cycle(rounds)]
pub(crate) fn note_all(trees: &[Box<Statement>], endless: &mut Noted<bool>) {
    for tree in trees {
        note(tree, endless);
    }
}
