//! What names and expressions stand for, as references.

use plm_decl::{Binding, Expression, Reference};

/// The reference that an expression is.
pub(crate) fn reference_of(e: &Expression) -> Option<&Reference> {
    match e {
        Expression::Reference(reference) => Some(reference),
        Expression::Number(_)
        | Expression::Text(_, _)
        | Expression::Location(_)
        | Expression::Parenthesised(_, _)
        | Expression::Embedded(_, _, _)
        | Expression::Unary(_, _, _)
        | Expression::Chain { .. } => None,
    }
}

/// The number of the variable that a name stands for.
pub(crate) fn variable_of(binding: Binding) -> Option<usize> {
    match binding {
        Binding::Variable(number) => Some(number),
        Binding::Procedure(_) | Binding::Builtin(_) | Binding::Nothing => None,
    }
}
