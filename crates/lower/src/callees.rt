//! What can be called, and which procedures give a value.

ghost use Rattle.std.specs.Prelude.{◌≡◌, map, slice_get, IfOk, IsOkUnless};
ghost use Rattle.plm_type.specs.View.{statement_of, statements_of, procedures_of};
ghost use Rattle.lower.specs.Expressions.{is_giving, are_giving, gives};

use plm_type::{Procedure, Statement, trees_have_their_lists};
use std::alloc::Global;
use word86::Fault;

/// The procedures, and whether each gives a value.
#[derive(Clone, Copy)]
pub struct Callees<'p> {
    pub procedures: &'p [Procedure],
    pub giving: &'p [bool],
    ghost known: { giving.now ≡ map (λ p. are_giving p.body) (procedures_of procedures.now) },
}

impl Callees<'_> {
    /// Whether the procedure of this number gives a value.
    pub fn gives(self, number: usize) -> bool
        ensures { result ≡ gives (slice_get (procedures_of self.entry.procedures.now) number) }
    {
        match self.giving.get(number) {
            None => true,
            Some(gives) => *gives,
        }
    }
}

/// Whether each procedure gives a value.
pub fn giving(alloc: Global, procedures: &[Procedure]) -> Result<Vec<bool>, Fault>
    ensures each { IfOk result (λ r. r.items ≡ map (λ p. are_giving p.body) (procedures_of procedures.now)) }
    ensures memory { IsOkUnless result Fault.Memory }
{
    let mut giving = Vec::new(alloc);
    for procedure in procedures {
        giving.push(are_giving(&procedure.body))?;
    }
    Ok(giving)
}

// Whether a RETURN in a statement has a value.
#[cycle(giving)]
fn is_giving(statement: &Statement) -> bool
    ensures { result ≡ is_giving (statement_of statement.now) }
{
    trees_have_their_lists();
    match statement {
        Statement::ReturnValue(_, _) => true,
        Statement::If(_, arm, other) => are_giving(arm) || are_giving(other),
        Statement::Block(body) => are_giving(body),
        Statement::While(_, body) => are_giving(body),
        Statement::Case(_, cases) => are_giving(cases),
        Statement::Iterate(_, rounds) => are_giving(&rounds.body),
        Statement::Empty
        | Statement::Assign(_, _, _)
        | Statement::Evaluate(_)
        | Statement::Return
        | Statement::Enable
        | Statement::Disable
        | Statement::Halt => false,
    }
}

/// Whether a RETURN in statements has a value.
#[cycle(giving)]
pub fn are_giving(body: &[Box<Statement>]) -> bool
    ensures { result ≡ are_giving (statements_of body.now) }
{
    for statement in body {
        if is_giving(statement) {
            return true;
        }
    }
    false
}
