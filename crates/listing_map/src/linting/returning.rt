//! Procedures with a value that may come to their END without RETURN.

use crate::linting::constants::{condition, may_be_selected, selected};
use crate::linting::{Finding, Found};
use crate::noted::Noted;
use plm_decl::{Binding, Names, Reference, Statement};
use plm_syntax::Linkage;
use std::alloc::{AllocError, Global};

/// How often all bodies are looked through for calls that never come back: once, and once more for each module by whose EXTERNAL procedure
/// one is reached.
const ROUNDS: usize = 8;

/// What ends the way through a body before its END: RETURN or not, and calls of the procedures, by their numbers, that never come back.
#[derive(Clone, Copy)]
struct Ends<'k> {
    names: &'k Names,
    endless: &'k [bool],
    by_return: bool,
}

impl Ends<'_> {
    /// Whether a call never comes back.
    fn is_last(&self, reference: &Reference) -> bool {
        let called = match reference.binding {
            Binding::Procedure(number) => self.names.procedures.get(number),
            Binding::Variable(_) | Binding::Builtin(_) | Binding::Nothing => None,
        };
        match called {
            Some(procedure) => is_endless(self.endless, procedure.entry),
            None => false,
        }
    }

    /// Whether what stands after a statement is never come to.
    #[cycle(ending)]
    fn statement(&self, statement: &Statement) -> bool {
        match statement {
            Statement::Return(_) | Statement::ReturnValue(_, _) => self.by_return,
            Statement::Call(_, reference) => self.is_last(reference),
            Statement::If(_, test, then) => condition(test) == Some(true) && self.statement(then),
            Statement::IfElse(_, test, then, other) => match condition(test) {
                Some(true) => self.statement(then),
                Some(false) => self.statement(other),
                None => self.statement(then) && self.statement(other),
            },
            Statement::Do(_, body) => self.body(body),
            Statement::While(_, test, _) => condition(test) == Some(true),
            Statement::Case(_, selector, cases) => self.cases(cases, selected(selector)),
            // Whether it makes a round cannot be told.
            Statement::Iterate(_, _, _, body) => self.body(body),
            Statement::Empty(_)
            | Statement::Assign(_, _)
            | Statement::Enable(_)
            | Statement::Disable(_)
            | Statement::Halt(_) => false,
        }
    }

    /// Whether the END of a body is never come to.
    #[cycle(ending)]
    fn body(&self, statements: &[Statement]) -> bool {
        for statement in statements {
            if self.statement(statement) {
                return true;
            }
        }
        false
    }

    /// Whether no case leads to what stands after them all. Whether one is selected cannot be told.
    #[cycle(ending)]
    fn cases(&self, cases: &[Statement], selected: Option<usize>) -> bool {
        let mut is_any = false;
        for (number, case) in cases.iter().enumerate() {
            if may_be_selected(selected, number) {
                if !self.statement(case) {
                    return false;
                }
                is_any = true;
            }
        }
        is_any
    }
}

fn is_endless(endless: &[bool], number: usize) -> bool {
    match endless.get(number) {
        Some(is_endless) => *is_endless,
        None => false,
    }
}

fn keep(endless: &mut [bool], number: usize) {
    if let Some(place) = endless.get_mut(number) {
        *place = true;
    }
}

/// Notes the procedures that never come back, as far as calls among those that are noted tell, and answers whether there is a new one.
fn note_endless(names: &Names, endless: &mut [bool]) -> bool {
    let mut is_new = false;
    for (number, procedure) in names.procedures.iter().enumerate() {
        let ends = Ends {
            names,
            endless: &*endless,
            by_return: false,
        };
        if ends.body(&procedure.body) && !is_endless(endless, number) {
            keep(endless, number);
            is_new = true;
        }
    }
    is_new
}

/// Which procedures never come back. One with RETURN in its endless loop counts too: it cannot be told how often that is come to.
fn endless_procedures(alloc: Global, names: &Names) -> Result<Vec<bool>, AllocError> {
    let mut endless = vec![in alloc; false; names.procedures.len()]?;
    for _round in 0..ROUNDS {
        if !note_endless(names, &mut endless) {
            return Ok(endless);
        }
    }
    Ok(endless)
}

/// Adds each procedure that has a value and a body, and may end without it.
pub(crate) fn add_without_return(
    alloc: Global,
    names: &Names,
    found: &mut Noted<Found>,
) -> Result<(), AllocError> {
    let endless = endless_procedures(alloc, names)?;
    let ends = Ends {
        names,
        endless: &endless,
        by_return: true,
    };
    for procedure in &names.procedures {
        let has_body = match procedure.linkage {
            Linkage::External => false,
            Linkage::None | Linkage::Public => true,
        };
        if has_body && procedure.returned.is_some() && !ends.body(&procedure.body) {
            found.add(Found {
                module: procedure.module,
                place: procedure.place.token as usize,
                finding: Finding::WithoutReturn,
            });
        }
    }
    Ok(())
}
