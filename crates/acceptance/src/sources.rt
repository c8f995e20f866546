//! What becomes of modules' texts, step by step up to the program.

use icode::Code;
use lower::lower;
use plm_decl::{Names, resolve};
use plm_syntax::{Module, parse};
use plm_token::scan;
use plm_type::{Program, check};
use std::alloc::Global;
use word86::{Fault, Number};

/// How modules fare: fine, or the module, the line and the fault.
pub(crate) type Outcome = Option<(u32, u32, Number)>;

const NO_MEMORY: Outcome = Some((99, 99, Number::E201));

pub(crate) fn outcome<T: Drop>(answer: Result<T, Fault>) -> Outcome {
    match answer {
        Ok(_) => None,
        Err(Fault::At(module, line, number)) => Some((module, line, number)),
        Err(Fault::Memory) => NO_MEMORY,
    }
}

/// What is seen of an answer's value, which is dropped here. A test that holds a large tree itself costs the prover most: each step of it
/// lists all parts of the tree. Here it has any type, and so no parts.
pub(crate) fn seen<T: Drop, R, F: FnOnce(&T) -> R>(
    answer: Result<T, Fault>,
    look: F,
) -> Result<R, Fault>
    requires { F.IsAlwaysCallable look }
{
    match answer {
        Ok(value) => Ok(look(&value)),
        Err(fault) => Err(fault),
    }
}

/// What the next step makes of an answer's value, which is dropped here.
pub(crate) fn then<T: Drop, R, F: FnOnce(&T) -> Result<R, Fault>>(
    answer: Result<T, Fault>,
    next: F,
) -> Result<R, Fault>
    requires { F.IsAlwaysCallable next }
{
    match answer {
        Ok(value) => next(&value),
        Err(fault) => Err(fault),
    }
}

/// The tree of a module.
pub(crate) fn module_of(alloc: Global, text: &[u8]) -> Result<Module<'_>, Fault> {
    parse(alloc, scan(alloc, text)?)
}

fn modules_of<'a>(alloc: Global, texts: &[&'a [u8]]) -> Result<Vec<Module<'a>>, Fault> {
    let mut modules = Vec::new(alloc);
    for text in texts {
        modules.push(module_of(alloc, text)?)?;
    }
    Ok(modules)
}

/// What these modules declare.
pub(crate) fn names_of(alloc: Global, texts: &[&[u8]]) -> Result<Names, Fault> {
    then(modules_of(alloc, texts), |modules| resolve(alloc, modules))
}

/// The program with these modules.
pub(crate) fn program_of(alloc: Global, texts: &[&[u8]]) -> Result<Program, Fault> {
    names_of(alloc, texts).and_then(|names| check(alloc, names))
}

/// The code of the program with these modules.
pub(crate) fn code_of(alloc: Global, texts: &[&[u8]]) -> Result<Code, Fault> {
    then(program_of(alloc, texts), |program| lower(alloc, program))
}
