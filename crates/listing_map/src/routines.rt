//! The routines of a program in the order of their parts, and what they are called.

use icode::{Code, Routine};
use plm_decl::Names;
use std::alloc::{AllocError, Global};

/// What a routine is called.
pub(crate) fn path_of(names: &Names, routine: Routine) -> &[u8] {
    match routine {
        Routine::Main => b"main",
        Routine::Procedure(number) => procedure_path(names, number),
        Routine::Unserved => b"interrupts without a procedure",
        Routine::Nowhere => b"",
    }
}

/// The path of a procedure.
pub(crate) fn procedure_path(names: &Names, number: usize) -> &[u8] {
    match names.procedures.get(number) {
        Some(procedure) => procedure.path.as_slice(),
        None => b"",
    }
}

/// Adds the routines of a module: its procedures, and main where it is main's module.
fn push_section(all: &mut Vec<Routine>, code: &Code, module: usize) -> Result<(), AllocError> {
    for (number, procedure) in code.procedures.iter().enumerate() {
        if procedure.module == module {
            all.push(Routine::Procedure(number))?;
        }
    }
    if code.main_module == module {
        all.push(Routine::Main)?;
    }
    Ok(())
}

/// The routines of a program that it declares, in the order of their parts. What serves the vectors without a procedure comes behind them.
pub(crate) fn routines_of(alloc: Global, code: &Code) -> Result<Vec<Routine>, AllocError> {
    let mut all = Vec::new(alloc);
    for module in 0..code.sections {
        push_section(&mut all, code, module)?;
    }
    Ok(all)
}
