//! `check`: from names to a typed program, or to the least of their faults.

ghost use Rattle.std.specs.Prelude.{◌≡◌, ℕ, ◌<◌, ◌++◌, [], List, Some, slice_get, IfOk, OnOk, IfErr, length};
ghost use Rattle.plm_decl.specs.declared.found.Found.{Found as FoundR};
ghost use Rattle.plm_type.specs.Calls.{graph_of, IsRecursive};
ghost use Rattle.plm_type.specs.Order.{IsOrder};
ghost use Rattle.plm_type.specs.Checked.{AreTyped};
ghost use Rattle.plm_type.specs.AllFaults as all;
ghost use Rattle.plm_type.specs.Checking as spec;
ghost use Rattle.plm_type.specs.Interrupts.{AreInterruptFaults};
ghost use Rattle.plm_type.specs.Programs as programs;
ghost use Rattle.plm_type.specs.View.{procedures_of, statements_of};

use crate::calls::call_graph;
use crate::checked::Program;
use crate::handlers::handler_numbers;
use crate::interrupts::interrupt_faults;
use crate::order::by_rank;
use crate::program::{Procedure, Statement};
use crate::reach::ranks_or_cycle;
use crate::typer::Typer;
use plm_decl::Names;
use plm_decl::found::{Found, least};
use std::alloc::{AllocError, Global};
use word86::{Fault, Number};

/// The procedures in an order in which each stands after those that it calls; or the first procedure that reaches itself,
/// as a fault of the whole program.
fn order_of(
    alloc: Global,
    names: &Names,
    procedures: &[Procedure],
) -> Result<Result<Vec<usize>, Found>, AllocError>
    requires { length procedures.now ≡ length names.now.procedures.items }
    ensures order { IfOk result (λ found. IfOk found (λ order. IsOrder order.items (graph_of (procedures_of procedures.now)))) }
    ensures none { IfOk result (λ found. IfOk found (λ order. (p : ℕ) → ¬ IsRecursive (procedures_of procedures.now) p)) }
    ensures cycle { IfOk result (λ found. IfErr found (λ f. spec.IsRecursion (procedures_of procedures.now) names.now f)) }
{
    let graph = call_graph(alloc, procedures)?;
    match ranks_or_cycle(alloc, &graph)? {
        Ok(ranks) => Ok(Ok(by_rank(alloc, &ranks)?)),
        Err(number) => {
            let procedure = &names.procedures[number];
            Ok(Err(Found {
                module: procedure.module,
                place: procedure.place,
                number: Number::E404,
            }))
        }
    }
}

/// The typed trees of names, and the faults that were met on the way.
#[derive(Drop)]
struct Typed {
    faults: Vec<Found>,
    procedures: Vec<Procedure>,
    main: Vec<Box<Statement>>,
}

/// Types all that names declare.
fn typed_names(alloc: Global, names: &Names) -> Result<Typed, AllocError>
    ensures faults { IfOk result (λ typed. (more : List FoundR) × AreInterruptFaults names.now more × (typed.faults.items ≡ programs.faults names.now ++ more)) }
    ensures procedures { IfOk result (λ typed. procedures_of typed.procedures.items ≡ programs.procedures_of names.now) }
    ensures main { IfOk result (λ typed. statements_of typed.main.items ≡ programs.main_tree names.now) }
{
    let mut faults = Vec::new(alloc);
    let typer = Typer {
        alloc,
        names,
        module: 0,
    };
    typer.locations(&mut faults)?;
    let procedures = typer.procedures(&mut faults)?;
    let main = typer.main(&mut faults)?;
    interrupt_faults(alloc, names, &mut faults)?;
    Ok(Typed {
        faults,
        procedures,
        main,
    })
}

/// What a program is besides its names.
#[derive(Drop)]
struct ProgramParts {
    main: Vec<Box<Statement>>,
    procedures: Vec<Procedure>,
    order: Vec<usize>,
    handler_numbers: Vec<Option<usize>>,
}

/// What the program that these names declare is besides them, or the least of their faults.
fn program_parts(alloc: Global, names: &Names) -> Result<ProgramParts, Fault>
    ensures main { IfOk result (λ parts. statements_of parts.main.items ≡ programs.main_tree names.now) }
    ensures procedures { IfOk result (λ parts. procedures_of parts.procedures.items ≡ programs.procedures_of names.now) }
    ensures handlers { IfOk result (λ parts. (v : ℕ) → v < 256 → slice_get parts.handler_numbers.items v ≡ Some (programs.handler_number names.now v)) }
    ensures faults { OnOk result (programs.faults names.now ≡ []) }
    ensures interrupts { OnOk result (AreInterruptFaults names.now []) }
    ensures recursion { OnOk result ((p : ℕ) → ¬ IsRecursive (programs.procedures_of names.now) p) }
    ensures order { IfOk result (λ parts. IsOrder parts.order.items (graph_of (programs.procedures_of names.now))) }
    ensures refused { IfErr result (λ fault. spec.IsRefusal fault names.now) }
{
    let typed = typed_names(alloc, names)?;
    if let Some(found) = least(&typed.faults) {
        return Err(found.fault());
    }
    let handler_numbers = handler_numbers(alloc, names)?;
    match order_of(alloc, names, &typed.procedures)? {
        Ok(order) => Ok(ProgramParts {
            main: typed.main,
            procedures: typed.procedures,
            order,
            handler_numbers,
        }),
        Err(found) => Err(found.fault()),
    }
}

/// The program that these names declare, with the types of all expressions; or the least fault by module, token and
/// number: E401 to E403, E405 and E406, and E404, of the whole program, after the others. Want of memory is answered only where a
/// growth was refused.
pub fn check(alloc: Global, names: Names) -> Result<Program, Fault>
    ensures typed { IfOk result (λ program. AreTyped program names) }
    ensures refused { IfErr result (λ fault. spec.IsRefusal fault names) }
{
    match program_parts(alloc, &names) {
        Ok(parts) => Ok(Program {
            names,
            main: parts.main,
            procedures: parts.procedures,
            order: parts.order,
            handler_numbers: parts.handler_numbers,
        }),
        Err(fault) => {
            drop(names);
            Err(fault)
        }
    }
}

/// The first procedure that reaches itself, as the one fault of the whole program.
fn whole_faults(
    alloc: Global,
    names: &Names,
    procedures: &[Procedure],
) -> Result<Vec<Found>, AllocError>
    requires { length procedures.now ≡ length names.now.procedures.items }
    ensures { IfOk result (λ found. all.AreWhole (procedures_of procedures.now) names.now found.items) }
{
    match order_of(alloc, names, procedures)? {
        Ok(_order) => Ok(Vec::new(alloc)),
        Err(recursion) => Vec::from_slice(alloc, &[recursion]),
    }
}

/// All faults of types that these names have, of which `check` answers the least, as they are met; or that a procedure reaches itself where
/// there are no others. Want of memory is its one error.
pub fn type_faults(alloc: Global, names: &Names) -> Result<Vec<Found>, AllocError>
    ensures { IfOk result (λ found. all.AreAll names.now found.items) }
{
    let typed = typed_names(alloc, names)?;
    if typed.faults.is_empty() {
        return whole_faults(alloc, names, &typed.procedures);
    }
    Ok(typed.faults)
}
