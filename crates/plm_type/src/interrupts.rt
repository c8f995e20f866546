//! The faults of interrupt procedures: one that reaches ENABLE or HALT, and one that is called, typed or has parameters.

ghost use Rattle.std.specs.Prelude.{◌≡◌, ◌++◌, ◌∷◌, [], ◌↔◌, ◌⊎◌, ◌<◌, ℕ, true, false, map, Some, length, slice_get, slice_index_or, IfOk, OnOk, IsTrue, List, Contains};
ghost use Rattle.plm_decl.specs.declared.found.Found.{Found as FoundR};
ghost use Rattle.plm_decl.specs.Names.{procedure_of};
ghost use Rattle.plm_type.specs.Inner.Interrupts.{IsCalledIn};
ghost use Rattle.plm_type.specs.Inner.Reach.{rows, IsMarked};
ghost use Rattle.plm_type.specs.Reach.{Leads};
ghost use Rattle.plm_type.specs.Effects.{of_statements};
ghost use Rattle.plm_decl.specs.ResolvedView as resolved;
ghost use Rattle.plm_type.specs.Interrupts as spec;
ghost use Rattle.plm_type.specs.Trees as trees;

use crate::effects::{Effect, add_statements};
use crate::reach::{is_marked, mark, reached, row_at};
use plm_decl::found::Found;
use plm_decl::{Names, Procedure, Statement};
use plm_syntax::Linkage;
use std::alloc::{AllocError, Global};
use word86::Number;

/// The procedure whose body a call runs.
fn entry_at(procedures: &[Procedure], number: usize) -> usize
    ensures { result ≡ trees.entry_of (slice_get (map procedure_of procedures.now) number) }
{
    match procedures.get(number) {
        Some(procedure) => procedure.entry,
        None => 0,
    }
}

/// The procedure that is called, and the PUBLIC one that it is joined with.
fn add_called(
    numbers: &mut Vec<usize>,
    procedures: &[Procedure],
    effect: Effect,
) -> Result<(), AllocError>
    ensures { OnOk result (numbers.new.items ≡ numbers.old.items ++ spec.called (map procedure_of procedures.now) (effect ∷ [])) }
{
    match effect {
        Effect::Calls(number) => {
            numbers.push(number)?;
            numbers.push(entry_at(procedures, number))?;
            Ok(())
        }
        Effect::Enables => Ok(()),
    }
}

fn called(
    alloc: Global,
    procedures: &[Procedure],
    effects: &[Effect],
) -> Result<Vec<usize>, AllocError>
    ensures { IfOk result (λ numbers. numbers.items ≡ spec.called (map procedure_of procedures.now) effects.now) }
{
    let mut numbers = Vec::new(alloc);
    for effect in effects {
        add_called(&mut numbers, procedures, *effect)?;
    }
    Ok(numbers)
}

fn lets_in(effects: &[Effect]) -> bool
    ensures { result ≡ spec.lets_in effects.now }
{
    for effect in effects {
        match effect {
            Effect::Enables => return true,
            Effect::Calls(_) => {}
        }
    }
    false
}

fn effects_of(alloc: Global, statements: &[Statement]) -> Result<Vec<Effect>, AllocError>
    ensures { IfOk result (λ effects. effects.items ≡ of_statements (resolved.statements_of statements.now)) }
{
    let mut effects = Vec::new(alloc);
    add_statements(statements, &mut effects)?;
    Ok(effects)
}

/// What the body of a procedure does: an EXTERNAL one has none of its own.
fn body_effects(alloc: Global, procedure: &Procedure) -> Result<Vec<Effect>, AllocError>
    ensures { IfOk result (λ effects. effects.items ≡ spec.body_effects (procedure_of procedure.now)) }
{
    if procedure.linkage == Linkage::External {
        return Ok(Vec::new(alloc));
    }
    effects_of(alloc, &procedure.body)
}

/// Whom the text of each procedure calls.
fn text_graph(alloc: Global, procedures: &[Procedure]) -> Result<Vec<Vec<usize>>, AllocError>
    ensures { IfOk result (λ graph. rows graph.items ≡ spec.text_graph (map procedure_of procedures.now)) }
{
    let mut graph = Vec::new(alloc);
    for procedure in procedures {
        let effects = body_effects(alloc, procedure)?;
        graph.push(called(alloc, procedures, &effects)?)?;
    }
    Ok(graph)
}

/// Whether the text of each procedure has ENABLE or HALT.
fn letting_in(alloc: Global, procedures: &[Procedure]) -> Result<Vec<bool>, AllocError>
    ensures { IfOk result (λ marks. marks.items ≡ map (λ p. spec.lets_in (spec.body_effects (procedure_of p))) procedures.now) }
{
    let mut marks = Vec::new(alloc);
    for procedure in procedures {
        let effects = body_effects(alloc, procedure)?;
        marks.push(lets_in(&effects))?;
    }
    Ok(marks)
}

/// Whether it serves an interrupt: an EXTERNAL one does not.
pub(crate) fn serves_interrupt(procedure: &Procedure) -> bool
    ensures { result ≡ spec.serves_interrupt (Some (procedure_of procedure.now)) }
{
    procedure.vector().is_some()
}

/// Whether a procedure, or one that it reaches by calls, is among the marked ones.
fn reaches_marked(
    alloc: Global,
    graph: &[Vec<usize>],
    marks: &[bool],
    procedure: usize,
) -> Result<bool, AllocError>
    requires { length marks.now ≡ length graph.now }
    ensures { IfOk result (λ reaches. IsTrue reaches ↔ ((q : ℕ) × Leads (rows graph.now) (procedure ∷ []) q × IsMarked marks.now q)) }
{
    let found = reached(alloc, graph, &[procedure])?;
    for (number, mark) in marks.iter().enumerate() {
        let is_found = is_marked(&found, number);
        if *mark && is_found {
            return Ok(true);
        }
    }
    Ok(false)
}

/// Whether a procedure serves an interrupt, and reaches a marked one.
fn lets_in_from(
    alloc: Global,
    graph: &[Vec<usize>],
    marks: &[bool],
    number: usize,
    procedure: &Procedure,
) -> Result<bool, AllocError>
    requires { length marks.now ≡ length graph.now }
    ensures { IfOk result (λ lets_in. IsTrue lets_in ↔ ((spec.serves_interrupt (Some (procedure_of procedure.now)) ≡ true) × ((q : ℕ) × Leads (rows graph.now) (number ∷ []) q × IsMarked marks.now q))) }
{
    if !serves_interrupt(procedure) {
        return Ok(false);
    }
    reaches_marked(alloc, graph, marks, number)
}

/// Which procedures serve an interrupt, and reach ENABLE or HALT.
fn reaching(alloc: Global, procedures: &[Procedure]) -> Result<Vec<bool>, AllocError>
    ensures { IfOk result (λ marks. (p : ℕ) → IsMarked marks.items p ↔ spec.LetsIn (map procedure_of procedures.now) p) }
{
    let graph = text_graph(alloc, procedures)?;
    let marks = letting_in(alloc, procedures)?;
    let mut reaching = Vec::new(alloc);
    for (number, procedure) in procedures.iter().enumerate() {
        reaching.push(lets_in_from(alloc, &graph, &marks, number, procedure)?)?;
    }
    Ok(reaching)
}

/// Which procedures main or the text of a procedure calls.
fn called_anywhere(
    alloc: Global,
    graph: &[Vec<usize>],
    main: &[usize],
) -> Result<Vec<bool>, AllocError>
    ensures { IfOk result (λ marks. (p : ℕ) → p < length graph.now → IsMarked marks.items p ↔ IsCalledIn (rows graph.now) main.now p) }
{
    let mut marks = vec![in alloc; false; graph.len()]?;
    let mut work = Vec::new(alloc);
    mark(&mut marks, &mut work, main)?;
    for procedure in 0..graph.len() {
        mark(&mut marks, &mut work, row_at(graph, procedure))?;
    }
    Ok(marks)
}

/// Whom main's text calls.
fn called_by_main(alloc: Global, names: &Names) -> Result<Vec<usize>, AllocError>
    ensures { IfOk result (λ numbers. numbers.items ≡ spec.main_calls names.now) }
{
    let effects = effects_of(alloc, &names.main.statements)?;
    called(alloc, &names.procedures, &effects)
}

/// Which procedures the texts of a program call.
fn called_by_texts(alloc: Global, names: &Names) -> Result<Vec<bool>, AllocError>
    ensures { IfOk result (λ marks. (p : ℕ) → p < length names.now.procedures.items → IsMarked marks.items p ↔ spec.IsCalled names.now p) }
{
    let graph = text_graph(alloc, &names.procedures)?;
    let main = called_by_main(alloc, names)?;
    called_anywhere(alloc, &graph, &main)
}

/// Whether what is for an interrupt is called, typed or has parameters.
fn is_misused(procedure: &Procedure, is_called: bool) -> bool
    ensures { IsTrue result ↔ ((spec.has_interface (Some (procedure_of procedure.now)) ≡ true) ⊎ ((spec.is_for_interrupt (Some (procedure_of procedure.now)) ≡ true) × IsTrue is_called)) }
{
    let has_interface = procedure.returned.is_some() || !procedure.parameters.is_empty();
    procedure.interrupt.is_some() && (has_interface || is_called)
}

/// Which procedures are for an interrupt, and called, typed or with parameters.
fn misused(alloc: Global, names: &Names) -> Result<Vec<bool>, AllocError>
    ensures { IfOk result (λ marks. (p : ℕ) → IsMarked marks.items p ↔ spec.IsMisused names.now p) }
{
    let are_called = called_by_texts(alloc, names)?;
    let mut marks = Vec::new(alloc);
    for (number, procedure) in names.procedures.iter().enumerate() {
        marks.push(is_misused(procedure, is_marked(&are_called, number)))?;
    }
    Ok(marks)
}

/// A fault at a procedure's name, if it is one.
fn note_if(
    is_fault: bool,
    number: Number,
    procedure: &Procedure,
    faults: &mut Vec<Found>,
) -> Result<(), AllocError>
    ensures { OnOk result (faults.new.items ≡ faults.old.items ++ spec.fault_if is_fault number (procedure_of procedure.now)) }
{
    if is_fault {
        faults.push(Found {
            module: procedure.module,
            place: procedure.place,
            number,
        })?;
    }
    Ok(())
}

fn add_faults(
    procedures: &[Procedure],
    reaching: &[bool],
    misused: &[bool],
    faults: &mut Vec<Found>,
) -> Result<(), AllocError>
    ensures { OnOk result (faults.new.items ≡ faults.old.items ++ spec.faults_from (λ p. slice_index_or reaching.now p false) (λ p. slice_index_or misused.now p false) 0 (map procedure_of procedures.now)) }
{
    for (number, procedure) in procedures.iter().enumerate() {
        let reaches = is_marked(reaching, number);
        note_if(reaches, Number::E405, procedure, faults)?;
        let is_wrong = is_marked(misused, number);
        note_if(is_wrong, Number::E406, procedure, faults)?;
    }
    Ok(())
}

/// The faults of interrupt procedures, added after the others.
pub fn interrupt_faults(
    alloc: Global,
    names: &Names,
    faults: &mut Vec<Found>,
) -> Result<(), AllocError>
    ensures { OnOk result ((more : List FoundR) × spec.AreInterruptFaults names.now more × (faults.new.items ≡ faults.old.items ++ more)) }
{
    let reaching = reaching(alloc, &names.procedures)?;
    let misused = misused(alloc, names)?;
    add_faults(&names.procedures, &reaching, &misused, faults)
}
