//! The warning for procedures that main and an interrupt procedure share, or two interrupt procedures.

ghost use Rattle.std.specs.Prelude.{◌≡◌, false, IfOk, IfErr};
ghost use Rattle.plm_type.specs.Inner.Reach.{rows, marks_of, AreReached, marked_twice};
ghost use Rattle.word86.specs.declared.fault.Fault.TheVariants.{Memory};
ghost use Rattle.plm_type.specs.Sharing as spec;

use crate::calls::{add_statements, call_graph};
use crate::checked::Program;
use crate::interrupts::serves_interrupt;
use crate::reach::{is_marked, reached};
use plm_decl::Procedure;
use std::alloc::{AllocError, Global};
use word86::Fault;

/// That a procedure is reached from main and from an interrupt procedure, or from two of these (W1): its module, counted
/// from 0, and the line of its name, counted from 1.
#[derive(Clone, Copy)]
pub struct Warning {
    pub module: usize,
    pub line: u32,
}

/// Which procedures main reaches, and which each interrupt procedure, itself among them.
fn reached_from_roots(
    alloc: Global,
    program: &Program,
    graph: &[Vec<usize>],
) -> Result<Vec<Vec<bool>>, AllocError>
    ensures { IfOk result (λ roots. AreReached (rows graph.now) (spec.roots program.now) (marks_of roots.items)) }
{
    let mut roots = Vec::new(alloc);
    let mut called = Vec::new(alloc);
    add_statements(program.main(), &mut called)?;
    roots.push(reached(alloc, graph, &called)?)?;
    drop(called);
    for (number, procedure) in program.names().procedures.iter().enumerate() {
        if serves_interrupt(procedure) {
            roots.push(reached(alloc, graph, &[number])?)?;
        }
    }
    Ok(roots)
}

/// Whether two of the roots reach the procedure.
fn is_shared(roots: &[Vec<bool>], procedure: usize) -> bool
    ensures { result ≡ marked_twice procedure false (marks_of roots.now) }
{
    let mut is_reached = false;
    for marks in roots {
        if is_marked(marks, procedure) {
            if is_reached {
                return true;
            }
            is_reached = true;
        }
    }
    false
}

/// A warning for each procedure that two of the roots reach.
fn warnings_for(
    alloc: Global,
    roots: &[Vec<bool>],
    procedures: &[Procedure],
) -> Result<Vec<Warning>, AllocError>
    ensures { IfOk result (λ ws. ws.items ≡ spec.warnings_of (λ p. marked_twice p false (marks_of roots.now)) 0 procedures.now) }
{
    let mut warnings = Vec::new(alloc);
    for (number, procedure) in procedures.iter().enumerate() {
        if is_shared(roots, number) {
            warnings.push(Warning {
                module: procedure.module,
                line: procedure.place.line,
            })?;
        }
    }
    Ok(warnings)
}

/// A warning for each procedure that is reached by calls from main and from an interrupt procedure, or from two interrupt
/// procedures, in order of declaration; an interrupt procedure reaches itself too. The only refusal is want of memory.
pub fn warnings(alloc: Global, program: &Program) -> Result<Vec<Warning>, Fault>
    ensures warnings { IfOk result (λ ws. spec.AreWarnings program.now ws.items) }
    ensures refused { IfErr result (λ fault. fault ≡ Memory) }
{
    let graph = call_graph(alloc, program.procedures())?;
    let roots = reached_from_roots(alloc, program, &graph)?;
    Ok(warnings_for(alloc, &roots, &program.names().procedures)?)
}
