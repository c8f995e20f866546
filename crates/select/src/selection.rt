//! Which parts a program has, in which order, and what leads into each.

ghost use Rattle.std.specs.Prelude.{◌≡◌, ◌+◌, ◌<◌, ◌^◌, ◌++◌, ◌∷◌, [], ℕ, cond, IfOk, IsOkUnless, OnOk, length, slice_get, slice_index, slice_index_or};
ghost use Rattle.frames.specs.Counting.{AreSaved};
ghost use Rattle.icode.specs.Registers.{none};
ghost use Rattle.icode.specs.declared.code.Routine.TheVariants as routine;
ghost use Rattle.select.specs.Selection as spec;
ghost use Rattle.select.specs.Inner.Selecting.{saves_in, Below, AllBelow};

use crate::assembly::assemble;
use crate::part::{Entry, Part};
use crate::routine::routine_steps;
use frames::saved;
use icode::{Code, Registers, Routine};
use std::alloc::Global;
use word86::Fault;

// ---- what a routine is

fn is_procedure(number: usize, routine: Routine) -> bool
    ensures { result ≡ spec.is_procedure number routine }
{
    match routine {
        Routine::Procedure(own) => own == number,
        Routine::Main | Routine::Unserved | Routine::Nowhere => false,
    }
}

/// The vector of a procedure, if it is there and has one.
fn vector_in(code: &Code, number: usize) -> Option<u8>
    ensures { result ≡ spec.vector_in (slice_get code.now.procedures.items number) }
{
    match code.procedures.get(number) {
        None => None,
        Some(procedure) => procedure.vector,
    }
}

/// What leads into a procedure's part: of the procedures with a vector the first one serves it.
fn entry_for(code: &Code, number: usize, vector: Option<u8>) -> Entry
    ensures { result ≡ spec.entry_for code.now number vector }
{
    match vector {
        None => Entry::Call,
        Some(vector) => {
            if is_procedure(number, code.serving(vector)) {
                Entry::Vector(vector)
            } else {
                Entry::Call
            }
        }
    }
}

fn entry_of(code: &Code, routine: Routine) -> Entry
    ensures { result ≡ spec.entry_of code.now routine }
{
    match routine {
        Routine::Main => Entry::Main,
        Routine::Procedure(number) => entry_for(code, number, vector_in(code, number)),
        Routine::Unserved => Entry::Unserved,
        Routine::Nowhere => Entry::Call,
    }
}

/// The registers of a procedure.
fn registers_at(changed: &[Registers], number: usize) -> Registers
    ensures { result ≡ slice_index_or changed.now number none }
{
    match changed.get(number) {
        None => Registers::none(),
        Some(registers) => *registers,
    }
}

/// The registers that a routine saves, where procedures and what they call can change these.
pub(crate) fn saves_of(code: &Code, changed: &[Registers], routine: Routine) -> Registers
    ensures { result ≡ saves_in code.now changed.now routine }
{
    match routine {
        Routine::Procedure(number) => match vector_in(code, number) {
            None => Registers::none(),
            Some(_) => registers_at(changed, number),
        },
        Routine::Main | Routine::Unserved | Routine::Nowhere => Registers::none(),
    }
}

// ---- the order of parts

/// One more routine.
fn add(routines: &mut Vec<Routine>, routine: Routine) -> Result<(), Fault>
    ensures routines { OnOk result (routines.new.items ≡ routines.old.items ++ routine ∷ []) }
    ensures memory { IsOkUnless result Fault.Memory }
{
    routines.push(routine)?;
    Ok(())
}

/// One more routine, if it belongs to a section.
fn add_if(belongs: bool, routines: &mut Vec<Routine>, routine: Routine) -> Result<(), Fault>
    ensures routines { OnOk result (routines.new.items ≡ routines.old.items ++ cond belongs (routine ∷ []) []) }
    ensures memory { IsOkUnless result Fault.Memory }
{
    if belongs {
        add(routines, routine)
    } else {
        Ok(())
    }
}

/// The procedures of a section, and main if it is in it.
fn add_section(routines: &mut Vec<Routine>, code: &Code, number: usize) -> Result<(), Fault>
    ensures routines { OnOk result (routines.new.items ≡ routines.old.items ++ spec.section code.now number) }
    ensures memory { IsOkUnless result Fault.Memory }
{
    for (k, procedure) in code.procedures.iter().enumerate() {
        add_if(procedure.module == number, routines, Routine::Procedure(k))?;
    }
    add_if(code.main_module == number, routines, Routine::Main)
}

/// The sections before this one.
fn sections_before(alloc: Global, code: &Code, number: usize) -> Result<Vec<Routine>, Fault>
    ensures routines { IfOk result (λ routines. routines.items ≡ spec.sections_before code.now number) }
    ensures memory { IsOkUnless result Fault.Memory }
{
    let mut routines = Vec::new(alloc);
    for k in 0..number {
        add_section(&mut routines, code, k)?;
    }
    Ok(routines)
}

/// The routines of a program, in the order of their parts.
pub(crate) fn routines_of(alloc: Global, code: &Code) -> Result<Vec<Routine>, Fault>
    ensures routines { IfOk result (λ routines. routines.items ≡ spec.routines code.now) }
    ensures memory { IsOkUnless result Fault.Memory }
{
    let mut routines = sections_before(alloc, code, code.sections)?;
    add(&mut routines, Routine::Unserved)?;
    Ok(routines)
}

/// Notes the number of a procedure's part.
fn note(numbers: &mut Vec<usize>, routine: Routine, part: usize)
    requires { Below (length numbers.old.items) routine }
    ensures many { length numbers.new.items ≡ length numbers.old.items }
    ensures each { (q : ℕ) → slice_index numbers.new.items q ≡ cond (spec.is_procedure q routine) part (slice_index numbers.old.items q) }
{
    match routine {
        Routine::Procedure(number) => numbers[number] = part,
        Routine::Main | Routine::Unserved | Routine::Nowhere => {}
    }
}

/// The number of each procedure's part.
pub(crate) fn numbers_of(
    alloc: Global,
    code: &Code,
    routines: &[Routine],
) -> Result<Vec<usize>, Fault>
    requires { AllBelow (length code.now.procedures.items) routines.now }
    ensures each { IfOk result (λ numbers. (q : ℕ) → slice_index numbers.items q ≡ spec.part_in 0 0 routines.now q) }
    ensures memory { IsOkUnless result Fault.Memory }
{
    let mut numbers = vec![in alloc; 0usize; code.procedures.len()]?;
    for (part, routine) in routines.iter().enumerate() {
        note(&mut numbers, *routine, part);
    }
    Ok(numbers)
}

// ---- the parts

/// The part of a routine.
fn part(
    alloc: Global,
    code: &Code,
    changed: &[Registers],
    numbers: &[usize],
    own: usize,
    routine: Routine,
) -> Result<Part, Fault>
    requires { (q : ℕ) → slice_index numbers.now q ≡ spec.part_of code.now q }
    ensures part { IfOk result (λ p. spec.IsPartOf code.now (saves_in code.now changed.now) own routine p) }
    ensures memory { IsOkUnless result Fault.Memory }
{
    let saves = saves_of(code, changed, routine);
    let steps = routine_steps(alloc, saves, code.instructions(routine), numbers)?;
    let part = assemble(alloc, own, entry_of(code, routine), &steps)?;
    Ok(part)
}

/// The parts of routines, the first of which has this number.
fn parts_of(
    alloc: Global,
    code: &Code,
    changed: &[Registers],
    numbers: &[usize],
    first: usize,
    routines: &[Routine],
) -> Result<Vec<Part>, Fault>
    requires numbers { (q : ℕ) → slice_index numbers.now q ≡ spec.part_of code.now q }
    requires fits { first + length routines.now < 2 ^ 64 }
    ensures parts { IfOk result (λ parts. spec.ArePartsOf code.now (saves_in code.now changed.now) first routines.now parts.items) }
    ensures memory { IsOkUnless result Fault.Memory }
{
    let mut parts = Vec::new(alloc);
    for (k, routine) in routines.iter().enumerate() {
        parts.push(part(alloc, code, changed, numbers, first + k, *routine)?)?;
    }
    Ok(parts)
}

/// The parts of a section: of its procedures, in their order, and of main if it is the main module's. `Memory` is its one refusal.
pub fn select_section(alloc: Global, code: &Code, section: usize) -> Result<Vec<Part>, Fault>
    requires { section < code.now.sections }
    ensures parts { IfOk result (λ parts. spec.AreSection code.now section parts.items) }
    ensures memory { IsOkUnless result Fault.Memory }
{
    let changed = saved(alloc, code)?;
    let numbers = numbers_of(alloc, code, &routines_of(alloc, code)?)?;
    let before = sections_before(alloc, code, section)?;
    let mut routines = Vec::new(alloc);
    add_section(&mut routines, code, section)?;
    let parts = parts_of(alloc, code, &changed, &numbers, before.len(), &routines)?;
    Ok(parts)
}

/// The parts of a program: those of its sections, one after another, and last the part for the vectors without a procedure. An interrupt
/// procedure saves the registers that it and what it calls can change, and no others. `Memory` is its one refusal.
pub fn select(alloc: Global, code: &Code) -> Result<Vec<Part>, Fault>
    ensures parts { IfOk result (λ parts. spec.AreParts code.now parts.items) }
    ensures memory { IsOkUnless result Fault.Memory }
{
    let changed = saved(alloc, code)?;
    let routines = routines_of(alloc, code)?;
    let numbers = numbers_of(alloc, code, &routines)?;
    let parts = parts_of(alloc, code, &changed, &numbers, 0, &routines)?;
    Ok(parts)
}
