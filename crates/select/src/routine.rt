//! The steps of a routine.

ghost use Rattle.std.specs.Prelude.{◌≡◌, ℕ, suc, ◌≤◌, ◌++◌, [], IfOk, IsOkUnless, OnOk, length, slice_index};
ghost use Rattle.icode.specs.Made.{IsMade};
ghost use Rattle.select.specs.Inner.Assembly.{AreSteps};
ghost use Rattle.select.specs.Rows.{plain, saved, with_register, registers_of, first_of, routine};

use crate::counts::{saved_count, steps_of};
use crate::part::Step;
use crate::put::{add, push};
use crate::rows::row;
use i86_table::Register16;
use icode::{Instruction, Registers};
use std::alloc::Global;
use word86::Fault;

/// A register is pushed, if it is to be saved.
fn push_if(steps: &mut Vec<Step>, is_saved: bool, register: Register16) -> Result<(), Fault>
    ensures steps { OnOk result (steps.new.items ≡ steps.old.items ++ plain (saved (with_register is_saved register []))) }
    ensures memory { IsOkUnless result Fault.Memory }
{
    if is_saved {
        add(steps, push(register))
    } else {
        Ok(())
    }
}

/// All registers that are to be saved are pushed.
#[tactic(auto, using(crate::proofs::Backs::all_saved))]
fn save(steps: &mut Vec<Step>, saves: Registers) -> Result<(), Fault>
    ensures steps { OnOk result (steps.new.items ≡ steps.old.items ++ plain (saved (registers_of saves))) }
    ensures memory { IsOkUnless result Fault.Memory }
{
    push_if(steps, saves.accumulator, Register16::Ax)?;
    push_if(steps, saves.right, Register16::Cx)?;
    push_if(steps, saves.high, Register16::Dx)?;
    push_if(steps, saves.address, Register16::Bx)?;
    push_if(steps, saves.frame, Register16::Bp)
}

/// The number of the step at which each row begins, and at last how many steps there are.
pub(crate) fn firsts_of(
    alloc: Global,
    saves: Registers,
    instructions: &[Instruction],
) -> Result<Vec<usize>, Fault>
    ensures many { IfOk result (λ firsts. length firsts.items ≡ suc (length instructions.now)) }
    ensures each { IfOk result (λ firsts. (k : ℕ) → k ≤ length instructions.now → slice_index firsts.items k ≡ first_of saves instructions.now k) }
    ensures memory { IsOkUnless result Fault.Memory }
{
    let mut firsts = Vec::with_capacity(alloc, instructions.len() + 1)?;
    let mut first = saved_count(saves);
    for instruction in instructions {
        firsts.push(first)?;
        // A row has few steps, and an instruction takes several bytes: so the sum is far below 2^64, and this `Memory` never comes.
        let Some(next) = first.checked_add(steps_of(saves, *instruction)) else {
            return Err(Fault::Memory);
        };
        first = next;
    }
    firsts.push(first)?;
    Ok(firsts)
}

/// The steps of a routine that saves these registers, where the procedures' parts have the numbers `parts`.
pub(crate) fn routine_steps(
    alloc: Global,
    saves: Registers,
    instructions: &[Instruction],
    parts: &[usize],
) -> Result<Vec<Step>, Fault>
    requires { IsMade instructions.now }
    ensures steps { IfOk result (λ steps. steps.items ≡ routine (slice_index parts.now) saves instructions.now) }
    ensures inside { IfOk result (λ steps. AreSteps steps.items) }
    ensures memory { IsOkUnless result Fault.Memory }
{
    let firsts = firsts_of(alloc, saves, instructions)?;
    let mut steps = Vec::with_capacity(alloc, firsts.last().copied().unwrap_or(0))?;
    save(&mut steps, saves)?;
    for (k, instruction) in instructions.iter().enumerate() {
        row(&mut steps, &firsts, parts, saves, k + 1, instruction)?;
    }
    Ok(steps)
}
