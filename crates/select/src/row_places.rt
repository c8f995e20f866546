//! Where the instructions of routines lie in their parts: what a listing of the code goes by.

ghost use Rattle.std.specs.Prelude.{◌≡◌, ℕ, IfOk, IsOkUnless, map, slice_index};
ghost use Rattle.frames.specs.Counting.{AreSaved};
ghost use Rattle.select.specs.RowPlaces.{AreRowPlaces};
ghost use Rattle.select.specs.Selection as spec;

use crate::assembly::{LaidSteps, lay_out, number_at};
use crate::routine::{firsts_of, routine_steps};
use crate::selection::{numbers_of, routines_of, saves_of};
use frames::saved;
use icode::{Code, Registers, Routine};
use std::alloc::{AllocError, Global};
use word86::Fault;

/// The code of a program, with what places in its parts rest on: the registers that each procedure can change, and the number of its part.
#[derive(Drop)]
pub struct RowPlaces<'c> {
    code: &'c Code,
    changed: Vec<Registers>,
    numbers: Vec<usize>,
    ghost saved: { AreSaved code.now changed.items },
    ghost numbered: { (q : ℕ) → slice_index numbers.items q ≡ spec.part_of code.now q },
}

/// The places of the steps of these numbers.
fn places_at(alloc: Global, steps: &[usize], places: &[u16]) -> Result<Vec<u16>, AllocError>
    ensures { IfOk result (λ v. v.items ≡ map (slice_index places.now) steps.now) }
{
    steps
        .iter()
        .map(|step| number_at(places, *step))
        .collect(alloc)
}

impl<'c> RowPlaces<'c> {
    /// Those of a program's code. `Memory` is the one refusal.
    pub fn new(alloc: Global, code: &'c Code) -> Result<RowPlaces<'c>, Fault>
        ensures code { IfOk result (λ rows. rows.code.now ≡ code.now) }
        ensures memory { IsOkUnless result Fault.Memory }
    {
        let changed = saved(alloc, code)?;
        let numbers = numbers_of(alloc, code, &routines_of(alloc, code)?)?;
        Ok(RowPlaces {
            code,
            changed,
            numbers,
        })
    }

    /// Where the bytes of each instruction of a routine begin in its part, and at last where the part ends, modulo 65,536. `Memory` is the
    /// one refusal.
    pub fn of(&self, alloc: Global, routine: Routine) -> Result<Vec<u16>, Fault>
        ensures places { IfOk result (λ v. AreRowPlaces self.now.code.now routine v.items) }
        ensures memory { IsOkUnless result Fault.Memory }
    {
        let saves = saves_of(self.code, &self.changed, routine);
        let instructions = self.code.instructions(routine);
        let steps = routine_steps(alloc, saves, instructions, &self.numbers)?;
        let LaidSteps { places, .. } = lay_out(alloc, &steps)?;
        let firsts = firsts_of(alloc, saves, instructions)?;
        Ok(places_at(alloc, &firsts, &places)?)
    }
}
