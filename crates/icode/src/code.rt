//! Code, and the places in it.

ghost use Rattle.std.specs.Prelude.{◌≡◌, ◌<◌, ℕ, Some, slice_get, position};
ghost use Rattle.icode.specs.Heights.{HasHeights, AreOrdered, instructions_of};
ghost use Rattle.icode.specs.Made.{IsMade};
ghost use Rattle.icode.specs.Vectors.{is_number};

use crate::instruction::Instruction;

/// Whose instructions: main's; those of a procedure by its number; those for a vector without a procedure, which are used up at
/// once. A quotient by what was read that there is not leads to one without instructions, where nothing goes on.
#[derive(Clone, Copy, PartialEq, Eq)]
pub enum Routine {
    Main,
    Procedure(usize),
    Unserved,
    Nowhere,
}

/// An instruction's place: its index among those of a routine.
#[derive(Clone, Copy)]
pub struct Position {
    pub routine: Routine,
    pub index: usize,
}

/// A word on the stack: a value, or where a call goes on.
#[derive(Clone, Copy)]
pub enum Word {
    Value(u16),
    Return(Position),
}

/// A procedure of the module with this number, from 0; an interrupt procedure has its vector.
#[derive(Drop)]
pub struct Procedure {
    pub module: usize,
    pub vector: Option<u8>,
    pub instructions: Vec<Instruction>,
}

/// A program's code: one section for each module, in which its procedures stand, and main if it is the main module. How many
/// values are pushed at a place can be told without running it, jumps lead to instructions, and no procedure reaches itself: they
/// have an order.
#[derive(Drop)]
pub struct Code {
    pub sections: usize,
    pub main_module: usize,
    pub main: Vec<Instruction>,
    pub procedures: Vec<Procedure>,
    /// The procedures' numbers, each after those that it calls.
    pub order: Vec<usize>,
    /// For each vector the number of the first procedure with it.
    pub handlers: Vec<Option<usize>>,
    pub ghost main_has_heights: { HasHeights main.items },
    pub ghost has_heights: { (p : ℕ) → HasHeights (instructions_of (slice_get procedures.items p)) },
    pub ghost main_made: { IsMade main.items },
    pub ghost made: { (p : ℕ) → IsMade (instructions_of (slice_get procedures.items p)) },
    pub ghost ordered: { AreOrdered order.items procedures.items },
    pub ghost handlers_are: { (v : ℕ) → v < 256 → slice_get handlers.items v ≡ Some (position (λ p. is_number p.vector v) procedures.items) },
}

impl Code {
    ghost use Rattle.icode.specs.Code.{code_of, serving};

    /// The instructions of a routine: none of a procedure that there is not.
    pub fn instructions(&self, routine: Routine) -> &[Instruction]
        ensures { result.now ≡ code_of self.now routine }
    {
        match routine {
            Routine::Main => self.main.as_slice(),
            Routine::Procedure(number) => match self.procedures.get(number) {
                None => &[],
                Some(procedure) => procedure.instructions.as_slice(),
            },
            Routine::Unserved => &[Instruction::Finish],
            Routine::Nowhere => &[],
        }
    }

    // The number of the first procedure with a vector.
    fn number_serving(&self, vector: u8) -> Option<usize>
        ensures { result ≡ position (λ p. is_number p.vector vector) self.now.procedures.items }
    {
        match self.handlers.get(usize::from(vector)) {
            Some(number) => *number,
            None => None,
        }
    }

    /// The routine that serves a vector: the first procedure with it, else the one for vectors without a procedure.
    pub fn serving(&self, vector: u8) -> Routine
        ensures { result ≡ serving self.now vector }
    {
        match self.number_serving(vector) {
            None => Routine::Unserved,
            Some(number) => Routine::Procedure(number),
        }
    }
}
