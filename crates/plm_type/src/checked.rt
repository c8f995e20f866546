//! A typed program, and what its type keeps: its trees are what its names say, and its procedures have an order.

ghost use Rattle.std.specs.Prelude.{◌≡◌, ℕ, ◌<◌, [], slice_get, length, Some, Contains};
ghost use Rattle.plm_type.specs.Inner.Sets.{Statements-set, Procedures-set};
ghost use Rattle.plm_type.specs.Next.{body_of};
ghost use Rattle.plm_type.specs.Programs.{faults, declared_procedures, main_tree, handler_number, handler_tree, procedures_of};
ghost use Rattle.plm_type.specs.Interrupts.{LetsIn, IsMisused};
ghost use Rattle.plm_type.specs.Reach.{row_of};
ghost use Rattle.plm_type.specs.Order.{place_in};
ghost use Rattle.plm_type.specs.Calls.{graph_of, IsRecursive};
ghost use Rattle.plm_type.specs.View as view;

use crate::program::{Procedure, Statement};
use plm_decl::Names;

/// A program that is typed, and whose procedures do not reach themselves: what its modules declare, and what main and each
/// procedure do.
#[derive(Drop)]
pub struct Program {
    pub(crate) names: Names,
    pub(crate) main: Vec<Box<Statement>>,
    pub(crate) procedures: Vec<Procedure>,
    pub(crate) order: Vec<usize>,
    pub(crate) handler_numbers: Vec<Option<usize>>,
    // Main does what the names say, and so does each procedure.
    ghost main_is: { view.statements_of main.items ≡ main_tree names } by { Statements-set (view.statements_of main.items) (main_tree names) },
    ghost procedures_are: { view.procedures_of procedures.items ≡ procedures_of names } by { Procedures-set (view.procedures_of procedures.items) (procedures_of names) },
    // For each vector the table has the procedure that serves it.
    ghost handlers_are: { (v : ℕ) → v < 256 → slice_get handler_numbers.items v ≡ Some (handler_number names v) },
    // The names have no fault of types.
    ghost no_fault: { faults names ≡ [] },
    // No interrupt procedure reaches ENABLE or HALT, and none is called, typed or with parameters.
    ghost lets_nothing_in: { (p : ℕ) → ¬ LetsIn (declared_procedures names) p },
    ghost none_misused: { (p : ℕ) → ¬ IsMisused names p },
    // No procedure reaches itself.
    ghost no_recursion: { (p : ℕ) → ¬ IsRecursive (procedures_of names) p },
    // Each procedure stands in the order once, after those that it calls.
    ghost only: { length order.items ≡ length (graph_of (procedures_of names)) },
    ghost each: { (p : ℕ) → p < length (graph_of (procedures_of names)) → slice_get order.items (place_in order.items p) ≡ Some p },
    ghost once: { (i p : ℕ) → slice_get order.items i ≡ Some p → place_in order.items p ≡ i },
    ghost later: { (p q : ℕ) → p < length (graph_of (procedures_of names)) → q < length (graph_of (procedures_of names)) → Contains (row_of (slice_get (graph_of (procedures_of names)) p)) q → place_in order.items q < place_in order.items p },
}

/// The statements of the procedure of this number, none where there is no such procedure.
fn body_at(procedures: &[Procedure], number: usize) -> &[Box<Statement>]
    ensures { view.statements_of result.now ≡ body_of (slice_get (view.procedures_of procedures.now) number) }
{
    match procedures.get(number) {
        Some(procedure) => procedure.body.as_slice(),
        None => &[],
    }
}

impl Program {
    ghost use Rattle.plm_type.specs.Checked.{AreTyped};

    /// What the modules declare. The program is what these names say, its types have no fault, and no procedure reaches
    /// itself: there is an order in which each stands after those that it calls.
    pub fn names(&self) -> &Names
        ensures names { result.now ≡ self.now.names }
        ensures typed { AreTyped self.now result.now }
    {
        &self.names
    }

    /// Main's statements.
    pub fn main(&self) -> &[Box<Statement>]
        ensures { result.now ≡ self.now.main.items }
    {
        self.main.as_slice()
    }

    /// Each procedure, in order of declaration.
    pub fn procedures(&self) -> &[Procedure]
        ensures { result.now ≡ self.now.procedures.items }
    {
        self.procedures.as_slice()
    }

    /// The numbers of all procedures, each once, after those of all that it calls.
    pub fn order(&self) -> &[usize]
        ensures { result.now ≡ self.now.order.items }
    {
        self.order.as_slice()
    }

    /// The number of the procedure that an interrupt of this vector enters: none where no procedure serves it. An EXTERNAL one serves no
    /// vector, and two that serve one are a fault of names (E309).
    pub fn handler_number(&self, vector: u8) -> Option<usize>
        ensures { result ≡ handler_number self.now.names vector }
    {
        match self.handler_numbers.get(usize::from(vector)) {
            Some(number) => *number,
            None => None,
        }
    }

    /// For each vector the number of the procedure that an interrupt of it enters, as `handler_number` answers it.
    pub fn handler_numbers(&self) -> &[Option<usize>]
        ensures { (v : ℕ) → v < 256 → slice_get result.now v ≡ Some (handler_number self.now.names v) }
    {
        self.handler_numbers.as_slice()
    }

    /// The statements of the procedure that an interrupt of this vector enters: none where it has no procedure.
    pub fn handler(&self, vector: u8) -> &[Box<Statement>]
        ensures { view.statements_of result.now ≡ handler_tree self.now.names vector }
    {
        match self.handler_number(vector) {
            Some(number) => body_at(&self.procedures, number),
            None => &[],
        }
    }
}
