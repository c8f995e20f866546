//! The store into a RAM object that a run's next step makes, told before the step.

ghost use Rattle.std.specs.Prelude.{◌≡◌, ℕ, IfOk};
ghost use Rattle.ppi_kbd.specs.Chips.{ChipState};
ghost use Rattle.plm_meaning.specs.Context.{Part};
ghost use Rattle.plm_meaning.specs.Inner.Redex.{acting};
ghost use Rattle.plm_meaning.specs.Meaning.{state_of};
ghost use Rattle.plm_meaning.specs.NextStore.{running, store_of};

use crate::meaning::Meaning;
use crate::redex::{Action, handler_action, main_action};
use crate::settle::settle;
use plm_type::Place;
use std::alloc::AllocError;
use word86::{Access, Width};

/// A store into a RAM object.
#[derive(Clone, Copy)]
pub struct ObjectStore {
    /// The object's number, in order of declaration.
    pub object: usize,
    /// The index in the object of the first byte that is stored.
    pub place: u16,
    pub width: Width,
    pub value: u16,
}

// The store that an action makes.
fn stored_by(next: &Action) -> Option<ObjectStore>
    ensures { (k : ℕ → Part) → result ≡ store_of (acting next.now k) }
{
    match next {
        Action::Touch(Access::Write(width, Place::Ram(object, place), value)) => {
            Some(ObjectStore {
                object: *object,
                place: *place,
                width: *width,
                value: *value,
            })
        }
        Action::Touch(
            Access::Write(_, Place::Screen(_, _), _)
            | Access::Read(_, _)
            | Access::Input(_, _)
            | Access::Output(_, _, _),
        )
        | Action::Silent
        | Action::Enable
        | Action::Disable
        | Action::Halt
        | Action::Ended
        | Action::Returned
        | Action::Bad(_) => None,
    }
}

impl Meaning<'_> {
    /// The store into a RAM object that the next step of the program makes, of the interrupt procedure that runs or else of main; none
    /// where that step is another. The run stands where it stood.
    ///
    /// # Errors
    ///
    /// A growth of memory was refused.
    pub fn next_store(&mut self) -> Result<Option<ObjectStore>, AllocError>
        ensures store { IfOk result (λ found. (p : ChipState) → found ≡ store_of (running self.new (state_of self.new p))) }
        ensures state { (p : ChipState) → state_of self.new p ≡ state_of self.old p }
        ensures ports { self.new.store.ports ≡ self.old.store.ports }
        ensures run { self.new.around ≡ self.old.around }
    {
        let mut next = Action::Silent;
        match &mut self.handler {
            Some(context) => {
                settle(self.alloc, context)?;
                handler_action(context, &self.around, &mut next);
                Ok(stored_by(&next))
            }
            None => {
                settle(self.alloc, &mut self.main)?;
                main_action(&self.main, &self.around, &mut next);
                Ok(stored_by(&next))
            }
        }
    }
}
