//! The runnable meaning of a program: its state, the choice of what comes next (a step of the program, an event, an interrupt's
//! beginning or end, waiting), and what each choice does or why it does not come.

ghost use Rattle.std.specs.Prelude.{◌≡◌, ℕ, IfOk, IfErr, IsSome, None, true, option_map};
ghost use Rattle.word86.specs.Action.{on_after, halted_after};
ghost use Rattle.word86.specs.declared.fault.Fault.TheVariants as fault;
ghost use Rattle.ppi_kbd.specs.BoardChips.{board_chips};
ghost use Rattle.ppi_kbd.specs.Chips.{ChipState};
ghost use Rattle.ppi_kbd.specs.Ports.{Shows, is_up};
ghost use Rattle.plm_decl.specs.Placement as placed;
ghost use Rattle.plm_decl.specs.Placement.{IsPlacement};
ghost use Rattle.plm_type.specs.Rest.{Handler};
ghost use Rattle.plm_meaning.specs.declared.meaning.Stop.TheVariants as stop;
ghost use Rattle.plm_meaning.specs.Store.{shared};
ghost use Rattle.plm_meaning.specs.System.{is_interrupted, settled, counted, Program as Moves, Occurs, Enter, Leave, Idle};
ghost use Rattle.plm_meaning.specs.Context.{Part, to_run_of};
ghost use Rattle.plm_meaning.specs.Shown.{store_of};
ghost use Rattle.plm_meaning.specs.Inner.Redex.{acting, FitsIn};
ghost use Rattle.plm_meaning.specs.Meaning.{choice_of, state_of, Opens, Made, Stopped};
ghost use Rattle.plm_meaning.specs.Inner.Meaning.{Performed, StopsAt};

mod next_store;

use crate::around::Surroundings;
use crate::context::{Context, Focus};
use crate::opening::first_objects;
use crate::redex::{Action, go_on, handler_action, main_action, next_action};
use crate::settle::settle;
use crate::store::Store;
pub use next_store::ObjectStore;
use plm_decl::Placement;
use plm_type::{Line, Program};
use ppi_kbd::Ports;
use std::alloc::{AllocError, Global};
use word86::{Event, Fault, Label, PowerOn};

/// What comes next.
#[derive(Clone, Copy, PartialEq, Eq)]
pub enum Choice {
    /// A step of the interrupt procedure that runs, else of main.
    Program,
    /// An event occurs outside.
    Event(Event),
    /// An interrupt is acknowledged, and its procedure begins.
    Enter,
    /// The interrupt procedure is used up, and main goes on.
    Leave,
    /// Main is halted, and waits.
    Idle,
}

/// What a step shows: its label, if it has one.
#[derive(Debug, Clone, Copy, PartialEq, Eq)]
pub struct Step {
    pub label: Option<Label>,
}

/// Why there is no step.
#[derive(Debug, Clone, Copy, PartialEq, Eq)]
pub enum Stop {
    /// The choice has neither a step nor a Bad one.
    NotAllowed,
    /// The step would be a Bad one: its module, from 0, and its line.
    Bad(Line),
    /// A growth of memory was refused.
    Memory,
}

impl From<AllocError> for Stop {
    ghost from_gives = { λ _ e. e ≡ stop.Memory };

    fn from(_refused: AllocError) -> Stop {
        Stop::Memory
    }
}

/// A run of a program, as far as it has come.
#[derive(Drop)]
pub struct Meaning<'a> {
    alloc: Global,
    around: Surroundings<'a>,
    main: Context<'a>,
    handler: Option<Context<'a>>,
    on: bool,
    halted: bool,
    store: Store,
    /// Since an interrupt could be taken: the silent steps, and the ENABLEs and HALTs.
    silents: u8,
    switches: u8,
}

const QUIET: Step = Step { label: None };

impl<'a> Meaning<'a> {
    /// The first state of a program: main begins, interrupts are off, the chips are at reset, and each object has its initial
    /// bytes, and after them those of RAM at its place. Asks that the placement fits the program's objects.
    ///
    /// # Errors
    ///
    /// `Fault::Memory` where a growth of memory was refused.
    pub fn new(
        alloc: Global,
        program: &'a Program,
        placement: &'a Placement,
        power: PowerOn,
    ) -> Result<Meaning<'a>, Fault>
        requires { IsPlacement placement.now.offsets.items (placed.sizes_of program.now.names) }
        ensures opens { IfOk result (λ m. Opens m program.now.names placement.now power) }
        ensures refused { IfErr result (λ f. f ≡ fault.Memory) }
    {
        let around = Surroundings::new(alloc, program, placement)?;
        let (ram, colour, monochrome) = power.into_parts();
        let objects = first_objects(alloc, &around, &ram)?;
        let main = around.main();
        Ok(Meaning {
            alloc,
            around,
            main: Context {
                focus: Focus::Statements(main),
                frames: Vec::new(alloc),
            },
            handler: None,
            on: false,
            halted: false,
            store: Store {
                objects,
                colour,
                monochrome,
                ports: Ports::reset(),
            },
            silents: 0,
            switches: 0,
        })
    }

    /// Makes the step of a choice.
    ///
    /// # Errors
    ///
    /// `NotAllowed` where the choice has no step, `Bad` where its step is a Bad one, `Memory` where a growth of memory was
    /// refused; the run is then unchanged.
    // Inlined, as callers know the choice: what is left of it is that one's step.
    #[inline(always)]
    pub fn step(&mut self, choice: Choice) -> Result<Step, Stop>
        ensures made { IfOk result (λ s. Made self.old self.new (choice_of choice) s.label) }
        ensures stopped { IfErr result (λ e. Stopped self.old self.new (choice_of choice) e) }
        ensures run { self.new.around ≡ self.old.around }
    {
        match choice {
            Choice::Program => self.program_step(),
            Choice::Event(event) => Ok(self.event(event)),
            Choice::Enter => self.enter(),
            Choice::Leave => self.leave(),
            Choice::Idle => self.idle(),
        }
    }

    /// Whether an interrupt can be taken: interrupts are on, no interrupt procedure runs, and INT is up. `Enter` has a step just then.
    pub fn is_interrupted(&self) -> bool
        ensures can { (p : ChipState) → Shows self.now.store.ports p → result ≡ is_interrupted (shared board_chips) (option_map (λ h. Handler (to_run_of h)) self.now.handler) self.now.on (store_of self.now.store p) }
        ensures up { result ≡ true → is_up self.now.store.ports ≡ true }
    {
        self.handler.is_none() && self.on && self.store.ports.int_line()
    }

    // The counts begin again unless an interrupt can be taken.
    fn settle_counts(&mut self)
        ensures state { (p : ChipState) → Shows self.old.store.ports p → state_of self.new p ≡ settled (shared board_chips) (state_of self.old p) }
        ensures ports { self.new.store.ports ≡ self.old.store.ports }
        ensures around { self.new.around ≡ self.old.around }
    {
        if !self.is_interrupted() {
            self.silents = 0;
            self.switches = 0;
        }
    }

    fn event(&mut self, event: Event) -> Step
        ensures made { Made self.old self.new (Occurs event) result.label }
        ensures run { self.new.around ≡ self.old.around }
    {
        self.store.ports.event(event);
        self.settle_counts();
        Step {
            label: Some(event.label()),
        }
    }

    fn enter(&mut self) -> Result<Step, Stop>
        ensures made { IfOk result (λ s. Made self.old self.new Enter s.label) }
        ensures stopped { IfErr result (λ e. Stopped self.old self.new Enter e) }
        ensures run { self.new.around ≡ self.old.around }
    {
        if !self.is_interrupted() {
            return Err(Stop::NotAllowed);
        }
        let vector = self.store.ports.acknowledge();
        self.handler = Some(Context {
            focus: Focus::Statements(self.around.handler(vector)),
            frames: Vec::new(self.alloc),
        });
        self.on = false;
        self.halted = false;
        self.silents = 0;
        self.switches = 0;
        Ok(Step {
            label: Some(Label::Ack(vector)),
        })
    }

    fn leave(&mut self) -> Result<Step, Stop>
        ensures made { IfOk result (λ s. Made self.old self.new Leave s.label) }
        ensures stopped { IfErr result (λ e. Stopped self.old self.new Leave e) }
        ensures run { self.new.around ≡ self.old.around }
    {
        let over = match &mut self.handler {
            None => return Err(Stop::NotAllowed),
            Some(context) => {
                settle(self.alloc, context)?;
                let mut next = Action::Silent;
                next_action(context, &self.around, &mut next);
                match next {
                    Action::Ended | Action::Returned => true,
                    Action::Silent
                    | Action::Touch(_)
                    | Action::Enable
                    | Action::Disable
                    | Action::Halt
                    | Action::Bad(_) => false,
                }
            }
        };
        if !over {
            return Err(Stop::NotAllowed);
        }
        self.handler = None;
        self.on = true;
        self.silents = 0;
        self.switches = 0;
        Ok(QUIET)
    }

    fn idle(&mut self) -> Result<Step, Stop>
        ensures made { IfOk result (λ s. Made self.old self.new Idle s.label) }
        ensures stopped { IfErr result (λ e. Stopped self.old self.new Idle e) }
        ensures run { self.new.around ≡ self.old.around }
    {
        if self.handler.is_none() && self.halted && !self.is_interrupted() {
            Ok(QUIET)
        } else {
            Err(Stop::NotAllowed)
        }
    }

    fn program_step(&mut self) -> Result<Step, Stop>
        ensures made { IfOk result (λ s. Made self.old self.new Moves s.label) }
        ensures stopped { IfErr result (λ e. Stopped self.old self.new Moves e) }
        ensures run { self.new.around ≡ self.old.around }
    {
        if self.handler.is_some() {
            self.handler_step()
        } else {
            self.main_step()
        }
    }

    fn handler_step(&mut self) -> Result<Step, Stop>
        requires { IsSome self.old.handler }
        ensures made { IfOk result (λ s. Made self.old self.new Moves s.label) }
        ensures stopped { IfErr result (λ e. Stopped self.old self.new Moves e) }
        ensures run { self.new.around ≡ self.old.around }
    {
        let context = match &mut self.handler {
            None => return Err(Stop::NotAllowed),
            Some(context) => context,
        };
        settle(self.alloc, context)?;
        let mut next = Action::Silent;
        handler_action(context, &self.around, &mut next);
        let on = is_on_after(&next, self.on);
        let label = perform(context, &mut self.store, &self.around, &next)?;
        self.on = on;
        self.silents = 0;
        self.switches = 0;
        Ok(Step { label })
    }

    fn main_step(&mut self) -> Result<Step, Stop>
        requires { self.old.handler ≡ None }
        ensures made { IfOk result (λ s. Made self.old self.new Moves s.label) }
        ensures stopped { IfErr result (λ e. Stopped self.old self.new Moves e) }
        ensures run { self.new.around ≡ self.old.around }
    {
        if self.halted {
            return Err(Stop::NotAllowed);
        }
        settle(self.alloc, &mut self.main)?;
        let mut next = Action::Silent;
        main_action(&self.main, &self.around, &mut next);
        let Some((silents, switches)) = counted(
            self.is_interrupted(),
            &next,
            self.silents,
            self.switches,
        ) else {
            return Err(Stop::NotAllowed);
        };
        let on = is_on_after(&next, self.on);
        let halted = is_halted_after(&next);
        let label = perform(&mut self.main, &mut self.store, &self.around, &next)?;
        self.on = on;
        self.halted = halted;
        self.silents = silents;
        self.switches = switches;
        self.settle_counts();
        Ok(Step { label })
    }
}

// The counts after a step of main. Where an interrupt can be taken, it comes after at most 8 silent steps and at most one ENABLE or
// HALT.
fn counted(can: bool, next: &Action, silents: u8, switches: u8) -> Option<(u8, u8)>
    ensures { (k : ℕ → Part) → result ≡ counted can (acting next.now k) silents switches }
{
    if !can {
        return Some((0, 0));
    }
    match next {
        Action::Silent if silents < 8 => Some((silents + 1, switches)),
        Action::Enable | Action::Halt if switches < 1 => Some((silents, switches + 1)),
        Action::Silent
        | Action::Touch(_)
        | Action::Enable
        | Action::Disable
        | Action::Halt
        | Action::Ended
        | Action::Returned
        | Action::Bad(_) => None,
    }
}

// Whether interrupts are on after an action.
fn is_on_after(next: &Action, on: bool) -> bool
    ensures { (k : ℕ → Part) → result ≡ on_after (acting next.now k) on }
{
    match next {
        Action::Enable | Action::Halt => true,
        Action::Disable => false,
        Action::Silent | Action::Touch(_) | Action::Ended | Action::Returned | Action::Bad(_) => on,
    }
}

// Whether main is halted after an action.
fn is_halted_after(next: &Action) -> bool
    ensures { (k : ℕ → Part) → result ≡ halted_after (acting next.now k) }
{
    match next {
        Action::Halt => true,
        Action::Silent
        | Action::Touch(_)
        | Action::Enable
        | Action::Disable
        | Action::Ended
        | Action::Returned
        | Action::Bad(_) => false,
    }
}

// Makes what the context does next: its label.
#[inline(always)]
fn perform<'a>(
    context: &mut Context<'a>,
    store: &mut Store,
    around: &Surroundings<'a>,
    next: &Action,
) -> Result<Option<Label>, Stop>
    requires { FitsIn next.now }
    ensures made { IfOk result (λ l. Performed context.old store.old context.new store.new around.now next.now l) }
    ensures stopped { IfErr result (λ e. (StopsAt e next.now) × (context.new ≡ context.old) × (store.new ≡ store.old)) }
{
    match next {
        Action::Silent => {
            go_on(context, around, 0);
            Ok(None)
        }
        Action::Touch(access) => {
            let (answer, label) = store.touch(access);
            go_on(context, around, answer);
            Ok(label)
        }
        Action::Enable | Action::Disable | Action::Halt => {
            context.focus = Focus::Statements(&[]);
            Ok(None)
        }
        Action::Ended | Action::Returned => Err(Stop::NotAllowed),
        Action::Bad(line) => Err(Stop::Bad(*line)),
    }
}
