//! The meaning of a program as a program: a turn is one step.

ghost use Rattle.std.specs.Prelude.{◌≡◌, ◌∷◌, ◌++◌, ◌≤◌, ◌-◌, ℕ, List, [], Option, None, false, map, replicate, IfOk, IfErr, MatchResult};
ghost use Rattle.word86.specs.declared.event.Event.{Event};
ghost use Rattle.word86.specs.declared.label.Label.{Label};
ghost use Rattle.word86.specs.declared.fault.Fault.TheVariants as fault;
ghost use Rattle.word86.specs.declared.number.Number.TheVariants.{E704};
ghost use Rattle.word86.specs.Sink.{Appends, Cut, Rises, Writes};
ghost use Rattle.plm_decl.specs.declared.names.Names.{Names};
ghost use Rattle.plm_decl.specs.declared.placement.Placement.{Placement};
ghost use Rattle.plm_decl.specs.Placement as placed;
ghost use Rattle.plm_decl.specs.Placement.{IsPlacement};
ghost use Rattle.plm_meaning.specs.Meaning.{choice_of};
ghost use Rattle.plm_meaning.specs.Shown.{labels_of};
ghost use Rattle.plm_meaning.specs.System.{Choice as Chosen};
ghost use Rattle.board.specs.Run.{due_of};
ghost use Rattle.board.specs.Trace.{lines};
ghost use Rattle.plm86.specs.Mean.{Alternatives, one_step, choices_from, meant, run_text, mean_status_of, IsCutShort};
ghost use Rattle.plm86.specs.Inner.Meaning.{a_step, event_choices, Came, IsIdle, Far, Ended};

use crate::status::status_of_fault;
use board::Schedule;
use listing_map::{put_end_line, put_label};
use plm_decl::Placement;
use plm_meaning::{Choice, Meaning, Step, Stop};
use plm_type::{Line, Program};
use std::alloc::Global;
use word86::{Event, Fault, Label, Number, PowerOn, Sink, SinkFault};

/// How a run of the meaning ended.
#[derive(Clone, Copy)]
pub enum MeanEnd {
    /// At the schedule's stop.
    Stopped,
    /// Before the first Bad step: its module, from 0, and its line.
    Bad(usize, u32),
}

// What ends a run before its stop.
#[derive(Clone, Copy)]
pub(crate) enum Ending {
    Bad(Line),
    Memory,
    Broken,
}

pub(crate) const CANNOT_WRITE: Fault = Fault::At(0, 1, Number::E704);

// Makes the step of a choice. Where it is not allowed, nothing comes.
pub(crate) fn take(meaning: &mut Meaning<'_>, choice: Choice) -> Result<Option<Step>, Ending>
    ensures came { Came meaning.old meaning.new (choice_of choice ∷ []) result }
    ensures none { result ≡ Ok None → IsIdle meaning.old (choice_of choice ∷ []) }
{
    match meaning.step(choice) {
        Ok(step) => Ok(Some(step)),
        Err(Stop::NotAllowed) => Ok(None),
        Err(Stop::Bad(at)) => Err(Ending::Bad(at)),
        Err(Stop::Memory) => Err(Ending::Memory),
    }
}

// Makes the step of a turn: an interrupt is entered where it can be; else the program makes a step, or leaves its interrupt procedure.
// Where neither is allowed, main waits or is used up, and nothing comes.
pub(crate) fn take_step(meaning: &mut Meaning<'_>) -> Result<Option<Step>, Ending>
    ensures came { Came meaning.old meaning.new a_step result }
    ensures none { result ≡ Ok None → IsIdle meaning.old a_step }
{
    if meaning.is_interrupted() {
        return take(meaning, Choice::Enter);
    }
    match meaning.step(Choice::Program) {
        Ok(step) => Ok(Some(step)),
        Err(Stop::NotAllowed) => take(meaning, Choice::Leave),
        Err(Stop::Bad(at)) => Err(Ending::Bad(at)),
        Err(Stop::Memory) => Err(Ending::Memory),
    }
}

// Writes the line of a label, if there is one. It is put into the loop of steps, most of which have none.
#[inline(always)]
fn put_line<S: Sink>(label: Option<Label>, sink: &mut S) -> Result<(), SinkFault>
    ensures { Writes (S.taken sink.old) (S.taken sink.new) (S.failures sink.old) (S.failures sink.new) (lines (labels_of label)) result }
{
    match label {
        Some(label) => put_label(&label, sink),
        None => Ok(()),
    }
}

// Shows what came, by its line: whether anything did.
#[inline(always)]
fn show<S: Sink>(came: Result<Option<Step>, Ending>, sink: &mut S) -> Result<bool, Ending>
    ensures far { (m n : Meaning) (choices : List (Chosen Event)) (names : Names) (placement : Placement) (whole : List Label × MeanEnd) (left : Alternatives) (old : Option (List ℕ)) (before : ℕ)
        → Came m n choices came → Far names placement whole (choices ∷ left) m old (S.taken sink.old) before (S.failures sink.old)
        → MatchResult result
        (λ _. Far names placement whole left n old (S.taken sink.new) before (S.failures sink.new))
        (Ended whole old (S.taken sink.new) before (S.failures sink.new)) }
    ensures none { result ≡ Ok false → came ≡ Ok None }
{
    match came {
        Err(ending) => Err(ending),
        Ok(None) => Ok(false),
        Ok(Some(step)) => match put_line(step.label, sink) {
            Ok(()) => Ok(true),
            Err(_) => Err(Ending::Broken),
        },
    }
}

// The events of a turn.
fn take_events<S: Sink>(
    meaning: &mut Meaning<'_>,
    events: &[Event],
    sink: &mut S,
) -> Result<(), Ending>
    ensures { (names : Names) (placement : Placement) (whole : List Label × MeanEnd) (left : Alternatives) (old : Option (List ℕ)) (before : ℕ)
        → Far names placement whole (event_choices events.now ++ left) meaning.old old (S.taken sink.old) before (S.failures sink.old)
        → MatchResult result
        (λ _. Far names placement whole left meaning.new old (S.taken sink.new) before (S.failures sink.new))
        (Ended whole old (S.taken sink.new) before (S.failures sink.new)) }
{
    for event in events {
        let _came = show(take(meaning, Choice::Event(*event)), sink)?;
    }
    Ok(())
}

// The steps of this many turns, between which no event comes. Where one turn has no step, neither have those after it: they are not
// made.
fn take_steps<S: Sink>(meaning: &mut Meaning<'_>, count: u32, sink: &mut S) -> Result<(), Ending>
    ensures { (names : Names) (placement : Placement) (whole : List Label × MeanEnd) (left : Alternatives) (old : Option (List ℕ)) (before : ℕ)
        → Far names placement whole (replicate count one_step ++ left) meaning.old old (S.taken sink.old) before (S.failures sink.old)
        → MatchResult result
        (λ _. Far names placement whole left meaning.new old (S.taken sink.new) before (S.failures sink.new))
        (Ended whole old (S.taken sink.new) before (S.failures sink.new)) }
{
    for _turn in 0..count {
        let came = show(take_step(meaning), sink)?;
        if !came {
            return Ok(());
        }
    }
    Ok(())
}

// The turns up to the schedule's stop.
fn take_turns<S: Sink>(
    meaning: &mut Meaning<'_>,
    schedule: &Schedule,
    sink: &mut S,
) -> Result<(), Ending>
    ensures { (names : Names) (placement : Placement) (whole : List Label × MeanEnd) (old : Option (List ℕ)) (before : ℕ)
        → Far names placement whole (choices_from (due_of schedule.now) schedule.now.stop 0) meaning.old old (S.taken sink.old) before (S.failures sink.old)
        → MatchResult result
        (λ _. Far names placement whole [] meaning.new old (S.taken sink.new) before (S.failures sink.new))
        (Ended whole old (S.taken sink.new) before (S.failures sink.new)) }
{
    let mut turn = 0;
    while turn < schedule.stop() {
        let pause = schedule.next_pause(turn);
        take_events(meaning, schedule.due(turn), sink)?;
        take_steps(meaning, pause - turn, sink)?;
        turn = pause;
    }
    Ok(())
}

/// Runs the meaning of a program from power-on under a schedule: a turn is one step. The events due come first; then an interrupt
/// is entered if it can, else the program makes a step or leaves its interrupt procedure, else main waits. It writes the labels'
/// lines, and `END n` at the schedule's stop. Asks that the placement fits the program's objects.
///
/// # Errors
///
/// E704 where the sink failed in this call, and `Fault::Memory` where a growth of memory was refused: what the sink took is then
/// a beginning of the run's text.
pub fn mean_run<S: Sink>(
    alloc: Global,
    program: &Program,
    placement: &Placement,
    power_on: PowerOn,
    schedule: &Schedule,
    sink: &mut S,
) -> Result<MeanEnd, Fault>
    requires { IsPlacement placement.now.offsets.items (placed.sizes_of program.now.names) }
    ensures ran { IfOk result (λ e. (e ≡ (meant program.now.names placement.now power_on (due_of schedule.now) schedule.now.stop).1)
        × Appends (S.taken sink.old) (S.taken sink.new) (run_text schedule.now.stop (meant program.now.names placement.now power_on (due_of schedule.now) schedule.now.stop))
        × (S.failures sink.new ≡ S.failures sink.old)) }
    ensures refused { IfErr result (λ f. IsCutShort f (S.taken sink.old) (S.taken sink.new) (S.failures sink.old) (S.failures sink.new) (run_text schedule.now.stop (meant program.now.names placement.now power_on (due_of schedule.now) schedule.now.stop))) }
{
    let mut meaning = Meaning::new(alloc, program, placement, power_on)?;
    match take_turns(&mut meaning, schedule, sink) {
        Ok(()) => match put_end_line(schedule.stop(), sink) {
            Ok(()) => Ok(MeanEnd::Stopped),
            Err(_) => Err(CANNOT_WRITE),
        },
        Err(Ending::Bad(at)) => Ok(MeanEnd::Bad(at.module, at.line)),
        Err(Ending::Memory) => Err(Fault::Memory),
        Err(Ending::Broken) => Err(CANNOT_WRITE),
    }
}

/// The program's status for a run's end: 0 at the schedule's stop, 3 where the sink failed (E704), else 1.
pub fn mean_status(end: &Result<MeanEnd, Fault>) -> u8
    ensures { result ≡ mean_status_of end.now }
{
    match end {
        Ok(MeanEnd::Stopped) => 0,
        Err(Fault::At(_, _, number)) => status_of_fault(*number),
        Ok(MeanEnd::Bad(_, _)) | Err(Fault::Memory) => 1,
    }
}
