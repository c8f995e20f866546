//! Runs whose lines have their turns in front.

ghost use Rattle.std.specs.Prelude.{◌≡◌, ◌≤◌, ◌<◌, ◌++◌, ℕ, List, [], Option, map, option_map, IfOk, IfErr, MatchResult};
ghost use Rattle.word86.specs.declared.event.Event.{Event};
ghost use Rattle.word86.specs.Event.{event_label};
ghost use Rattle.word86.specs.Sink.{Writes};
ghost use Rattle.word86.specs.declared.fault.Fault.TheVariants.{At};
ghost use Rattle.word86.specs.declared.number.Number.TheVariants.{E704};
ghost use Rattle.ppi_kbd.specs.Chips.{ChipState};
ghost use Rattle.listing_map.specs.Lines.{label_line, opcode_line, end_line};
ghost use Rattle.board.specs.World.{World};
ghost use Rattle.board.specs.Machine.{Board as State};
ghost use Rattle.board.specs.Board.{Shows};
ghost use Rattle.board.specs.Trace.{opcode_of};
ghost use Rattle.board.specs.Run.{due_of};
ghost use Rattle.board.specs.Watched.{Lived, Ended};
ghost use Rattle.board.specs.Numbered.{numbered, numbered_lines, numbered_closing, RanNumbered, BrokeNumbered};
ghost use Rattle.board.specs.Inner.Counted.{Counted, CountedBy};
ghost use Rattle.board.specs.Inner.Stretch.{Lasted};
ghost use Rattle.board.specs.Inner.Steps.{answer_of};

use crate::board::Board;
use crate::run::{CANNOT_WRITE, End, Step};
use crate::schedule::Schedule;
use arrayvec::ArrayVec;
use cpu8086::Kind;
use listing_map::{put_end_line, put_label, put_opcode_line, put_turn_number};
use word86::{Event, Fault, Label, Sink, SinkFault};

/// Writes the line of a label behind its turn.
pub(crate) fn put_numbered<S: Sink>(turn: u32, label: &Label, sink: &mut S) -> Result<(), SinkFault>
    ensures { Writes (S.taken sink.old) (S.taken sink.new) (S.failures sink.old) (S.failures sink.new) (numbered turn (label_line label.now)) result }
{
    match put_turn_number(turn, sink) {
        Ok(()) => put_label(label, sink),
        Err(fault) => Err(fault),
    }
}

fn put_events<S: Sink>(turn: u32, events: &[Event], sink: &mut S) -> Result<(), SinkFault>
    ensures { Writes (S.taken sink.old) (S.taken sink.new) (S.failures sink.old) (S.failures sink.new) (numbered_lines turn (map event_label events.now)) result }
{
    for event in events {
        if let Err(fault) = put_numbered(turn, &event.label(), sink) {
            return Err(fault);
        }
    }
    Ok(())
}

fn put_labels<S: Sink>(turn: u32, labels: &[Label], sink: &mut S) -> Result<(), SinkFault>
    ensures { Writes (S.taken sink.old) (S.taken sink.new) (S.failures sink.old) (S.failures sink.new) (numbered_lines turn labels.now) result }
{
    for label in labels {
        if let Err(fault) = put_numbered(turn, label, sink) {
            return Err(fault);
        }
    }
    Ok(())
}

fn put_both<S: Sink>(
    turn: u32,
    events: &[Event],
    labels: &[Label],
    sink: &mut S,
) -> Result<(), SinkFault>
    ensures { Writes (S.taken sink.old) (S.taken sink.new) (S.failures sink.old) (S.failures sink.new) (numbered_lines turn (map event_label events.now) ++ numbered_lines turn labels.now) result }
{
    match put_events(turn, events, sink) {
        Ok(()) => put_labels(turn, labels, sink),
        Err(fault) => Err(fault),
    }
}

fn put_opcode<S: Sink>(turn: u32, address: u32, sink: &mut S) -> Result<(), SinkFault>
    ensures { Writes (S.taken sink.old) (S.taken sink.new) (S.failures sink.old) (S.failures sink.new) (numbered turn (opcode_line address)) result }
{
    match put_turn_number(turn, sink) {
        Ok(()) => put_opcode_line(address, sink),
        Err(fault) => Err(fault),
    }
}

fn put_end<S: Sink>(turns: u32, sink: &mut S) -> Result<(), SinkFault>
    ensures { Writes (S.taken sink.old) (S.taken sink.new) (S.failures sink.old) (S.failures sink.new) (numbered turns (end_line turns)) result }
{
    match put_turn_number(turns, sink) {
        Ok(()) => put_end_line(turns, sink),
        Err(fault) => Err(fault),
    }
}

/// Writes the line of the stop.
fn put_stop<S: Sink>(stop: u32, sink: &mut S) -> Result<End, Fault>
    ensures text { Writes (S.taken sink.old) (S.taken sink.new) (S.failures sink.old) (S.failures sink.new) (numbered stop (end_line stop)) result }
    ensures end { IfOk result (λ e. e ≡ End.Stopped) }
    ensures fault { IfErr result (λ e. e ≡ At 0 1 E704) }
{
    match put_end(stop, sink) {
        Ok(()) => Ok(End::Stopped),
        Err(_) => Err(CANNOT_WRITE),
    }
}

/// What ends the text where the turn met bytes that are no instruction.
fn put_closing<S: Sink>(turn: u32, kind: Kind, sink: &mut S) -> Result<(), SinkFault>
    ensures { Writes (S.taken sink.old) (S.taken sink.new) (S.failures sink.old) (S.failures sink.new) (numbered_closing turn kind) result }
{
    match kind {
        Kind::Opcode(address) => put_opcode(turn, address, sink),
        Kind::Ack | Kind::Instr | Kind::Wait => Ok(()),
    }
}

/// Writes the lines of a turn: those of the events that came, and then its own.
fn put_turn<S: Sink>(
    turn: u32,
    events: &[Event],
    labels: &[Label],
    kind: Kind,
    sink: &mut S,
) -> Result<(), SinkFault>
    ensures { Writes (S.taken sink.old) (S.taken sink.new) (S.failures sink.old) (S.failures sink.new) ((numbered_lines turn (map event_label events.now) ++ numbered_lines turn labels.now) ++ numbered_closing turn kind) result }
{
    match put_both(turn, events, labels, sink) {
        Ok(()) => put_closing(turn, kind, sink),
        Err(fault) => Err(fault),
    }
}

/// Writes the lines of a turn, drops its labels, and says how the run goes on.
fn put_lines<S: Sink>(
    turn: u32,
    events: &[Event],
    labels: &mut ArrayVec<Label, 4>,
    kind: Kind,
    sink: &mut S,
) -> Step
    ensures empty { labels.new.items ≡ [] }
    ensures text { Writes (S.taken sink.old) (S.taken sink.new) (S.failures sink.old) (S.failures sink.new) ((numbered_lines turn (map event_label events.now) ++ numbered_lines turn labels.old.items) ++ numbered_closing turn kind) (answer_of result) }
    ensures end { IfOk (answer_of result) (λ e. e ≡ option_map End.Opcode (opcode_of kind)) }
{
    let put = put_turn(turn, events, labels.as_slice(), kind, sink);
    *labels = ArrayVec::new();
    match put {
        Ok(()) => match kind {
            Kind::Opcode(address) => Step::Opcode(address),
            Kind::Ack | Kind::Instr | Kind::Wait => Step::Next,
        },
        Err(_) => Step::Broken,
    }
}

impl Board {
    /// The turns from one to before another, none of which has events, with their lines, and how the run goes on. Those in which the
    /// processor waits are not made.
    fn number_quietly<S: Sink>(
        &mut self,
        from: u32,
        to: u32,
        labels: &mut ArrayVec<Label, 4>,
        sink: &mut S,
    ) -> Step
        requires order { from ≤ to }
        requires none { labels.old.items ≡ [] }
        ensures empty { labels.new.items ≡ [] }
        ensures counted { (due : ℕ → List Event) → ((t : ℕ) → from ≤ t → t < to → due t ≡ []) → (stop : ℕ) → to ≤ stop → (b : State (World ChipState)) (first : Option (List ℕ)) (failed : ℕ) → Counted due b from self.old first (S.taken sink.old) failed (S.failures sink.old) → CountedBy due stop b to self.new first (S.taken sink.new) failed (S.failures sink.new) result }
        ensures lasted { (due : ℕ → List Event) → ((t : ℕ) → from ≤ t → t < to → due t ≡ []) → (stop : ℕ) → to ≤ stop → (b : State (World ChipState)) → Lived due b from self.old → Lasted due stop b to self.new result }
    {
        let mut turn = from;
        while turn < to {
            let made = self.stretch(turn, to, labels);
            turn += made.turns;
            match put_lines(turn - 1, &[], labels, made.kind, sink) {
                Step::Next => {}
                step => return step,
            }
            if let Kind::Wait = made.kind {
                return Step::Next;
            }
        }
        Step::Next
    }

    /// A turn with its events, and then the turns to before another, none of which has events.
    fn number_stretch<S: Sink>(
        &mut self,
        turn: u32,
        events: &[Event],
        end: u32,
        labels: &mut ArrayVec<Label, 4>,
        sink: &mut S,
    ) -> Step
        requires order { turn < end }
        requires none { labels.old.items ≡ [] }
        ensures empty { labels.new.items ≡ [] }
        ensures counted { (due : ℕ → List Event) → due turn ≡ events.now → ((t : ℕ) → turn < t → t < end → due t ≡ []) → (stop : ℕ) → end ≤ stop → (b : State (World ChipState)) (first : Option (List ℕ)) (failed : ℕ) → Counted due b turn self.old first (S.taken sink.old) failed (S.failures sink.old) → CountedBy due stop b end self.new first (S.taken sink.new) failed (S.failures sink.new) result }
        ensures lasted { (due : ℕ → List Event) → due turn ≡ events.now → ((t : ℕ) → turn < t → t < end → due t ≡ []) → (stop : ℕ) → end ≤ stop → (b : State (World ChipState)) → Lived due b turn self.old → Lasted due stop b end self.new result }
    {
        let kind = self.eventful_turn(turn, events, labels);
        match put_lines(turn, events, labels, kind, sink) {
            Step::Next => self.number_quietly(turn + 1, end, labels, sink),
            step => step,
        }
    }

    /// The turns of a schedule, and how the run goes on.
    fn number_turns<S: Sink>(&mut self, schedule: &Schedule, sink: &mut S) -> Step
        ensures counted { (b : State (World ChipState)) → Shows self.old b → CountedBy (due_of schedule.now) schedule.now.stop b schedule.now.stop self.new (S.taken sink.old) (S.taken sink.new) (S.failures sink.old) (S.failures sink.new) result }
        ensures lasted { (b : State (World ChipState)) → Lived (due_of schedule.now) b 0 self.old → Lasted (due_of schedule.now) schedule.now.stop b schedule.now.stop self.new result }
    {
        let mut labels = ArrayVec::new();
        let mut turn = 0;
        while turn < schedule.stop() {
            let pause = schedule.next_pause(turn);
            match self.number_stretch(turn, schedule.due(turn), pause, &mut labels, sink) {
                Step::Next => turn = pause,
                step => return step,
            }
        }
        Step::Next
    }

    /// Runs turns as `run` does, and writes each line after its turn and a blank, as `100 TICK 5`; `END` stands after the stop's turn. It takes
    /// no memory.
    ///
    /// The one refusal is E704, where the sink failed in this call. What the sink took is then a beginning of the text.
    pub fn run_numbered<S: Sink>(&mut self, schedule: &Schedule, sink: &mut S) -> Result<End, Fault>
        ensures run { (b : State (World ChipState)) → Shows self.old b → MatchResult result
            (RanNumbered (due_of schedule.now) schedule.now.stop b self.new (S.taken sink.old) (S.taken sink.new) (S.failures sink.old) (S.failures sink.new))
            (λ e. BrokeNumbered (due_of schedule.now) schedule.now.stop b self.new (S.taken sink.old) (S.taken sink.new) (S.failures sink.old) (S.failures sink.new)) }
        ensures died { (b : State (World ChipState)) → Shows self.old b → IfOk result (Ended (due_of schedule.now) b schedule.now.stop self.new) }
        ensures fault { IfErr result (λ e. e ≡ At 0 1 E704) }
    {
        self.died = None;
        match self.number_turns(schedule, sink) {
            Step::Next => put_stop(schedule.stop(), sink),
            Step::Opcode(address) => Ok(End::Opcode(address)),
            Step::Broken => Err(CANNOT_WRITE),
        }
    }
}
