//! Runs that are watched: to an address, with names behind the lines, or with what changes on lines and ports.
//!
//! The board goes as in a run; what is written has no contract: `tests/watched` compares it with the trace of `run`.

ghost use Rattle.std.specs.Prelude.{◌≡◌, ◌≤◌, ◌<◌, ◌+◌, ℕ, List, [], IfOk, IfErr};
ghost use Rattle.word86.specs.declared.event.Event.{Event};
ghost use Rattle.ppi_kbd.specs.Chips.{ChipState};
ghost use Rattle.board.specs.World.{World};
ghost use Rattle.board.specs.Machine.{Board as State};
ghost use Rattle.board.specs.Board.{Shows};
ghost use Rattle.board.specs.Run.{board_after, due_of};
ghost use Rattle.board.specs.Watched.{IsRunFault, is_dead, FirstDead, Stands};
ghost use Rattle.board.specs.Inner.Stretch.{IsWithin, StandsBy};

use crate::board::Board;
use crate::numbered::put_numbered;
use crate::place_names::{PlaceName, put_place_name};
use crate::run::{CANNOT_WRITE, End};
use crate::schedule::Schedule;
use crate::signal_changes::SignalChanges;
use crate::stretch::first_death;
use arrayvec::ArrayVec;
use cpu8086::{Cpu, Kind, Phase, physical};
use i86_table::Segment;
use listing_map::{put_behind_turn, put_end_line, put_opcode_line, trace_line};
use std::alloc::{AllocError, Global};
use word86::{Event, Fault, Label, Sink, WriterSink};

/// What is wanted of a run beside its trace.
#[derive(Clone, Copy)]
pub struct Watch<'w> {
    /// In front of each line its turn.
    pub turns: bool,
    /// The physical address at which the run stops, before the instruction there.
    pub stop_at: Option<u32>,
    /// Behind each line the name of what it is of; none where no names are wanted.
    pub names: Option<&'w [PlaceName<'w>]>,
}

/// How a watched run ended, and how many turns it made.
#[derive(Clone, Copy)]
pub struct WatchedEnd {
    /// Whether it came to a stop, or met bytes that are no instruction.
    pub end: End,
    /// How many turns were made, that which met such bytes too.
    pub turns: u32,
}

/// Writes a line, after its turn where that is wanted.
fn put_line<S: Sink>(watch: Watch<'_>, turn: u32, line: &[u8], sink: &mut S) -> Result<(), Fault>
    ensures { IfErr result IsRunFault }
{
    match put_behind_turn(watch.turns.then_some(turn), line, sink) {
        Ok(()) => Ok(()),
        Err(_) => Err(CANNOT_WRITE),
    }
}

/// Makes the line of a label with its name.
fn make_line(names: &[PlaceName<'_>], label: &Label, line: &mut Vec<u8>) -> Result<(), AllocError> {
    line.clear();
    if trace_line(label, &mut WriterSink::new(&mut *line)).is_err() {
        return Err(AllocError);
    }
    let _end = line.pop();
    put_place_name(line, names, label)?;
    line.push(b'\n')?;
    Ok(())
}

/// Writes the line of a label without a name.
fn put_nameless<S: Sink>(
    watch: Watch<'_>,
    turn: u32,
    label: &Label,
    sink: &mut S,
) -> Result<(), Fault>
    ensures { IfErr result IsRunFault }
{
    let put = if watch.turns {
        put_numbered(turn, label, sink)
    } else {
        listing_map::put_label(label, sink)
    };
    match put {
        Ok(()) => Ok(()),
        Err(_) => Err(CANNOT_WRITE),
    }
}

/// Writes the line of a label. One with a name is made in `line`: so no memory is wanted for each.
fn put_label<S: Sink>(
    watch: Watch<'_>,
    turn: u32,
    label: &Label,
    line: &mut Vec<u8>,
    sink: &mut S,
) -> Result<(), Fault>
    ensures { IfErr result IsRunFault }
{
    let Some(names) = watch.names else {
        return put_nameless(watch, turn, label, sink);
    };
    match make_line(names, label, line) {
        Ok(()) => put_line(watch, turn, line.as_slice(), sink),
        Err(_) => Err(Fault::Memory),
    }
}

fn put_labels<S: Sink>(
    watch: Watch<'_>,
    turn: u32,
    labels: &[Label],
    line: &mut Vec<u8>,
    sink: &mut S,
) -> Result<(), Fault>
    ensures { IfErr result IsRunFault }
{
    for label in labels {
        if let Err(fault) = put_label(watch, turn, label, line, sink) {
            return Err(fault);
        }
    }
    Ok(())
}

fn put_events<S: Sink>(
    watch: Watch<'_>,
    turn: u32,
    events: &[Event],
    line: &mut Vec<u8>,
    sink: &mut S,
) -> Result<(), Fault>
    ensures { IfErr result IsRunFault }
{
    for event in events {
        if let Err(fault) = put_label(watch, turn, &event.label(), line, sink) {
            return Err(fault);
        }
    }
    Ok(())
}

/// Makes the last line of a run, of which the number in front is that of the turn before the last one where bytes were no instruction.
fn make_last_line(end: WatchedEnd, line: &mut Vec<u8>) -> Result<u32, AllocError> {
    line.clear();
    let sink = &mut WriterSink::new(&mut *line);
    let (put, turn) = match end.end {
        End::Stopped => (put_end_line(end.turns, sink), end.turns),
        End::Opcode(address) => (put_opcode_line(address, sink), end.turns.saturating_sub(1)),
    };
    match put {
        Ok(()) => Ok(turn),
        Err(_) => Err(AllocError),
    }
}

/// Writes the line of a run's end, and answers that end.
fn put_end<S: Sink>(
    watch: Watch<'_>,
    end: WatchedEnd,
    line: &mut Vec<u8>,
    sink: &mut S,
) -> Result<WatchedEnd, Fault>
    ensures same { IfOk result (λ e. e ≡ end) }
    ensures fault { IfErr result IsRunFault }
{
    let turn = make_last_line(end, line)?;
    put_line(watch, turn, line.as_slice(), sink)?;
    Ok(end)
}

/// Whether a processor waits for an interrupt, and lets none in.
pub(crate) fn waits_for_nothing(cpu: &Cpu) -> bool
    ensures { result ≡ is_dead cpu.now }
{
    match cpu.phase {
        Phase::Halted => !cpu.registers.lets_interrupts_in(),
        Phase::Running | Phase::AfterSti | Phase::Stopped(_) => false,
    }
}

/// The end of a run before this turn.
fn stopped(turn: u32) -> WatchedEnd
    ensures { result.turns ≡ turn }
{
    WatchedEnd {
        end: End::Stopped,
        turns: turn,
    }
}

/// The end of a run whose last turn met bytes that are no instruction.
fn met(address: u32, turns: u32) -> WatchedEnd
    ensures { result.turns ≡ turns }
{
    WatchedEnd {
        end: End::Opcode(address),
        turns,
    }
}

/// The turn before which an address is looked for again, at which the run stops; or where the turns end.
fn next_look(stop_at: Option<u32>, turn: u32, to: u32) -> u32
    requires { turn < to }
    ensures later { turn < result }
    ensures within { result ≤ to }
{
    match stop_at {
        Some(_) => turn + 1,
        None => to,
    }
}

impl Board {
    /// The physical address of the instruction that comes next.
    fn next_address(&self) -> u32 {
        let registers = &self.cpu.registers;
        physical(registers.segment(Segment::Cs), registers.ip())
    }

    /// Whether an instruction comes next, and it is the one at this address.
    fn stands_at(&self, address: Option<u32>) -> bool {
        match self.cpu.phase {
            Phase::Running | Phase::AfterSti => address == Some(self.next_address()),
            Phase::Halted | Phase::Stopped(_) => false,
        }
    }

    /// Whether the processor waits for an interrupt that it does not let in: nothing is done any more.
    pub fn is_dead(&self) -> bool
        ensures { (b : State (World ChipState)) → Shows self.now b → result ≡ is_dead b.cpu }
    {
        waits_for_nothing(&self.cpu)
    }

    /// After a run of so many turns: the first turn at whose beginning the processor waited with interrupts off, up to the turn that would
    /// come next. `None` says that the processor never did.
    pub fn turn_of_death(&self, turns: u32) -> Option<u32>
        ensures { (due : ℕ → List Event) (b : State (World ChipState)) → Stands due b turns self.now → FirstDead due b (turns + 1) result }
    {
        first_death(self.died, turns, self.is_dead())
    }

    /// Writes what changed in a turn, where that is wanted, and the turn's lines.
    fn tell_turn<S: Sink, W: Sink>(
        &self,
        watch: Watch<'_>,
        turn: u32,
        events: &[Event],
        labels: &[Label],
        line: &mut Vec<u8>,
        changes: &mut SignalChanges,
        waves: &mut W,
        sink: &mut S,
    ) -> Result<(), Fault>
        ensures { IfErr result IsRunFault }
    {
        if changes.may_change(events, labels) {
            let interrupt = self.attached.ports.int_line();
            changes.note_turn(turn, events, labels, interrupt, waves)?;
        }
        match put_events(watch, turn, events, line, sink) {
            Ok(()) => put_labels(watch, turn, labels, line, sink),
            Err(fault) => Err(fault),
        }
    }

    /// The turns from one to before another, none of which has events, with their lines; and how the run ended, if it ended before one of
    /// them. Those in which the processor waits are not made. Where an address is given at which the run stops, it is looked for at each turn.
    fn watch_quietly<S: Sink, W: Sink>(
        &mut self,
        from: u32,
        to: u32,
        watch: Watch<'_>,
        labels: &mut ArrayVec<Label, 4>,
        line: &mut Vec<u8>,
        changes: &mut SignalChanges,
        waves: &mut W,
        sink: &mut S,
    ) -> Result<Option<WatchedEnd>, Fault>
        requires order { from ≤ to }
        requires none { labels.old.items ≡ [] }
        ensures empty { IfOk result (λ _. labels.new.items ≡ []) }
        ensures within { IfOk result (IsWithin to) }
        ensures stands { (due : ℕ → List Event) → ((t : ℕ) → from ≤ t → t < to → due t ≡ []) → (b : State (World ChipState)) → Stands due b from self.old → IfOk result (StandsBy due b to self.new) }
        ensures fault { IfErr result IsRunFault }
    {
        let mut turn = from;
        while turn < to {
            if self.stands_at(watch.stop_at) {
                return Ok(Some(stopped(turn)));
            }
            let next = next_look(watch.stop_at, turn, to);
            let made = self.stretch(turn, next, labels);
            turn += made.turns;
            let shown = labels.as_slice();
            self.tell_turn(watch, turn - 1, &[], shown, line, changes, waves, sink)?;
            labels.clear();
            match made.kind {
                Kind::Ack | Kind::Instr => {}
                Kind::Wait => return Ok(None),
                Kind::Opcode(address) => return Ok(Some(met(address, turn))),
            }
        }
        Ok(None)
    }

    /// A turn with its events, and then the turns to before another, none of which has events; and how the run ended, if it ended before
    /// one of them.
    fn watch_stretch<S: Sink, W: Sink>(
        &mut self,
        turn: u32,
        events: &[Event],
        end: u32,
        watch: Watch<'_>,
        labels: &mut ArrayVec<Label, 4>,
        line: &mut Vec<u8>,
        changes: &mut SignalChanges,
        waves: &mut W,
        sink: &mut S,
    ) -> Result<Option<WatchedEnd>, Fault>
        requires order { turn < end }
        requires none { labels.old.items ≡ [] }
        ensures empty { IfOk result (λ _. labels.new.items ≡ []) }
        ensures within { IfOk result (IsWithin end) }
        ensures stands { (due : ℕ → List Event) → due turn ≡ events.now → ((t : ℕ) → turn < t → t < end → due t ≡ []) → (b : State (World ChipState)) → Stands due b turn self.old → IfOk result (StandsBy due b end self.new) }
        ensures fault { IfErr result IsRunFault }
    {
        if self.stands_at(watch.stop_at) {
            return Ok(Some(stopped(turn)));
        }
        let kind = self.eventful_turn(turn, events, labels);
        let shown = labels.as_slice();
        self.tell_turn(watch, turn, events, shown, line, changes, waves, sink)?;
        labels.clear();
        if let Kind::Opcode(address) = kind {
            return Ok(Some(met(address, turn + 1)));
        }
        self.watch_quietly(turn + 1, end, watch, labels, line, changes, waves, sink)
    }

    /// The turns of a schedule, and how the run ended.
    fn watch_turns<S: Sink, W: Sink>(
        &mut self,
        schedule: &Schedule,
        watch: Watch<'_>,
        line: &mut Vec<u8>,
        changes: &mut SignalChanges,
        waves: &mut W,
        sink: &mut S,
    ) -> Result<WatchedEnd, Fault>
        ensures within { IfOk result (λ e. e.turns ≤ schedule.now.stop) }
        ensures stands { (b : State (World ChipState)) → Stands (due_of schedule.now) b 0 self.old → IfOk result (λ e. Stands (due_of schedule.now) b e.turns self.new) }
        ensures fault { IfErr result IsRunFault }
    {
        let mut labels = ArrayVec::new();
        let mut turn = 0;
        while turn < schedule.stop() {
            let pause = schedule.next_pause(turn);
            let events = schedule.due(turn);
            let end = self.watch_stretch(
                turn,
                events,
                pause,
                watch,
                &mut labels,
                line,
                changes,
                waves,
                sink,
            )?;
            if let Some(end) = end {
                return Ok(end);
            }
            turn = pause;
        }
        Ok(stopped(turn))
    }

    /// Runs turns as `run` does, and writes the lines of its trace, each as it is wanted. Where the run comes to the address at which it is
    /// to stop, it ends there as at a schedule's stop. What changes on lines and ports is noted where that is wanted, and its text goes to
    /// `waves` as it comes. The memory that is taken does not grow with the run.
    ///
    /// Its refusals are want of memory, and E704 where one of the sinks failed.
    pub fn run_watched<S: Sink, W: Sink>(
        &mut self,
        alloc: Global,
        schedule: &Schedule,
        watch: Watch<'_>,
        changes: &mut SignalChanges,
        waves: &mut W,
        sink: &mut S,
    ) -> Result<WatchedEnd, Fault>
        ensures within { IfOk result (λ e. e.turns ≤ schedule.now.stop) }
        ensures state { IfOk result (λ e. (b : State (World ChipState)) → Shows self.old b → Shows self.new (board_after (due_of schedule.now) e.turns b)) }
        ensures died { IfOk result (λ e. (b : State (World ChipState)) → Shows self.old b → Stands (due_of schedule.now) b e.turns self.new) }
        ensures fault { IfErr result IsRunFault }
    {
        self.died = None;
        let mut line = Vec::new(alloc);
        let end = self.watch_turns(schedule, watch, &mut line, changes, waves, sink)?;
        put_end(watch, end, &mut line, sink)
    }
}
