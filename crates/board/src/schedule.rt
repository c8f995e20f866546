//! Schedules: what comes from outside at which turn, and when the run stops.

ghost use Rattle.std.specs.Prelude.{◌≡◌, ◌+◌, ◌≢◌, ◌<◌, ◌≤◌, ℕ, [], IfOk, IfErr, Some};
ghost use Rattle.word86.specs.declared.fault.Fault.TheVariants.{Memory};
ghost use Rattle.board.specs.Timetable.{due_at};
ghost use Rattle.board.specs.Inner.Timetable.{AreBefore};
ghost use Rattle.board.specs.Schedule.{read_lines, IsRead, fault_of};

use crate::reading;
use crate::timetable::Timetable;
use std::alloc::Global;
use word86::{Event, Fault, Number};

/// A schedule: the byte that memory holds at power-on, the events of each turn, and the turn at which the run stops.
#[derive(Drop)]
pub struct Schedule {
    fill: u8,
    stop: u32,
    timetable: Timetable,
}

impl Schedule {
    /// The byte that every place of RAM and of both pages of the screen holds at power-on: FILL's, or 0.
    pub fn fill(&self) -> u8
        ensures { result ≡ self.now.fill }
    {
        self.fill
    }

    /// How many turns are run: turns 0 to one less.
    pub fn stop(&self) -> u32
        ensures { result ≡ self.now.stop }
    {
        self.stop
    }

    /// The events of this turn, in the schedule's order.
    pub fn due(&self, turn: u32) -> &[Event]
        ensures { result.now ≡ due_at turn self.now.timetable.turns.items self.now.timetable.events.items }
    {
        self.timetable.due(turn)
    }

    /// How many events come before a turn, found in logarithmic time.
    pub(crate) fn count_before(&self, turn: u32) -> usize
        ensures { AreBefore turn self.now.timetable.turns.items result }
    {
        self.timetable.count_before(turn)
    }

    /// The events of a turn, in the schedule's order, and how many come before the next turn, where so many come before this one.
    #[inline(always)]
    pub(crate) fn due_behind(&self, before: usize, turn: u32) -> (&[Event], usize)
        requires { AreBefore turn self.now.timetable.turns.items before }
        ensures due { result.0.now ≡ due_at turn self.now.timetable.turns.items self.now.timetable.events.items }
        ensures next { AreBefore (turn + 1) self.now.timetable.turns.items result.1 }
    {
        self.timetable.due_behind(before, turn)
    }

    /// The turn of the event behind those that come up to a turn, or the one to which a part of a run goes where that comes first.
    #[inline(always)]
    pub(crate) fn pause_behind(&self, before: usize, turn: u32, to: u32) -> u32
        requires order { turn < to }
        requires before { AreBefore (turn + 1) self.now.timetable.turns.items before }
        ensures later { turn < result }
        ensures within { result ≤ to }
        ensures quiet { (t : ℕ) → turn < t → t < result → due_at t self.now.timetable.turns.items self.now.timetable.events.items ≡ [] }
        ensures before { AreBefore result self.now.timetable.turns.items before }
    {
        self.timetable.turn_behind(before, turn).min(to)
    }

    /// The first turn after this one that has events, or the stop where it comes first, found in logarithmic time: between the
    /// two no turn has any.
    pub fn next_pause(&self, turn: u32) -> u32
        requires { turn < self.now.stop }
        ensures later { turn < result }
        ensures within { result ≤ self.now.stop }
        ensures quiet { (t : ℕ) → turn < t → t < result → due_at t self.now.timetable.turns.items self.now.timetable.events.items ≡ [] }
    {
        self.timetable.next_turn(turn).min(self.stop)
    }
}

/// Reads the schedule that a text spells, or answers its first fault: E701 at a line that spells no item, E702 at a line out of
/// order, E703 at the last line (1 if the text is empty) where STOP is missing. `line_law` and `fault_law` say which line spells
/// what and which fault a text has. The one other refusal is want of memory.
pub fn read_schedule(alloc: Global, text: &[u8]) -> Result<Schedule, Fault>
    ensures ok { IfOk result (λ s. IsRead (read_lines text.now) s) }
    ensures err { IfErr result (λ e. e ≢ Memory → Some e ≡ fault_of (read_lines text.now)) }
{
    let Ok(reading) = reading::read_lines(alloc, text) else {
        return Err(Fault::Memory);
    };
    if let Some((line, number)) = reading.fault {
        return Err(Fault::At(0, line, number));
    }
    let Some(stop) = reading.stop else {
        return Err(Fault::At(0, reading.line.max(1), Number::E703));
    };
    Ok(Schedule {
        fill: reading.fill.unwrap_or(0),
        stop,
        timetable: reading.timetable,
    })
}
