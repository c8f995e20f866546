//! Events in the order of their turns.

ghost use Rattle.std.specs.Prelude.{◌≡◌, ◌≢◌, ℕ, ◌==◌, ◌≤◌, ◌-◌, ◌<◌, ◌+◌, ◌++◌, ◌∷◌, [], OnOk, OnErr, length, slice_index};
ghost use Rattle.std.specs.List.Sorted.{IsNonDecreasingBy};
ghost use Rattle.board.specs.Timetable.{due_at, last_turn};
ghost use Rattle.board.specs.Inner.Timetable.{AreBefore};

use std::alloc::Global;
use word86::{Event, Fault};

/// Events and their turns, which do not fall.
#[derive(Drop)]
pub(crate) struct Timetable {
    turns: Vec<u32>,
    events: Vec<Event>,
    ghost sorted: { IsNonDecreasingBy (λ n. n) turns.items },
    ghost paired: { length events.items ≡ length turns.items },
}

impl Timetable {
    pub(crate) fn new(alloc: Global) -> Timetable
        ensures turns { result.turns.items ≡ [] }
        ensures events { result.events.items ≡ [] }
    {
        Timetable {
            turns: Vec::new(alloc),
            events: Vec::new(alloc),
        }
    }

    pub(crate) fn is_empty(&self) -> bool
        ensures { result ≡ length self.now.turns.items == 0 }
    {
        self.turns.is_empty()
    }

    /// The last turn, or 0.
    pub(crate) fn last_turn(&self) -> u32
        ensures { result ≡ last_turn self.now.turns.items }
    {
        match self.turns.last() {
            Some(turn) => *turn,
            None => 0,
        }
    }

    /// One more event, at a turn that is not before the last one. Where memory is refused nothing is added.
    pub(crate) fn push(&mut self, turn: u32, event: Event) -> Result<(), Fault>
        requires { last_turn self.old.turns.items ≤ turn }
        ensures turns { OnOk result (self.new.turns.items ≡ self.old.turns.items ++ turn ∷ []) }
        ensures events { OnOk result (self.new.events.items ≡ self.old.events.items ++ event ∷ []) }
    {
        self.turns.push(turn)?;
        if self.events.push(event).is_err() {
            let _turn = self.turns.pop();
            return Err(Fault::Memory);
        }
        Ok(())
    }

    /// The events of this turn, in their order, found in logarithmic time.
    pub(crate) fn due(&self, turn: u32) -> &[Event]
        ensures { result.now ≡ due_at turn self.now.turns.items self.now.events.items }
    {
        due_in(&self.turns, &self.events, turn)
    }

    /// The first turn after this one that has events, or the greatest number, found in logarithmic time. Between the two no
    /// turn has any.
    pub(crate) fn next_turn(&self, turn: u32) -> u32
        ensures later { turn < 4294967295 → turn < result }
        ensures quiet { (t : ℕ) → turn < t → t < result → due_at t self.now.turns.items self.now.events.items ≡ [] }
    {
        next_in(&self.turns, turn)
    }
}

impl Timetable {
    /// How many events come before this turn, found in logarithmic time.
    pub(crate) fn count_before(&self, turn: u32) -> usize
        ensures { AreBefore turn self.now.turns.items result }
    {
        before_in(&self.turns, turn)
    }

    /// The events of a turn, in their order, and how many come before the next turn, where so many come before this one. Nothing is searched for.
    #[inline(always)]
    pub(crate) fn due_behind(&self, before: usize, turn: u32) -> (&[Event], usize)
        requires { AreBefore turn self.now.turns.items before }
        ensures due { result.0.now ≡ due_at turn self.now.turns.items self.now.events.items }
        ensures next { AreBefore (turn + 1) self.now.turns.items result.1 }
    {
        let next = past(&self.turns, before, turn);
        (&self.events[before..next], next)
    }

    /// The turn of the event behind those that come up to a turn, or the greatest number.
    #[inline(always)]
    pub(crate) fn turn_behind(&self, before: usize, turn: u32) -> u32
        requires { AreBefore (turn + 1) self.now.turns.items before }
        ensures later { turn < 4294967295 → turn < result }
        ensures quiet { (t : ℕ) → turn < t → t < result → due_at t self.now.turns.items self.now.events.items ≡ [] }
        ensures before { (t : ℕ) → turn < t → t ≤ result → AreBefore t self.now.turns.items before }
    {
        if before < self.turns.len() {
            self.turns[before]
        } else {
            u32::MAX
        }
    }
}

/// How many of the turns are before `turn`.
fn before_in(turns: &[u32], turn: u32) -> usize
    requires { IsNonDecreasingBy (λ n. n) turns.now }
    ensures { AreBefore turn turns.now result }
{
    turns.partition_point(|n| *n < turn)
}

/// The place behind the turns up to this one, from a place on before which no later one stands.
#[inline(always)]
fn past(turns: &[u32], from: usize, turn: u32) -> usize
    requires sorted { IsNonDecreasingBy (λ n. n) turns.now }
    requires before { AreBefore turn turns.now from }
    ensures later { from ≤ result }
    ensures next { AreBefore (turn + 1) turns.now result }
{
    let mut place = from;
    while place < turns.len() && turns[place] <= turn {
        place += 1;
    }
    place
}

/// The first of the turns that is above `turn`, or the greatest number.
fn next_in(turns: &[u32], turn: u32) -> u32
    requires { IsNonDecreasingBy (λ n. n) turns.now }
    ensures later { turn < 4294967295 → turn < result }
    ensures none { (t : ℕ) → turn < t → t < result → (i : ℕ) → i < length turns.now → slice_index turns.now i ≢ t }
{
    let next = turns.partition_point(|n| *n <= turn);
    if next < turns.len() {
        turns[next]
    } else {
        u32::MAX
    }
}

/// The events whose turn is `turn`, in their order.
fn due_in<'a>(turns: &[u32], events: &'a [Event], turn: u32) -> &'a [Event]
    requires sorted { IsNonDecreasingBy (λ n. n) turns.now }
    requires paired { length events.now ≡ length turns.now }
    ensures { result.now ≡ due_at turn turns.now events.now }
{
    let from = turns.partition_point(|n| *n < turn);
    let to = turns.partition_point(|n| *n <= turn);
    if from <= to {
        let (_, rest) = events.split_at(from);
        let (found, _) = rest.split_at(to - from);
        found
    } else {
        &events[..0]
    }
}
