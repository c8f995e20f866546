//! Runs of the meaning whose lines have their turns in front, or that tell each store into a variable.
//!
//! What is written has no contract: `tests/watched` compares it with the trace of `mean`.

ghost use Rattle.plm_decl.specs.Placement.{IsPlacement};
ghost use Rattle.plm_decl.specs.Placement as placed;

use crate::mean::{CANNOT_WRITE, Ending, MeanEnd, take, take_step};
use board::Schedule;
use listing_map::{put_behind_turn, put_end_line, trace_line};
use plm_decl::{Names, Placement};
use plm_meaning::{Choice, Meaning, ObjectStore, Step};
use plm_token::same_name;
use plm_type::Program;
use std::alloc::{AllocError, Global};
use word86::{Event, Fault, PowerOn, Sink, SinkFault, Width, WriterSink};

/// What is watched: whether lines have their turns in front, and a RAM object, by its number and its name.
#[derive(Clone, Copy)]
pub(crate) struct Watching<'n> {
    pub turns: bool,
    pub object: Option<(usize, &'n [u8])>,
}

/// What stands behind the last period of a path.
fn last_part(path: &[u8]) -> &[u8] {
    let mut part = path;
    for (place, byte) in path.iter().enumerate() {
        if *byte == b'.' {
            part = &path[place + 1..];
        }
    }
    part
}

/// What a name means among the objects in RAM.
#[derive(Clone, Copy)]
pub(crate) enum Meant<'n> {
    Nothing,
    /// One object, by its number and its path.
    Object(usize, &'n [u8]),
    /// The paths of two whose last part it is, and no whole path.
    Several(&'n [u8], &'n [u8]),
}

impl Watching<'_> {
    /// The turn as it stands in front of a line, where it does.
    fn front(self, turn: u32) -> Option<u32> {
        self.turns.then_some(turn)
    }
}

impl From<SinkFault> for Ending {
    fn from(_broken: SinkFault) -> Ending {
        Ending::Broken
    }
}

impl<'n> Meant<'n> {
    /// What it means where its last part is that of this object too.
    fn or(self, number: usize, path: &'n [u8]) -> Meant<'n> {
        match self {
            Meant::Nothing => Meant::Object(number, path),
            Meant::Object(_, first) => Meant::Several(first, path),
            Meant::Several(_, _) => self,
        }
    }
}

/// The RAM object with this path, or else that whose path ends in it.
pub(crate) fn object_meant<'n>(names: &'n Names, name: &[u8]) -> Meant<'n> {
    let mut meant = Meant::Nothing;
    for (number, object) in names.objects.iter().enumerate() {
        let path = object.path.as_slice();
        if same_name(path, name) {
            return Meant::Object(number, path);
        }
        if same_name(last_part(path), name) {
            meant = meant.or(number, path);
        }
    }
    meant
}

/// Writes the line of what came, if it shows something.
fn put_step<S: Sink>(
    alloc: Global,
    watching: Watching<'_>,
    turn: u32,
    came: Option<Step>,
    sink: &mut S,
) -> Result<(), Ending> {
    let Some(Step { label: Some(label) }) = came else {
        return Ok(());
    };
    let mut line = Vec::new(alloc);
    if trace_line(&label, &mut WriterSink::new(&mut line)).is_err() {
        return Err(Ending::Memory);
    }
    Ok(put_behind_turn(watching.front(turn), &line, sink)?)
}

/// The line of a store: its place in the object, the byte or the word that is stored, and the object's name.
fn store_line(alloc: Global, name: &[u8], store: ObjectStore) -> Result<Vec<u8>, AllocError> {
    let ObjectStore { place, value, .. } = store;
    let words = match store.width {
        Width::Byte => format!(in alloc; "SET {place:04X} {value:02X} ")?,
        Width::Word => format!(in alloc; "SETW {place:04X} {value:04X} ")?,
    };
    let mut line = Vec::from_slice(alloc, words.as_str().as_bytes())?;
    line.extend_from_slice(name)?;
    line.push(b'\n')?;
    Ok(line)
}

/// The store into the variable that the turn's step makes, if it makes one.
fn watched_store(
    meaning: &mut Meaning<'_>,
    watching: Watching<'_>,
) -> Result<Option<ObjectStore>, Ending> {
    let Some((number, _)) = watching.object else {
        return Ok(None);
    };
    // (an interrupt is entered first)
    if meaning.is_interrupted() {
        return Ok(None);
    }
    match meaning.next_store() {
        Ok(found) => Ok(found.filter(|store| store.object == number)),
        Err(_refused) => Err(Ending::Memory),
    }
}

/// Writes a store into the variable.
fn put_store<S: Sink>(
    alloc: Global,
    watching: Watching<'_>,
    turn: u32,
    store: Option<ObjectStore>,
    sink: &mut S,
) -> Result<(), Ending> {
    let (Some((_, name)), Some(store)) = (watching.object, store) else {
        return Ok(());
    };
    let Ok(line) = store_line(alloc, name, store) else {
        return Err(Ending::Memory);
    };
    Ok(put_behind_turn(watching.front(turn), &line, sink)?)
}

/// The events of a turn.
fn take_events<S: Sink>(
    alloc: Global,
    watching: Watching<'_>,
    turn: u32,
    meaning: &mut Meaning<'_>,
    events: &[Event],
    sink: &mut S,
) -> Result<(), Ending> {
    for event in events {
        let came = take(meaning, Choice::Event(*event))?;
        put_step(alloc, watching, turn, came, sink)?;
    }
    Ok(())
}

/// The step of a turn, and the store that it makes.
fn take_turn<S: Sink>(
    alloc: Global,
    watching: Watching<'_>,
    turn: u32,
    meaning: &mut Meaning<'_>,
    sink: &mut S,
) -> Result<(), Ending> {
    let store = watched_store(meaning, watching)?;
    match take_step(meaning) {
        // (where main is halted its next store does not come)
        Ok(None) => Ok(()),
        Ok(Some(step)) => {
            put_step(alloc, watching, turn, Some(step), sink)?;
            put_store(alloc, watching, turn, store, sink)
        }
        Err(Ending::Bad(at)) => {
            put_behind_turn(watching.front(turn), b"", sink)?;
            Err(Ending::Bad(at))
        }
        Err(Ending::Memory) => Err(Ending::Memory),
        Err(Ending::Broken) => Err(Ending::Broken),
    }
}

/// The turns up to the schedule's stop, and the last line.
fn take_turns<S: Sink>(
    alloc: Global,
    watching: Watching<'_>,
    meaning: &mut Meaning<'_>,
    schedule: &Schedule,
    sink: &mut S,
) -> Result<(), Ending> {
    let stop = schedule.stop();
    for turn in 0..stop {
        take_events(alloc, watching, turn, meaning, schedule.due(turn), sink)?;
        take_turn(alloc, watching, turn, meaning, sink)?;
    }
    put_behind_turn(watching.front(stop), b"", sink)?;
    Ok(put_end_line(stop, sink)?)
}

/// Runs the meaning of a program as `mean_run` does, and writes its lines as they are wanted, and one for each store into the variable.
///
/// # Errors
///
/// Those of `mean_run`.
pub(crate) fn mean_watched<S: Sink>(
    alloc: Global,
    program: &Program,
    placement: &Placement,
    power_on: PowerOn,
    schedule: &Schedule,
    watching: Watching<'_>,
    sink: &mut S,
) -> Result<MeanEnd, Fault>
    requires { IsPlacement placement.now.offsets.items (placed.sizes_of program.now.names) }
{
    let mut meaning = Meaning::new(alloc, program, placement, power_on)?;
    let taken = take_turns(alloc, watching, &mut meaning, schedule, sink);
    drop(meaning);
    ended(taken)
}

/// How a run has ended, by what its turns came to.
fn ended(turns: Result<(), Ending>) -> Result<MeanEnd, Fault> {
    match turns {
        Ok(()) => Ok(MeanEnd::Stopped),
        Err(Ending::Bad(at)) => Ok(MeanEnd::Bad(at.module, at.line)),
        Err(Ending::Memory) => Err(Fault::Memory),
        Err(Ending::Broken) => Err(CANNOT_WRITE),
    }
}
