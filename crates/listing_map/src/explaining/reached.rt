//! How far each procedure is from an ENABLE or HALT, and where each is called first.

use crate::explaining::call_sites::{Effect, Site};
use plm_decl::Names;
use plm_syntax::Position;
use std::alloc::{AllocError, Global};

/// A call, with its module.
#[derive(Clone, Copy)]
pub(crate) struct CallAt {
    pub module: usize,
    pub place: Position,
}

impl CallAt {
    /// Whether it is told before another one: those of this module come first.
    fn precedes(&self, other: &CallAt, own: usize) -> bool {
        if self.module == other.module {
            return self.place.token < other.place.token;
        }
        self.module == own || other.module != own && self.module < other.module
    }
}

/// The procedure whose body a call runs.
pub(crate) fn entry_of(names: &Names, number: usize) -> usize {
    match names.procedures.get(number) {
        Some(procedure) => procedure.entry,
        None => number,
    }
}

/// The first ENABLE or HALT among these.
pub(crate) fn letting_in_among(sites: &[Site]) -> Option<Position> {
    for site in sites {
        match site.effect {
            Effect::LetsIn => return Some(site.place),
            Effect::Calls(_) => {}
        }
    }
    None
}

/// Keeps a call of a procedure, where it is told before the one so far.
fn keep_first(names: &Names, first: &mut [Option<CallAt>], number: usize, call: CallAt) {
    let own = match names.procedures.get(number) {
        Some(procedure) => procedure.module,
        None => call.module,
    };
    if let Some(kept) = first.get_mut(number) {
        let stays = match *kept {
            Some(other) => other.precedes(&call, own),
            None => false,
        };
        if !stays {
            *kept = Some(call);
        }
    }
}

/// Keeps the first calls among these of a module.
fn keep_first_calls(names: &Names, first: &mut [Option<CallAt>], module: usize, sites: &[Site]) {
    for site in sites {
        match site.effect {
            Effect::Calls(called) => {
                let place = site.place;
                keep_first(
                    names,
                    first,
                    entry_of(names, called),
                    CallAt { module, place },
                );
            }
            Effect::LetsIn => {}
        }
    }
}

/// The first call of each procedure, in its own module, else in another one: among those of all bodies and of main.
pub(crate) fn first_calls_of(
    alloc: Global,
    names: &Names,
    bodies: &[Vec<Site>],
    main: &[Site],
) -> Result<Vec<Option<CallAt>>, AllocError> {
    let mut first = vec![in alloc; None; names.procedures.len()]?;
    keep_first_calls(names, &mut first, names.main.module, main);
    for (procedure, sites) in names.procedures.iter().zip(bodies) {
        keep_first_calls(names, &mut first, procedure.module, sites);
    }
    Ok(first)
}

/// Adds a procedure to the callers of those that it calls.
fn note_callers(
    names: &Names,
    callers: &mut [Vec<usize>],
    caller: usize,
    sites: &[Site],
) -> Result<(), AllocError> {
    for site in sites {
        match site.effect {
            Effect::Calls(called) => {
                if let Some(known) = callers.get_mut(entry_of(names, called)) {
                    known.push(caller)?;
                }
            }
            Effect::LetsIn => {}
        }
    }
    Ok(())
}

/// A list for each procedure, with nothing in it.
fn empty_lists(alloc: Global, count: usize) -> Result<Vec<Vec<usize>>, AllocError> {
    let mut lists = Vec::new(alloc);
    for _procedure in 0..count {
        lists.push(Vec::new(alloc))?;
    }
    Ok(lists)
}

/// The procedures that call each one.
fn callers_of(
    alloc: Global,
    names: &Names,
    bodies: &[Vec<Site>],
) -> Result<Vec<Vec<usize>>, AllocError> {
    let mut callers = empty_lists(alloc, bodies.len())?;
    for (caller, sites) in bodies.iter().enumerate() {
        note_callers(names, &mut callers, caller, sites)?;
    }
    Ok(callers)
}

/// The distance of a procedure, where it has one.
pub(crate) fn distance_at(distances: &[Option<usize>], number: usize) -> Option<usize> {
    match distances.get(number) {
        Some(distance) => *distance,
        None => None,
    }
}

/// Where a search stands: how far the procedures are that were come to, and these in order.
#[derive(Drop)]
struct Search {
    distances: Vec<Option<usize>>,
    queue: Vec<usize>,
}

impl Search {
    /// Comes to a procedure, where it is the first time.
    fn note(&mut self, number: usize, distance: usize) -> Result<(), AllocError> {
        if let Some(kept) = self.distances.get_mut(number) {
            if kept.is_none() {
                *kept = Some(distance);
                self.queue.push(number)?;
            }
        }
        Ok(())
    }

    /// Comes to those that have ENABLE or HALT.
    fn begin(&mut self, bodies: &[Vec<Site>]) -> Result<(), AllocError> {
        for (number, sites) in bodies.iter().enumerate() {
            if letting_in_among(sites).is_some() {
                self.note(number, 0)?;
            }
        }
        Ok(())
    }

    /// Comes to those that call a procedure.
    fn go_on(&mut self, callers: &[Vec<usize>], number: usize) -> Result<(), AllocError> {
        let distance = distance_at(&self.distances, number).unwrap_or(0);
        let Some(known) = callers.get(number) else {
            return Ok(());
        };
        for caller in known {
            self.note(*caller, distance.saturating_add(1))?;
        }
        Ok(())
    }
}

/// How many calls lead from each procedure to an ENABLE or HALT at least; nothing where none lead there.
pub(crate) fn distances_of(
    alloc: Global,
    names: &Names,
    bodies: &[Vec<Site>],
) -> Result<Vec<Option<usize>>, AllocError> {
    let callers = callers_of(alloc, names, bodies)?;
    let mut search = Search {
        distances: vec![in alloc; None; bodies.len()]?,
        queue: Vec::new(alloc),
    };
    search.begin(bodies)?;
    for step in 0..bodies.len() {
        if let Some(number) = search.queue.get(step).copied() {
            search.go_on(&callers, number)?;
        }
    }
    let Search { distances, .. } = search;
    Ok(distances)
}
