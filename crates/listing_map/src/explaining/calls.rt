//! What is told of procedures that call: E404 to E406. Calls are those that stand in the procedures' own statements.

use crate::explaining::call_sites::{Effect, Site, add_statements};
use crate::explaining::reached::{
    CallAt, distance_at, distances_of, entry_of, first_calls_of, letting_in_among,
};
use crate::explaining::sentence::{Part, put_all_parts, sentence};
use crate::explaining::studied::{Studied, number_at};
use crate::explaining::told::{Told, tell_so};
use crate::noted::Noted;
use crate::phase_faults::TokenAt;
use plm_decl::{Names, Procedure};
use plm_syntax::{Linkage, Position};
use std::alloc::{AllocError, Global};
use word86::Fault;

/// So many calls of a path are told at most.
const TOLD: usize = 16;

/// What each procedure does, how many calls lead from it to an ENABLE or HALT at least, and where it is called first. All is found once for all
/// faults.
#[derive(Drop)]
pub(crate) struct Calls {
    bodies: Vec<Vec<Site>>,
    distances: Vec<Option<usize>>,
    first_calls: Vec<Option<CallAt>>,
}

/// What a procedure does: an EXTERNAL one has no statements of its own.
fn sites_of(alloc: Global, procedure: &Procedure) -> Result<Vec<Site>, AllocError> {
    let mut sites: Noted<Site> = Noted::new(alloc);
    match procedure.linkage {
        Linkage::External => {}
        Linkage::None | Linkage::Public => add_statements(&procedure.body, &mut sites),
    }
    sites.whole()
}

/// What the procedures of these names do.
pub(crate) fn calls_of(alloc: Global, names: &Names) -> Result<Calls, AllocError> {
    let mut bodies: Vec<Vec<Site>> = Vec::new(alloc);
    for procedure in &names.procedures {
        bodies.push(sites_of(alloc, procedure)?)?;
    }
    let mut main: Noted<Site> = Noted::new(alloc);
    add_statements(&names.main.statements, &mut main);
    let main = main.whole()?;
    let distances = distances_of(alloc, names, &bodies)?;
    let first_calls = first_calls_of(alloc, names, &bodies, &main)?;
    Ok(Calls {
        bodies,
        distances,
        first_calls,
    })
}

/// A program whose procedures call, and the token of one with a fault.
#[derive(Clone, Copy)]
pub(crate) struct Calling<'s, 'a> {
    pub alloc: Global,
    pub sources: &'s [Studied<'a>],
    pub names: &'s Names,
    pub calls: &'s Calls,
    pub module: usize,
    pub token: TokenAt,
}

/// Where a search stands: who was come to, in order, and from whom.
#[derive(Drop)]
struct Search {
    queue: Vec<usize>,
    from: Vec<Option<usize>>,
}

impl Search {
    fn new(alloc: Global, count: usize, start: usize) -> Result<Search, AllocError> {
        let mut queue = Vec::new(alloc);
        queue.push(start)?;
        Ok(Search {
            queue,
            from: vec![in alloc; None; count]?,
        })
    }

    /// Notes that one procedure calls another.
    fn note(&mut self, caller: usize, called: usize) -> Result<(), AllocError> {
        if let Some(from) = self.from.get_mut(called) {
            if from.is_none() {
                *from = Some(caller);
                self.queue.push(called)?;
            }
        }
        Ok(())
    }

    /// From whom a procedure was come to, unless the search began there.
    fn before(&self, at: usize, start: usize) -> Option<usize> {
        if at == start {
            return None;
        }
        match self.from.get(at) {
            Some(before) => *before,
            None => None,
        }
    }

    /// The procedures on the way from the start to this one, both among them.
    fn path(&self, alloc: Global, start: usize, last: usize) -> Result<Vec<usize>, AllocError> {
        let mut path = Vec::new(alloc);
        let mut next = Some(last);
        for _step in 0..self.from.len() {
            let Some(at) = next else {
                break;
            };
            path.push(at)?;
            next = self.before(at, start);
        }
        path.reverse();
        Ok(path)
    }
}

impl<'s, 'a> Calling<'s, 'a> {
    /// The procedure whose name is the token.
    fn number(&self) -> Option<usize> {
        for (number, procedure) in self.names.procedures.iter().enumerate() {
            if procedure.module == self.module
                && procedure.place.token as usize == self.token.place
            {
                return Some(number);
            }
        }
        None
    }

    /// The procedure whose body a call runs.
    fn entry(&self, number: usize) -> usize {
        entry_of(self.names, number)
    }

    /// What a procedure does.
    fn sites(&self, number: usize) -> &'s [Site] {
        match self.calls.bodies.get(number) {
            Some(sites) => sites.as_slice(),
            None => &[],
        }
    }

    /// The name of the procedure whose name is the token.
    fn name(&self) -> &'a [u8] {
        self.spelled(self.module, self.token.place)
    }

    /// How a token is spelled, once literals are replaced.
    fn spelled(&self, module: usize, place: usize) -> &'a [u8] {
        let Some(source) = self.sources.get(module) else {
            return b"";
        };
        match source.expanded.get(place) {
            Some(token) => token.text,
            None => b"",
        }
    }

    /// The name of a procedure.
    fn name_of(&self, procedure: &Procedure) -> &'a [u8] {
        self.spelled(procedure.module, procedure.place.token as usize)
    }

    /// Notes all that a procedure calls.
    fn note_calls(&self, search: &mut Search, caller: usize) -> Result<(), AllocError> {
        for site in self.sites(caller) {
            match site.effect {
                Effect::Calls(called) => search.note(caller, self.entry(called))?,
                Effect::LetsIn => {}
            }
        }
        Ok(())
    }

    /// All that a procedure reaches by calls, itself where it reaches itself.
    fn search(&self, start: usize) -> Result<Search, AllocError> {
        let count = self.names.procedures.len();
        let mut search = Search::new(self.alloc, count, start)?;
        for step in 0..count.saturating_add(1) {
            if let Some(caller) = search.queue.get(step).copied() {
                self.note_calls(&mut search, caller)?;
            }
        }
        Ok(search)
    }

    /// The first call of a procedure among these.
    fn call_among(&self, sites: &[Site], number: usize) -> Option<Position> {
        for site in sites {
            match site.effect {
                Effect::Calls(called) => {
                    if called == number || self.entry(called) == number {
                        return Some(site.place);
                    }
                }
                Effect::LetsIn => {}
            }
        }
        None
    }

    /// Adds words and where a token stands, as ` in line 3 of m.plm;`.
    fn put_line(&self, text: &mut Noted<u8>, module: usize, place: Position) {
        let Some(source) = self.sources.get(module) else {
            return;
        };
        let parts = [
            Part::Words(" in line "),
            Part::Number(u64::from(source.line(number_at(place)))),
            Part::Words(" of "),
            Part::Words(source.name),
            Part::Words(";"),
        ];
        put_all_parts(text, &parts);
    }

    /// Adds that one procedure calls another, and where.
    fn put_call(&self, text: &mut Noted<u8>, caller: usize, called: usize) {
        let procedures = self.names.procedures.as_slice();
        let (Some(one), Some(other)) = (procedures.get(caller), procedures.get(called)) else {
            return;
        };
        let parts = [
            Part::Words(" "),
            Part::Spelled(self.name_of(one)),
            Part::Words(" calls "),
            Part::Spelled(self.name_of(other)),
        ];
        put_all_parts(text, &parts);
        let call = self.call_among(self.sites(caller), called);
        self.put_line(text, one.module, call.unwrap_or(one.place));
    }

    /// Adds the calls along a path, of a long one the first alone.
    fn put_path(&self, text: &mut Noted<u8>, path: &[usize]) {
        let mut before: Option<usize> = None;
        for called in path.iter().take(TOLD.saturating_add(1)) {
            if let Some(caller) = before {
                self.put_call(text, caller, *called);
            }
            before = Some(*called);
        }
        if path.len() > TOLD.saturating_add(1) {
            put_all_parts(text, &[Part::Words(" and so on;")]);
        }
    }

    fn told(&self, help: Noted<u8>) -> Told {
        let spot = match self.sources.get(self.module) {
            Some(source) => source.spot(self.token.number),
            None => None,
        };
        tell_so(spot, help)
    }

    /// What is told of E404.
    pub fn recursion(&self) -> Result<Told, Fault> {
        let name = Part::Spelled(self.name());
        let mut help = sentence(self.alloc, &[name, Part::Words(" reaches itself:")]);
        if let Some(start) = self.number() {
            self.put_cycle(&mut help, start)?;
        }
        let way = Part::Words(
            " its variables are static, so an array and an index take the place of a stack",
        );
        put_all_parts(&mut help, &[way]);
        Ok(self.told(help))
    }

    /// Adds the calls by which a procedure reaches itself.
    fn put_cycle(&self, text: &mut Noted<u8>, start: usize) -> Result<(), AllocError> {
        let search = self.search(start)?;
        let Some(Some(last)) = search.from.get(start).copied() else {
            return Ok(());
        };
        self.put_path(text, &search.path(self.alloc, start, last)?);
        self.put_call(text, last, start);
        Ok(())
    }

    /// What is told of E405.
    pub fn letting_in(&self) -> Result<Told, Fault> {
        let name = Part::Spelled(self.name());
        let rule = Part::Words(" handles an interrupt, in which no other is let in:");
        let mut help = sentence(self.alloc, &[name, rule]);
        if let Some(start) = self.number() {
            self.put_letting_in(&mut help, start)?;
        }
        let way = Part::Words(" set a BYTE here, and let main wait for it");
        put_all_parts(&mut help, &[way]);
        Ok(self.told(help))
    }

    /// The procedure that the first call of one runs which leads nearer to an ENABLE or HALT.
    fn nearer(&self, number: usize) -> Option<usize> {
        let left = distance_at(&self.calls.distances, number)?.checked_sub(1)?;
        for site in self.sites(number) {
            match site.effect {
                Effect::Calls(called) => {
                    let entry = self.entry(called);
                    if distance_at(&self.calls.distances, entry) == Some(left) {
                        return Some(entry);
                    }
                }
                Effect::LetsIn => {}
            }
        }
        None
    }

    /// The procedures on the way of fewest calls from one to an ENABLE or HALT, both among them; of several such ways the first.
    fn way_to_letting_in(&self, start: usize) -> Result<Vec<usize>, AllocError> {
        let mut way = Vec::new(self.alloc);
        let mut next = Some(start);
        for _step in 0..self.names.procedures.len() {
            let Some(number) = next else {
                return Ok(way);
            };
            way.push(number)?;
            next = self.nearer(number);
        }
        Ok(way)
    }

    /// Adds the calls that lead from a procedure to an ENABLE or HALT, and its line.
    fn put_letting_in(&self, text: &mut Noted<u8>, start: usize) -> Result<(), AllocError> {
        let way = self.way_to_letting_in(start)?;
        let Some(last) = way.last().copied() else {
            return Ok(());
        };
        let Some(place) = letting_in_among(self.sites(last)) else {
            return Ok(());
        };
        self.put_path(text, &way);
        self.put_has(text, last, place);
        Ok(())
    }

    /// Adds that a procedure has the ENABLE or HALT at this token.
    fn put_has(&self, text: &mut Noted<u8>, number: usize, place: Position) {
        let Some(procedure) = self.names.procedures.get(number) else {
            return;
        };
        let parts = [
            Part::Words(" "),
            Part::Spelled(self.name_of(procedure)),
            Part::Words(" has "),
            Part::Spelled(self.spelled(procedure.module, place.token as usize)),
        ];
        put_all_parts(text, &parts);
        self.put_line(text, procedure.module, place);
    }

    /// What is told of E406.
    pub fn misused(&self) -> Told {
        let name = Part::Spelled(self.name());
        let rule = Part::Words(" is entered by its interrupt alone, ");
        let mut help = sentence(self.alloc, &[name, rule]);
        if let Some(number) = self.number() {
            self.put_misuse(&mut help, number);
        }
        self.told(help)
    }

    /// Adds how an interrupt procedure is misused.
    fn put_misuse(&self, text: &mut Noted<u8>, number: usize) {
        let Some(procedure) = self.names.procedures.get(number) else {
            return;
        };
        if !procedure.parameters.is_empty() {
            put_all_parts(text, &[Part::Words("and takes no parameters")]);
        } else if procedure.returned.is_some() {
            put_all_parts(text, &[Part::Words("and has no value")]);
        } else {
            self.put_caller(text, number);
        }
    }

    /// The first call of a procedure: in its own module, else in another one.
    fn first_call(&self, number: usize) -> Option<CallAt> {
        match self.calls.first_calls.get(number) {
            Some(call) => *call,
            None => None,
        }
    }

    /// Adds where an interrupt procedure is called.
    fn put_caller(&self, text: &mut Noted<u8>, number: usize) {
        put_all_parts(text, &[Part::Words("and not by CALL")]);
        let Some(call) = self.first_call(number) else {
            return;
        };
        let Some(source) = self.sources.get(call.module) else {
            return;
        };
        let parts = [
            Part::Words(", as line "),
            Part::Number(u64::from(source.line(number_at(call.place)))),
            Part::Words(" of "),
            Part::Words(source.name),
            Part::Words(" does: both can call a third procedure"),
        ];
        put_all_parts(text, &parts);
    }
}
