//! What is told of the faults of names in the whole program: E306 to E310.

use crate::explaining::facts::{Elements, Facts, Sort, facts_at, put_described};
use crate::explaining::name_faults::At;
use crate::explaining::named::Named;
use crate::explaining::nearest::{nearest_declared, put_compared};
use crate::explaining::program_names::{Linked, Other, ProgramNames};
use crate::explaining::sentence::{Part, put_all_parts, sentence, separator};
use crate::explaining::told::{Told, tell, tell_so};
use crate::noted::Noted;
use plm_token::{Keyword, Kind, Token};
use std::alloc::{AllocError, Global};
use word86::{DATA_ROOM, Fault};

/// Whether two names may have as many elements: how many `(*)` has, its values say.
fn may_be_as_many(one: Elements, other: Elements) -> bool {
    match (one, other) {
        (Elements::One, Elements::One) => true,
        (Elements::Many(one), Elements::Many(other)) => one == other,
        (Elements::AsValues, Elements::Many(_) | Elements::AsValues)
        | (Elements::Many(_), Elements::AsValues) => true,
        (Elements::One, Elements::Many(_) | Elements::AsValues)
        | (Elements::Many(_) | Elements::AsValues, Elements::One) => false,
    }
}

/// Whether two declarations may agree: of parameters and members their number and their bytes alone are looked at.
fn may_agree(one: &Facts, other: &Facts) -> bool {
    one.sort == other.sort
        && one.value == other.value
        && may_be_as_many(one.elements, other.elements)
}

/// Whether a declared name is the one at the token.
fn is_itself(other: &Other<'_, '_>, at: &At<'_, '_>) -> bool {
    other.module == at.module && other.entry.declared.at == at.token.place
}

/// The first of these that is not the token itself.
fn first_other<'s, 'a>(others: &[Other<'s, 'a>], at: &At<'_, '_>) -> Option<Other<'s, 'a>> {
    for other in others {
        if !is_itself(other, at) {
            return Some(*other);
        }
    }
    None
}

/// The first of these that is not the token itself and differs from these facts; else the first that is not the token itself.
fn first_unlike<'s, 'a>(
    others: &[Other<'s, 'a>],
    at: &At<'_, '_>,
    facts: &Facts,
) -> Option<Other<'s, 'a>> {
    for other in others {
        if !is_itself(other, at) && !may_agree(facts, &other.entry.facts) {
            return Some(*other);
        }
    }
    first_other(others, at)
}

/// Adds where a declaration stands, as `line 3 of m.plm`.
fn put_place(text: &mut Noted<u8>, other: &Other<'_, '_>) {
    let parts = [
        Part::Words("line "),
        Part::Number(other.line()),
        Part::Words(" of "),
        Part::Words(other.file()),
    ];
    put_all_parts(text, &parts);
}

/// What is declared of the name at the token.
fn facts_of(at: &At<'_, '_>) -> Facts {
    match at.declared() {
        Some(entry) => entry.facts,
        None => facts_at(&at.named.source.expanded, at.token.place),
    }
}

/// What is told of E306.
pub(crate) fn unjoined(alloc: Global, at: &At<'_, '_>) -> Result<Told, Fault> {
    let facts = facts_of(at);
    let wanted = if facts.is_external {
        Linked::Public
    } else {
        Linked::External
    };
    let others = at.program.linked(alloc, at.name(), wanted)?;
    match first_unlike(&others, at, &facts) {
        Some(other) => Ok(differing(alloc, at, &facts, &other)),
        None => without_public(alloc, at),
    }
}

/// The two declarations, of which one is EXTERNAL and one PUBLIC.
fn differing(alloc: Global, at: &At<'_, '_>, facts: &Facts, other: &Other<'_, '_>) -> Told {
    let mut help = sentence(alloc, &[Part::Spelled(at.name()), Part::Words(" is ")]);
    put_described(&mut help, facts);
    put_all_parts(&mut help, &[Part::Words(" here and ")]);
    put_described(&mut help, &other.entry.facts);
    put_all_parts(&mut help, &[Part::Words(" in ")]);
    put_place(&mut help, other);
    let words = match facts.sort {
        Sort::Procedure(_) => ": the two have to agree in value and in parameters",
        Sort::Byte
        | Sort::Word
        | Sort::Pointer
        | Sort::Integer
        | Sort::Structure(_)
        | Sort::Nothing => ": the two have to agree in type, dimension and members",
    };
    put_all_parts(&mut help, &[Part::Words(words)]);
    at.told_so(help)
}

/// No module declares it PUBLIC.
fn without_public(alloc: Global, at: &At<'_, '_>) -> Result<Told, Fault> {
    let mut help = sentence(
        alloc,
        &[
            Part::Words("no module on the command line declares "),
            Part::Spelled(at.name()),
            Part::Words(" PUBLIC"),
        ],
    );
    let publics = at.program.publics(alloc, at.compared)?;
    let near = nearest_declared(alloc, &publics.names, at.name())?;
    match near {
        Some(near) => {
            let parts = [Part::Words("; "), Part::Spelled(near), Part::Words(" is")];
            put_all_parts(&mut help, &parts);
        }
        None => put_all_parts(
            &mut help,
            &[Part::Words(": is one missing there, or its PUBLIC?")],
        ),
    }
    put_compared(&mut help, &publics, " first PUBLIC names");
    Ok(at.told_so(help))
}

/// What is told of E307.
pub(crate) fn two_publics(alloc: Global, at: &At<'_, '_>) -> Result<Told, Fault> {
    let others = at.program.linked(alloc, at.name(), Linked::Public)?;
    let mut help = sentence(
        alloc,
        &[Part::Spelled(at.name()), Part::Words(" is PUBLIC ")],
    );
    match first_other(&others, at) {
        Some(other) => {
            put_all_parts(&mut help, &[Part::Words("in ")]);
            put_place(&mut help, &other);
            let rule = " too: one of the two is EXTERNAL";
            put_all_parts(&mut help, &[Part::Words(rule)]);
        }
        None => put_all_parts(&mut help, &[Part::Words("twice")]),
    }
    Ok(at.told_so(help))
}

/// Adds names of files, with commas between them.
fn put_files(text: &mut Noted<u8>, names: &[&str]) {
    for (number, name) in names.iter().enumerate() {
        let between = separator(number, names.len(), " and ");
        put_all_parts(text, &[Part::Words(between), Part::Words(name)]);
    }
}

/// What is told of E308.
pub(crate) fn mains(alloc: Global, program: &ProgramNames<'_>) -> Result<Told, Fault> {
    let names = program.main_files(alloc)?;
    if names.is_empty() {
        let parts = [Part::Words(
            "no module has statements at its outer level, behind its declarations and procedures: an empty one, \";\", is enough",
        )];
        return Ok(tell(alloc, None, &parts));
    }
    let mut help = Noted::new(alloc);
    put_files(&mut help, &names);
    let rule = " have statements at their outer level: one module alone is main";
    put_all_parts(&mut help, &[Part::Words(rule)]);
    Ok(tell_so(None, help))
}

/// The number after the first INTERRUPT among these tokens.
fn vector_in(tokens: &[Token<'_>]) -> Option<u32> {
    let mut is_next = false;
    for token in tokens {
        match token.kind {
            Kind::Numeral(vector) if is_next => return Some(vector),
            Kind::Numeral(_)
            | Kind::Reserved(_)
            | Kind::Identifier
            | Kind::String
            | Kind::Special(_) => {}
        }
        is_next = token.kind == Kind::Reserved(Keyword::Interrupt);
    }
    None
}

/// The number of the interrupt that the procedure at the token handles.
fn vector_at(at: &At<'_, '_>) -> Option<u32> {
    let tokens = at.named.source.expanded.as_slice();
    vector_in(&tokens[at.token.place.min(tokens.len())..])
}

/// What is told of E309.
pub(crate) fn two_handlers(alloc: Global, at: &At<'_, '_>) -> Told {
    let mut help = sentence(
        alloc,
        &[
            Part::Spelled(at.name()),
            Part::Words(" handles an interrupt that has a procedure already"),
        ],
    );
    if let Some(vector) = vector_at(at) {
        put_first_handler(&mut help, at.program, vector);
    }
    put_all_parts(&mut help, &[Part::Words(": each number has one procedure")]);
    at.told_so(help)
}

/// Adds where the first procedure for an interrupt stands.
fn put_first_handler(text: &mut Noted<u8>, program: &ProgramNames<'_>, vector: u32) {
    let Some(handler) = program.handler(vector) else {
        return;
    };
    let parts = [
        Part::Words(", in line "),
        Part::Number(handler.line),
        Part::Words(" of "),
        Part::Words(handler.file),
    ];
    put_all_parts(text, &parts);
}

/// A name and its bytes.
#[derive(Clone, Copy)]
pub(crate) struct Large<'a> {
    pub name: &'a [u8],
    pub bytes: u64,
}

/// The bytes of all of these.
pub(crate) fn total_of(all: &[Large<'_>]) -> u64 {
    let mut total: u64 = 0;
    for large in all {
        total = total.saturating_add(large.bytes);
    }
    total
}

/// Adds the largest three of these with their bytes, those of many bytes first.
pub(crate) fn put_largest(
    text: &mut Noted<u8>,
    all: &mut Vec<Large<'_>>,
) -> Result<(), AllocError> {
    all.sort_by_key(|large| u64::MAX.saturating_sub(large.bytes))?;
    for (number, large) in all.iter().take(3).enumerate() {
        let parts = [
            Part::Words(if number == 0 { "" } else { ", " }),
            Part::Spelled(large.name),
            Part::Words(" has "),
            Part::Number(large.bytes),
        ];
        put_all_parts(text, &parts);
    }
    Ok(())
}

/// Whether a name has bytes of its own, whose number its declaration says: `(*)` leaves it to the values.
fn has_object(facts: &Facts) -> bool {
    let is_apart = facts.is_based || facts.is_external || facts.is_placed;
    let is_counted = match facts.elements {
        Elements::One | Elements::Many(_) => true,
        Elements::AsValues => false,
    };
    is_counted && !is_apart && facts.sort.bytes() > 0
}

/// Adds the names of a module that have bytes of their own.
fn push_objects<'a>(all: &mut Vec<Large<'a>>, named: &Named<'a>) -> Result<(), AllocError> {
    for entry in &named.entries {
        if has_object(&entry.facts) {
            all.push(Large {
                name: entry.declared.token.text,
                bytes: entry.facts.bytes(),
            })?;
        }
    }
    Ok(())
}

/// The names of all modules that have bytes of their own.
fn objects<'a>(alloc: Global, program: &ProgramNames<'a>) -> Result<Vec<Large<'a>>, AllocError> {
    let mut all: Vec<Large<'a>> = Vec::new(alloc);
    for named in &program.modules {
        push_objects(&mut all, named)?;
    }
    Ok(all)
}

/// How many bytes the variables want, of which so many are known: what `(*)` has is not among these.
fn wanted_bytes(alloc: Global, known: u64) -> Noted<u8> {
    let room = Part::Number(DATA_ROOM as u64);
    if known <= DATA_ROOM as u64 {
        let want = Part::Words("the variables want more than ");
        return sentence(alloc, &[want, room, Part::Words(" bytes")]);
    }
    let parts = [
        Part::Words("the variables want some "),
        Part::Number(known),
        Part::Words(" bytes, and there are "),
        room,
    ];
    sentence(alloc, &parts)
}

/// What is told of E310.
pub(crate) fn too_much_data(alloc: Global, program: &ProgramNames<'_>) -> Result<Told, Fault> {
    let mut all = objects(alloc, program)?;
    let mut help = wanted_bytes(alloc, total_of(&all));
    if !all.is_empty() {
        put_all_parts(&mut help, &[Part::Words(": ")]);
        put_largest(&mut help, &mut all)?;
    }
    Ok(tell_so(None, help))
}
