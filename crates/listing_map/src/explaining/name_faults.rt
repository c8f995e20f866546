//! What is told of the faults of names in one module: E301 to E305.

use crate::explaining::facts::{Elements, Facts, Sort, put_described};
use crate::explaining::left_out::{foreign_way, way_round};
use crate::explaining::named::{Entry, Named};
use crate::explaining::nearest::{Looked, nearest, nearest_declared, put_compared};
use crate::explaining::program_names::{Other, ProgramNames};
use crate::explaining::scope::Declared;
use crate::explaining::sentence::{Part, put_all_parts, sentence, separator};
use crate::explaining::studied::number_of;
use crate::explaining::text_faults::wants_suffix;
use crate::explaining::told::{Told, tell_so};
use crate::noted::Noted;
use crate::phase_faults::TokenAt;
use plm_token::{Keyword, Kind, Mark, Token};
use std::alloc::{AllocError, Global};
use word86::Fault;

/// So many members of a structure are listed.
const LISTED: usize = 16;

/// A token of a module, at which a fault of names stands.
#[derive(Clone, Copy)]
pub(crate) struct At<'s, 'a> {
    pub program: &'s ProgramNames<'a>,
    pub module: usize,
    pub named: &'s Named<'a>,
    pub token: TokenAt,
    /// So many names are compared with it.
    pub compared: usize,
}

impl<'s, 'a> At<'s, 'a> {
    /// The token, as it stands in the text once literals are replaced.
    pub fn name(&self) -> &'a [u8] {
        match self.named.token(self.token.place) {
            Some(token) => token.text,
            None => self.named.source.spelled(self.token.number),
        }
    }

    /// The line of a declared name.
    fn line(&self, declared: &Declared<'a>) -> u64 {
        u64::from(self.named.source.line(number_of(&declared.token)))
    }

    /// The declaration of the name at the token itself.
    pub fn declared(&self) -> Option<Entry<'a>> {
        self.named.declared_at(self.token.place)
    }

    /// The place so many tokens before it.
    fn place_before(&self, count: usize) -> Option<usize> {
        self.token.place.checked_sub(count)
    }

    fn token_behind(&self, count: usize) -> Option<Token<'a>> {
        self.named.token(self.token.place.saturating_add(count))
    }

    pub fn told(&self, alloc: Global, parts: &[Part<'_>]) -> Told {
        self.told_so(sentence(alloc, parts))
    }

    /// The same of a sentence.
    pub fn told_so(&self, help: Noted<u8>) -> Told {
        tell_so(self.named.source.spot(self.token.number), help)
    }
}

/// Whether a name is a hexadecimal number but for a digit in front.
fn is_like_a_number(name: &[u8]) -> bool {
    let Some((last, digits)) = name.split_last() else {
        return false;
    };
    matches!(*last, b'H' | b'h') && !digits.is_empty() && wants_suffix(digits)
}

/// Whether the token stands in the list of a procedure's parameters.
fn is_parameter(at: &At<'_, '_>) -> bool {
    let Some(open) = at.named.open_at(at.token.place) else {
        return false;
    };
    match open.checked_sub(1) {
        Some(before) => at.named.has(before, Kind::Reserved(Keyword::Procedure)),
        None => false,
    }
}

/// The names of the members of a structure, of which this stands behind its name, at most so many.
fn members<'a>(alloc: Global, rest: &[Token<'a>], most: usize) -> Result<Looked<'a>, AllocError> {
    let mut names: Vec<&'a [u8]> = Vec::new(alloc);
    let mut depth: usize = 0;
    let mut is_inside = false;
    for token in rest {
        match token.kind {
            Kind::Reserved(Keyword::Structure) => is_inside = true,
            Kind::Special(Mark::Semicolon) => return Ok(all_of(names)),
            Kind::Special(Mark::LeftParenthesis) if is_inside => depth = depth.saturating_add(1),
            Kind::Special(Mark::RightParenthesis) if is_inside => {
                if depth <= 1 {
                    return Ok(all_of(names));
                }
                depth = depth.saturating_sub(1);
            }
            Kind::Identifier if is_inside && names.len() < most => names.push(token.text)?,
            Kind::Identifier if is_inside => return Ok(first_of(names)),
            Kind::Identifier
            | Kind::Reserved(_)
            | Kind::Numeral(_)
            | Kind::String
            | Kind::Special(_) => {}
        }
    }
    Ok(all_of(names))
}

/// These names, and there are no others.
fn all_of(names: Vec<&[u8]>) -> Looked<'_> {
    Looked {
        names,
        are_all: true,
    }
}

/// The first of more names.
fn first_of(names: Vec<&[u8]>) -> Looked<'_> {
    Looked {
        names,
        are_all: false,
    }
}

/// The names of the members of a declared structure; none of what is no structure.
fn members_of<'a>(
    alloc: Global,
    at: &At<'_, 'a>,
    entry: &Entry<'a>,
) -> Result<Looked<'a>, AllocError> {
    match entry.facts.sort {
        Sort::Structure(_) => {
            let tokens = at.named.source.expanded.as_slice();
            let rest = &tokens[entry.declared.rest.min(tokens.len())..];
            members(alloc, rest, at.compared)
        }
        Sort::Byte
        | Sort::Word
        | Sort::Pointer
        | Sort::Integer
        | Sort::Procedure(_)
        | Sort::Nothing => Ok(all_of(Vec::new(alloc))),
    }
}

/// The name before a parenthesis that closes at this place.
fn name_before_list<'a>(at: &At<'_, 'a>, place: usize) -> Option<Token<'a>> {
    let open = at.named.open_at(place)?;
    at.named.token(open.checked_sub(1)?)
}

/// The structure whose member the token is: the name before its period, or before the subscript there. A location's period stands behind
/// neither.
fn structure_before<'a>(at: &At<'_, 'a>) -> Option<Token<'a>> {
    let before = at.place_before(1)?;
    if !at.named.has(before, Kind::Special(Mark::Period)) {
        return None;
    }
    let place = at.place_before(2)?;
    let token = at.named.token(place)?;
    match token.kind {
        Kind::Identifier => Some(token),
        Kind::Special(Mark::RightParenthesis) => name_before_list(at, place),
        Kind::Reserved(_) | Kind::Numeral(_) | Kind::String | Kind::Special(_) => None,
    }
}

/// A member that its structure lacks.
fn lacking_member<'a>(alloc: Global, at: &At<'_, 'a>, owner: &'a [u8]) -> Result<Told, Fault> {
    let own = match at.named.known_as(alloc, owner, at.token.place)? {
        Some(entry) => members_of(alloc, at, &entry)?,
        None => all_of(Vec::new(alloc)),
    };
    let mut help = sentence(
        alloc,
        &[
            Part::Spelled(owner),
            Part::Words(" has no member "),
            Part::Spelled(at.name()),
        ],
    );
    put_members(alloc, &mut help, &own, at.name())?;
    Ok(at.told_so(help))
}

fn put_members(
    alloc: Global,
    help: &mut Noted<u8>,
    own: &Looked<'_>,
    name: &[u8],
) -> Result<(), AllocError> {
    if let Some(near) = nearest_declared(alloc, &own.names, name)? {
        let parts = [
            Part::Words("; "),
            Part::Spelled(near),
            Part::Words(" is one"),
        ];
        put_all_parts(help, &parts);
    } else if !own.names.is_empty() {
        put_all_parts(help, &[Part::Words("; it has ")]);
        put_listed(help, &own.names);
    }
    put_compared(help, own, " first members");
    Ok(())
}

/// Adds the first of these members.
fn put_listed(help: &mut Noted<u8>, own: &[&[u8]]) {
    let last = if own.len() > LISTED { ", " } else { " and " };
    let count = own.len().min(LISTED);
    for (number, member) in own.iter().take(count).enumerate() {
        let between = separator(number, count, last);
        put_all_parts(help, &[Part::Words(between), Part::Spelled(member)]);
    }
    if own.len() > LISTED {
        put_all_parts(help, &[Part::Words(" and others")]);
    }
}

/// A name that is declared in the module, and not known where it stands.
fn known_elsewhere(alloc: Global, at: &At<'_, '_>, declared: &Declared<'_>) -> Told {
    let line = u64::from(at.named.source.line(number_of(&declared.token)));
    let words = if at.token.place < declared.at {
        " is declared further down, in line "
    } else if at.token.place <= declared.end {
        " stands in its own declaration, in line "
    } else {
        " is declared in a block that ends before, in line "
    };
    let parts = [
        Part::Spelled(at.name()),
        Part::Words(words),
        Part::Number(line),
        Part::Words(": a name is known from its declaration to the end of its block"),
    ];
    at.told(alloc, &parts)
}

/// A name that another module declares PUBLIC.
fn public_elsewhere<'a>(alloc: Global, at: &At<'_, 'a>, public: &Other<'_, 'a>) -> Told {
    let parts = [
        Part::Spelled(at.name()),
        Part::Words(" is PUBLIC in line "),
        Part::Number(public.line()),
        Part::Words(" of "),
        Part::Words(public.file()),
        Part::Words(": declare it EXTERNAL here"),
    ];
    at.told(alloc, &parts)
}

/// A name that is declared nowhere, and the one that is most like it, if there is one.
fn unknown<'a>(alloc: Global, at: &At<'_, 'a>, near: Option<&'a [u8]>) -> Noted<u8> {
    let name = at.name();
    match near {
        Some(near) => sentence(
            alloc,
            &[
                Part::Spelled(name),
                Part::Words(" is declared nowhere; "),
                Part::Spelled(near),
                Part::Words(" is"),
            ],
        ),
        None => sentence(
            alloc,
            &[
                Part::Spelled(name),
                Part::Words(" is declared nowhere: DECLARE "),
                Part::Spelled(name),
                Part::Words(" with its type, before it is used"),
            ],
        ),
    }
}

/// A name that this module declares nowhere.
fn declared_nowhere(alloc: Global, at: &At<'_, '_>) -> Result<Told, Fault> {
    if let Some(public) = at.program.public(alloc, at.name())? {
        return Ok(public_elsewhere(alloc, at, &public));
    }
    let known = at.named.known_at(alloc, at.token.place, at.compared)?;
    let near = nearest(alloc, &known.names, at.name())?;
    let mut help = unknown(alloc, at, near);
    put_compared(&mut help, &known, " names declared last before it");
    Ok(at.told_so(help))
}

/// A parameter that its procedure does not declare.
fn undeclared_parameter(alloc: Global, at: &At<'_, '_>) -> Told {
    let name = at.name();
    let parts = [
        Part::Words("the parameter "),
        Part::Spelled(name),
        Part::Words(" is declared nowhere in its procedure: DECLARE "),
        Part::Spelled(name),
        Part::Words(" with its type after the procedure's first line"),
    ];
    at.told(alloc, &parts)
}

/// What is told of E301.
pub(crate) fn undeclared(alloc: Global, at: &At<'_, '_>) -> Result<Told, Fault> {
    let name = at.name();
    if let Some(owner) = structure_before(at) {
        return lacking_member(alloc, at, owner.text);
    }
    if is_parameter(at) {
        return Ok(undeclared_parameter(alloc, at));
    }
    if is_like_a_number(name) {
        let parts = [
            Part::Spelled(name),
            Part::Words(" begins with a letter, so it is a name: 0"),
            Part::Spelled(name),
            Part::Words(" is the number"),
        ];
        return Ok(at.told(alloc, &parts));
    }
    if let Some(entry) = at.named.first(alloc, name)? {
        return Ok(known_elsewhere(alloc, at, &entry.declared));
    }
    match way_of(name) {
        Some(way) => {
            let parts = [Part::Spelled(name), Part::Words(" "), Part::Words(way)];
            Ok(at.told(alloc, &parts))
        }
        None => declared_nowhere(alloc, at),
    }
}

fn way_of(name: &[u8]) -> Option<&'static str> {
    match way_round(name) {
        Some(way) => Some(way),
        None => foreign_way(name),
    }
}

/// The name that was declared before the one at the token, in its block; nothing of a member and of a parameter in its list, which are
/// compared with their lists alone.
fn declared_before<'a>(alloc: Global, at: &At<'_, 'a>) -> Result<Option<Entry<'a>>, AllocError> {
    match at.declared() {
        Some(_) => at.named.known_as(alloc, at.name(), at.token.place),
        None => Ok(None),
    }
}

/// What is told of E302.
pub(crate) fn declared_twice(alloc: Global, at: &At<'_, '_>) -> Result<Told, Fault> {
    Ok(match declared_before(alloc, at)? {
        Some(first) => at.told(
            alloc,
            &[
                Part::Spelled(at.name()),
                Part::Words(" is declared in line "),
                Part::Number(at.line(&first.declared)),
                Part::Words(
                    " too: case and dollar signs do not count, so one of the two wants another name",
                ),
            ],
        ),
        None => at.told(
            alloc,
            &[
                Part::Spelled(at.name()),
                Part::Words(" stands twice in one list: one of the two wants another name"),
            ],
        ),
    })
}

/// Where AT can place a name.
const PLACES: &str =
    " where AT says: a page of the screen is 0B0000H to 0B0F9FH or 0B8000H to 0B8F9FH, and AT (@V) lies in V's object, in RAM and declared before";

/// What is told of E303. How many bytes `(*)` has, its values say.
pub(crate) fn misplaced(alloc: Global, at: &At<'_, '_>) -> Told {
    let bytes = match at.declared() {
        Some(entry) if entry.facts.elements != Elements::AsValues => entry.facts.bytes(),
        Some(_) | None => {
            let parts = [
                Part::Spelled(at.name()),
                Part::Words(" does not lie"),
                Part::Words(PLACES),
            ];
            return at.told(alloc, &parts);
        }
    };
    let parts = [
        Part::Spelled(at.name()),
        Part::Words(" has "),
        Part::Number(bytes),
        Part::Words(if bytes == 1 { " byte" } else { " bytes" }),
        Part::Words(", and not all lie"),
        Part::Words(PLACES),
    ];
    at.told(alloc, &parts)
}

/// The name after BASED that the declaration at the token has.
fn base_of<'a>(at: &At<'_, 'a>) -> Option<Token<'a>> {
    let based = at.token_behind(1)?;
    if based.kind != Kind::Reserved(Keyword::Based) {
        return None;
    }
    at.token_behind(2)
}

/// What is told of E304.
pub(crate) fn bad_base(alloc: Global, at: &At<'_, '_>) -> Result<Told, Fault> {
    let Some(base) = base_of(at) else {
        return Ok(at.told(alloc, &[Part::Words("a base is a plain WORD or POINTER")]));
    };
    let begin = [
        Part::Words("the base "),
        Part::Spelled(base.text),
        Part::Words(" is "),
    ];
    let mut help = sentence(alloc, &begin);
    // A based name is no base of its own: an outer one of its name is.
    match at.named.known_as(alloc, base.text, at.token.place)? {
        Some(entry) => {
            if is_plain_base(&entry.facts) {
                let parts = [
                    Part::Spelled(at.name()),
                    Part::Words(
                        " is based: it lies where its base says, without PUBLIC, EXTERNAL, AT, INITIAL and DATA",
                    ),
                ];
                return Ok(at.told(alloc, &parts));
            }
            put_described(&mut help, &entry.facts);
        }
        None => put_all_parts(&mut help, &[Part::Words("no variable")]),
    }
    let rule = ": a base is a WORD or a POINTER, no array or member and not based itself";
    put_all_parts(&mut help, &[Part::Words(rule)]);
    Ok(at.told_so(help))
}

fn is_plain_base(facts: &Facts) -> bool {
    let is_address = match facts.sort {
        Sort::Word | Sort::Pointer => true,
        Sort::Byte | Sort::Integer | Sort::Structure(_) | Sort::Procedure(_) | Sort::Nothing =>
            false,
    };
    is_address && facts.elements == Elements::One && !facts.is_based
}

/// What is told of E305.
pub(crate) fn values_misfit(alloc: Global, at: &At<'_, '_>) -> Told {
    let Some(entry) = at.declared() else {
        let parts = [Part::Words(
            "a list of constants holds numbers up to 255 and strings, and no location",
        )];
        return at.told(alloc, &parts);
    };
    let mut help = sentence(alloc, &[Part::Spelled(at.name()), Part::Words(" is ")]);
    put_described(&mut help, &entry.facts);
    put_all_parts(&mut help, &[Part::Words(values_rule(&entry.facts))]);
    at.told_so(help)
}

/// The rule that a declaration with these facts breaks.
fn values_rule(facts: &Facts) -> &'static str {
    match facts.elements {
        Elements::Many(0) => ": an array has at least one element",
        Elements::Many(count) if count > 65_535 => ": an array has at most 65535 elements",
        Elements::AsValues if !facts.has_values => {
            ": (*) takes the length from INITIAL or DATA, and there are no values"
        }
        Elements::One | Elements::Many(_) | Elements::AsValues => placed_rule(facts),
    }
}

fn placed_rule(facts: &Facts) -> &'static str {
    if facts.is_placed {
        return " with AT: what AT places takes no values; assign them at the start of main";
    }
    match facts.sort {
        Sort::Byte => {
            ": each value is a number up to 255 or a character of a string, and there are no more values than elements"
        }
        Sort::Word => {
            ": each value is a number up to 65535, a string of one or two characters or .X, and there are no more values than elements"
        }
        Sort::Pointer =>
            ": each value is a location @X, and there are no more values than elements",
        Sort::Integer => {
            ": each value is a number up to 32767, or a minus and one up to 32768, and there are no more values than elements"
        }
        Sort::Structure(_) => {
            ": each value fits the member that it fills, in order, and there are no more values than members"
        }
        Sort::Procedure(_) | Sort::Nothing => ": its values do not fit",
    }
}
