//! What a declaration says of a name, by its tokens.

use crate::explaining::sentence::{Part, put_all_parts};
use crate::noted::Noted;
use plm_token::{Keyword, Kind, Mark, Token};

/// How many elements a name has.
#[derive(Clone, Copy, PartialEq, Eq)]
pub(crate) enum Elements {
    One,
    Many(u32),
    /// `(*)`
    AsValues,
}

/// What an element is.
#[derive(Clone, Copy, PartialEq, Eq)]
pub(crate) enum Sort {
    Byte,
    Word,
    Pointer,
    Integer,
    /// With its bytes.
    Structure(u64),
    /// With the number of its parameters.
    Procedure(u64),
    Nothing,
}

/// What a declaration says of a name.
#[derive(Clone, Copy)]
pub(crate) struct Facts {
    pub sort: Sort,
    pub elements: Elements,
    /// The type of a procedure's value.
    pub value: Sort,
    pub is_based: bool,
    pub is_external: bool,
    pub is_public: bool,
    pub is_placed: bool,
    pub has_values: bool,
    pub is_data: bool,
}

const NO_FACTS: Facts = Facts {
    sort: Sort::Nothing,
    elements: Elements::One,
    value: Sort::Nothing,
    is_based: false,
    is_external: false,
    is_public: false,
    is_placed: false,
    has_values: false,
    is_data: false,
};

/// The scalar type that a token names.
fn scalar(kind: Kind) -> Option<Sort> {
    match kind {
        Kind::Reserved(Keyword::Byte) => Some(Sort::Byte),
        Kind::Reserved(Keyword::Word | Keyword::Address) => Some(Sort::Word),
        Kind::Reserved(Keyword::Pointer) => Some(Sort::Pointer),
        Kind::Reserved(Keyword::Integer) => Some(Sort::Integer),
        Kind::Reserved(_) | Kind::Identifier | Kind::Numeral(_) | Kind::String | Kind::Special(_) =>
            None,
    }
}

impl Sort {
    /// How many bytes one has.
    pub fn bytes(self) -> u64 {
        match self {
            Sort::Byte => 1,
            Sort::Word | Sort::Pointer | Sort::Integer => 2,
            Sort::Structure(bytes) => bytes,
            Sort::Procedure(_) | Sort::Nothing => 0,
        }
    }

    /// What one is called.
    pub fn name(self) -> &'static str {
        match self {
            Sort::Byte => "BYTE",
            Sort::Word => "WORD",
            Sort::Pointer => "POINTER",
            Sort::Integer => "INTEGER",
            Sort::Structure(_) => "STRUCTURE",
            Sort::Procedure(_) => "PROCEDURE",
            Sort::Nothing => "name",
        }
    }

    /// What stands before what one is called.
    fn article(self) -> &'static str {
        match self {
            Sort::Integer => "an ",
            Sort::Byte
            | Sort::Word
            | Sort::Pointer
            | Sort::Structure(_)
            | Sort::Procedure(_)
            | Sort::Nothing => "a ",
        }
    }
}

impl Facts {
    /// How many bytes it has.
    pub fn bytes(&self) -> u64 {
        match self.elements {
            Elements::One | Elements::AsValues => self.sort.bytes(),
            Elements::Many(count) => self.sort.bytes().saturating_mul(u64::from(count)),
        }
    }

    /// Notes an attribute.
    fn note(&mut self, kind: Kind) {
        match kind {
            Kind::Reserved(Keyword::External) => self.is_external = true,
            Kind::Reserved(Keyword::Public) => self.is_public = true,
            Kind::Reserved(Keyword::At) => self.is_placed = true,
            Kind::Reserved(Keyword::Initial) => self.has_values = true,
            Kind::Reserved(Keyword::Data) => {
                self.has_values = true;
                self.is_data = true;
            }
            Kind::Reserved(_)
            | Kind::Identifier
            | Kind::Numeral(_)
            | Kind::String
            | Kind::Special(_) => {}
        }
    }
}

/// Members on the way: how many names wait for their type, and how many elements each has.
#[derive(Clone, Copy)]
struct Members {
    bytes: u64,
    names: u64,
    count: u64,
    depth: usize,
    is_over: bool,
}

impl Members {
    fn step(self, kind: Kind) -> Members {
        let mut next = self;
        if let Some(sort) = scalar(kind) {
            let each = sort.bytes().saturating_mul(self.count);
            next.bytes = self.bytes.saturating_add(each.saturating_mul(self.names));
            next.names = 0;
            next.count = 1;
            return next;
        }
        match kind {
            Kind::Identifier => next.names = self.names.saturating_add(1),
            Kind::Numeral(count) => next.count = u64::from(count),
            Kind::Special(Mark::LeftParenthesis) => next.depth = self.depth.saturating_add(1),
            Kind::Special(Mark::RightParenthesis) => {
                next.is_over = self.depth <= 1;
                next.depth = self.depth.saturating_sub(1);
            }
            Kind::Reserved(_) | Kind::String | Kind::Special(_) => {}
        }
        next
    }
}

/// How many bytes the members in these parentheses have.
fn members_bytes(tokens: &[Token<'_>]) -> u64 {
    let mut members = Members {
        bytes: 0,
        names: 0,
        count: 1,
        depth: 0,
        is_over: false,
    };
    for token in tokens {
        if members.is_over {
            return members.bytes;
        }
        members = members.step(token.kind);
    }
    members.bytes
}

/// How many names stand up to the closing parenthesis.
fn parameter_count(tokens: &[Token<'_>]) -> u64 {
    let mut count: u64 = 0;
    for token in tokens {
        match token.kind {
            Kind::Identifier => count = count.saturating_add(1),
            Kind::Special(Mark::RightParenthesis | Mark::Semicolon) => return count,
            Kind::Reserved(_) | Kind::Numeral(_) | Kind::String | Kind::Special(_) => {}
        }
    }
    count
}

/// What a procedure's first line says, from its word PROCEDURE on.
fn procedure_facts(tokens: &[Token<'_>]) -> Facts {
    let mut facts = NO_FACTS;
    facts.sort = Sort::Procedure(match tokens {
        [_, open, rest @ ..] if open.kind == Kind::Special(Mark::LeftParenthesis) => {
            parameter_count(rest)
        }
        _ => 0,
    });
    for token in tokens {
        if token.kind == Kind::Special(Mark::Semicolon) {
            return facts;
        }
        if let Some(sort) = scalar(token.kind) {
            facts.value = sort;
        }
        facts.note(token.kind);
    }
    facts
}

/// Facts on the way, so many parentheses deep.
#[derive(Clone, Copy)]
struct Reading {
    facts: Facts,
    depth: usize,
    is_typed: bool,
    is_over: bool,
}

impl Reading {
    fn outside(self, token: &Token<'_>, rest: &[Token<'_>]) -> Reading {
        let mut next = self;
        if let Some(sort) = scalar(token.kind) {
            next.facts.sort = sort;
            next.is_typed = true;
            return next;
        }
        match token.kind {
            Kind::Reserved(Keyword::Structure) => {
                next.facts.sort = Sort::Structure(members_bytes(rest));
                next.is_typed = true;
            }
            Kind::Special(Mark::LeftParenthesis) => next.depth = 1,
            Kind::Special(Mark::Comma | Mark::Semicolon) => next.is_over = self.is_typed,
            Kind::Reserved(_) => next.facts.note(token.kind),
            Kind::Identifier | Kind::Numeral(_) | Kind::String | Kind::Special(_) => {}
        }
        next
    }

    fn step(self, token: &Token<'_>, rest: &[Token<'_>]) -> Reading {
        if self.depth == 0 {
            self.outside(token, rest)
        } else {
            self.inside(token)
        }
    }

    fn inside(self, token: &Token<'_>) -> Reading {
        let mut next = self;
        match token.kind {
            Kind::Special(Mark::LeftParenthesis) => next.depth = self.depth.saturating_add(1),
            Kind::Special(Mark::RightParenthesis) => next.depth = self.depth.saturating_sub(1),
            Kind::Numeral(count) if !self.is_typed => {
                next.facts.elements = Elements::Many(count);
            }
            Kind::Special(Mark::Star) if !self.is_typed => {
                next.facts.elements = Elements::AsValues;
            }
            Kind::Reserved(_)
            | Kind::Identifier
            | Kind::Numeral(_)
            | Kind::String
            | Kind::Special(_) => {}
        }
        next
    }
}

/// What a variable's declaration says, after its name or its list of names; nothing of a literal, which is no variable.
fn variable_facts(tokens: &[Token<'_>]) -> Facts {
    let mut reading = Reading {
        facts: NO_FACTS,
        depth: 0,
        is_typed: false,
        is_over: begins_with(tokens, Keyword::Literally),
    };
    reading.facts.is_based = begins_with(tokens, Keyword::Based);
    for (at, token) in tokens.iter().enumerate() {
        if reading.is_over {
            return reading.facts;
        }
        reading = reading.step(token, behind(tokens, at));
    }
    reading.facts
}

/// Whether this word is the first of the tokens.
fn begins_with(tokens: &[Token<'_>], keyword: Keyword) -> bool {
    match tokens.first() {
        Some(token) => token.kind == Kind::Reserved(keyword),
        None => false,
    }
}

/// The tokens behind the one at this place.
fn behind<'t, 'a>(tokens: &'t [Token<'a>], at: usize) -> &'t [Token<'a>] {
    &tokens[at.saturating_add(1).min(tokens.len())..]
}

/// Whether these tokens, behind a name, are a procedure's: a colon and PROCEDURE.
fn begins_procedure(tokens: &[Token<'_>]) -> bool {
    match tokens {
        [colon, procedure, ..] => {
            colon.kind == Kind::Special(Mark::Colon)
                && procedure.kind == Kind::Reserved(Keyword::Procedure)
        }
        [] | [_] => false,
    }
}

/// What a declaration says of the name at this place.
pub(crate) fn facts_at(tokens: &[Token<'_>], at: usize) -> Facts {
    let rest = behind(tokens, at);
    if begins_procedure(rest) {
        procedure_facts(behind(rest, 0))
    } else {
        variable_facts(rest)
    }
}

/// Whether BASED stands behind the name at this place.
pub(crate) fn is_based(tokens: &[Token<'_>], at: usize) -> bool {
    begins_with(behind(tokens, at), Keyword::Based)
}

/// Adds what something of these facts is, as `an array of 10 WORDs`.
pub(crate) fn put_described(text: &mut Noted<u8>, facts: &Facts) {
    let based = if facts.is_based { "based " } else { "" };
    match (facts.sort, facts.elements) {
        (Sort::Procedure(count), _) => put_procedure(text, count, facts.value),
        (sort, Elements::One) => {
            let article = if facts.is_based { "a " } else { sort.article() };
            let parts = [
                Part::Words(article),
                Part::Words(based),
                Part::Words(sort.name()),
            ];
            put_all_parts(text, &parts);
        }
        (sort, Elements::Many(count)) => {
            let parts = [
                Part::Words("a "),
                Part::Words(based),
                Part::Words("("),
                Part::Number(u64::from(count)),
                Part::Words(") "),
                Part::Words(sort.name()),
            ];
            put_all_parts(text, &parts);
        }
        (sort, Elements::AsValues) => {
            let parts = [
                Part::Words("a "),
                Part::Words("(*) "),
                Part::Words(sort.name()),
            ];
            put_all_parts(text, &parts);
        }
    }
}

fn put_procedure(text: &mut Noted<u8>, count: u64, value: Sort) {
    let parts = [
        Part::Words("a procedure with "),
        Part::Number(count),
        Part::Words(if count == 1 {
            " parameter"
        } else {
            " parameters"
        }),
        Part::Words(if value == Sort::Nothing {
            " and no value"
        } else {
            " and a value, "
        }),
        Part::Words(if value == Sort::Nothing {
            ""
        } else {
            value.article()
        }),
        Part::Words(if value == Sort::Nothing {
            ""
        } else {
            value.name()
        }),
    ];
    put_all_parts(text, &parts);
}
