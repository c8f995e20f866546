//! Which tokens can stand after a beginning of a module: those that the parser takes there.

use crate::explaining::candidates::{Candidate, candidates};
use crate::explaining::sentence::{Part, put_all_parts, separator};
use crate::explaining::studied::{copied, number_of, numbered_token, unparsed_among};
use crate::explaining::uses::{Use, use_of};
use crate::noted::Noted;
use plm_token::{Keyword, Kind, Mark, Token};
use std::alloc::{AllocError, Global};

/// Tokens that have a name together.
#[derive(Clone, Copy)]
enum Family {
    Expression,
    /// An expression's part behind a relation or a sign.
    Operand,
    Operator,
    /// Behind a relation no other one stands.
    OtherOperator,
    Statement,
    Type,
}

const FAMILIES: &[Family] = &[
    Family::Expression,
    Family::Operand,
    Family::Operator,
    Family::OtherOperator,
    Family::Statement,
    Family::Type,
];

impl Family {
    fn has(self, kind: Kind) -> bool {
        let of_it = use_of(kind);
        match self {
            Family::Expression | Family::Operand => of_it.begins_operand(),
            Family::Operator => of_it.is_other_operator() || of_it == Use::Relation,
            Family::OtherOperator => of_it.is_other_operator(),
            Family::Statement => of_it.begins_statement(),
            Family::Type => of_it == Use::Type,
        }
    }

    /// Whether what can stand has the whole family.
    fn is_among(self, candidates: &[Candidate]) -> bool {
        let has_and = has_kind(candidates, Kind::Reserved(Keyword::And));
        let has_equal = has_kind(candidates, Kind::Special(Mark::Equal));
        match self {
            Family::Expression => has_kind(candidates, Kind::Reserved(Keyword::Not)),
            Family::Operand => {
                has_kind(candidates, Kind::Identifier)
                    && has_kind(candidates, Kind::Numeral(1))
                    && !has_kind(candidates, Kind::Reserved(Keyword::Not))
            }
            Family::Operator => has_and && has_equal,
            Family::OtherOperator => has_and && !has_equal,
            Family::Statement => has_kind(candidates, Kind::Reserved(Keyword::Call)),
            Family::Type => has_kind(candidates, Kind::Reserved(Keyword::Pointer)),
        }
    }

    fn name(self) -> &'static str {
        match self {
            Family::Expression => "an expression",
            Family::Operand => "an operand",
            Family::Operator => "an operator",
            Family::OtherOperator => "an operator that is no relation",
            Family::Statement => "a statement",
            Family::Type => "a type",
        }
    }
}

/// Whether the parser takes this token after these, whose lines are their numbers.
fn can_stand(
    alloc: Global,
    before: &[Token<'_>],
    candidate: &Candidate,
) -> Result<bool, AllocError> {
    let tried = numbered_token(candidate.kind, candidate.text.as_bytes(), before.len());
    let mut tokens = copied(alloc, before)?;
    tokens.push(tried)?;
    let count = tokens.len();
    // A refusal of the text's end has its number.
    tokens.push(numbered_token(Kind::Special(Mark::Semicolon), b";", count))?;
    match unparsed_among(alloc, tokens)? {
        Some(refused) => Ok(number_of(&tried) < refused),
        None => Ok(true),
    }
}

/// The tokens that can stand after these.
pub(crate) fn expected(alloc: Global, before: &[Token<'_>]) -> Result<Vec<Candidate>, AllocError> {
    let mut all = Vec::new(alloc);
    for candidate in candidates(alloc)? {
        if can_stand(alloc, before, &candidate)? {
            all.push(candidate)?;
        }
    }
    Ok(all)
}

/// Whether a token of this kind is among these.
pub(crate) fn has_kind(candidates: &[Candidate], kind: Kind) -> bool {
    for candidate in candidates {
        if candidate.kind == kind {
            return true;
        }
    }
    false
}

/// Whether a token is told by the name of its family.
fn is_of_family(candidates: &[Candidate], kind: Kind) -> bool {
    for family in FAMILIES {
        if family.has(kind) && family.is_among(candidates) {
            return true;
        }
    }
    false
}

/// A word of the list of what can stand.
#[derive(Clone, Copy)]
enum Entry {
    Family(&'static str),
    Token(Candidate),
}

/// The families that these tokens have whole.
fn families(alloc: Global, candidates: &[Candidate]) -> Result<Vec<Entry>, AllocError> {
    let mut all = Vec::new(alloc);
    for family in FAMILIES {
        if family.is_among(candidates) {
            all.push(Entry::Family(family.name()))?;
        }
    }
    Ok(all)
}

/// What these tokens are called, each family by its name.
fn entries(alloc: Global, candidates: &[Candidate]) -> Result<Vec<Entry>, AllocError> {
    let mut all = families(alloc, candidates)?;
    for candidate in candidates {
        if !is_of_family(candidates, candidate.kind) {
            all.push(Entry::Token(*candidate))?;
        }
    }
    Ok(all)
}

fn put_entry(text: &mut Noted<u8>, entry: Entry) {
    match entry {
        Entry::Family(name) => put_all_parts(text, &[Part::Words(name)]),
        Entry::Token(candidate) => put_candidate(text, candidate),
    }
}

fn put_candidate(text: &mut Noted<u8>, candidate: Candidate) {
    match candidate.kind {
        Kind::Identifier => put_all_parts(text, &[Part::Words("a name")]),
        Kind::Numeral(_) => put_all_parts(text, &[Part::Words("a number")]),
        Kind::String => put_all_parts(text, &[Part::Words("a string")]),
        Kind::Reserved(_) => put_all_parts(text, &[Part::Words(candidate.text)]),
        Kind::Special(_) => put_all_parts(
            text,
            &[
                Part::Words("\""),
                Part::Words(candidate.text),
                Part::Words("\""),
            ],
        ),
    }
}

/// Adds these tokens as a list, as `"=" or "("`.
pub(crate) fn put_listed(
    alloc: Global,
    text: &mut Noted<u8>,
    candidates: &[Candidate],
) -> Result<(), AllocError> {
    let entries = entries(alloc, candidates)?;
    if entries.is_empty() {
        put_all_parts(text, &[Part::Words("nothing")]);
    }
    for (number, entry) in entries.iter().enumerate() {
        let between = separator(number, entries.len(), " or ");
        put_all_parts(text, &[Part::Words(between)]);
        put_entry(text, *entry);
    }
    Ok(())
}
