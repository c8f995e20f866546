//! What is told of the faults of grammar: E201 to E205, and the faults of a literal's text.

use crate::explaining::blocks::{Opening, innermost};
use crate::explaining::candidates::Candidate;
use crate::explaining::expecting::{expected, has_kind, put_listed};
use crate::explaining::left_out::{foreign_way, way_round};
use crate::explaining::pieces::Piece;
use crate::explaining::scope::{Declared, all_names};
use crate::explaining::sentence::{Part, put_all_parts, quotation, sentence};
use crate::explaining::studied::{
    Studied, copied, number_of, numbered_token, unparsed_among, unparsed_token,
};
use crate::explaining::told::{Told, tell, tell_so};
use crate::explaining::uses::use_of;
use crate::noted::Noted;
use plm_token::{Keyword, Kind, Mark, Token, same_name};
use std::alloc::{AllocError, Global};
use word86::Fault;

/// The token that a module cannot go on with, and what stands around it.
#[derive(Clone, Copy)]
struct Refusal<'s, 'c, 'a> {
    source: &'s Studied<'a>,
    /// How many tokens stand before it.
    before: usize,
    accepted: &'c [Candidate],
    /// The names that the source declares.
    names: &'c [Declared<'a>],
}

/// What is said after what was found and what can stand.
#[derive(Clone, Copy)]
enum Hint<'a> {
    None,
    Words(&'static str),
    /// A word, and what takes its place.
    Way(&'a [u8], &'static str),
    /// A reserved word that stands for a name.
    Reserved(&'a [u8]),
    /// A procedure that is called without CALL.
    Call(&'a [u8]),
    /// A semicolon may be missing at the end of this line.
    Semicolon(u32),
    /// What is still open.
    Open(Opening<'a>),
    /// What the END before it closes.
    Closed(Opening<'a>),
}

/// The rule that ELSE breaks.
const ARMS: &str = "an arm of IF is one statement, and several stand between DO; and END;";

impl<'s, 'c, 'a> Refusal<'s, 'c, 'a> {
    fn token(&self) -> Option<Token<'a>> {
        self.source.tokens.get(self.before).copied()
    }

    /// The token so many places before it.
    fn earlier(&self, count: usize) -> Option<Token<'a>> {
        if self.before < count {
            return None;
        }
        self.source.tokens.get(self.before - count).copied()
    }

    fn takes(&self, kind: Kind) -> bool {
        has_kind(self.accepted, kind)
    }

    /// The line on which a token stands.
    fn line_of(&self, token: &Token<'a>) -> u32 {
        self.source.line(number_of(token))
    }

    fn is_after(&self, kind: Kind) -> bool {
        match self.earlier(1) {
            Some(token) => token.kind == kind,
            None => false,
        }
    }

    fn is_before(&self, kind: Kind) -> bool {
        match self.source.tokens.get(self.before.saturating_add(1)) {
            Some(token) => token.kind == kind,
            None => false,
        }
    }

    /// The block that is open before this token.
    fn open_before(&self, number: usize) -> Option<Opening<'a>> {
        innermost(self.source, number)
    }

    fn hint(&self) -> Hint<'a> {
        let Some(token) = self.token() else {
            return self.hint_at_end();
        };
        if self.is_after(Kind::Reserved(Keyword::End)) {
            return match self.open_before(self.before.saturating_sub(1)) {
                Some(opening) => Hint::Closed(opening),
                None => Hint::None,
            };
        }
        match token.kind {
            Kind::Reserved(keyword) => self.hint_at_word(&token, keyword),
            Kind::Identifier | Kind::Numeral(_) | Kind::String => self.hint_at_operand(&token),
            Kind::Special(mark) => self.hint_at_mark(&token, mark),
        }
    }

    fn hint_at_end(&self) -> Hint<'a> {
        match self.open_before(self.before) {
            Some(opening) => Hint::Open(opening),
            None => Hint::None,
        }
    }

    /// Whether the token at a place is a name of the source: one that is declared elsewhere there, or a label.
    fn is_name(&self, place: usize, token: &Token<'a>) -> bool {
        match self.source.tokens.get(place.saturating_add(1)) {
            Some(next) if next.kind == Kind::Special(Mark::Colon) => true,
            Some(_) | None => is_declared(self.names, place, token.text),
        }
    }

    /// What is said of the token before it, where that is a word of another language.
    fn hint_behind(&self) -> Hint<'a> {
        let Some(before) = self.earlier(1) else {
            return Hint::None;
        };
        if self.is_name(self.before.saturating_sub(1), &before) {
            return Hint::None;
        }
        match foreign_way(before.text) {
            Some(way) => Hint::Way(before.text, way),
            None => Hint::None,
        }
    }

    /// Whether what stands before it may end there: a semicolon can stand, and no statement can begin, of which one is empty.
    fn may_end(&self) -> bool {
        let takes_semicolon = self.takes(Kind::Special(Mark::Semicolon));
        takes_semicolon && !self.takes(Kind::Reserved(Keyword::Call))
    }

    /// The line before its own at whose end a semicolon may be missing: before END also that of an empty statement.
    fn open_line(&self, token: &Token<'a>) -> Option<u32> {
        let is_end = token.kind == Kind::Reserved(Keyword::End);
        let is_open = self.may_end() || is_end && self.takes(Kind::Special(Mark::Semicolon));
        let line = self.line_of(&self.earlier(1)?);
        (is_open && line < self.line_of(token)).then_some(line)
    }

    /// What is said where a line begins with it.
    fn hint_at_line(&self, token: &Token<'a>) -> Hint<'a> {
        match self.open_line(token) {
            Some(line) => Hint::Semicolon(line),
            None => self.hint_behind(),
        }
    }

    fn hint_at_else(&self) -> Hint<'a> {
        Hint::Words(if self.may_end() {
            "a semicolon stands before ELSE too"
        } else {
            ARMS
        })
    }

    fn hint_at_word(&self, token: &Token<'a>, keyword: Keyword) -> Hint<'a> {
        if let Some(way) = way_round(token.text) {
            return Hint::Way(token.text, way);
        }
        if use_of(token.kind).is_like_a_name() && self.takes(Kind::Identifier) {
            return Hint::Reserved(token.text);
        }
        if keyword == Keyword::Else {
            return self.hint_at_else();
        }
        if keyword == Keyword::Procedure {
            return Hint::Words("a procedure begins with its name and a colon, as P: PROCEDURE;");
        }
        match self.hint_at_line(token) {
            Hint::None if keyword == Keyword::End => self.hint_at_end(),
            hint => hint,
        }
    }

    fn hint_at_operand(&self, token: &Token<'a>) -> Hint<'a> {
        if let Some(line) = self.open_line(token) {
            return Hint::Semicolon(line);
        }
        if self.is_name(self.before, token) {
            return self.hint_behind();
        }
        if let Some(way) = way_round(token.text) {
            return Hint::Way(token.text, way);
        }
        if let Some(way) = foreign_way(token.text) {
            return Hint::Way(token.text, way);
        }
        self.hint_behind()
    }

    fn hint_at_mark(&self, token: &Token<'a>, mark: Mark) -> Hint<'a> {
        if mark == Mark::Assign {
            return Hint::Words(
                "a statement stores by \"=\", and \":=\" stands inside an expression, in parentheses",
            );
        }
        if mark == Mark::Equal && self.is_after(Kind::Special(Mark::Equal)) {
            return Hint::Words("equal is one \"=\"");
        }
        if mark == Mark::Slash && self.is_before(Kind::Special(Mark::Slash)) {
            return Hint::Words("a comment stands between /* and */");
        }
        if mark != Mark::Semicolon {
            return self.hint_at_line(token);
        }
        match self.called() {
            Some(name) => Hint::Call(name),
            None => self.hint_behind(),
        }
    }

    /// The name before it, or before the arguments before it, where it is a procedure's and a statement begins with it.
    fn called(&self) -> Option<&'a [u8]> {
        if !self.takes(Kind::Special(Mark::Equal)) {
            return None;
        }
        let name = self.name_before()?;
        if is_procedure(&self.source.tokens, name) {
            Some(name)
        } else {
            None
        }
    }

    /// The name right before it, or before the parentheses that stand there.
    fn name_before(&self) -> Option<&'a [u8]> {
        let mut depth: usize = 0;
        for count in 1..self.before.saturating_add(1) {
            let token = self.earlier(count)?;
            match token.kind {
                Kind::Special(Mark::RightParenthesis) => depth = depth.saturating_add(1),
                Kind::Special(Mark::LeftParenthesis) => depth = depth.checked_sub(1)?,
                Kind::Identifier if depth == 0 => return Some(token.text),
                Kind::Identifier
                | Kind::Numeral(_)
                | Kind::String
                | Kind::Reserved(_)
                | Kind::Special(_) => {
                    if depth == 0 {
                        return None;
                    }
                }
            }
        }
        None
    }
}

/// Whether a name is declared at another place than this one.
fn is_declared(names: &[Declared<'_>], place: usize, name: &[u8]) -> bool {
    for declared in names {
        if declared.at != place && same_name(declared.token.text, name) {
            return true;
        }
    }
    false
}

/// Whether a procedure of this name begins among these tokens.
fn is_procedure(tokens: &[Token<'_>], name: &[u8]) -> bool {
    let mut before: Option<&[u8]> = None;
    let mut named: Option<&[u8]> = None;
    for token in tokens {
        if token.kind == Kind::Reserved(Keyword::Procedure) {
            if let Some(found) = named {
                if same_name(found, name) {
                    return true;
                }
            }
        }
        named = before;
        before = Some(token.text);
    }
    false
}

fn put_opening(text: &mut Noted<u8>, opening: Opening<'_>) {
    let parts = [
        Part::Words(" the "),
        Part::Spelled(opening.word),
        Part::Words(if opening.name.is_empty() { "" } else { " " }),
        Part::Spelled(opening.name),
        Part::Words(" of line "),
        Part::Number(u64::from(opening.line)),
    ];
    put_all_parts(text, &parts);
}

/// Adds a word and what is said of it.
fn put_word_hint(text: &mut Noted<u8>, word: &[u8], parts: &[Part<'_>]) {
    put_all_parts(text, &[Part::Words(": "), Part::Spelled(word)]);
    put_all_parts(text, parts);
}

/// Adds that a block is still open.
fn put_still_open(text: &mut Noted<u8>, opening: Opening<'_>) {
    put_all_parts(text, &[Part::Words(":")]);
    put_opening(text, opening);
    put_all_parts(text, &[Part::Words(" is still open")]);
}

fn put_hint(text: &mut Noted<u8>, hint: Hint<'_>) {
    match hint {
        Hint::None => {}
        Hint::Words(words) => {
            let parts = [Part::Words(": "), Part::Words(words)];
            put_all_parts(text, &parts);
        }
        Hint::Way(word, way) => {
            let parts = [Part::Words(" "), Part::Words(way)];
            put_word_hint(text, word, &parts);
        }
        Hint::Reserved(word) => {
            let parts = [Part::Words(" is a reserved word and no name")];
            put_word_hint(text, word, &parts);
        }
        Hint::Call(name) => {
            let rule = Part::Words(" is a procedure, which CALL ");
            let parts = [rule, Part::Spelled(name), Part::Words(" calls")];
            put_word_hint(text, name, &parts);
        }
        Hint::Semicolon(line) => {
            let rule = Part::Words(": a semicolon may be missing at the end of line ");
            put_all_parts(text, &[rule, Part::Number(u64::from(line))]);
        }
        Hint::Open(opening) => put_still_open(text, opening),
        Hint::Closed(opening) => {
            put_all_parts(text, &[Part::Words(": this END closes")]);
            put_opening(text, opening);
        }
    }
}

/// How many tokens stand before the one that a source cannot go on with.
fn refused_after(alloc: Global, source: &Studied<'_>) -> Result<usize, AllocError> {
    let count = source.tokens.len();
    let mut tokens = copied(alloc, &source.tokens)?;
    // With one more token at its end, a refusal of the text's end has another line than one of its last token.
    tokens.push(numbered_token(Kind::Special(Mark::Semicolon), b";", count))?;
    match unparsed_among(alloc, tokens)? {
        Some(number) => Ok((number as usize).saturating_sub(1).min(count)),
        None => Ok(count),
    }
}

/// What is said after what was found and what can stand.
fn hint_for<'a>(
    alloc: Global,
    source: &Studied<'a>,
    before: usize,
    accepted: &[Candidate],
) -> Result<Hint<'a>, AllocError> {
    let names = all_names(alloc, &source.tokens)?;
    let refusal = Refusal {
        source,
        before,
        accepted,
        names: &names,
    };
    Ok(refusal.hint())
}

/// What was found, as far as it is named before what can stand.
fn found_words(alloc: Global, found: Option<Piece<'_>>) -> Noted<u8> {
    let (found, around) = match &found {
        Some(piece) => (Part::Spelled(piece.text), quotation(piece.text)),
        None => (Part::Words("the end of the text"), ""),
    };
    let parts = [
        Part::Words("found "),
        Part::Words(around),
        found,
        Part::Words(around),
        Part::Words(", where "),
    ];
    sentence(alloc, &parts)
}

/// What is told of a token behind so many others, where these can stand.
fn refused_token(
    alloc: Global,
    source: &Studied<'_>,
    before: usize,
    accepted: &[Candidate],
) -> Result<Told, Fault> {
    let spot = source.spots.get(before).copied();
    let mut help = found_words(alloc, spot);
    put_listed(alloc, &mut help, accepted)?;
    put_all_parts(&mut help, &[Part::Words(" can stand")]);
    put_hint(&mut help, hint_for(alloc, source, before, accepted)?);
    let marked = match spot {
        Some(piece) => Some(piece),
        None => source.spots.last().copied(),
    };
    Ok(tell_so(marked, help))
}

/// What is told of E201.
pub(crate) fn syntax_fault(alloc: Global, source: &Studied<'_>) -> Result<Told, Fault> {
    let before = refused_after(alloc, source)?;
    let tokens = source.tokens.as_slice();
    let accepted = expected(alloc, &tokens[..before.min(tokens.len())])?;
    refused_token(alloc, source, before, &accepted)
}

/// A fault of the token that the parser names.
#[derive(Clone, Copy)]
pub(crate) enum TokenFault {
    /// E202
    NestedLiterals,
    /// E203
    Depth,
    /// E204
    Apostrophe,
    /// E205
    Count,
    /// E101, E103, E104 or E105 in a literal's text.
    LiteralText,
}

/// What is told of E202 to E205, and of a fault in a literal's text.
pub(crate) fn token_fault(
    alloc: Global,
    source: &Studied<'_>,
    fault: TokenFault,
) -> Result<Told, Fault> {
    let spot = match unparsed_token(alloc, source)? {
        Some(number) => source.spot(number),
        None => None,
    };
    let words = match fault {
        TokenFault::NestedLiterals => {
            " is a literal whose text names a literal, and so on more than 8 deep: does it stand in its own text?"
        }
        TokenFault::Depth => {
            " opens level 65: at most 64 of blocks, procedures, arms of IF, parentheses, signs and NOT are open at once"
        }
        TokenFault::Apostrophe => {
            " has an apostrophe in it, and a literal cannot stand for a string: DECLARE TEXT (*) BYTE DATA ('text') gives one a name"
        }
        TokenFault::Count => {
            " is one token too many: a module has at most 65535, once its literals are replaced; part it into modules"
        }
        TokenFault::LiteralText => {
            " is a literal's text, and what stands in it is no token, or a comment that is not closed"
        }
    };
    let name = match &spot {
        Some(piece) => Part::Spelled(piece.text),
        None => Part::Words("what stands here"),
    };
    Ok(tell(alloc, spot, &[name, Part::Words(words)]))
}
