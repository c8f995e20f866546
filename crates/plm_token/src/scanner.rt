//! A text's pieces one after the other, their tokens and lines, and the first fault; of a literal's text the least one.

ghost use Rattle.std.specs.Prelude.{◌≡◌, ◌≤◌, ◌<◌, ◌+◌, ℕ, [], ◌∷◌, length, fold, count_by, IfSome, IfNone, Some};
ghost use Rattle.plm_token.specs.declared.piece.ScanState.TheVariants.{FirstColumn};
ghost use Rattle.plm_token.specs.Characters.{is_line_feed};
ghost use Rattle.plm_token.specs.Pieces.{pieces, state_after};
ghost use Rattle.plm_token.specs.Scanner.{scan_of, tokens_of, trimmed, Answers};
ghost use Rattle.plm_token.specs.Literals.{literal_of, at_line, lesser};

use crate::front::front;
use crate::piece::{Piece, ScanState};
use crate::token::Token;
use std::alloc::Global;
use word86::{Fault, Number};

/// The most bytes that a source may have.
pub const SOURCE_LIMIT: usize = 1_048_576;

/// A byte that ends a text, and is no part of it.
const END_MARK: u8 = 0x1A;

/// The pieces of a text, one after the other.
#[derive(Drop)]
struct Pieces<'a> {
    rest: &'a [u8],
    state: ScanState,
}

impl<'a> Pieces<'a> {
    /// The next piece and its slice, if the text is not at its end.
    #[inline(always)]
    fn next(&mut self) -> Option<(Piece, &'a [u8])>
        ensures some { IfSome result (λ p. (line : ℕ) → pieces self.old.state line self.old.rest.now ≡ record { piece = p.0; text = p.1.now; line = line } ∷ pieces self.new.state (line + count_by is_line_feed p.1.now) self.new.rest.now) }
        ensures shorter { IfSome result (λ p. (0 < length p.1.now) × (length p.1.now + length self.new.rest.now ≡ length self.old.rest.now)) }
        ensures none { IfNone result (self.old.rest.now ≡ []) }
    {
        if self.rest.is_empty() {
            return None;
        }
        let found = front(self.state, self.rest);
        let (text, rest) = self.rest.split_at(found.length);
        self.state = state_after(self.state, text);
        self.rest = rest;
        Some((found.piece, text))
    }
}

/// The state after a piece of this text.
fn state_after(state: ScanState, text: &[u8]) -> ScanState
    ensures { result ≡ fold state_after state text.now }
{
    if state.is_literal() {
        return state;
    }
    match text.split_last() {
        Some((last, _)) if *last == b'\n' => ScanState::FirstColumn,
        Some(_) => ScanState::Within,
        None => state,
    }
}

/// How many lines end in a text.
fn line_feeds(text: &[u8]) -> usize
    ensures value { result ≡ count_by is_line_feed text.now }
    ensures inside { result ≤ length text.now }
{
    text.iter().filter(|b| **b == b'\n').count()
}

/// The tokens of a text, in order, or its first fault.
///
/// E107 at line 1 where the text has more than 1,048,576 bytes. Otherwise the first piece of the text that is none of the
/// language ends the scan: E101 a character that begins no token, or that a string may not hold; E102 a string that is
/// not closed on its line; E103 a comment that is not closed; E104 a number that is malformed or above 0FFFFFH; E105 an
/// identifier of more than 31 characters; E106 a control line with the word INCLUDE. The line is that on which the piece
/// begins. Bytes 1AH that end the text do not belong to it.
#[tactic(auto, unfolding(crate::specs::Scanner::scan_of))]
pub fn scan(alloc: Global, text: &[u8]) -> Result<Vec<Token<'_>>, Fault>
    ensures { Answers (scan_of text.now) result }
{
    if text.len() > SOURCE_LIMIT {
        return Err(Fault::At(0, 1, Number::E107));
    }
    tokens(alloc, trimmed(text))
}

/// A text without the end marks at its end.
fn trimmed(text: &[u8]) -> &[u8]
    ensures value { result.now ≡ trimmed text.now }
    ensures inside { length result.now ≤ length text.now }
{
    let mut rest = text;
    while let Some((last, front)) = rest.split_last() {
        if *last != END_MARK {
            return rest;
        }
        rest = front;
    }
    rest
}

/// The tokens of a text without end marks, or its first fault.
fn tokens(alloc: Global, text: &[u8]) -> Result<Vec<Token<'_>>, Fault>
    requires { length text.now ≤ SOURCE_LIMIT }
    ensures { Answers (tokens_of (pieces FirstColumn 1 text.now)) result }
{
    let mut tokens = Vec::new(alloc);
    let mut pieces = Pieces {
        rest: text,
        state: ScanState::FirstColumn,
    };
    let mut line = 1;
    while let Some((piece, text)) = pieces.next() {
        match piece {
            Piece::Skipped => {}
            Piece::Token(kind) => tokens.push(Token { kind, text, line })?,
            Piece::Fault(number) => return Err(Fault::At(0, line, number)),
        }
        line += line_feeds(text) as u32;
    }
    Ok(tokens)
}

/// The tokens of a literal's text, each with the given line, or the least of its faults, at that line.
///
/// The text is what stands between the apostrophes of a string. It has no control lines. Each apostrophe outside a comment is
/// E204, also one of a doubled pair; scanning goes on after each fault, and the least of E101, E103, E104, E105
/// and E204 is answered.
pub fn scan_literal<'a>(alloc: Global, text: &'a [u8], line: u32) -> Result<Vec<Token<'a>>, Fault>
    ensures { Answers (at_line line (literal_of text.now)) result }
{
    let mut tokens = Vec::new(alloc);
    let mut pieces = Pieces {
        rest: text,
        state: ScanState::Literal,
    };
    let mut least = None;
    while let Some((piece, text)) = pieces.next() {
        match piece {
            Piece::Skipped => {}
            Piece::Token(kind) => tokens.push(Token { kind, text, line })?,
            Piece::Fault(number) => least = Some(lesser(least, number)),
        }
    }
    match least {
        Some(number) => Err(Fault::At(0, line, number)),
        None => Ok(tokens),
    }
}

/// The lesser of two faults of a literal's text.
fn lesser(least: Option<Number>, number: Number) -> Number
    ensures { Some result ≡ lesser least (Some number) }
{
    match least {
        Some(before) if before.code() <= number.code() => before,
        Some(_) | None => number,
    }
}
