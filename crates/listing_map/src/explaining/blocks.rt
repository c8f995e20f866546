//! The blocks that are open at a token.

use crate::explaining::studied::{Studied, number_of};
use plm_token::{Keyword, Kind, Token};

/// A block that is open: its DO, PROCEDURE or IF, its name if it has one, and its line.
#[derive(Clone, Copy)]
pub(crate) struct Opening<'a> {
    pub word: &'a [u8],
    pub name: &'a [u8],
    pub line: u32,
}

fn opens(kind: Kind) -> bool {
    matches!(kind, Kind::Reserved(Keyword::Do | Keyword::Procedure))
}

/// The place of the innermost DO or PROCEDURE that is open after these tokens.
fn innermost_place(tokens: &[Token<'_>]) -> Option<usize> {
    let mut closed: usize = 0;
    let mut at = tokens.len();
    for token in tokens.iter().rev() {
        at = at.saturating_sub(1);
        if token.kind == Kind::Reserved(Keyword::End) {
            closed = closed.saturating_add(1);
        } else if opens(token.kind) {
            if closed == 0 {
                return Some(at);
            }
            closed = closed.saturating_sub(1);
        }
    }
    None
}

/// The label before the token at this place; nothing where it has none.
fn label_before<'a>(tokens: &[Token<'a>], at: usize) -> &'a [u8] {
    if at < 2 {
        return b"";
    }
    match tokens.get(at - 2) {
        Some(token) if token.kind == Kind::Identifier => token.text,
        Some(_) | None => b"",
    }
}

/// What the DO or PROCEDURE at this place opens.
pub(crate) fn opening_at<'a>(source: &Studied<'a>, at: usize) -> Option<Opening<'a>> {
    let token = source.tokens.get(at)?;
    Some(Opening {
        word: token.text,
        name: label_before(&source.tokens, at),
        line: source.line(number_of(token)),
    })
}

/// The innermost block that is open after the first `count` tokens.
pub(crate) fn innermost<'a>(source: &Studied<'a>, count: usize) -> Option<Opening<'a>> {
    let tokens = source.tokens.as_slice();
    let at = innermost_place(&tokens[..count.min(tokens.len())])?;
    opening_at(source, at)
}
