//! Sources whose tokens have their numbers for lines: the phases then say at which token they find a fault, and not only on which line.

use crate::explaining::pieces::{Piece, seen_pieces};
use crate::texts::NamedText;
use plm_decl::{Names, resolve};
use plm_syntax::{Module, Position, expand, parse};
use plm_token::{Kind, Token, scan};
use std::alloc::{AllocError, Global};
use word86::Fault;

/// A source: its file's name, its tokens where they stand, the same with their numbers from 1 on for lines, and these once literals are
/// replaced.
///
/// So what these tokens have for a line is a token's number, and that of each place in the trees that are made of them: `number_of` and
/// `number_at` read it there, and `line` gives the line of the text on which the token of a number stands.
#[derive(Drop)]
pub(crate) struct Studied<'a> {
    pub name: &'a str,
    pub spots: Vec<Piece<'a>>,
    pub tokens: Vec<Token<'a>>,
    pub expanded: Vec<Token<'a>>,
}

impl<'a> Studied<'a> {
    /// The token of this number, where it stands.
    pub fn spot(&self, number: u32) -> Option<Piece<'a>> {
        self.spots.get((number as usize).saturating_sub(1)).copied()
    }

    /// How the token of this number is spelled; nothing where there is none.
    pub fn spelled(&self, number: u32) -> &'a [u8] {
        match self.spot(number) {
            Some(spot) => spot.text,
            None => b"",
        }
    }

    /// The line of the token of this number; that of the last token where there is none.
    pub fn line(&self, number: u32) -> u32 {
        match self.spot(number) {
            Some(spot) => spot.line,
            None => match self.spots.last() {
                Some(spot) => spot.line,
                None => 1,
            },
        }
    }

    /// Its tree.
    pub fn tree(&self, alloc: Global) -> Result<Module<'a>, Fault> {
        parse(alloc, copied(alloc, &self.tokens)?)
    }
}

/// The tokens once more.
pub(crate) fn copied<'a>(
    alloc: Global,
    tokens: &[Token<'a>],
) -> Result<Vec<Token<'a>>, AllocError> {
    let mut all = Vec::new(alloc);
    for token in tokens {
        all.push(*token)?;
    }
    Ok(all)
}

/// The number of a token that has it for its line.
pub(crate) fn number_of(token: &Token<'_>) -> u32 {
    token.line
}

/// The number of the token at a place in trees of such tokens.
pub(crate) fn number_at(place: Position) -> u32 {
    place.line
}

/// A token behind so many others, with its number for its line.
pub(crate) fn numbered_token<'a>(kind: Kind, text: &'a [u8], before: usize) -> Token<'a> {
    Token {
        kind,
        text,
        line: u32::try_from(before).unwrap_or(u32::MAX).saturating_add(1),
    }
}

/// The tokens with their numbers for lines.
fn numbered<'a>(alloc: Global, tokens: &[Token<'a>]) -> Result<Vec<Token<'a>>, AllocError> {
    let mut all = Vec::new(alloc);
    for (before, token) in tokens.iter().enumerate() {
        all.push(numbered_token(token.kind, token.text, before))?;
    }
    Ok(all)
}

/// The tokens of a text; none where it has a fault.
fn tokens_of<'a>(alloc: Global, text: &'a [u8]) -> Result<Vec<Token<'a>>, Fault> {
    match scan(alloc, text) {
        Ok(tokens) => Ok(tokens),
        Err(Fault::At(_, _, _)) => Ok(Vec::new(alloc)),
        Err(Fault::Memory) => Err(Fault::Memory),
    }
}

fn studied_source<'a>(alloc: Global, source: &NamedText<'a>) -> Result<Studied<'a>, Fault> {
    let found = tokens_of(alloc, source.text)?;
    let tokens = numbered(alloc, &found)?;
    let expansion = expand(alloc, copied(alloc, &tokens)?)?;
    Ok(Studied {
        name: source.name,
        spots: seen_pieces(alloc, source.text)?,
        tokens,
        expanded: expansion.tokens,
    })
}

/// The sources, each studied.
pub(crate) fn study<'a>(
    alloc: Global,
    sources: &[NamedText<'a>],
) -> Result<Vec<Studied<'a>>, Fault> {
    let mut all = Vec::new(alloc);
    for source in sources {
        all.push(studied_source(alloc, source)?)?;
    }
    Ok(all)
}

/// The trees of the sources, which have no fault of text and grammar.
pub(crate) fn trees<'a>(alloc: Global, sources: &[Studied<'a>]) -> Result<Vec<Module<'a>>, Fault> {
    let mut all = Vec::new(alloc);
    for source in sources {
        all.push(source.tree(alloc)?)?;
    }
    Ok(all)
}

/// The names of the sources.
pub(crate) fn names_of(alloc: Global, sources: &[Studied<'_>]) -> Result<Names, Fault> {
    let trees = trees(alloc, sources)?;
    resolve(alloc, &trees)
}

/// The number of the token that the parser does not go on with among these, whose lines are their numbers, if there is one.
pub(crate) fn unparsed_among(
    alloc: Global,
    tokens: Vec<Token<'_>>,
) -> Result<Option<u32>, AllocError> {
    match parse(alloc, tokens) {
        Ok(tree) => {
            drop(tree);
            Ok(None)
        }
        Err(Fault::At(_, number, _)) => Ok(Some(number)),
        Err(Fault::Memory) => Err(AllocError),
    }
}

/// The number of the token at which a source has a fault of grammar, if it has one.
pub(crate) fn unparsed_token(
    alloc: Global,
    source: &Studied<'_>,
) -> Result<Option<u32>, AllocError> {
    unparsed_among(alloc, copied(alloc, &source.tokens)?)
}
