//! Names that a module declares and does not use.

use crate::explaining::scope::{Declared, all_names};
use crate::linting::{Finding, Found};
use crate::noted::Noted;
use plm_token::{Keyword, Kind, Mark, Token, same_name};
use std::alloc::{AllocError, Global};

/// A number that names have in common which are spelled alike: case and dollar signs do not count.
fn key_of(name: &[u8]) -> u64 {
    let mut key: u64 = 0;
    for letter in name {
        if *letter != b'$' {
            let code = u64::from(letter.to_ascii_uppercase());
            key = key.wrapping_mul(0x100_0000_01B3).wrapping_add(code);
        }
    }
    key
}

/// The names that stand in a module: of each its key and its place, once for each time, in the order of keys; but for those behind END.
fn spelled_names(alloc: Global, tokens: &[Token<'_>]) -> Result<Vec<(u64, usize)>, AllocError> {
    let mut all: Vec<(u64, usize)> = Vec::new(alloc);
    let mut is_end = false;
    for (place, token) in tokens.iter().enumerate() {
        if token.kind == Kind::Identifier && !is_end {
            all.push((key_of(token.text), place))?;
        }
        is_end = token.kind == Kind::Reserved(Keyword::End);
    }
    all.sort()?;
    Ok(all)
}

/// Whether PUBLIC, EXTERNAL or INTERRUPT stands between a token and the end of its element, or of its procedure's first line, and how many
/// parentheses are closed there.
#[derive(Clone, Copy)]
struct Sharing {
    is_shared: bool,
    depth: usize,
}

const UNSHARED: Sharing = Sharing {
    is_shared: false,
    depth: 0,
};

impl Sharing {
    /// The same of the token before, which is of this kind.
    fn before(self, kind: Kind) -> Sharing {
        let mut sharing = self;
        match kind {
            Kind::Reserved(Keyword::Public | Keyword::External | Keyword::Interrupt) => {
                sharing.is_shared = true;
            }
            Kind::Special(Mark::RightParenthesis) => sharing.depth = self.depth.saturating_add(1),
            Kind::Special(Mark::LeftParenthesis) => sharing.depth = self.depth.saturating_sub(1),
            Kind::Special(Mark::Comma) if self.depth == 0 => sharing = UNSHARED,
            Kind::Special(Mark::Semicolon) => sharing = UNSHARED,
            Kind::Special(_)
            | Kind::Reserved(_)
            | Kind::Identifier
            | Kind::Numeral(_)
            | Kind::String => {}
        }
        sharing
    }
}

/// Of each token whether what is declared there is known elsewhere, or entered by its interrupt.
fn all_shared(alloc: Global, tokens: &[Token<'_>]) -> Result<Vec<bool>, AllocError> {
    let mut all = Vec::new(alloc);
    let mut sharing = UNSHARED;
    for token in tokens.iter().rev() {
        sharing = sharing.before(token.kind);
        all.push(sharing.is_shared)?;
    }
    all.reverse();
    Ok(all)
}

/// Whether the name at this place is a literal's, whose uses are replaced by its text.
fn is_literal(tokens: &[Token<'_>], at: usize) -> bool {
    match tokens.get(at.saturating_add(1)) {
        Some(token) => token.kind == Kind::Reserved(Keyword::Literally),
        None => false,
    }
}

/// The tokens of a module, the names that stand there, and of each token whether what is declared there is shared.
#[derive(Clone, Copy)]
struct Uses<'m, 'a> {
    tokens: &'m [Token<'a>],
    spelled: &'m [(u64, usize)],
    shared: &'m [bool],
}

impl Uses<'_, '_> {
    /// Whether a name is spelled so at a place.
    fn is_spelled(&self, place: usize, name: &[u8]) -> bool {
        match self.tokens.get(place) {
            Some(token) => same_name(token.text, name),
            None => false,
        }
    }

    /// Whether a declared name stands at another place, too.
    fn stands_again(&self, declared: &Declared<'_>) -> bool {
        let name = declared.token.text;
        let key = key_of(name);
        let before = self.spelled.partition_point(|it| it.0 < key);
        let (_, rest) = self.spelled.split_at(before);
        for (other, place) in rest {
            if *other != key {
                return false;
            }
            if *place != declared.at && self.is_spelled(*place, name) {
                return true;
            }
        }
        false
    }

    /// Whether a declared name is not a literal's, and is neither spelled elsewhere nor shared.
    fn is_unused(&self, declared: &Declared<'_>) -> bool {
        let is_shared = self.shared.get(declared.at).copied().unwrap_or(false);
        let is_apart = is_shared || is_literal(self.tokens, declared.at);
        !is_apart && !self.stands_again(declared)
    }
}

/// Adds each name but a literal's that a module declares and spells nowhere else, and no other module can use. These are its tokens, with
/// literals replaced.
pub(crate) fn add_unused(
    alloc: Global,
    tokens: &[Token<'_>],
    module: usize,
    found: &mut Noted<Found>,
) -> Result<(), AllocError> {
    let spelled = spelled_names(alloc, tokens)?;
    let shared = all_shared(alloc, tokens)?;
    let uses = Uses {
        tokens,
        spelled: &spelled,
        shared: &shared,
    };
    for declared in all_names(alloc, tokens)? {
        if uses.is_unused(&declared) {
            found.add(Found {
                module,
                place: declared.at,
                finding: Finding::Unused,
            });
        }
    }
    Ok(())
}
