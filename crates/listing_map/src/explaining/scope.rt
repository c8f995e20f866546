//! The names that a module's tokens declare: where each stands, and how far it is known.

use plm_token::{Keyword, Kind, Mark, Token};
use std::alloc::{AllocError, Global};

/// A declared name.
#[derive(Clone, Copy)]
pub(crate) struct Declared<'a> {
    pub token: Token<'a>,
    /// Its token's place in the list.
    pub at: usize,
    /// The place of what is declared of it: behind it, or behind the list in which it stands.
    pub rest: usize,
    /// The place of the END of its block; a greater one than any where there is none.
    pub end: usize,
    /// The name that was known last where it is declared, by its number.
    pub before: Option<usize>,
    /// The name that was known last where its block begins, by its number.
    pub around: Option<usize>,
}

/// The names that tokens declare, in order, and how many of them are declared before each token.
#[derive(Drop)]
pub(crate) struct Declarations<'a> {
    pub names: Vec<Declared<'a>>,
    pub counts: Vec<usize>,
}

/// Where in a declaration a token stands.
#[derive(Clone, Copy)]
enum Stage {
    /// In no declaration.
    Outside,
    /// Where an element begins.
    Names,
    /// In the list of an element's names.
    List,
    /// After an element's names, so many parentheses deep.
    Rest(usize),
}

/// The names so far, and what the next token may declare.
#[derive(Drop)]
struct Walk<'a> {
    names: Vec<Declared<'a>>,
    counts: Vec<usize>,
    /// The names that are known, by their numbers, the innermost last.
    known: Vec<usize>,
    /// How many names were known where each open block begins.
    starts: Vec<usize>,
    part: Stage,
    /// The number of the first name in the list.
    list: usize,
    /// The token before the next one, and the one before that.
    before: Option<Token<'a>>,
    earlier: Option<Token<'a>>,
}

impl<'a> Walk<'a> {
    /// The name that was known last where the innermost block begins.
    fn around(&self) -> Option<usize> {
        let start = self.starts.last().copied()?;
        self.known.get(start.checked_sub(1)?).copied()
    }

    fn declare(&mut self, at: usize, token: Token<'a>) -> Result<(), AllocError> {
        let number = self.names.len();
        let before = self.known.last().copied();
        let around = self.around();
        self.names.push(Declared {
            token,
            at,
            rest: at.saturating_add(1),
            end: usize::MAX,
            before,
            around,
        })?;
        self.known.push(number)?;
        Ok(())
    }

    /// Ends the innermost block, whose END stands at this place.
    fn close(&mut self, at: usize) {
        let Some(start) = self.starts.pop() else {
            return;
        };
        let (_, own) = self.known.split_at(start.min(self.known.len()));
        for number in own {
            if let Some(declared) = self.names.get_mut(*number) {
                declared.end = at;
            }
        }
        self.known.truncate(start);
    }

    /// Ends the list, whose parenthesis stands at this place.
    fn close_list(&mut self, at: usize) {
        for number in self.list..self.names.len() {
            if let Some(declared) = self.names.get_mut(number) {
                declared.rest = at.saturating_add(1);
            }
        }
        self.part = Stage::Rest(0);
    }

    /// A token outside a declaration.
    fn outside(&mut self, at: usize, token: Token<'a>) -> Result<(), AllocError> {
        if token.kind == Kind::Reserved(Keyword::Declare) {
            self.part = Stage::Names;
        }
        if token.kind == Kind::Reserved(Keyword::Procedure) {
            if let Some(name) = self.earlier {
                self.declare(at.saturating_sub(2), name)?;
            }
            self.starts.push(self.known.len())?;
        }
        if token.kind == Kind::Reserved(Keyword::Do) {
            self.starts.push(self.known.len())?;
        }
        if token.kind == Kind::Reserved(Keyword::End) {
            self.close(at);
        }
        Ok(())
    }

    fn is_behind_based(&self) -> bool {
        match self.before {
            Some(token) => token.kind == Kind::Reserved(Keyword::Based),
            None => false,
        }
    }

    /// A token where an element's names stand.
    fn in_names(&mut self, at: usize, token: Token<'a>) -> Result<(), AllocError> {
        match token.kind {
            Kind::Identifier => {
                self.declare(at, token)?;
                self.part = Stage::Rest(0);
            }
            Kind::Special(Mark::LeftParenthesis) => {
                self.list = self.names.len();
                self.part = Stage::List;
            }
            Kind::Special(_) | Kind::Reserved(_) | Kind::Numeral(_) | Kind::String => {
                self.part = Stage::Rest(0);
            }
        }
        Ok(())
    }

    /// A token in the list of an element's names.
    fn in_list(&mut self, at: usize, token: Token<'a>) -> Result<(), AllocError> {
        match token.kind {
            Kind::Identifier if !self.is_behind_based() => self.declare(at, token)?,
            Kind::Special(Mark::RightParenthesis) => self.close_list(at),
            Kind::Identifier
            | Kind::Special(_)
            | Kind::Reserved(_)
            | Kind::Numeral(_)
            | Kind::String => {}
        }
        Ok(())
    }

    /// A token after an element's names, so many parentheses deep.
    fn in_rest(&mut self, token: Token<'a>, depth: usize) {
        self.part = match token.kind {
            Kind::Special(Mark::LeftParenthesis) => Stage::Rest(depth.saturating_add(1)),
            Kind::Special(Mark::RightParenthesis) => Stage::Rest(depth.saturating_sub(1)),
            Kind::Special(Mark::Comma) if depth == 0 => Stage::Names,
            Kind::Special(Mark::Semicolon) => Stage::Outside,
            Kind::Special(_)
            | Kind::Reserved(_)
            | Kind::Identifier
            | Kind::Numeral(_)
            | Kind::String => Stage::Rest(depth),
        };
    }

    fn step(&mut self, at: usize, token: Token<'a>) -> Result<(), AllocError> {
        self.counts.push(self.names.len())?;
        match self.part {
            Stage::Outside => self.outside(at, token)?,
            Stage::Names => self.in_names(at, token)?,
            Stage::List => self.in_list(at, token)?,
            Stage::Rest(depth) => self.in_rest(token, depth),
        }
        self.earlier = self.before;
        self.before = Some(token);
        Ok(())
    }
}

/// The names that the tokens declare, and how many of them before each token.
pub(crate) fn declarations_of<'a>(
    alloc: Global,
    tokens: &[Token<'a>],
) -> Result<Declarations<'a>, AllocError> {
    let mut walk = Walk {
        names: Vec::new(alloc),
        counts: Vec::new(alloc),
        known: Vec::new(alloc),
        starts: Vec::new(alloc),
        part: Stage::Outside,
        list: 0,
        before: None,
        earlier: None,
    };
    for (at, token) in tokens.iter().enumerate() {
        walk.step(at, *token)?;
    }
    let Walk { names, counts, .. } = walk;
    Ok(Declarations { names, counts })
}

/// All names that the tokens declare, in order.
pub(crate) fn all_names<'a>(
    alloc: Global,
    tokens: &[Token<'a>],
) -> Result<Vec<Declared<'a>>, AllocError> {
    let Declarations { names, .. } = declarations_of(alloc, tokens)?;
    Ok(names)
}
