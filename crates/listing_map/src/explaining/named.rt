//! A source's names, found by how they are spelled and by where they stand.

use crate::explaining::facts::{Facts, facts_at, is_based};
use crate::explaining::nearest::Looked;
use crate::explaining::scope::{Declarations, Declared, declarations_of};
use crate::explaining::studied::Studied;
use plm_token::{Kind, Mark, Token, normal};
use std::alloc::{AllocError, Global};
use std::collections::BTreeMap;

/// A declared name, and what is declared of it.
#[derive(Clone, Copy)]
pub(crate) struct Entry<'a> {
    pub declared: Declared<'a>,
    pub facts: Facts,
}

/// A source with the names that it declares.
#[derive(Drop)]
pub(crate) struct Named<'a> {
    pub source: Studied<'a>,
    /// In order.
    pub entries: Vec<Entry<'a>>,
    /// How many names are declared before each token.
    counts: Vec<usize>,
    /// For each token the place of the innermost parenthesis that is open before it: of a closing one that which it closes.
    open: Vec<Option<usize>>,
    /// The names by their numbers, under how they are spelled in normal form, in order.
    numbers: BTreeMap<Vec<u8>, Vec<usize>>,
}

/// What is declared of a name. Names of one list share what stands behind it, which is read once.
fn facts_beside(
    tokens: &[Token<'_>],
    before: Option<&Entry<'_>>,
    declared: &Declared<'_>,
) -> Facts {
    match before {
        Some(entry) if entry.declared.rest == declared.rest => {
            let mut facts = entry.facts;
            facts.is_based = is_based(tokens, declared.at);
            facts
        }
        Some(_) | None => facts_at(tokens, declared.at),
    }
}

/// Each of these names with what is declared of it.
fn entries_of<'a>(
    alloc: Global,
    tokens: &[Token<'a>],
    names: &[Declared<'a>],
) -> Result<Vec<Entry<'a>>, AllocError> {
    let mut entries: Vec<Entry<'a>> = Vec::new(alloc);
    for declared in names {
        let facts = facts_beside(tokens, entries.last(), declared);
        entries.push(Entry {
            declared: *declared,
            facts,
        })?;
    }
    Ok(entries)
}

/// The numbers of these names, under how they are spelled in normal form.
fn numbers_of(
    alloc: Global,
    names: &[Declared<'_>],
) -> Result<BTreeMap<Vec<u8>, Vec<usize>>, AllocError> {
    let mut numbers: BTreeMap<Vec<u8>, Vec<usize>> = BTreeMap::new(alloc);
    for (number, declared) in names.iter().enumerate() {
        let name = normal(alloc, declared.token.text)?;
        let spelled_so = numbers.entry(name)?.or_insert(Vec::new(alloc));
        spelled_so.push(number)?;
    }
    Ok(numbers)
}

/// For each token the place of the innermost parenthesis that is open before it.
fn open_parentheses(alloc: Global, tokens: &[Token<'_>]) -> Result<Vec<Option<usize>>, AllocError> {
    let mut all: Vec<Option<usize>> = Vec::new(alloc);
    let mut open: Vec<usize> = Vec::new(alloc);
    for (at, token) in tokens.iter().enumerate() {
        all.push(open.last().copied())?;
        if token.kind == Kind::Special(Mark::LeftParenthesis) {
            open.push(at)?;
        } else if token.kind == Kind::Special(Mark::RightParenthesis) {
            let _ = open.pop();
        }
    }
    Ok(all)
}

/// What is known of the tokens of a source.
#[derive(Drop)]
struct Known<'a> {
    entries: Vec<Entry<'a>>,
    counts: Vec<usize>,
    open: Vec<Option<usize>>,
    numbers: BTreeMap<Vec<u8>, Vec<usize>>,
}

fn known_of<'a>(alloc: Global, tokens: &[Token<'a>]) -> Result<Known<'a>, AllocError> {
    let Declarations { names, counts } = declarations_of(alloc, tokens)?;
    let entries = entries_of(alloc, tokens, &names)?;
    let numbers = numbers_of(alloc, &names)?;
    let open = open_parentheses(alloc, tokens)?;
    Ok(Known {
        entries,
        counts,
        open,
        numbers,
    })
}

/// The source with the names that it declares.
pub(crate) fn with_names<'a>(alloc: Global, source: Studied<'a>) -> Result<Named<'a>, AllocError> {
    match known_of(alloc, &source.expanded) {
        Ok(
            Known {
                entries,
                counts,
                open,
                numbers,
            },
        ) => Ok(Named {
            source,
            entries,
            counts,
            open,
            numbers,
        }),
        Err(refused) => {
            drop(source);
            Err(refused)
        }
    }
}

impl<'a> Named<'a> {
    /// The token at a place.
    pub fn token(&self, place: usize) -> Option<Token<'a>> {
        self.source.expanded.get(place).copied()
    }

    /// Whether a token of this kind stands at a place.
    pub fn has(&self, place: usize, kind: Kind) -> bool {
        match self.token(place) {
            Some(token) => token.kind == kind,
            None => false,
        }
    }

    /// The place of the innermost parenthesis that is open before the token at a place: of a closing one that which it closes.
    pub fn open_at(&self, place: usize) -> Option<usize> {
        match self.open.get(place) {
            Some(open) => *open,
            None => None,
        }
    }

    /// How many names are declared before the token at a place.
    fn count(&self, place: usize) -> usize {
        match self.counts.get(place) {
            Some(count) => *count,
            None => self.entries.len(),
        }
    }

    /// The numbers of the names that are spelled so, in order.
    fn spelled_so(&self, alloc: Global, name: &[u8]) -> Result<&[usize], AllocError> {
        let name = normal(alloc, name)?;
        match self.numbers.get(name.as_slice()) {
            Some(numbers) => Ok(numbers.as_slice()),
            None => Ok(&[]),
        }
    }

    /// The first name that is spelled so.
    pub fn first(&self, alloc: Global, name: &[u8]) -> Result<Option<Entry<'a>>, AllocError> {
        match self.spelled_so(alloc, name)?.first() {
            Some(number) => Ok(self.entries.get(*number).copied()),
            None => Ok(None),
        }
    }

    /// The name that the token at a place declares.
    pub fn declared_at(&self, place: usize) -> Option<Entry<'a>> {
        let entry = self.entries.get(self.count(place)).copied()?;
        (entry.declared.at == place).then_some(entry)
    }

    /// The innermost name that is spelled so and known at a place.
    pub fn known_as(
        &self,
        alloc: Global,
        name: &[u8],
        place: usize,
    ) -> Result<Option<Entry<'a>>, AllocError> {
        let count = self.count(place);
        let numbers = self.spelled_so(alloc, name)?;
        let (before, _) = numbers.split_at(numbers.partition_point(|number| *number < count));
        for number in before.iter().rev() {
            if let Some(entry) = self.entries.get(*number) {
                if place <= entry.declared.end {
                    return Ok(Some(*entry));
                }
            }
        }
        Ok(None)
    }

    /// The names that are known at a place, the outer ones first; of many only the nearest, at most so many.
    pub fn known_at(
        &self,
        alloc: Global,
        place: usize,
        most: usize,
    ) -> Result<Looked<'a>, AllocError> {
        let mut names: Vec<&'a [u8]> = Vec::new(alloc);
        let mut next = self.count(place).checked_sub(1);
        for _step in 0..most {
            let Some(declared) = self.numbered(next) else {
                break;
            };
            next = if place <= declared.end {
                names.push(declared.token.text)?;
                declared.before
            } else {
                declared.around
            };
        }
        names.reverse();
        Ok(Looked {
            names,
            are_all: self.numbered(next).is_none(),
        })
    }

    /// The declaration of a name by its number.
    fn numbered(&self, number: Option<usize>) -> Option<Declared<'a>> {
        match self.entries.get(number?) {
            Some(entry) => Some(entry.declared),
            None => None,
        }
    }
}
