//! Notes on what compiles and is mostly a mistake: those of `--lint`.
//!
//! The sources have no fault, and their names are at hand. What is found names its token by its place once literals are replaced; where
//! that stands in its text is looked up once something is found. Texts have no contract: `tests/mistakes` shows them.

mod constants;
mod guards;
mod outside;
mod returning;
mod unused;
mod walk;

use crate::explaining::reason::operator_name;
use crate::explaining::sentence::{Part, sentence};
use crate::explaining::studied::{Studied, number_of, study};
use crate::noted::Noted;
use crate::texts::NamedText;
use plm_decl::Names;
use plm_syntax::{BinaryOperator, expand};
use plm_token::scan;
use returning::add_without_return;
use std::alloc::{AllocError, Global};
use unused::add_unused;
use walk::add_walked;
use word86::Fault;

/// What is noted.
#[derive(Clone, Copy)]
pub(crate) enum Finding {
    /// A constant subscript, and how many elements there are.
    Outside(u32, u32),
    ZeroDivisor,
    /// A constant that a BYTE does not hold.
    TooLarge(u32),
    NeverTrue,
    /// The same of an INTEGER.
    NeverTrueWithSign,
    Unused,
    WithoutReturn,
    /// A subscript beside this operator, whose other side tests it.
    Unguarded(BinaryOperator),
}

/// A finding, with its module and the place of its token there, once literals are replaced.
#[derive(Clone, Copy)]
pub(crate) struct Found {
    pub module: usize,
    pub place: usize,
    pub finding: Finding,
}

/// A finding, with its module and the number of its token among those of the text, from 1 on.
#[derive(Clone, Copy)]
struct Numbered {
    module: usize,
    number: u32,
    finding: Finding,
}

/// A note on a token.
#[derive(Drop)]
pub struct Lint<'a> {
    /// The name of its file, as the source has it.
    pub file: &'a str,
    /// Its line, from 1 on.
    pub line: u32,
    /// Its column in bytes, from 1 on.
    pub column: usize,
    /// What is said, without a line feed.
    pub words: Vec<u8>,
}

/// What is said of a number that does not fit.
fn misfit_words(
    alloc: Global,
    name: Part<'_>,
    words: &'static str,
    number: u32,
    more: &'static str,
) -> Noted<u8> {
    let number = Part::Number(u64::from(number));
    sentence(
        alloc,
        &[name, Part::Words(words), number, Part::Words(more)],
    )
}

/// What is said of a subscript outside its array.
fn outside_words(alloc: Global, name: Part<'_>, subscript: u32, count: u32) -> Noted<u8> {
    sentence(
        alloc,
        &[
            name,
            Part::Words(" has "),
            Part::Number(u64::from(count)),
            Part::Words(if count == 1 { " element" } else { " elements" }),
            Part::Words(", counted from 0, and the subscript is "),
            Part::Number(u64::from(subscript)),
        ],
    )
}

fn words_of(alloc: Global, name: &[u8], finding: Finding) -> Noted<u8> {
    let name = Part::Spelled(name);
    let words = match finding {
        Finding::Outside(subscript, count) => return outside_words(alloc, name, subscript, count),
        Finding::TooLarge(value) => {
            let keeps = " is a BYTE, which keeps the low 8 bits of ";
            return misfit_words(alloc, name, keeps, value, " alone");
        }
        Finding::Unguarded(operator) => {
            let parts = [
                name,
                Part::Words(" is read whatever the other side of "),
                Part::Words(operator_name(operator)),
                Part::Words(" says: IF inside IF tests first"),
            ];
            return sentence(alloc, &parts);
        }
        Finding::ZeroDivisor => " divides by 0",
        Finding::NeverTrue => " is never true here: a BYTE is 0 to 255, a WORD 0 to 65535",
        Finding::NeverTrueWithSign => " is never true here: an INTEGER is -32768 to 32767",
        Finding::Unused => " is never used",
        Finding::WithoutReturn => " has a value, and may come to its END without RETURN",
    };
    sentence(alloc, &[name, Part::Words(words)])
}

/// Adds the names that a module declares and does not use.
fn add_unused_in(
    alloc: Global,
    source: &NamedText<'_>,
    module: usize,
    noted: &mut Noted<Found>,
) -> Result<(), Fault> {
    let expansion = expand(alloc, scan(alloc, source.text)?)?;
    add_unused(alloc, &expansion.tokens, module, noted)?;
    Ok(())
}

/// What is found in all modules.
fn all_found(alloc: Global, sources: &[NamedText<'_>], names: &Names) -> Result<Vec<Found>, Fault> {
    let mut noted = Noted::new(alloc);
    add_walked(alloc, names, &mut noted);
    add_without_return(alloc, names, &mut noted)?;
    for (module, source) in sources.iter().enumerate() {
        add_unused_in(alloc, source, module, &mut noted)?;
    }
    Ok(noted.whole()?)
}

/// A finding by the number of its token.
fn in_numbers(sources: &[Studied<'_>], found: Found) -> Option<Numbered> {
    let token = sources.get(found.module)?.expanded.get(found.place)?;
    Some(Numbered {
        module: found.module,
        number: number_of(token),
        finding: found.finding,
    })
}

/// These findings in the order of modules and tokens.
fn in_order(
    alloc: Global,
    sources: &[Studied<'_>],
    all: &[Found],
) -> Result<Vec<Numbered>, AllocError> {
    let mut ordered: Vec<Numbered> = Vec::new(alloc);
    for found in all {
        if let Some(finding) = in_numbers(sources, *found) {
            ordered.push(finding)?;
        }
    }
    ordered.sort_by_key(|it: &Numbered| (it.module, it.number))?;
    Ok(ordered)
}

/// The note of a finding.
fn lint_of<'a>(
    alloc: Global,
    source: &Studied<'a>,
    found: Numbered,
) -> Result<Lint<'a>, AllocError> {
    let column = match source.spot(found.number) {
        Some(spot) => spot.column.saturating_add(1),
        None => 1,
    };
    Ok(Lint {
        file: source.name,
        line: source.line(found.number),
        column,
        words: words_of(alloc, source.spelled(found.number), found.finding).whole()?,
    })
}

/// The notes of these findings.
fn lints_at<'a>(
    alloc: Global,
    sources: &[Studied<'a>],
    all: &[Numbered],
) -> Result<Vec<Lint<'a>>, AllocError> {
    let mut lints = Vec::new(alloc);
    for found in all {
        if let Some(source) = sources.get(found.module) {
            lints.push(lint_of(alloc, source, *found)?)?;
        }
    }
    Ok(lints)
}

/// The notes of sources that have no fault, module by module and in the order of their tokens.
fn lints_of<'a>(
    alloc: Global,
    sources: &[NamedText<'a>],
    names: &Names,
) -> Result<Vec<Lint<'a>>, Fault> {
    let found = all_found(alloc, sources, names)?;
    if found.is_empty() {
        return Ok(Vec::new(alloc));
    }
    let studied = study(alloc, sources)?;
    let ordered = in_order(alloc, &studied, &found)?;
    Ok(lints_at(alloc, &studied, &ordered)?)
}

/// The notes of sources that have these names, module by module and in the order of their tokens; none where a text has a fault. Of sources
/// with a fault of types a note may be false. Want of memory is its one error.
pub fn lints<'a>(
    alloc: Global,
    sources: &[NamedText<'a>],
    names: &Names,
) -> Result<Vec<Lint<'a>>, AllocError> {
    match lints_of(alloc, sources, names) {
        Ok(lints) => Ok(lints),
        Err(Fault::At(_, _, _)) => Ok(Vec::new(alloc)),
        Err(Fault::Memory) => Err(AllocError),
    }
}
