//! The faults that a phase finds in sources, in the order in which they are answered.

use crate::explaining::kinds::kind_of;
use crate::explaining::studied::{Studied, number_at};
use plm_decl::found::Found;
use std::alloc::{AllocError, Global};
use word86::Number;

/// A token of a module: its number among those of the text, from 1 on, and its place among those that stand there once literals are
/// replaced, from 0 on.
#[derive(Clone, Copy, PartialEq, Eq)]
pub struct TokenAt {
    pub number: u32,
    pub place: usize,
}

/// A fault, and where it stands.
#[derive(Clone, Copy, PartialEq, Eq)]
pub struct FaultAt {
    /// Its module, from 0 on.
    pub module: usize,
    /// Its line, from 1 on.
    pub line: u32,
    /// Its token; none where it is not known, and at faults of the whole program that no token has.
    pub token: Option<TokenAt>,
    pub number: Number,
}

/// What was found, with the line of its token; the tokens of the sources have their numbers for lines, and a fault of the whole program has
/// its line itself.
fn placed(sources: &[Studied<'_>], found: &Found) -> FaultAt {
    let number = number_at(found.place);
    let is_of_program = kind_of(found.number).is_of_program();
    let line = match sources.get(found.module) {
        Some(source) if !is_of_program => source.line(number),
        Some(_) | None => number,
    };
    let token = TokenAt {
        number,
        place: found.place.token as usize,
    };
    FaultAt {
        module: found.module,
        line,
        token: (!is_of_program).then_some(token),
        number: found.number,
    }
}

/// Each of these once, in the order in which faults are answered.
pub(crate) fn in_order(
    alloc: Global,
    sources: &[Studied<'_>],
    found: &mut Vec<Found>,
) -> Result<Vec<FaultAt>, AllocError> {
    found.sort_by_key(|it: &Found| (it.module, it.place.token, it.number.text()))?;
    let mut all: Vec<FaultAt> = Vec::new(alloc);
    for other in found.iter() {
        let fault = placed(sources, other);
        if all.last() != Some(&fault) {
            all.push(fault)?;
        }
    }
    Ok(all)
}
