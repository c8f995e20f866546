//! What is said of a fault of sources beside its line: `listing_map` explains it, and of a program without room it is handed the code.

ghost use Rattle.std.specs.Prelude.{◌≡◌, IfOk, length, map};
ghost use Rattle.listing_map.specs.Explaining.{quoted_line, text_at, text_of as named_text};
ghost use Rattle.plm86.specs.Build.{text_of};

use crate::build::{Source, analyse};
use icode::Code;
use layout_link::RomSize;
use listing_map::{Compiled, Explanation, FaultAt, NamedText, explain};
use lower::lower;
use plm_type::Program;
use std::alloc::{AllocError, Global};
use word86::{Fault, Number};

/// The sources, as what explains takes them.
pub(crate) fn named_texts<'a>(
    alloc: Global,
    sources: &[Source<'a>],
) -> Result<Vec<NamedText<'a>>, AllocError>
    ensures { IfOk result (λ v. map named_text v.items ≡ map text_of sources.now) }
{
    let mut texts = Vec::new(alloc);
    for source in sources {
        texts.push(NamedText {
            name: source.name,
            text: source.text,
        })?;
    }
    Ok(texts)
}

/// A program and its code.
#[derive(Drop)]
struct Lowered {
    program: Program,
    code: Code,
}

/// The program of sources and its code, where they come so far.
fn as_code(alloc: Global, sources: &[Source<'_>]) -> Result<Lowered, Fault> {
    let program = analyse(alloc, sources)?;
    match lower(alloc, &program) {
        Ok(code) => Ok(Lowered { program, code }),
        Err(fault) => {
            drop(program);
            Err(fault)
        }
    }
}

/// Explains that the stack or the ROM has no room.
fn explain_room<'a>(
    alloc: Global,
    sources: &[Source<'a>],
    size: RomSize,
    fault: FaultAt,
) -> Result<Explanation<'a>, AllocError>
    ensures { IfOk result (λ e. e.quoted.now ≡ quoted_line (text_at (map text_of sources.now) fault.«module») fault.line) }
{
    let texts = named_texts(alloc, sources)?;
    match as_code(alloc, sources) {
        Ok(Lowered { program, code }) => {
            let compiled = Compiled {
                code: &code,
                names: program.names(),
                size,
            };
            explain(alloc, &texts, Some(compiled), fault)
        }
        Err(Fault::At(_, _, _)) => explain(alloc, &texts, None, fault),
        Err(Fault::Memory) => Err(AllocError),
    }
}

/// Explains a fault of sources that are built to a ROM of this size. Want of memory is its one error.
pub(crate) fn explain_build<'a>(
    alloc: Global,
    sources: &[Source<'a>],
    size: RomSize,
    fault: FaultAt,
) -> Result<Explanation<'a>, AllocError>
    ensures { IfOk result (λ e. e.quoted.now ≡ quoted_line (text_at (map text_of sources.now) fault.«module») fault.line) }
{
    if fault.number == Number::E501 || fault.number == Number::E601 {
        return explain_room(alloc, sources, size, fault);
    }
    let texts = named_texts(alloc, sources)?;
    explain(alloc, &texts, None, fault)
}
