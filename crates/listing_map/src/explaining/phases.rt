//! Sources, gone through once as far as the faults of a phase want it.

use crate::explaining::calls::{Calls, calls_of};
use crate::explaining::kinds::Phase;
use crate::explaining::looking_statements::all_reasons;
use crate::explaining::program_names::{ProgramNames, program_names};
use crate::explaining::reason::Reasoned;
use crate::explaining::studied::{Studied, names_of, study, trees};
use crate::phase_faults::{FaultAt, in_order};
use crate::texts::NamedText;
use plm_decl::{Names, name_faults};
use plm_syntax::Module;
use plm_type::type_faults;
use std::alloc::{AllocError, Global};
use word86::Fault;

/// Sources with their names resolved, why they have their faults of types, and what their procedures do.
#[derive(Drop)]
pub(crate) struct TypedSources<'a> {
    pub sources: Vec<Studied<'a>>,
    pub names: Names,
    pub reasons: Vec<Reasoned>,
    pub calls: Calls,
}

/// What is known of sources.
#[derive(Drop)]
pub(crate) enum Work<'a> {
    Nothing,
    Tokens(Vec<Studied<'a>>),
    Names(ProgramNames<'a>),
    Types(TypedSources<'a>),
}

/// What is known of sources, and all faults of the phase in the order in which they are answered: none but of names and of types.
#[derive(Drop)]
pub(crate) struct GoneThrough<'a> {
    pub work: Work<'a>,
    pub faults: Vec<FaultAt>,
}

/// The faults of names.
fn faults_of_names(
    alloc: Global,
    sources: &[Studied<'_>],
    trees: &[Module<'_>],
) -> Result<Vec<FaultAt>, AllocError> {
    let mut found = name_faults(alloc, trees)?;
    in_order(alloc, sources, &mut found)
}

/// Sources with these trees, gone through to their names.
fn with_trees<'a>(
    alloc: Global,
    sources: Vec<Studied<'a>>,
    trees: &[Module<'a>],
) -> Result<GoneThrough<'a>, Fault> {
    let faults = faults_of_names(alloc, &sources, trees)?;
    let names = program_names(alloc, sources, trees)?;
    Ok(GoneThrough {
        work: Work::Names(names),
        faults,
    })
}

/// Sources gone through to their names (E301 to E310).
fn through_names<'a>(alloc: Global, texts: &[NamedText<'a>]) -> Result<GoneThrough<'a>, Fault> {
    let sources = study(alloc, texts)?;
    let trees = trees(alloc, &sources)?;
    with_trees(alloc, sources, &trees)
}

/// The faults of types.
fn faults_of_types(
    alloc: Global,
    sources: &[Studied<'_>],
    names: &Names,
) -> Result<Vec<FaultAt>, AllocError> {
    let mut found = type_faults(alloc, names)?;
    in_order(alloc, sources, &mut found)
}

/// The faults of types, why they come, and what procedures do.
#[derive(Drop)]
struct TypesFound {
    faults: Vec<FaultAt>,
    reasons: Vec<Reasoned>,
    calls: Calls,
}

/// What is known of the types of sources.
fn types_told(alloc: Global, sources: &[Studied<'_>], names: &Names) -> Result<TypesFound, Fault> {
    let faults = faults_of_types(alloc, sources, names)?;
    let reasons = all_reasons(alloc, names)?;
    let calls = calls_of(alloc, names)?;
    Ok(TypesFound {
        faults,
        reasons,
        calls,
    })
}

/// Sources with these names, gone through to their types.
fn with_types<'a>(
    sources: Vec<Studied<'a>>,
    names: Names,
    typed: Result<TypesFound, Fault>,
) -> Result<GoneThrough<'a>, Fault> {
    match typed {
        Ok(
            TypesFound {
                faults,
                reasons,
                calls,
            },
        ) => Ok(GoneThrough {
            work: Work::Types(TypedSources {
                sources,
                names,
                reasons,
                calls,
            }),
            faults,
        }),
        Err(fault) => {
            drop(sources);
            drop(names);
            Err(fault)
        }
    }
}

/// Sources gone through to their types (E401 to E406).
fn through_types<'a>(alloc: Global, texts: &[NamedText<'a>]) -> Result<GoneThrough<'a>, Fault> {
    let sources = study(alloc, texts)?;
    let names = names_of(alloc, &sources)?;
    let typed = types_told(alloc, &sources, &names);
    with_types(sources, names, typed)
}

/// Sources gone through as far as a phase wants it, without its faults.
fn without_faults<'a>(alloc: Global, work: Work<'a>) -> GoneThrough<'a> {
    GoneThrough {
        work,
        faults: Vec::new(alloc),
    }
}

fn through<'a>(
    alloc: Global,
    texts: &[NamedText<'a>],
    phase: Phase,
) -> Result<GoneThrough<'a>, Fault> {
    match phase {
        Phase::Apart => Ok(without_faults(alloc, Work::Nothing)),
        Phase::Tokens => {
            let sources = study(alloc, texts)?;
            Ok(without_faults(alloc, Work::Tokens(sources)))
        }
        Phase::Names => through_names(alloc, texts),
        Phase::Types => through_types(alloc, texts),
    }
}

/// Sources gone through as far as a phase wants it; nothing is known of them where an earlier phase has a fault.
pub(crate) fn gone_through<'a>(
    alloc: Global,
    texts: &[NamedText<'a>],
    phase: Phase,
) -> Result<GoneThrough<'a>, AllocError> {
    match through(alloc, texts, phase) {
        Ok(gone) => Ok(gone),
        Err(Fault::At(_, _, _)) => Ok(without_faults(alloc, Work::Nothing)),
        Err(Fault::Memory) => Err(AllocError),
    }
}
