//! The names of all sources: those that modules share, and where interrupts are handled.

use crate::explaining::facts::Facts;
use crate::explaining::named::{Entry, Named, with_names};
use crate::explaining::nearest::{Looked, MOST};
use crate::explaining::studied::{Studied, number_of};
use plm_syntax::Module;
use plm_token::{Keyword, Kind, Token, normal};
use std::alloc::{AllocError, Global};
use std::collections::BTreeMap;

/// How modules share a name.
#[derive(Clone, Copy)]
pub(crate) enum Linked {
    Public,
    External,
}

impl Linked {
    /// Whether a name of these facts is shared so.
    pub fn is(self, facts: &Facts) -> bool {
        match self {
            Linked::Public => facts.is_public,
            Linked::External => facts.is_external,
        }
    }
}

/// A name, by its module and its number there.
#[derive(Clone, Copy)]
struct Shared {
    module: usize,
    number: usize,
}

/// A token, by its module and its number there.
#[derive(Clone, Copy)]
struct TokenOf {
    module: usize,
    number: u32,
}

/// A declared name of some module.
#[derive(Clone, Copy)]
pub(crate) struct Other<'s, 'a> {
    pub module: usize,
    pub named: &'s Named<'a>,
    pub entry: Entry<'a>,
}

impl<'s, 'a> Other<'s, 'a> {
    /// The line on which it is declared.
    pub fn line(&self) -> u64 {
        let named = self.named;
        u64::from(named.source.line(number_of(&self.entry.declared.token)))
    }

    /// The file in which it is declared.
    pub fn file(&self) -> &'a str {
        let named = self.named;
        named.source.name
    }
}

/// A line of a file.
#[derive(Clone, Copy)]
pub(crate) struct LineOf<'a> {
    pub file: &'a str,
    pub line: u64,
}

/// Sources with their names.
#[derive(Drop)]
pub(crate) struct ProgramNames<'a> {
    pub modules: Vec<Named<'a>>,
    /// The PUBLIC and EXTERNAL names, under how they are spelled in normal form, in order.
    shared: BTreeMap<Vec<u8>, Vec<Shared>>,
    /// How the first PUBLIC names are spelled.
    publics: Vec<&'a [u8]>,
    /// The first number of each interrupt that stands behind INTERRUPT.
    handlers: BTreeMap<u32, TokenOf>,
    /// The modules with statements at their outer level.
    mains: Vec<usize>,
}

impl<'a> ProgramNames<'a> {
    /// Notes a name of a module, where modules share it.
    fn note(&mut self, alloc: Global, shared: Shared, entry: &Entry<'a>) -> Result<(), AllocError> {
        let Entry { declared, facts } = entry;
        // One more than are compared with any name shows that there are others.
        if facts.is_public && self.publics.len() <= MOST {
            self.publics.push(declared.token.text)?;
        }
        if facts.is_public || facts.is_external {
            let name = normal(alloc, declared.token.text)?;
            let spelled_so = self.shared.entry(name)?.or_insert(Vec::new(alloc));
            spelled_so.push(shared)?;
        }
        Ok(())
    }

    /// Notes the names of a module that modules share.
    fn note_names(
        &mut self,
        alloc: Global,
        module: usize,
        named: &Named<'a>,
    ) -> Result<(), AllocError> {
        for (number, entry) in named.entries.iter().enumerate() {
            self.note(alloc, Shared { module, number }, entry)?;
        }
        Ok(())
    }

    /// Notes which interrupts a module handles.
    fn note_handlers(&mut self, module: usize, tokens: &[Token<'a>]) -> Result<(), AllocError> {
        let mut is_next = false;
        for token in tokens {
            match token.kind {
                Kind::Numeral(vector) if is_next => {
                    let number = number_of(token);
                    let _ = self
                        .handlers
                        .entry(vector)?
                        .or_insert(TokenOf { module, number });
                }
                Kind::Numeral(_)
                | Kind::Reserved(_)
                | Kind::Identifier
                | Kind::String
                | Kind::Special(_) => {}
            }
            is_next = token.kind == Kind::Reserved(Keyword::Interrupt);
        }
        Ok(())
    }

    /// Notes what other modules may ask of a module.
    fn note_module(
        &mut self,
        alloc: Global,
        module: usize,
        named: &Named<'a>,
    ) -> Result<(), AllocError> {
        self.note_names(alloc, module, named)?;
        self.note_handlers(module, &named.source.expanded)
    }

    /// Adds a module, with its names.
    fn add(&mut self, alloc: Global, module: usize, source: Studied<'a>) -> Result<(), AllocError> {
        let named = with_names(alloc, source)?;
        let noted = self.note_module(alloc, module, &named);
        self.modules.push(named)?;
        noted
    }

    /// The declared name that modules share.
    fn other(&self, shared: Shared) -> Option<Other<'_, 'a>> {
        let named = self.modules.get(shared.module)?;
        let entry = named.entries.get(shared.number).copied()?;
        Some(Other {
            module: shared.module,
            named,
            entry,
        })
    }

    /// The names that are spelled so and that modules share in this way, in order.
    pub fn linked(
        &self,
        alloc: Global,
        name: &[u8],
        linked: Linked,
    ) -> Result<Vec<Other<'_, 'a>>, AllocError> {
        let name = normal(alloc, name)?;
        let mut all: Vec<Other<'_, 'a>> = Vec::new(alloc);
        let Some(spelled_so) = self.shared.get(name.as_slice()) else {
            return Ok(all);
        };
        for shared in spelled_so {
            if let Some(other) = self.other(*shared) {
                if linked.is(&other.entry.facts) {
                    all.push(other)?;
                }
            }
        }
        Ok(all)
    }

    /// The first PUBLIC name that is spelled so.
    pub fn public(&self, alloc: Global, name: &[u8]) -> Result<Option<Other<'_, 'a>>, AllocError> {
        let publics = self.linked(alloc, name, Linked::Public)?;
        Ok(publics.first().copied())
    }

    /// How PUBLIC names are spelled, at most so many of them.
    pub fn publics(&self, alloc: Global, most: usize) -> Result<Looked<'a>, AllocError> {
        let count = self.publics.len().min(most);
        Ok(Looked {
            names: Vec::from_slice(alloc, &self.publics[..count])?,
            are_all: count == self.publics.len(),
        })
    }

    /// Where the number of an interrupt stands first behind INTERRUPT.
    pub fn handler(&self, vector: u32) -> Option<LineOf<'a>> {
        let token = self.handlers.get(&vector).copied()?;
        let source = &self.modules.get(token.module)?.source;
        Some(LineOf {
            file: source.name,
            line: u64::from(source.line(token.number)),
        })
    }

    /// The files of the modules with statements at their outer level.
    pub fn main_files(&self, alloc: Global) -> Result<Vec<&'a str>, AllocError> {
        let mut files: Vec<&'a str> = Vec::new(alloc);
        for module in &self.mains {
            if let Some(named) = self.modules.get(*module) {
                files.push(named.source.name)?;
            }
        }
        Ok(files)
    }
}

/// The modules with statements at their outer level.
fn mains_of(alloc: Global, trees: &[Module<'_>]) -> Result<Vec<usize>, AllocError> {
    let mut mains = Vec::new(alloc);
    for (module, tree) in trees.iter().enumerate() {
        if !tree.block.statements.is_empty() {
            mains.push(module)?;
        }
    }
    Ok(mains)
}

/// These sources, of which these are the trees, with their names.
pub(crate) fn program_names<'a>(
    alloc: Global,
    sources: Vec<Studied<'a>>,
    trees: &[Module<'_>],
) -> Result<ProgramNames<'a>, AllocError> {
    let mut program = ProgramNames {
        modules: Vec::new(alloc),
        shared: BTreeMap::new(alloc),
        publics: Vec::new(alloc),
        handlers: BTreeMap::new(alloc),
        mains: mains_of(alloc, trees)?,
    };
    for (module, source) in sources.into_iter().enumerate() {
        program.add(alloc, module, source)?;
    }
    Ok(program)
}
