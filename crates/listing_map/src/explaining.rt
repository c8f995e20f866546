//! What is said of a fault beside its line: the source line, a mark under what is meant, and a sentence with what was found and what
//! would do.
//!
//! A fault has a module, a line and a number. An `Explainer` goes through the phases once more, over tokens whose lines are their numbers, so
//! that each fault names its token; what stands around it there is told. `tests/mistakes` shows the answers.

mod blocks;
mod call_sites;
mod calls;
mod candidates;
mod control_lines;
mod expecting;
pub(crate) mod facts;
mod grammar;
pub(crate) mod kinds;
mod left_out;
mod lines;
mod looking;
mod looking_statements;
mod name_faults;
mod named;
mod nearest;
mod pages;
mod phases;
mod pieces;
mod program_faults;
mod program_names;
mod reached;
pub(crate) mod reason;
pub(crate) mod references;
mod room;
mod runs;
pub(crate) mod scope;
pub(crate) mod sentence;
pub(crate) mod studied;
mod text_faults;
mod told;
mod type_faults;
mod uses;
pub(crate) mod value_types;

ghost use Rattle.std.specs.Prelude.{◌≡◌, ◌<◌, ◌≤◌, ◌+◌, false, true, None, IfOk, map, length};
ghost use Rattle.plm_token.specs.Scanner.{lexemes};
ghost use Rattle.listing_map.specs.Explaining.{IsMark, has_token, is_text, text_at, text_of, quoted_line};

use crate::phase_faults::{FaultAt, TokenAt};
use crate::texts::NamedText;
use calls::Calling;
pub use control_lines::{Control, controls};
use grammar::{TokenFault, syntax_fault, token_fault};
use kinds::{CallFault, FaultKind, NameFault, RunFault, kind_of};
use lines::line_at;
use name_faults::{At, bad_base, declared_twice, misplaced, undeclared, values_misfit};
use nearest::compared_names;
use pages::{Page, pages_of};
use phases::{GoneThrough, TypedSources, Work, gone_through};
use plm_token::Token;
use program_faults::{mains, too_much_data, two_handlers, two_publics, unjoined};
use reason::TypeFault;
pub use room::Compiled;
use room::{full_rom, full_stack};
use runs::{is_text, no_stop, no_text, rom_length, schedule_line, schedule_order};
use sentence::Part;
use std::alloc::{AllocError, Global};
use studied::Studied;
use text_faults::{TextFault, text_fault};
use told::{Mark, Told, tell};
use type_faults::type_fault;
use word86::{Fault, Number};

/// Why no more of a trace can be written.
pub const UNWRITTEN: &str = "the reader of standard output is gone, or its disk is full";

/// What is said of a fault beside its line.
#[derive(Drop)]
pub struct Explanation<'a> {
    /// The line of the file, without its end.
    pub quoted: &'a [u8],
    /// How many of its bytes stand before what is marked.
    pub column: usize,
    /// How many bytes are marked; none where no single word is meant.
    pub width: usize,
    /// One sentence: what was found, and what would do.
    pub help: Vec<u8>,
    ghost inside: { column + width ≤ length quoted.now },
}

/// Sources whose faults are explained. They are gone through once, and then each fault is told in a time that does not grow with them, but for
/// faults of calls with the number of procedures.
#[derive(Drop)]
pub struct Explainer<'s, 'a> {
    alloc: Global,
    pages: Vec<Page<'a>>,
    compiled: Option<Compiled<'s>>,
    gone: GoneThrough<'a>,
    /// So many names are compared with an unknown one.
    compared: usize,
}

/// A fault that is explained, and the line on which it stands.
#[derive(Clone, Copy)]
struct Case<'e, 's, 'a> {
    alloc: Global,
    explainer: &'e Explainer<'s, 'a>,
    fault: FaultAt,
    page: &'e Page<'a>,
    quoted: &'a [u8],
}

impl<'e, 's, 'a> Case<'e, 's, 'a> {
    fn words(&self, words: &'static str) -> Told {
        tell(self.alloc, None, &[Part::Words(words)])
    }

    fn work(&self) -> &'e Work<'a> {
        &self.explainer.gone.work
    }

    /// The source of its module, where the sources' tokens are known.
    fn source(&self) -> Option<&'e Studied<'a>> {
        match self.work() {
            Work::Tokens(sources) => sources.get(self.fault.module),
            Work::Nothing | Work::Names(_) | Work::Types(_) => None,
        }
    }

    /// Its token, or that of the first fault.
    fn token_at(&self) -> Option<TokenAt> {
        match self.fault.token {
            Some(token) => Some(token),
            None => self.explainer.gone.faults.first()?.token,
        }
    }

    fn syntax(&self) -> Result<Told, Fault> {
        match self.source() {
            Some(source) => syntax_fault(self.alloc, source),
            None => Ok(self.words("")),
        }
    }

    fn token(&self, fault: TokenFault) -> Result<Told, Fault> {
        match self.source() {
            Some(source) => token_fault(self.alloc, source, fault),
            None => Ok(self.words("")),
        }
    }

    fn text(&self, fault: TextFault) -> Result<Told, Fault> {
        let line = self.fault.line;
        match text_fault(self.alloc, self.page.text, self.quoted, line, fault)? {
            Some(told) => Ok(told),
            None => self.token(TokenFault::LiteralText),
        }
    }

    /// Its token among the names of the sources.
    fn at(&self) -> Option<At<'e, 'a>> {
        let Work::Names(program) = self.work() else {
            return None;
        };
        let module = self.fault.module;
        Some(At {
            program,
            module,
            named: program.modules.get(module)?,
            token: self.token_at()?,
            compared: self.explainer.compared,
        })
    }

    fn name(&self, fault: NameFault) -> Result<Told, Fault> {
        let Some(at) = self.at() else {
            return Ok(self.words(""));
        };
        match fault {
            NameFault::Undeclared => undeclared(self.alloc, &at),
            NameFault::Twice => declared_twice(self.alloc, &at),
            NameFault::Misplaced => Ok(misplaced(self.alloc, &at)),
            NameFault::Base => bad_base(self.alloc, &at),
            NameFault::Values => Ok(values_misfit(self.alloc, &at)),
            NameFault::Unjoined => unjoined(self.alloc, &at),
            NameFault::Publics => two_publics(self.alloc, &at),
            NameFault::Handlers => Ok(two_handlers(self.alloc, &at)),
        }
    }

    fn mains(&self) -> Result<Told, Fault> {
        match self.work() {
            Work::Names(program) => mains(self.alloc, program),
            Work::Nothing | Work::Tokens(_) | Work::Types(_) => Ok(self.words("")),
        }
    }

    fn data(&self) -> Result<Told, Fault> {
        match self.work() {
            Work::Names(program) => too_much_data(self.alloc, program),
            Work::Nothing | Work::Tokens(_) | Work::Types(_) => Ok(self.words("")),
        }
    }

    /// The sources with their types, where these are known.
    fn typed(&self) -> Option<&'e TypedSources<'a>> {
        match self.work() {
            Work::Types(typed) => Some(typed),
            Work::Nothing | Work::Tokens(_) | Work::Names(_) => None,
        }
    }

    fn types(&self, fault: TypeFault) -> Told {
        match (self.typed(), self.token_at()) {
            (Some(typed), Some(token)) => {
                type_fault(self.alloc, typed, self.fault.module, token, fault)
            }
            (Some(_), None) | (None, Some(_)) | (None, None) => self.words(""),
        }
    }

    fn calls(&self, fault: CallFault) -> Result<Told, Fault> {
        let (Some(typed), Some(token)) = (self.typed(), self.token_at()) else {
            return Ok(self.words(""));
        };
        let calling = Calling {
            alloc: self.alloc,
            sources: &typed.sources,
            names: &typed.names,
            calls: &typed.calls,
            module: self.fault.module,
            token,
        };
        match fault {
            CallFault::Recursion => calling.recursion(),
            CallFault::LettingIn => calling.letting_in(),
            CallFault::Misused => Ok(calling.misused()),
        }
    }

    fn stack(&self) -> Result<Told, Fault> {
        match self.explainer.compiled {
            Some(compiled) => full_stack(self.alloc, compiled),
            None => Ok(self.words("")),
        }
    }

    fn rom(&self) -> Result<Told, Fault> {
        match self.explainer.compiled {
            Some(compiled) => full_rom(self.alloc, compiled),
            None => Ok(self.words("")),
        }
    }

    fn told(&self) -> Result<Told, Fault> {
        match kind_of(self.fault.number) {
            FaultKind::Words(words) => Ok(self.words(words)),
            FaultKind::Text(fault) => self.text(fault),
            FaultKind::Syntax => self.syntax(),
            FaultKind::Token(fault) => self.token(fault),
            FaultKind::Name(fault) => self.name(fault),
            FaultKind::Mains => self.mains(),
            FaultKind::Data => self.data(),
            FaultKind::Types(fault) => Ok(self.types(fault)),
            FaultKind::Calls(fault) => self.calls(fault),
            FaultKind::Stack => self.stack(),
            FaultKind::Rom => self.rom(),
            FaultKind::Run(_) => Ok(self.words("")),
        }
    }
}

/// What is told of a fault of a schedule or a ROM.
fn told_of_run(alloc: Global, file: &[u8], quoted: &[u8], line: u32, fault: RunFault) -> Told
    ensures { is_text file.now ≡ false → result.mark ≡ None }
{
    match fault {
        RunFault::RomLength => rom_length(alloc, file.len()),
        RunFault::Unwritten => tell(alloc, None, &[Part::Words(UNWRITTEN)]),
        RunFault::Line | RunFault::Order | RunFault::NoStop if !is_text(file) => no_text(alloc),
        RunFault::Line => schedule_line(alloc, quoted),
        RunFault::Order => schedule_order(alloc, file, quoted, line),
        RunFault::NoStop => no_stop(alloc),
    }
}

/// What is told of a fault with this number, where it is one of a schedule or a ROM.
fn told_if_of_run(alloc: Global, file: &[u8], quoted: &[u8], line: u32, number: Number) -> Told
    ensures { is_text file.now ≡ false → result.mark ≡ None }
{
    match kind_of(number) {
        FaultKind::Run(fault) => told_of_run(alloc, file, quoted, line, fault),
        FaultKind::Words(_)
        | FaultKind::Text(_)
        | FaultKind::Syntax
        | FaultKind::Token(_)
        | FaultKind::Name(_)
        | FaultKind::Mains
        | FaultKind::Data
        | FaultKind::Types(_)
        | FaultKind::Calls(_)
        | FaultKind::Stack
        | FaultKind::Rom => tell(alloc, None, &[]),
    }
}

/// What is told, or nothing where a phase answers otherwise than before.
fn without_fault(alloc: Global, told: Result<Told, Fault>) -> Result<Told, AllocError> {
    match told {
        Ok(told) => Ok(told),
        Err(Fault::Memory) => Err(AllocError),
        Err(Fault::At(_, _, _)) => Ok(tell(alloc, None, &[])),
    }
}

/// What a sentence says where nothing more is known.
fn or_pages(alloc: Global, help: Vec<u8>) -> Result<Vec<u8>, AllocError>
    ensures { IfOk result (λ h. 0 < length h.items) }
{
    if help.is_empty() {
        return Vec::from_slice(alloc, b"docs/ERRORS.md says when this comes");
    }
    Ok(help)
}

/// The column and the width of a mark, as far as they lie in so many bytes.
fn marked(length: usize, mark: Option<Mark>) -> (usize, usize)
    ensures inside { result.0 + result.1 ≤ length }
    ensures nothing { mark ≡ None → result.1 ≡ 0 }
{
    let Some(mark) = mark else {
        return (0, 0);
    };
    let column = mark.column.min(length);
    (column, mark.width.min(length - column))
}

/// Whether one of the tokens stands on this line and is spelled so.
fn has_token(tokens: &[Token<'_>], line: u32, spelled: &[u8]) -> bool
    ensures { result ≡ has_token (lexemes tokens.now) line spelled.now }
{
    for token in tokens {
        if token.line == line && token.text == spelled {
            return true;
        }
    }
    false
}

/// The same, where one of the tokens from this place on is looked for first.
fn has_token_from(tokens: &[Token<'_>], from: usize, line: u32, spelled: &[u8]) -> bool
    ensures { result ≡ true → has_token (lexemes tokens.now) line spelled.now ≡ true }
{
    let (front, rest) = tokens.split_at(from.min(tokens.len()));
    has_token(rest, line, spelled) || has_token(front, line, spelled)
}

/// How many bytes of a line are marked behind this column: none where the text has tokens and those bytes are none of them. The token is
/// looked for from a place on.
fn marked_width(
    page: &Page<'_>,
    from: usize,
    line: u32,
    quoted: &[u8],
    column: usize,
    width: usize,
) -> usize
    requires { column + width ≤ length quoted.now }
    ensures less { result ≤ width }
    ensures token { IsMark page.now.text.now line quoted.now column result }
{
    if width == 0 {
        return 0;
    }
    match &page.tokens {
        Ok(tokens) => {
            if has_token_from(tokens, from, line, &quoted[column..column + width]) {
                return width;
            }
            0
        }
        Err(_fault) => width,
    }
}

impl<'s, 'a> Explainer<'s, 'a> {
    /// Goes through sources as far as it is wanted for faults of the phase that this number's fault is of: for E101 to E205, or for names,
    /// or for types; for others not at all. What the sources are compiled to is asked for E501 and E601 alone, whose sentence is about it.
    /// Want of memory is its one error.
    pub fn new(
        alloc: Global,
        sources: &[NamedText<'a>],
        compiled: Option<Compiled<'s>>,
        number: Number,
    ) -> Result<Explainer<'s, 'a>, AllocError>
        ensures { IfOk result (λ explainer. map (λ page. page.text.now) explainer.pages.items ≡ map text_of sources.now) }
    {
        let pages = pages_of(alloc, sources)?;
        let gone = gone_through(alloc, sources, kind_of(number).phase())?;
        let compared = compared_names(gone.faults.len());
        Ok(Explainer {
            alloc,
            pages,
            compiled,
            gone,
            compared,
        })
    }

    /// All faults of the phase, in the order in which they are answered: of names (E301 to E310) and of types (E401 to E406). None where that
    /// is another phase, which has one fault.
    pub fn faults(&self) -> &[FaultAt] {
        self.gone.faults.as_slice()
    }

    /// Explains a fault of the phase. Any fault may be given, whether or not the sources have it; then the sentence says less. Where no
    /// token is given, it is that of the first fault. Where the module's text has tokens, one that stands on the line is marked, or nothing.
    /// For E201 it parses once for each sort of token: that takes a second for a long text. Want of memory is its one error.
    pub fn explain(&self, fault: FaultAt) -> Result<Explanation<'a>, AllocError>
        ensures quotes { IfOk result (λ e. e.quoted.now ≡ quoted_line (text_at (map (λ page. page.text.now) self.now.pages.items) fault.«module») fault.line) }
        ensures token { IfOk result (λ e. IsMark (text_at (map (λ page. page.text.now) self.now.pages.items) fault.«module») fault.line e.quoted.now e.column e.width) }
        ensures answers { IfOk result (λ e. 0 < length e.help.items) }
    {
        match self.pages.get(fault.module) {
            Some(page) => self.explain_on(page, fault),
            None => Ok(Explanation {
                quoted: b"",
                column: 0,
                width: 0,
                help: or_pages(self.alloc, Vec::new(self.alloc))?,
            }),
        }
    }

    /// Explains a fault of the module that has this page.
    fn explain_on(&self, page: &Page<'a>, fault: FaultAt) -> Result<Explanation<'a>, AllocError>
        ensures quotes { IfOk result (λ e. e.quoted.now ≡ quoted_line page.now.text.now fault.line) }
        ensures token { IfOk result (λ e. IsMark page.now.text.now fault.line e.quoted.now e.column e.width) }
        ensures answers { IfOk result (λ e. 0 < length e.help.items) }
    {
        let line = fault.line;
        let quoted = page.line(line);
        let case = Case {
            alloc: self.alloc,
            explainer: self,
            fault,
            page,
            quoted,
        };
        let told = without_fault(self.alloc, case.told())?;
        let (column, width) = marked(quoted.len(), told.mark);
        let width = marked_width(page, number_before(fault), line, quoted, column, width);
        let help = or_pages(self.alloc, told.help.whole()?)?;
        Ok(Explanation {
            quoted,
            column,
            width,
            help,
        })
    }
}

/// How many tokens of the text stand before a fault's token, where that is known.
fn number_before(fault: FaultAt) -> usize {
    match fault.token {
        Some(token) => (token.number as usize).saturating_sub(1),
        None => 0,
    }
}

/// Explains one fault of sources: as `Explainer::explain` does, which is the call for several.
pub fn explain<'s, 'a>(
    alloc: Global,
    sources: &[NamedText<'a>],
    compiled: Option<Compiled<'s>>,
    fault: FaultAt,
) -> Result<Explanation<'a>, AllocError>
    ensures quotes { IfOk result (λ e. e.quoted.now ≡ quoted_line (text_at (map text_of sources.now) fault.«module») fault.line) }
    ensures token { IfOk result (λ e. IsMark (text_at (map text_of sources.now) fault.«module») fault.line e.quoted.now e.column e.width) }
    ensures answers { IfOk result (λ e. 0 < length e.help.items) }
{
    let explainer = Explainer::new(alloc, sources, compiled, fault.number)?;
    let explained = explainer.explain(fault);
    drop(explainer);
    explained
}

/// Explains a fault at a line of a schedule, E701 to E703, or of a ROM, E705. Of any other number the sentence says where to read. Nothing is
/// marked in a file that is not a text, as a ROM. Want of memory is its one error.
pub fn explain_run<'a>(
    alloc: Global,
    file: &'a [u8],
    line: u32,
    number: Number,
) -> Result<Explanation<'a>, AllocError>
    ensures quotes { IfOk result (λ e. e.quoted.now ≡ quoted_line file.entry.now line) }
    ensures hides { is_text file.entry.now ≡ false → IfOk result (λ e. e.width ≡ 0) }
    ensures answers { IfOk result (λ e. 0 < length e.help.items) }
{
    let quoted = line_at(file, line);
    let told = told_if_of_run(alloc, file, quoted, line, number);
    let (column, width) = marked(quoted.len(), told.mark);
    let help = or_pages(alloc, told.help.whole()?)?;
    Ok(Explanation {
        quoted,
        column,
        width,
        help,
    })
}
