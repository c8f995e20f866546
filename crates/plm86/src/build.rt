//! From sources to an image.

ghost use Rattle.std.specs.Prelude.{◌≡◌, [], ◌∷◌, map, IfOk, IfErr};
ghost use Rattle.plm_token.specs.Scanner.{lexemes};
ghost use Rattle.plm_syntax.specs.View.{module_of};
ghost use Rattle.board.specs.Run.{due_of};
ghost use Rattle.plm86.specs.BuildAndRun.{HasRun, HasNotRun};
ghost use Rattle.plm86.specs.Build.{text_of, module_number, in_module, scan_faults, tokens_of, AreTyped, IsBuilt, RefusesTexts, Refuses};
ghost use Rattle.plm86.specs.Exact.{FitsTexts, RefusesExactly};
ghost use Rattle.plm86.specs.Inner.Parsed.{Says};
ghost use Rattle.plm86.specs.Inner.Parsed.{ParsesAll};
ghost use Rattle.plm86.specs.Inner.Built.{IsBuiltWith};

use crate::built::Built;
use crate::compile::compile;
use board::{Board, End, Schedule};
use layout_link::{Image, RomSize};
use plm_decl::resolve;
use plm_syntax::{Module, parse};
use plm_token::{Token, scan};
use plm_type::{Program, check};
use std::alloc::Global;
use word86::{Fault, PowerOn, Sink};

/// A source: its file's name and its text, one module.
#[derive(Clone, Copy)]
pub struct Source<'a> {
    pub name: &'a str,
    pub text: &'a [u8],
}

// The number of a module, from 0, as faults count it: above 4,294,967,295 it stays there.
fn module_number(ordinal: usize) -> u32
    ensures { result ≡ module_number ordinal }
{
    ordinal.min(u32::MAX as usize) as u32
}

// The fault of a text as that of its module, counted from 0.
fn in_module(ordinal: usize, fault: Fault) -> Fault
    ensures { result ≡ in_module ordinal fault }
{
    match fault {
        Fault::Memory => Fault::Memory,
        Fault::At(_, line, number) => Fault::At(module_number(ordinal), line, number),
    }
}

// The tokens of each source.
fn scan_all<'a>(alloc: Global, sources: &[Source<'a>]) -> Result<Vec<Vec<Token<'a>>>, Fault>
    ensures says { Says (scan_faults 0 (map text_of sources.now)) result }
    ensures tokens { IfOk result (λ v. map (λ t. lexemes t.items) v.items ≡ map tokens_of (map text_of sources.now)) }
{
    let mut scanned = Vec::new(alloc);
    for (ordinal, source) in sources.iter().enumerate() {
        match scan(alloc, source.text) {
            Ok(tokens) => scanned.push(tokens)?,
            Err(fault) => return Err(in_module(ordinal, fault)),
        }
    }
    Ok(scanned)
}

// The tree of each module.
fn parse_all<'a>(alloc: Global, scanned: Vec<Vec<Token<'a>>>) -> Result<Vec<Module<'a>>, Fault>
    ensures { ParsesAll (map (λ t. lexemes t.items) scanned.entry.items) result }
{
    let mut modules = Vec::new(alloc);
    for tokens in scanned {
        match parse(alloc, tokens) {
            Ok(tree) => modules.push(tree)?,
            Err(fault) => return Err(in_module(modules.len(), fault)),
        }
    }
    Ok(modules)
}

/// The typed program of sources.
///
/// # Errors
///
/// The first fault of the phases, each over all sources: scanning (E101 to E107), parsing with literals replaced (E101, E103
/// to E105 of a literal's text, E201 to E205), names (E301 to E305, the least of them; else E306 to E310, of the whole program),
/// types (E401 to E403, E405 and E406, the least; else E404). Modules count from 0. The one other refusal is want of memory.
pub fn analyse(alloc: Global, sources: &[Source<'_>]) -> Result<Program, Fault>
    ensures typed { IfOk result (λ p. AreTyped (map text_of sources.now) p.names) }
    ensures refused { IfErr result (RefusesTexts (map text_of sources.now)) }
{
    let scanned = scan_all(alloc, sources)?;
    let modules = parse_all(alloc, scanned)?;
    let names = resolve(alloc, &modules)?;
    drop(modules);
    check(alloc, names)
}

/// The image of sources, as `build` answers it, and with it their program, for the listing and the map.
pub(crate) fn build_program(
    alloc: Global,
    sources: &[Source<'_>],
    size: RomSize,
) -> Result<Built, Fault>
    ensures built { IfOk result (IsBuiltWith (map text_of sources.now) size) }
    ensures fits { IfOk result (λ b. FitsTexts (map text_of sources.now) size b.image) }
    ensures refused { IfErr result (Refuses (map text_of sources.now) size) }
    ensures exact { IfErr result (RefusesExactly (map text_of sources.now) size) }
{
    let program = analyse(alloc, sources)?;
    let image = compile(alloc, &program, size)?;
    Ok(Built { program, image })
}

/// The image of sources for a ROM of this size: a ROM that does on the board what the sources mean, interrupts included.
///
/// # Errors
///
/// Those of `analyse`; then the stack's room (E501, exactly where main and an interrupt procedure take more than 4,094 bytes, as they are
/// counted of the program's code; never where the longest paths of calls of both have together at most 8 procedures and no statement has
/// more than 32 constants and references); then the ROM's room (E601, exactly where start-up, the program's parts and its initial bytes do
/// not fit; never where the program has at most 16 nodes for each KiB and its initial bytes fill at most a quarter of the ROM; a node is a
/// statement, procedure, operator (`:=` among them), reference or constant (a string or a location list is one), and each stretch of RAM
/// that initial values fill without a gap).
pub fn build(alloc: Global, sources: &[Source<'_>], size: RomSize) -> Result<Image, Fault>
    ensures built { IfOk result (IsBuilt (map text_of sources.now) size) }
    ensures fits { IfOk result (FitsTexts (map text_of sources.now) size) }
    ensures refused { IfErr result (Refuses (map text_of sources.now) size) }
    ensures exact { IfErr result (RefusesExactly (map text_of sources.now) size) }
{
    match build_program(alloc, sources, size) {
        Ok(Built { image, .. }) => Ok(image),
        Err(fault) => Err(fault),
    }
}

/// Builds sources, and runs the ROM on the board from its reset on under a schedule, with this power-on memory: the trace goes
/// to the sink, and the answer tells how the run ended.
///
/// # Errors
///
/// Those of `build` and want of memory, before anything is written; E704 where the sink failed, which then took a beginning of
/// the trace.
pub fn build_and_run<S: Sink>(
    alloc: Global,
    sources: &[Source<'_>],
    size: RomSize,
    power_on: PowerOn,
    schedule: &Schedule,
    sink: &mut S,
) -> Result<End, Fault>
    ensures ran { IfOk result (HasRun (map text_of sources.now) size power_on (due_of schedule.now) schedule.now.stop (S.taken sink.old) (S.taken sink.new) (S.failures sink.old) (S.failures sink.new)) }
    ensures refused { IfErr result (HasNotRun (map text_of sources.now) size power_on (due_of schedule.now) schedule.now.stop (S.taken sink.old) (S.taken sink.new) (S.failures sink.old) (S.failures sink.new)) }
{
    let image = build(alloc, sources, size)?;
    let mut board = Board::new(alloc, &image.rom, power_on)?;
    board.run(schedule, sink)
}
