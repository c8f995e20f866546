//! From steps to the bytes of a part.

ghost use Rattle.std.specs.Prelude.{◌≡◌, ◌<◌, ◌≤◌, ◌+◌, ◌-◌, ◌%◌, ◌++◌, ◌∷◌, [], ℕ, OnOk, IfOk, IsOkUnless, length, map, slice_index, slice_index_or};
ghost use Rattle.i86_code.specs.Forms.{word_bytes, Spells};
ghost use Rattle.i86_code.specs.Writing.{bytes_of};
ghost use Rattle.i86_code.specs.Open.{back_of};
ghost use Rattle.select.specs.Sizes.{start, AreSettled, AreLeast};
ghost use Rattle.select.specs.Parts.{target_of, extent_of, AreSpelt, IsPart, fixup};
ghost use Rattle.select.specs.Inner.Assembly.{AreSteps, nothing, drafted_bytes, jump_bytes, branch_bytes, step_bytes, step_fixups, IsCoded};

use crate::drafts::{Draft, coded, drafts_of};
use crate::part::{Entry, Fixup, Kind, Part, Step};
use crate::sizes::{Extent, settled};
use i86_code::{bytes_behind, encode_open};
use i86_table::{Condition, Instr, Open};
use std::alloc::Global;
use word86::Fault;

fn target_of(step: Step) -> usize
    ensures { result ≡ target_of step }
{
    match step {
        Step::Plain(_) | Step::Refer { .. } => 0,
        Step::AtStep { target, .. }
        | Step::Word { target }
        | Step::Goto { target }
        | Step::GotoIf { target, .. } => target,
    }
}

// Where each step begins, and where the last one ends, modulo 65,536.
fn places_of(alloc: Global, sizes: &[u8]) -> Result<Vec<u16>, Fault>
    ensures places { IfOk result (λ p. (k : ℕ) → k ≤ length sizes.now → slice_index p.items k ≡ start sizes.now k % 65536) }
    ensures memory { IsOkUnless result Fault.Memory }
{
    let mut places = Vec::with_capacity(alloc, sizes.len() + 1)?;
    let mut place = 0u16;
    for size in sizes {
        places.push(place)?;
        place = place.wrapping_add(u16::from(*size));
    }
    places.push(place)?;
    Ok(places)
}

// The number at an index of a list, or 0 past its end.
pub(crate) fn number_at(numbers: &[u16], index: usize) -> u16
    ensures { result ≡ slice_index numbers.now index }
{
    match numbers.get(index) {
        Some(number) => *number,
        None => 0,
    }
}

fn write(code: &mut Vec<u8>, instruction: Instr) -> Result<(), Fault>
    ensures bytes { OnOk result (code.new.items ≡ code.old.items ++ bytes_of instruction) }
    ensures coded { Spells (bytes_of instruction) instruction }
    ensures memory { IsOkUnless result Fault.Memory }
{
    Ok(code.extend_from_slice(coded(&instruction).as_slice())?)
}

// An instruction with a word to which something is added, perhaps with a constant behind that.
fn write_open(
    code: &mut Vec<u8>,
    fixups: &mut Vec<Fixup>,
    instruction: Open,
    bytes: &[u8],
    kind: Kind,
    name: usize,
) -> Result<(), Fault>
    requires { 2 + length (back_of instruction) ≤ length bytes.now }
    ensures bytes { OnOk result (code.new.items ≡ code.old.items ++ bytes.now) }
    ensures fixups { OnOk result (fixups.new.items ≡ fixups.old.items ++ (fixup (length code.old.items + (length bytes.now - 2 - length (back_of instruction))) kind name ∷ [])) }
    ensures memory { IsOkUnless result Fault.Memory }
{
    code.extend_from_slice(bytes)?;
    fixups.push(Fixup {
        place: code.len() - 2 - bytes_behind(instruction),
        kind,
        name,
    })?;
    Ok(())
}

// A word to which the place of a part is added.
fn write_word(
    code: &mut Vec<u8>,
    fixups: &mut Vec<Fixup>,
    number: u16,
    name: usize,
) -> Result<(), Fault>
    ensures bytes { OnOk result (code.new.items ≡ code.old.items ++ word_bytes number) }
    ensures fixups { OnOk result (fixups.new.items ≡ fixups.old.items ++ (fixup (length code.old.items) Kind.Case name ∷ [])) }
    ensures memory { IsOkUnless result Fault.Memory }
{
    let place = code.len();
    code.push((number % 256) as u8)?;
    code.push((number / 256) as u8)?;
    fixups.push(Fixup {
        place,
        kind: Kind::Case,
        name,
    })?;
    Ok(())
}

fn write_jump(code: &mut Vec<u8>, size: u8, far: u16) -> Result<(), Fault>
    ensures bytes { OnOk result (code.new.items ≡ code.old.items ++ jump_bytes size far) }
    ensures memory { IsOkUnless result Fault.Memory }
{
    if size == 2 {
        write(code, Instr::JumpShort((far % 256) as u8))
    } else {
        write(code, Instr::Jump(far))
    }
}

// A long jump where a condition holds is the short one where it does not, over a long one.
fn write_branch(code: &mut Vec<u8>, condition: Condition, size: u8, far: u16) -> Result<(), Fault>
    ensures bytes { OnOk result (code.new.items ≡ code.old.items ++ branch_bytes condition size far) }
    ensures memory { IsOkUnless result Fault.Memory }
{
    if size == 2 {
        write(code, Instr::JumpIf(condition, (far % 256) as u8))
    } else {
        write(code, Instr::JumpIf(condition.inverse(), 3))?;
        write(code, Instr::Jump(far))
    }
}

// One more step, whose target is at one place, and which ends at another.
fn write_step(
    code: &mut Vec<u8>,
    fixups: &mut Vec<Fixup>,
    own: usize,
    step: Step,
    draft: &[u8],
    size: u8,
    there: u16,
    to: u16,
) -> Result<(), Fault>
    requires { draft.now ≡ drafted_bytes step }
    ensures bytes { OnOk result (code.new.items ≡ code.old.items ++ step_bytes size there to step) }
    ensures fixups { OnOk result (fixups.new.items ≡ fixups.old.items ++ step_fixups own (length code.old.items) step) }
    ensures memory { IsOkUnless result Fault.Memory }
{
    let far = to.wrapping_sub(there);
    match step {
        Step::Plain(_) => Ok(code.extend_from_slice(draft)?),
        Step::Refer {
            instruction,
            kind,
            name,
            ..
        } => write_open(code, fixups, instruction, draft, kind, name),
        Step::AtStep { instruction, .. } => {
            let bytes = encode_open(instruction, to);
            write_open(code, fixups, instruction, bytes.as_slice(), Kind::Case, own)
        }
        Step::Word { .. } => write_word(code, fixups, to, own),
        Step::Goto { .. } => write_jump(code, size, far),
        Step::GotoIf { condition, .. } => write_branch(code, condition, size, far),
    }
}

// All steps of a part.
fn write_steps(
    alloc: Global,
    own: usize,
    entry: Entry,
    steps: &[Step],
    drafts: &[Draft],
    sizes: &[u8],
    places: &[u16],
) -> Result<Part, Fault>
    requires drafts { map (λ d. d.items) drafts.now ≡ map drafted_bytes steps.now }
    requires coded { (k : ℕ) → k < length steps.now → IsCoded (slice_index_or steps.now k nothing) }
    requires sizes { AreSettled (map extent_of steps.now) sizes.now }
    requires steps { AreSteps steps.now }
    requires places { (k : ℕ) → k ≤ length sizes.now → slice_index places.now k ≡ start sizes.now k % 65536 }
    ensures spelt { IfOk result (λ p. AreSpelt own (start sizes.now) 0 steps.now p.bytes.items p.fixups.items) }
    ensures entry { IfOk result (λ p. p.entry ≡ entry) }
    ensures memory { IsOkUnless result Fault.Memory }
{
    let mut code = Vec::new(alloc);
    let mut fixups = Vec::new(alloc);
    for (k, step) in steps.iter().enumerate() {
        let to = number_at(places, target_of(*step));
        let there = number_at(places, k + 1);
        let draft = drafts[k].as_slice();
        write_step(
            &mut code,
            &mut fixups,
            own,
            *step,
            draft,
            sizes[k],
            there,
            to,
        )?;
    }
    Ok(Part {
        entry,
        bytes: code,
        fixups,
    })
}

// How many bytes a step has, which has this draft.
fn extent_of(step: Step, draft: &Draft) -> Extent
    requires { draft.now.items ≡ drafted_bytes step }
    ensures { result ≡ extent_of step }
{
    match step {
        Step::Plain(_) | Step::Refer { .. } | Step::AtStep { .. } => {
            Extent::Fixed(draft.len() as u8)
        }
        Step::Word { .. } => Extent::Fixed(2),
        Step::Goto { target } => Extent::Jump { target, long: 3 },
        Step::GotoIf { target, .. } => Extent::Jump { target, long: 5 },
    }
}

// How long each step is, and which of them are jumps.
fn extents_of(alloc: Global, steps: &[Step], drafts: &[Draft]) -> Result<Vec<Extent>, Fault>
    requires { map (λ d. d.items) drafts.now ≡ map drafted_bytes steps.now }
    ensures extents { IfOk result (λ xs. xs.items ≡ map extent_of steps.now) }
    ensures memory { IsOkUnless result Fault.Memory }
{
    let mut extents = Vec::with_capacity(alloc, steps.len())?;
    for (k, step) in steps.iter().enumerate() {
        extents.push(extent_of(*step, &drafts[k]))?;
    }
    Ok(extents)
}

/// Steps whose jumps are settled: what is written of each before its target is known, how long it is, and where it begins, modulo 65,536. Last
/// comes the place where the part ends.
#[derive(Drop)]
pub(crate) struct LaidSteps {
    drafts: Vec<Draft>,
    sizes: Vec<u8>,
    pub places: Vec<u16>,
}

/// Lays out steps: each jump is short exactly where its target would be within -128 to 127 if that jump alone were short. All are short at
/// first, and made long until nothing changes.
pub(crate) fn lay_out(alloc: Global, steps: &[Step]) -> Result<LaidSteps, Fault>
    requires { AreSteps steps.now }
    ensures drafts { IfOk result (λ l. map (λ d. d.items) l.drafts.items ≡ map drafted_bytes steps.now) }
    ensures coded { IfOk result (λ _. (k : ℕ) → k < length steps.now → IsCoded (slice_index_or steps.now k nothing)) }
    ensures settled { IfOk result (λ l. AreSettled (map extent_of steps.now) l.sizes.items) }
    ensures least { IfOk result (λ l. AreLeast (map extent_of steps.now) l.sizes.items) }
    ensures places { IfOk result (λ l. (k : ℕ) → k ≤ length l.sizes.items → slice_index l.places.items k ≡ start l.sizes.items k % 65536) }
    ensures memory { IsOkUnless result Fault.Memory }
{
    let drafts = drafts_of(alloc, steps)?;
    let extents = extents_of(alloc, steps, drafts.as_slice())?;
    let sizes = settled(alloc, &extents)?;
    let places = places_of(alloc, &sizes)?;
    Ok(LaidSteps {
        drafts,
        sizes,
        places,
    })
}

/// The part of this number: its bytes spell the steps as they are laid out. `Memory` is its one refusal.
pub(crate) fn assemble(
    alloc: Global,
    own: usize,
    entry: Entry,
    steps: &[Step],
) -> Result<Part, Fault>
    requires { AreSteps steps.now }
    ensures part { IfOk result (λ p. IsPart own steps.now p.bytes.items p.fixups.items) }
    ensures entry { IfOk result (λ p. p.entry ≡ entry) }
    ensures memory { IsOkUnless result Fault.Memory }
{
    let LaidSteps {
        drafts,
        sizes,
        places,
    } = lay_out(alloc, steps)?;
    write_steps(alloc, own, entry, steps, drafts.as_slice(), &sizes, &places)
}
