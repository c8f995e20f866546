//! The bytes of a part's steps, as far as they are known before the steps have places.

ghost use Rattle.std.specs.Prelude.{◌≡◌, ◌<◌, ℕ, IfOk, OnOk, IsOkUnless, length, map, slice_index_or};
ghost use Rattle.i86_code.specs.Forms.{Spells};
ghost use Rattle.i86_code.specs.Writing.{bytes_of};
ghost use Rattle.select.specs.Inner.Assembly.{nothing, drafted_bytes, IsCoded};

use crate::part::Step;
use arrayvec::ArrayVec;
use i86_code::{encode, encode_open};
use i86_table::Instr;
use std::alloc::Global;
use word86::Fault;

/// The bytes of a step: none of a jump or of a word of a table, and where they have a step's place, 0 stands there.
pub(crate) type Draft = ArrayVec<u8, 8>;

/// The bytes of an instruction.
pub(crate) fn coded(instruction: &Instr) -> Draft
    ensures bytes { result.items ≡ bytes_of instruction.now }
    ensures coded { Spells (bytes_of instruction.now) instruction.now }
{
    encode(instruction)
}

/// The draft of a step.
fn draft_of(step: &Step) -> Draft
    ensures bytes { result.items ≡ drafted_bytes step.now }
    ensures coded { IsCoded step.now }
{
    match step {
        Step::Plain(instruction) => coded(instruction),
        Step::Refer {
            instruction,
            number,
            ..
        } => encode_open(*instruction, *number),
        Step::AtStep { instruction, .. } => encode_open(*instruction, 0),
        Step::Word { .. } | Step::Goto { .. } | Step::GotoIf { .. } => ArrayVec::new(),
    }
}

/// The drafts of steps.
pub(crate) fn drafts_of(alloc: Global, steps: &[Step]) -> Result<Vec<Draft>, Fault>
    ensures bytes { IfOk result (λ drafts. map (λ d. d.items) drafts.items ≡ map drafted_bytes steps.now) }
    ensures coded { OnOk result ((k : ℕ) → k < length steps.now → IsCoded (slice_index_or steps.now k nothing)) }
    ensures memory { IsOkUnless result Fault.Memory }
{
    let mut drafts = Vec::with_capacity(alloc, steps.len())?;
    for step in steps {
        drafts.push(draft_of(step))?;
    }
    Ok(drafts)
}
