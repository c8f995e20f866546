//! From a typed program to its image.

ghost use Rattle.std.specs.Prelude.{◌≡◌, ◌<◌, ◌⊎◌, IfOk, IfErr};
ghost use Rattle.layout_link.specs.Image.{bytes_in};
ghost use Rattle.layout_link.specs.Linker.{needed};
ghost use Rattle.plm86.specs.Exact.{Fits, LacksRoom};
ghost use Rattle.plm86.specs.Inner.Compiling.{Promises, IsLinked, IsImage, HasNoRoom};

use crate::laws::laws_below;
use frames::{Stack, count, small_programs_fit};
use i86_code::{decoded_widths, one_form};
use i86_table::instructions_keep_words;
use layout_link::{Image, RomSize, link};
use lower::{
    checked_code_is_sound, checked_runs_are_allowed, checked_trees_are_well_formed, code_has_room,
    heights_are_low, interrupts_enter_their_procedures, lower, lowering_tracks,
};
use plm_decl::{Names, initial_values_fit};
use plm_type::Program;
use select::{
    Part, instructions_follow_code, programs_have_room, registers_are_counted, select,
    unserved_changes_none,
};
use std::alloc::Global;
use word86::{Fault, Number};

/// What the layers promise, each for all that it is given.
fn layers_keep_their_promises()
    ensures { Promises }
{
    one_form();
    decoded_widths();
    instructions_keep_words();
    laws_below();
    lowering_tracks();
    checked_trees_are_well_formed();
    checked_code_is_sound();
    checked_runs_are_allowed();
    code_has_room();
    heights_are_low();
    interrupts_enter_their_procedures();
    small_programs_fit();
    instructions_follow_code();
    programs_have_room();
    registers_are_counted();
    unserved_changes_none();
    initial_values_fit();
}

/// The image of these parts.
fn assemble(
    alloc: Global,
    parts: Vec<Part>,
    names: &Names,
    stack: Stack,
    size: RomSize,
) -> Result<Image, Fault>
    ensures linked { IfOk result (IsLinked names.now parts.items stack size) }
    ensures full { IfErr result (λ e. (e ≡ Fault.Memory) ⊎ ((e ≡ Fault.At 0 1 Number.E601) × (bytes_in size < needed names.now parts.items))) }
{
    link(alloc, parts, names, stack, size)
}

/// A ROM of this size that does what the program means on the board, interrupts included.
///
/// # Errors
///
/// E501 exactly where the stack has no room for what is counted of main and an interrupt procedure; else E601 exactly where the ROM has
/// none for the code; want of memory.
pub(crate) fn compile(alloc: Global, program: &Program, size: RomSize) -> Result<Image, Fault>
    ensures image { IfOk result (IsImage program.now.names size) }
    ensures fits { IfOk result (Fits program.now.names size) }
    ensures refused { IfErr result (HasNoRoom program.now.names size) }
    ensures exact { IfErr result (LacksRoom program.now.names size) }
{
    layers_keep_their_promises();
    let names = program.names();
    let code = lower(alloc, program)?;
    let stack = count(alloc, &code)?;
    let parts = select(alloc, &code)?;
    drop(code);
    assemble(alloc, parts, names, stack, size)
}
