//! MOVS and STOS, alone and repeated.

ghost use Rattle.std.specs.Prelude.{◌≡◌, ◌<◌, ◌≤◌, ◌+◌};
ghost use Rattle.i86_table.specs.State.{word_of, with_word};
ghost use Rattle.arrayvec.specs.ArrayVec.{array_vec_len};
ghost use Rattle.cpu8086.specs.Machine.{machine};
ghost use Rattle.cpu8086.specs.Strings.{stepped, unit_moved, unit_stored, is_due, counted_down, string_moved, string_stored};

use crate::bus::Bus;
use crate::memory::{Labels, load, store};
use crate::moves::accumulator;
use bitflags::Flags as _;
use i86_table::{Flags, Register16, Regs, Repeat, Segment};
use word86::Width;

fn stepped(flags: Flags, width: Width, offset: u16) -> u16
    ensures { result ≡ stepped flags width offset }
{
    let size = match width {
        Width::Byte => 1,
        Width::Word => 2,
    };
    if flags.contains(Flags::DIRECTION) {
        offset.wrapping_sub(size)
    } else {
        offset.wrapping_add(size)
    }
}

/// Steps an index register past the unit.
fn step(registers: &mut Regs, width: Width, index: Register16)
    ensures { registers.new ≡ with_word registers.old index (stepped registers.old.flags width (word_of registers.old index)) }
{
    let offset = stepped(registers.flags(), width, registers.word(index));
    registers.set_word(index, offset);
}

#[tactic(auto, unfolding(crate::specs::Strings::unit_moved, crate::specs::Machine::stored_access))]
fn move_unit<B: Bus>(
    registers: &mut Regs,
    bus: &mut B,
    labels: &mut Labels,
    width: Width,
    source: Segment,
)
    requires { array_vec_len labels.old < 4 }
    ensures { machine registers.new (B.world bus.new) labels.new.items
        ≡ unit_moved B.model width source (machine registers.old (B.world bus.old) labels.old.items) }
{
    let value = load(
        bus,
        width,
        registers.segment(source),
        registers.word(Register16::Si),
    );
    store(
        bus,
        labels,
        width,
        registers.segment(Segment::Es),
        registers.word(Register16::Di),
        value,
    );
    step(registers, width, Register16::Si);
    step(registers, width, Register16::Di);
}

#[tactic(auto, unfolding(crate::specs::Strings::unit_stored, crate::specs::Machine::stored_access))]
fn store_unit<B: Bus>(registers: &mut Regs, bus: &mut B, labels: &mut Labels, width: Width)
    requires { array_vec_len labels.old < 4 }
    ensures { machine registers.new (B.world bus.new) labels.new.items
        ≡ unit_stored B.model width (machine registers.old (B.world bus.old) labels.old.items) }
{
    let value = accumulator(width, registers);
    store(
        bus,
        labels,
        width,
        registers.segment(Segment::Es),
        registers.word(Register16::Di),
        value,
    );
    step(registers, width, Register16::Di);
}

fn is_due(repeat: Repeat, registers: &Regs) -> bool
    ensures { result ≡ is_due repeat registers.now }
{
    match repeat {
        Repeat::Once => true,
        Repeat::WhileCx => registers.word(Register16::Cx) != 0,
    }
}

fn count_down(repeat: Repeat, start: u16, registers: &mut Regs)
    ensures { registers.new ≡ counted_down repeat start registers.old }
{
    if matches!(repeat, Repeat::WhileCx) {
        let count = registers.word(Register16::Cx).wrapping_sub(1);
        registers.set_word(Register16::Cx, count);
        if count != 0 {
            registers.set_ip(start);
        }
    }
}

/// MOVS: one repetition of it, if it is repeated.
#[tactic(auto, unfolding(crate::specs::Strings::string_moved))]
#[inline(never)]
pub(crate) fn move_string<B: Bus>(
    registers: &mut Regs,
    bus: &mut B,
    labels: &mut Labels,
    width: Width,
    source: Segment,
    repeat: Repeat,
    start: u16,
)
    requires { array_vec_len labels.old < 4 }
    ensures { machine registers.new (B.world bus.new) labels.new.items
        ≡ string_moved B.model width source repeat start (machine registers.old (B.world bus.old) labels.old.items) }
{
    if is_due(repeat, registers) {
        move_unit(registers, bus, labels, width, source);
        count_down(repeat, start, registers);
    }
}

/// STOS: one repetition of it, if it is repeated.
#[tactic(auto, unfolding(crate::specs::Strings::string_stored))]
#[inline(never)]
pub(crate) fn store_string<B: Bus>(
    registers: &mut Regs,
    bus: &mut B,
    labels: &mut Labels,
    width: Width,
    repeat: Repeat,
    start: u16,
)
    requires { array_vec_len labels.old < 4 }
    ensures { machine registers.new (B.world bus.new) labels.new.items
        ≡ string_stored B.model width repeat start (machine registers.old (B.world bus.old) labels.old.items) }
{
    if is_due(repeat, registers) {
        store_unit(registers, bus, labels, width);
        count_down(repeat, start, registers);
    }
}
