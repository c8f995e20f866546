//! Memory by segment and offset, and the stack.

ghost use Rattle.std.specs.Prelude.{◌≡◌, ◌+◌, ◌<◌, ◌≤◌, ◌^◌, ◌++◌};
ghost use Rattle.word86.specs.Access.{values};
ghost use Rattle.arrayvec.specs.ArrayVec.{array_vec_len};
ghost use Rattle.cpu8086.specs.Machine.{machine, physical, next_offset, access_at, labels_of, loaded_byte, loaded_word, loaded, pushed, popped};

use crate::bus::{Bus, Store};
use arrayvec::ArrayVec;
use i86_table::{Register16, Regs, Segment};
use word86::{Label, Width};

/// The labels of a turn.
pub(crate) type Labels = ArrayVec<Label, 4>;

/// The physical address of an offset in a segment, segment * 16 + offset: addresses wrap at 1,048,576
/// (8086 Family User's Manual, "Physical Address Generation").
#[inline(always)]
pub fn physical(segment: u16, offset: u16) -> u32
    ensures value { result ≡ physical segment offset }
    ensures fits { result < 2 ^ 20 }
{
    (u32::from(segment) * 16 + u32::from(offset)) % 1_048_576
}

/// The offset of a word's second byte: offsets wrap at 65,536 within their segment.
#[inline(always)]
pub(crate) fn next_offset(offset: u16) -> u16
    ensures { result ≡ next_offset offset }
{
    offset.wrapping_add(1)
}

/// The byte at an offset of a segment.
#[tactic(auto, unfolding(crate::specs::Machine::loaded_byte))]
#[inline(always)]
pub(crate) fn load_byte<B: Bus>(bus: &B, segment: u16, offset: u16) -> u8
    ensures { result ≡ loaded_byte B.model (B.world bus.now) segment offset }
{
    bus.load(physical(segment, offset))
}

/// The byte or word at an offset of a segment.
#[inline(always)]
pub(crate) fn load<B: Bus>(bus: &B, width: Width, segment: u16, offset: u16) -> u16
    ensures value { result ≡ loaded B.model width (B.world bus.now) segment offset }
    ensures fits { result < values width }
{
    match width {
        Width::Byte => u16::from(load_byte(bus, segment, offset)),
        Width::Word => bus.load_word(segment, offset),
    }
}

/// Stores a value of a width, and adds the label that shows it.
#[tactic(auto, unfolding(crate::specs::Machine::stored_access))]
#[inline(always)]
pub(crate) fn store<B: Bus>(
    bus: &mut B,
    labels: &mut Labels,
    width: Width,
    segment: u16,
    offset: u16,
    value: u16,
)
    requires fits { value < values width }
    requires room { array_vec_len labels.old < 4 }
    ensures after { B.world bus.new ≡ B.model.store (B.world bus.old) (access_at width segment offset value) }
    ensures shown { labels.new.items ≡ labels.old.items ++ labels_of (B.model.store_label (B.world bus.old) (access_at width segment offset value)) }
    ensures room { array_vec_len labels.new ≤ array_vec_len labels.old + 1 }
{
    let shown = match width {
        Width::Byte => bus.store(Store::Byte {
            address: physical(segment, offset),
            value: value as u8,
        }),
        Width::Word => bus.store_word(segment, offset, value),
    };
    if let Some(label) = shown {
        labels.push(label);
    }
}

/// Pushes a word: SP goes down first.
#[tactic(auto, unfolding(crate::specs::Machine::pushed, crate::specs::Machine::stored_access))]
#[inline(never)]
pub(crate) fn push<B: Bus>(registers: &mut Regs, bus: &mut B, labels: &mut Labels, value: u16)
    requires { array_vec_len labels.old < 4 }
    ensures after { machine registers.new (B.world bus.new) labels.new.items
        ≡ pushed B.model value (machine registers.old (B.world bus.old) labels.old.items) }
    ensures room { array_vec_len labels.new ≤ array_vec_len labels.old + 1 }
{
    let sp = registers.word(Register16::Sp).wrapping_sub(2);
    registers.set_word(Register16::Sp, sp);
    store(
        bus,
        labels,
        Width::Word,
        registers.segment(Segment::Ss),
        sp,
        value,
    );
}

/// Pops a word.
#[tactic(auto, unfolding(crate::specs::Machine::popped))]
#[inline(always)]
pub(crate) fn pop<B: Bus>(registers: &mut Regs, bus: &B) -> u16
    ensures value { result ≡ (popped B.model (B.world bus.now) registers.old).0 }
    ensures after { registers.new ≡ (popped B.model (B.world bus.now) registers.old).1 }
{
    let sp = registers.word(Register16::Sp);
    let value = bus.load_word(registers.segment(Segment::Ss), sp);
    registers.set_word(Register16::Sp, sp.wrapping_add(2));
    value
}
