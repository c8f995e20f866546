//! Shifts and rotations of a byte or a word: the value is moved place by place, and CF is the bit that goes out last.

ghost use Rattle.std.specs.Prelude.{◌≡◌, ◌<◌};
ghost use Rattle.word86.specs.Access.{values};
ghost use Rattle.i86_table.specs.Arithmetic.{moved_once, moved, with_shift_result, shift_overflow, shifted};
ghost use Rattle.i86_table.specs.Inner.LateFlags.{once_flags, rotated_flags};

use crate::flags::Flags;
use crate::instruction::ShiftOperation;
use crate::late_flags::LateFlags;
use crate::outcome::Outcome;
use crate::width::{half, sign, size, wrap};
use bitflags::Flags as _;
use word86::Width;

/// One place: the value, and the bit that went out.
fn move_once(operation: ShiftOperation, width: Width, a: u16) -> (u16, bool)
    requires { a < values width }
    ensures value { result ≡ moved_once operation width a }
    ensures fits { result.0 < values width }
{
    let wide = u32::from(a);
    let (size, half) = (size(width), half(width));
    let double = wide * 2;
    match operation {
        ShiftOperation::Rol => ((double % size + double / size) as u16, double / size == 1),
        ShiftOperation::Ror => ((wide / 2 + wide % 2 * half) as u16, wide % 2 == 1),
        ShiftOperation::Shl => ((double % size) as u16, double / size == 1),
        ShiftOperation::Shr => ((wide / 2) as u16, wide % 2 == 1),
        ShiftOperation::Sar => (
            (wide / 2 + if wide >= half { half } else { 0 }) as u16,
            wide % 2 == 1,
        ),
    }
}

/// This number of places, and the bit that went out last; the carry where there are none.
#[tactic(auto, using(crate::proofs::Steps::moved_step, crate::proofs::Steps::moved_none))]
fn move_places(
    operation: ShiftOperation,
    width: Width,
    a: u16,
    count: u8,
    carry: bool,
) -> (u16, bool)
    requires { a < values width }
    ensures value { result ≡ moved operation width count (a, carry) }
    ensures fits { result.0 < values width }
{
    let mut value = a;
    let mut out = carry;
    for _ in 0..count {
        let (next, bit) = move_once(operation, width, value);
        value = next;
        out = bit;
    }
    (value, out)
}

/// OF after one place, from the value before and after and the bit that went out.
fn overflow(operation: ShiftOperation, width: Width, a: u16, value: u16, out: bool) -> bool
    ensures { result ≡ shift_overflow operation width a value out }
{
    match operation {
        ShiftOperation::Rol | ShiftOperation::Shl => sign(width, value) != out,
        ShiftOperation::Ror => {
            sign(width, value) != sign(width, wrap(width, u32::from(value) * 2))
        }
        ShiftOperation::Shr => sign(width, a),
        ShiftOperation::Sar => false,
    }
}

/// A shift or rotation by a count that is not masked: CF is the bit that went out last; OF is set for the count 1 alone;
/// a count of 0 changes nothing.
#[tactic(auto, unfolding(crate::specs::Arithmetic::shifted))]
pub(crate) fn shift(
    operation: ShiftOperation,
    width: Width,
    a: u16,
    count: u8,
    flags: Flags,
) -> Outcome
    requires { a < values width }
    ensures value { result ≡ shifted operation width a count flags }
    ensures fits { result.value < values width }
{
    let (value, out) = move_places(operation, width, a, count, flags.contains(Flags::CARRY));
    if count == 0 {
        return Outcome { value, flags };
    }
    let flags = flags.with(Flags::CARRY, out);
    let flags = match operation {
        ShiftOperation::Rol | ShiftOperation::Ror => flags,
        _ => flags.with_result(width, value),
    };
    if count == 1 {
        let overflow = overflow(operation, width, a, value, out);
        let flags = flags.with(Flags::OVERFLOW, overflow);
        return Outcome { value, flags };
    }
    Outcome { value, flags }
}

impl LateFlags {
    /// A shift by one place.
    #[inline(always)]
    fn set_shifted(&mut self, operation: ShiftOperation, width: Width, a: u16) -> u16
        requires { a < values width }
        ensures value { result ≡ (moved_once operation width a).0 }
        ensures flags { self.new ≡ once_flags operation width a self.old }
        ensures fits { result < values width }
    {
        let (value, out) = move_once(operation, width, a);
        let overflow = overflow(operation, width, a, value, out);
        self.set_result(width, value, out, overflow);
        value
    }

    /// A rotation by one place.
    #[inline(always)]
    fn set_rotated(&mut self, operation: ShiftOperation, width: Width, a: u16) -> u16
        requires { a < values width }
        ensures value { result ≡ (moved_once operation width a).0 }
        ensures flags { self.new ≡ rotated_flags operation width a self.old }
        ensures fits { result < values width }
    {
        let (value, out) = move_once(operation, width, a);
        let overflow = overflow(operation, width, a, value, out);
        self.set_moved(out, overflow);
        value
    }

    /// The result of a shift or rotation.
    #[tactic(auto, using(crate::proofs::LateLaws::rol_flags, crate::proofs::LateLaws::ror_flags, crate::proofs::LateLaws::shifted_value, crate::proofs::LateLaws::shl_flags, crate::proofs::LateLaws::shr_flags, crate::proofs::LateLaws::sar_flags))]
    #[inline(always)]
    pub(crate) fn shift(
        &mut self,
        operation: ShiftOperation,
        width: Width,
        a: u16,
        count: u8,
    ) -> u16
        requires { a < values width }
        ensures value { result ≡ (shifted operation width a count self.old).value }
        ensures flags { self.new ≡ (shifted operation width a count self.old).flags }
        ensures fits { result < values width }
    {
        match operation {
            ShiftOperation::Shl | ShiftOperation::Shr | ShiftOperation::Sar if count == 1 => {
                self.set_shifted(operation, width, a)
            }
            ShiftOperation::Rol | ShiftOperation::Ror if count == 1 => {
                self.set_rotated(operation, width, a)
            }
            _ => {
                let outcome = shift(operation, width, a, count, self.flags());
                *self = LateFlags::of(outcome.flags);
                outcome.value
            }
        }
    }
}
