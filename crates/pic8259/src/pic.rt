//! The chip: its registers, with the next level at hand.

ghost use Rattle.std.specs.Prelude.{◌≡◌, ◌<◌, Bool, true};
ghost use Rattle.std.specs.Option.{ForSome};
ghost use Rattle.pic8259.specs.Controller.{pending};
ghost use Rattle.pic8259.specs.Registers.{shown};

use crate::registers::Registers;

/// The 8259A, a single one in fully nested mode (8259A data sheet, "Fully Nested Mode", and the formats of its command words).
/// Levels are the numbers 0 to 7 of its request lines.
///
/// What each call does is an equation over the definition's state: three sets of levels, the vector, the mode and the
/// initialisation words still awaited. To read the INT line costs no search: each change finds the next level once.
#[derive(Clone, Copy)]
pub struct Pic {
    registers: Registers,
    /// The level that an acknowledgement would take.
    next: Option<u8>,
    ghost next_is: { next ≡ pending (shown registers) },
    ghost next_fits: { ForSome next (λ k. k < 8) },
}

impl Pic {
    ghost use Rattle.pic8259.specs.Controller.{reset, pulsed, int_line, vector, acknowledged, written, answer};
    ghost use Rattle.pic8259.specs.Pic.{controller_of};

    /// The chip at reset: nothing requested, in service, masked or awaited, and not in 8086 mode, so that INT is down.
    pub fn reset() -> Self
        ensures { controller_of result ≡ reset }
    {
        Pic::of(Registers::reset())
    }

    fn of(registers: Registers) -> Self
        ensures { result.registers ≡ registers }
    {
        Pic {
            registers,
            next: registers.pending(),
        }
    }

    /// Reads the register at this level of line A0. At 0 it is the set of levels requested or in service, as the last OCW3
    /// chose, and else the mask.
    pub fn read(&self, a0: u8) -> u8
        ensures { result ≡ answer a0 (controller_of self.now) }
    {
        self.registers.read(a0)
    }

    /// Writes a word at this level of line A0. At 0 it is ICW1, OCW2 or OCW3, and else ICW2 to ICW4 while they are awaited,
    /// and then OCW1, the mask. Commands of other modes do nothing.
    pub fn write(&mut self, a0: u8, v: u8)
        ensures { controller_of self.new ≡ written a0 v (controller_of self.old) }
    {
        let mut registers = self.registers;
        registers.write(a0, v);
        *self = Pic::of(registers);
    }

    /// Request line `level` rises. There are the lines 0 to 7: any other number does nothing.
    pub fn pulse(&mut self, level: u8)
        ensures { controller_of self.new ≡ pulsed level (controller_of self.old) }
    {
        if level >= 8 {
            return;
        }
        let mut registers = self.registers;
        registers.request(level);
        *self = Pic::of(registers);
    }

    /// Whether INT is up: in 8086 mode, while a requested, unmasked level stands above every level in service.
    pub fn int_line(&self) -> bool
        ensures { result ≡ int_line (controller_of self.now) }
    {
        self.registers.is_8086_mode() && self.next.is_some()
    }

    /// Takes the highest such level and answers its vector. The request ends, and the level is in service unless the end of
    /// interrupt is automatic.
    pub fn acknowledge(&mut self) -> u8
        requires { int_line (controller_of self.old) ≡ true }
        ensures state { controller_of self.new ≡ acknowledged (controller_of self.old) }
        ensures vector { result ≡ vector (controller_of self.old) }
    {
        let level = self.next.unwrap();
        let mut registers = self.registers;
        registers.take(level);
        *self = Pic::of(registers);
        registers.vector(level)
    }
}
