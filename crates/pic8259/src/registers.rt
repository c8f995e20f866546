//! The registers of the controller, and what words and requests do to them.

ghost use Rattle.std.specs.Prelude.{◌≡◌, ◌<◌, ◌≤◌, ◌+◌, ◌||◌, Bool, true, IfSome};
ghost use Rattle.pic8259.specs.Levels.{has};

use crate::levels::Levels;
use word86::is_set;

/// The three sets, the vector, the mode and the words that are awaited.
#[derive(Clone, Copy)]
pub struct Registers {
    requested: Levels,
    in_service: Levels,
    masked: Levels,
    /// The level of lowest priority; the next one, or 0 after 7, is the highest.
    lowest: u8,
    /// The vector of level 0.
    base: u8,
    /// Which register is read at A0 = 0.
    reads_service: bool,
    /// The acknowledgement itself ends an interrupt.
    automatic: bool,
    /// That end makes the acknowledged level lowest.
    rotates: bool,
    mode_8086: bool,
    awaits_vector: bool,
    awaits_cascade: bool,
    awaits_mode: bool,
    ghost lowest_fits: { lowest < 8 },
    ghost base_fits: { base ≤ 248 },
}

impl Registers {
    ghost use Rattle.pic8259.specs.Controller.{reset, pulsed, is_wanted, pending, taken, initialised, selected, retired, placed_last, ended, commanded, configured, written, answer};
    ghost use Rattle.pic8259.specs.Registers.{shown};
    ghost use Rattle.pic8259.specs.Levels.{highest};
    ghost use Rattle.std.specs.Prelude.{Some};

    /// Nothing requested, in service, masked or awaited.
    pub fn reset() -> Self
        ensures { shown result ≡ reset }
    {
        Registers {
            requested: Levels::from_bits(0),
            in_service: Levels::from_bits(0),
            masked: Levels::from_bits(0),
            lowest: 7,
            base: 0,
            reads_service: false,
            automatic: false,
            rotates: false,
            mode_8086: false,
            awaits_vector: false,
            awaits_cascade: false,
            awaits_mode: false,
        }
    }

    /// Whether the last ICW4 chose 8086 mode.
    pub fn is_8086_mode(&self) -> bool
        ensures { result ≡ self.now.mode_8086 }
    {
        self.mode_8086
    }

    /// The vector of a level.
    pub fn vector(&self, level: u8) -> u8
        requires { level < 8 }
        ensures { result ≡ self.now.base + level }
    {
        self.base + level
    }

    /// A request line rises.
    pub fn request(&mut self, level: u8)
        requires { level < 8 }
        ensures { shown self.new ≡ pulsed level (shown self.old) }
    {
        self.requested = self.requested.with(level);
    }

    fn is_wanted(&self, level: u8) -> bool
        requires { level < 8 }
        ensures { result ≡ is_wanted (shown self.now) level }
    {
        self.requested.contains(level) && !self.masked.contains(level)
    }

    /// The highest level that is in service, or requested and not masked.
    #[tactic(auto, using(crate::proofs::Priority::highest_levels), unfolding(crate::specs::Levels::highest))]
    fn first_active(&self) -> Option<u8>
        ensures value { result ≡ highest self.now.lowest (λ k. has self.now.in_service.bits k || is_wanted (shown self.now) k) }
        ensures level { IfSome result (λ k. k < 8) }
    {
        let lowest = self.lowest;
        (0..8u8).map(|place| (lowest + 1 + place) % 8).find(|level| self.in_service.contains(*level)
            || self.is_wanted(*level))
    }

    /// The level that an acknowledgement takes: the highest requested, unmasked one above every level in service.
    #[tactic(auto, using(crate::proofs::Priority::next_level))]
    pub fn pending(&self) -> Option<u8>
        ensures value { result ≡ pending (shown self.now) }
        ensures level { IfSome result (λ k. k < 8) }
    {
        let first = self.first_active()?;
        if self.in_service.contains(first) {
            return None;
        }
        Some(first)
    }

    /// A level is acknowledged.
    pub fn take(&mut self, level: u8)
        requires { level < 8 }
        ensures { shown self.new ≡ taken (Some level) (shown self.old) }
    {
        self.requested = self.requested.without(level);
        if !self.automatic {
            self.in_service = self.in_service.with(level);
        } else if self.rotates {
            self.lowest = level;
        }
    }

    /// The register at this level of A0.
    pub fn read(&self, a0: u8) -> u8
        ensures { result ≡ answer a0 (shown self.now) }
    {
        if a0 != 0 {
            self.masked.bits()
        } else if self.reads_service {
            self.in_service.bits()
        } else {
            self.requested.bits()
        }
    }

    /// A word at this level of A0.
    pub fn write(&mut self, a0: u8, v: u8)
        ensures { shown self.new ≡ written a0 v (shown self.old) }
    {
        if a0 == 0 {
            self.command(v);
        } else {
            self.configure(v);
        }
    }

    /// A word at A0 = 0: ICW1 with bit 4 set, else OCW3 with bit 3 set, else OCW2.
    fn command(&mut self, v: u8)
        ensures { shown self.new ≡ commanded v (shown self.old) }
    {
        if is_set(v, 4) {
            self.initialise(v);
        } else if is_set(v, 3) {
            self.select(v);
        } else {
            self.end(v);
        }
    }

    /// ICW1 (8259A data sheet, "Initialization Command Word Format"): bit 0 announces ICW4, bit 1 that there is no ICW3.
    fn initialise(&mut self, v: u8)
        ensures { shown self.new ≡ initialised v (shown self.old) }
    {
        *self = Registers {
            requested: Levels::from_bits(0),
            in_service: Levels::from_bits(0),
            masked: Levels::from_bits(0),
            lowest: 7,
            base: self.base,
            reads_service: false,
            automatic: false,
            rotates: false,
            mode_8086: false,
            awaits_vector: true,
            awaits_cascade: !is_set(v, 1),
            awaits_mode: is_set(v, 0),
        };
    }

    /// OCW3 (8259A data sheet, "Operation Command Word Format"): with bit 1 set, bit 0 chooses the register that is read, the
    /// levels in service or the requested ones. Poll and special mask mode are not built in.
    fn select(&mut self, v: u8)
        ensures { shown self.new ≡ selected v (shown self.old) }
    {
        if is_set(v, 1) && !is_set(v, 7) {
            self.reads_service = is_set(v, 0);
        }
    }

    /// OCW2 (8259A data sheet, "Operation Command Word Format"): bits 7 to 5 are 001 for the end of the highest level in
    /// service, 011 for that of the level of bits 2 to 0, 101 and 111 for the same ends with rotation, 110 for rotation alone,
    /// 100 and 000 for the start and the end of rotation at the automatic end. 010 does nothing.
    fn end(&mut self, v: u8)
        ensures { shown self.new ≡ ended v (shown self.old) }
    {
        let first = self.in_service.highest(self.lowest);
        let named = Some(v % 8);
        match v / 32 {
            0 => self.rotates = false,
            1 => self.retire(first),
            3 => self.retire(named),
            4 => self.rotates = true,
            5 => self.retire_last(first),
            6 => self.place_last(named),
            7 => self.retire_last(named),
            _ => {}
        }
    }

    /// A level, if there is one, is no longer in service.
    fn retire(&mut self, level: Option<u8>)
        requires { IfSome level (λ k. k < 8) }
        ensures { shown self.new ≡ retired level (shown self.old) }
    {
        if let Some(level) = level {
            self.in_service = self.in_service.without(level);
        }
    }

    /// A level, if there is one, is lowest.
    fn place_last(&mut self, level: Option<u8>)
        requires { IfSome level (λ k. k < 8) }
        ensures { shown self.new ≡ placed_last level (shown self.old) }
    {
        if let Some(level) = level {
            self.lowest = level;
        }
    }

    /// A level, if there is one, is no longer in service, and is lowest.
    fn retire_last(&mut self, level: Option<u8>)
        requires { IfSome level (λ k. k < 8) }
        ensures { shown self.new ≡ placed_last level (retired level (shown self.old)) }
    {
        self.retire(level);
        self.place_last(level);
    }

    /// A word at A0 = 1: ICW2 to ICW4 while they are awaited (8259A data sheet, "Initialization Sequence"), else OCW1, the mask.
    fn configure(&mut self, v: u8)
        ensures { shown self.new ≡ configured v (shown self.old) }
    {
        if self.awaits_vector {
            self.base = 8 * (v / 8);
            self.awaits_vector = false;
        } else if self.awaits_cascade {
            self.awaits_cascade = false;
        } else if self.awaits_mode {
            self.mode_8086 = is_set(v, 0);
            self.automatic = is_set(v, 1);
            self.awaits_mode = false;
        } else {
            self.masked = Levels::from_bits(v);
        }
    }
}
