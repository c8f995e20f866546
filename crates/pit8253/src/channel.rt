//! One of the three channels, and the ledger of the segments in which it counts.

ghost use Rattle.std.specs.Prelude.{◌≡◌, ℕ, ◌+◌, ◌-◌, ◌*◌, ◌%◌, ◌<◌, ◌≤◌, MatchBool};

use crate::element::Element;
use crate::mode::{Access, Mode, Waveform};

/// Counts the segments that channels made.
#[derive(Drop)]
pub struct Segments {
    made: u32,
}

impl Segments {
    /// A ledger of none.
    pub fn new() -> Self
        ensures { result.made ≡ 0 }
    {
        Segments { made: 0 }
    }

    /// How many segments it has counted.
    pub fn made(&self) -> u32
        ensures { result ≡ self.now.made }
    {
        self.made
    }
}

/// A count that is held for reading.
#[derive(Clone, Copy)]
pub struct Latch {
    value: u16,
    /// The reads that it still serves.
    reads: u8,
}

/// A channel of the timer. Pulses change it by `segment` alone.
#[derive(Drop)]
pub struct Channel {
    mode: Mode,
    access: Access,
    element: Element,
    /// The low byte of a count whose high byte is awaited.
    low: Option<u8>,
    gate: bool,
    latch: Option<Latch>,
    /// The next read gives the high byte of two.
    high_next: bool,
    /// The segments that it made, modulo 2^32: the ledger of a call rises with it.
    segments: u32,
}

impl Channel {
    ghost use Rattle.pit8253.specs.Timer.{pulses, out, is_counting, reset, set_to, latched, count_of, read, answer, gated, written, load, command};
    ghost use Rattle.pit8253.specs.Alike.{AlikeCounters};
    ghost use Rattle.pit8253.specs.Channel.{shown, IsPart, Rises};
    ghost use Rattle.pit8253.specs.Inner.Segment.{IsStart};

    /// A channel without a mode.
    pub(crate) fn reset(gate: bool) -> Self
        ensures { shown result ≡ reset gate }
    {
        Channel {
            mode: Mode::Unset,
            access: Access::Low,
            element: Element::Still(true),
            low: None,
            gate,
            latch: None,
            high_next: false,
            segments: 0,
        }
    }

    fn is_counting(&self) -> bool
        ensures { result ≡ is_counting (shown self.now) }
    {
        self.gate && !(matches!(self.mode, Mode::TerminalCount) && self.low.is_some())
    }

    /// OUT.
    pub(crate) fn out(&self) -> bool
        ensures { result ≡ out (shown self.now) }
    {
        (matches!(self.mode, Mode::Periodic(_)) && !self.gate) || self.element.is_high()
    }

    fn count(&self) -> u16
        ensures { result ≡ count_of (shown self.now) }
    {
        (self.element.count() % 65536) as u16
    }

    /// A control word for this channel.
    pub(crate) fn command(&mut self, word: u8)
        ensures { shown self.new ≡ command word (shown self.old) }
    {
        let access = match word / 16 % 4 {
            0 => {
                self.latch();
                return;
            }
            1 => Access::Low,
            2 => Access::High,
            _ => Access::Both,
        };
        match word % 16 {
            0 => self.set(Mode::TerminalCount, access),
            4 | 12 => self.set(Mode::Periodic(Waveform::Rate), access),
            6 | 14 => self.set(Mode::Periodic(Waveform::Square), access),
            _ => {}
        }
    }

    fn set(&mut self, mode: Mode, access: Access)
        ensures { shown self.new ≡ set_to mode access (shown self.old) }
    {
        self.mode = mode;
        self.access = access;
        self.element = Element::Still(!matches!(mode, Mode::TerminalCount));
        self.low = None;
        self.latch = None;
        self.high_next = false;
    }

    fn latch(&mut self)
        ensures { shown self.new ≡ latched (shown self.old) }
    {
        if self.latch.is_none() {
            self.latch = Some(Latch {
                value: self.count(),
                reads: if matches!(self.access, Access::Both) {
                    2
                } else {
                    1
                },
            });
        }
    }

    /// Reads a byte of the held count, or of the running one.
    pub(crate) fn read(&mut self) -> u8
        ensures moved { shown self.new ≡ read (shown self.old) }
        ensures byte { result ≡ answer (shown self.old) }
    {
        let value = match &self.latch {
            None => self.count(),
            Some(latch) => latch.value,
        };
        let high = match self.access {
            Access::Low => false,
            Access::High => true,
            Access::Both => self.high_next,
        };
        self.latch = match self.latch {
            Some(Latch { value, reads: 2 }) => Some(Latch { value, reads: 1 }),
            _ => None,
        };
        self.high_next = matches!(self.access, Access::Both) && !self.high_next;
        if high {
            (value / 256) as u8
        } else {
            (value % 256) as u8
        }
    }

    /// A byte for the count.
    pub(crate) fn write(&mut self, byte: u8)
        ensures { AlikeCounters (shown self.new) (written byte (shown self.old)) }
    {
        if matches!(self.mode, Mode::Unset) {
            return;
        }
        match self.access {
            Access::Low => self.load(u16::from(byte)),
            Access::High => self.load(256 * u16::from(byte)),
            Access::Both => match self.low {
                None => self.low = Some(byte),
                Some(low) => self.load(u16::from(low) + 256 * u16::from(byte)),
            },
        }
    }

    fn load(&mut self, count: u16)
        ensures { AlikeCounters (shown self.new) (load count (shown self.old)) }
    {
        let count = if count == 0 { 65536 } else { u32::from(count) };
        self.low = None;
        self.element.load(self.mode, count);
    }

    /// The gate goes high or low, or stays so.
    pub(crate) fn set_gate(&mut self, gate: bool)
        ensures { AlikeCounters (shown self.new) (gated gate (shown self.old)) }
    {
        if gate && !self.gate {
            self.element.restart();
        }
        self.gate = gate;
    }

    /// How many of `k` pulses stay within the running period.
    pub(crate) fn within(&self, k: u16) -> u16
        ensures most { result ≤ k }
        ensures part { IsPart result (shown self.now) }
        ensures start { result < k → IsStart (pulses result (shown self.now)) }
    {
        self.element.within(k)
    }

    /// How many of `k` pulses from a period's start are whole periods.
    pub(crate) fn whole(&self, k: u16) -> u16
        requires { IsStart (shown self.now) }
        ensures most { result ≤ k }
        ensures part { IsPart result (shown self.now) }
        ensures rest { IsPart (k - result) (pulses result (shown self.now)) }
    {
        if !self.is_counting() {
            return k;
        }
        self.element.whole(k)
    }

    /// Counts `k` pulses that stay within the running period, or begin at a period's start and are whole periods (mode 0 is
    /// one period). Tells whether OUT rose, and adds one to the ledger.
    pub fn segment(&mut self, k: u16, segments: &mut Segments) -> bool
        requires room { segments.old.made < 4294967295 }
        requires part { IsPart k (shown self.old) }
        ensures counted { segments.new.made ≡ segments.old.made + 1 }
        ensures tied { self.new.segments ≡ (self.old.segments + 1) % 4294967296 }
        ensures moved { AlikeCounters (shown self.new) (pulses k (shown self.old)) }
        ensures rose { MatchBool result (Rises k (shown self.old)) (¬ Rises k (shown self.old)) }
    {
        segments.made += 1;
        self.segments = self.segments.wrapping_add(1);
        if !self.is_counting() {
            return false;
        }
        self.element.segment(k)
    }
}
