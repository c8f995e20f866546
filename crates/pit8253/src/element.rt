//! The counting element of a channel.

ghost use Rattle.std.specs.Prelude.{◌≡◌, ℕ, ◌-◌, ◌<◌, ◌≤◌, MatchBool};

use crate::cycle::Cycle;
use crate::mode::Mode;
use crate::once::Once;

/// What a channel counts.
#[derive(Clone, Copy)]
pub enum Element {
    /// Nothing yet; whether OUT is high.
    Still(bool),
    Once(Once),
    Again(Cycle),
}

impl Element {
    ghost use Rattle.pit8253.specs.Inner.Progress.{pulses, Rises};
    ghost use Rattle.pit8253.specs.Progress.{count, is_high};
    ghost use Rattle.pit8253.specs.Alike.{Alike};
    ghost use Rattle.pit8253.specs.Timer.{restarted, loaded};
    ghost use Rattle.pit8253.specs.Element.{element_view};
    ghost use Rattle.pit8253.specs.Channel.{IsPartOf};
    ghost use Rattle.pit8253.specs.Inner.Segment.{IsStartOf};

    /// OUT, while the gate is high.
    pub fn is_high(&self) -> bool
        ensures { result ≡ is_high (element_view self.now) }
    {
        match self {
            Element::Still(high) => *high,
            Element::Once(once) => once.is_high(),
            Element::Again(cycle) => cycle.is_high(),
        }
    }

    /// The count, at most 65,536.
    pub fn count(&self) -> u32
        ensures { result ≡ count (element_view self.now) }
    {
        match self {
            Element::Still(_) => 0,
            Element::Once(once) => once.count_now(),
            Element::Again(cycle) => cycle.count(),
        }
    }

    /// The gate rises: a new period of the newest count.
    pub fn restart(&mut self)
        ensures { Alike (element_view self.new) (restarted (element_view self.old)) }
    {
        if let Element::Again(cycle) = self {
            *self = Element::Again(Cycle::new(cycle.waveform, cycle.next));
        }
    }

    /// A whole count was written.
    pub fn load(&mut self, mode: Mode, count: u32)
        requires { (0 < count) × (count ≤ 65536) }
        ensures { Alike (element_view self.new) (loaded mode count (element_view self.old)) }
    {
        match mode {
            Mode::Unset => {}
            Mode::TerminalCount => *self = Element::Once(Once { count, pulses: 0 }),
            Mode::Periodic(waveform) => match self {
                Element::Again(cycle) => {
                    if cycle.pulses == 0 {
                        *self = Element::Again(Cycle::new(waveform, count));
                    } else {
                        cycle.next = count;
                    }
                }
                _ => *self = Element::Again(Cycle::new(waveform, count)),
            },
        }
    }

    /// How many of `k` pulses stay within the running period.
    pub fn within(&self, k: u16) -> u16
        ensures most { result ≤ k }
        ensures part { IsPartOf result (element_view self.now) }
        ensures start { result < k → IsStartOf (pulses result (element_view self.now)) }
    {
        match self {
            Element::Still(_) => k,
            Element::Once(_) => k,
            Element::Again(cycle) => cycle.within(k),
        }
    }

    /// How many of `k` pulses from a period's start are whole periods.
    pub fn whole(&self, k: u16) -> u16
        requires { IsStartOf (element_view self.now) }
        ensures most { result ≤ k }
        ensures part { IsPartOf result (element_view self.now) }
        ensures rest { IsPartOf (k - result) (pulses result (element_view self.now)) }
    {
        match self {
            Element::Still(_) => k,
            Element::Once(_) => k,
            Element::Again(cycle) => cycle.whole(k),
        }
    }

    /// Counts `k` pulses within the running period, or whole periods from a period's start. Tells whether OUT rose.
    pub fn segment(&mut self, k: u16) -> bool
        requires { IsPartOf k (element_view self.old) }
        ensures moved { Alike (element_view self.new) (pulses k (element_view self.old)) }
        ensures rose { MatchBool result (Rises k (element_view self.old)) (¬ Rises k (element_view self.old)) }
    {
        match self {
            Element::Still(_) => false,
            Element::Once(once) => once.segment(k),
            Element::Again(cycle) => cycle.segment(k),
        }
    }
}
