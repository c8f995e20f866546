//! A count that is counted again and again.

ghost use Rattle.std.specs.Prelude.{◌≡◌, ℕ, ◌+◌, ◌-◌, ◌*◌, ◌/◌, ◌%◌, ◌<◌, ◌≤◌, ◌⊎◌, ◌≢◌, MatchBool, None};
ghost use Rattle.pit8253.specs.Progress.{count_at};

use crate::mode::Waveform;

/// The running period and the next one.
#[derive(Clone, Copy)]
pub struct Cycle {
    pub waveform: Waveform,
    pub period: u32,
    /// The count of the next period; the running one's, unless a newer one was written.
    pub next: u32,
    /// The pulses since the running period began; 0 before the first one.
    pub pulses: u32,
    ghost period_fits: { (0 < period) × (period ≤ 65536) },
    ghost next_fits: { (0 < next) × (next ≤ 65536) },
    ghost pulses_fit: { pulses ≤ period },
}

impl Cycle {
    ghost use Rattle.pit8253.specs.Inner.Progress.{pulses, Rises};
    ghost use Rattle.pit8253.specs.Progress.{is_high, Again, count};
    ghost use Rattle.pit8253.specs.Alike.{Alike};
    ghost use Rattle.pit8253.specs.Element.{view};
    ghost use Rattle.pit8253.specs.Inner.Segment.{IsSegment};
    ghost use Rattle.pit8253.specs.Inner.Segment.{IsStartOf};
    ghost use Rattle.pit8253.specs.Channel.{IsPartOf};

    /// A count that was just loaded.
    pub fn new(waveform: Waveform, period: u32) -> Self
        requires { (0 < period) × (period ≤ 65536) }
        ensures { Alike (view result) (Again waveform period None 0) }
    {
        Cycle {
            waveform,
            period,
            next: period,
            pulses: 0,
        }
    }

    /// Whether a period is over, or none has begun.
    pub fn is_at_start(&self) -> bool
        ensures { MatchBool result (self.now.pulses % self.now.period ≡ 0) (self.now.pulses % self.now.period ≢ 0) }
    {
        self.pulses == 0 || self.pulses == self.period
    }

    /// OUT.
    pub fn is_high(&self) -> bool
        ensures { result ≡ is_high (view self.now) }
    {
        if self.pulses == 0 {
            return true;
        }
        match self.waveform {
            Waveform::Rate => self.period == 1 || self.pulses != self.period,
            Waveform::Square => self.pulses - 1 < (self.period + 1) / 2,
        }
    }

    /// The count, 65,536 for a whole one.
    pub fn count(&self) -> u32
        ensures { result ≡ count (view self.now) }
    {
        if self.pulses == 0 {
            return 0;
        }
        count_at(self.waveform, self.period, self.pulses - 1)
    }

    /// How many of `k` pulses stay within the running period.
    pub fn within(&self, k: u16) -> u16
        ensures most { result ≤ k }
        ensures part { IsSegment result self.now }
        ensures start { result < k → IsStartOf (pulses result (view self.now)) }
    {
        let left = if self.is_at_start() {
            self.next
        } else {
            self.period - self.pulses
        };
        if u32::from(k) <= left { k } else { left as u16 }
    }

    /// How many of `k` pulses from a period's start are whole periods.
    pub fn whole(&self, k: u16) -> u16
        requires { self.now.pulses % self.now.period ≡ 0 }
        ensures most { result ≤ k }
        ensures part { IsSegment result self.now }
        ensures rest { IsPartOf (k - result) (pulses result (view self.now)) }
    {
        let k = u32::from(k);
        (k - k % self.next) as u16
    }

    /// Counts `k` pulses within the running period, or whole periods from a period's start. Tells whether OUT rose.
    pub fn segment(&mut self, k: u16) -> bool
        requires { IsSegment k self.old }
        ensures moved { Alike (view self.new) (pulses k (view self.old)) }
        ensures rose { MatchBool result (Rises k (view self.old)) (¬ Rises k (view self.old)) }
    {
        let k = u32::from(k);
        if k == 0 {
            return false;
        }
        if !self.is_at_start() {
            self.pulses += k;
            return false;
        }
        let rose = self.rises(k);
        *self = Cycle {
            waveform: self.waveform,
            period: self.next,
            next: self.next,
            pulses: if k <= self.next { k } else { self.next },
        };
        rose
    }

    /// Whether OUT rises in `k` pulses from a period's start: at the first pulse if it is low, else after a whole period.
    fn rises(&self, k: u32) -> bool
        requires within { IsSegment k self.now }
        requires start { self.now.pulses % self.now.period ≡ 0 }
        requires some { 0 < k }
        ensures { MatchBool result (Rises k (view self.now)) (¬ Rises k (view self.now)) }
    {
        if !self.is_high() {
            return true;
        }
        if self.next < 2 || k < 2 * self.next {
            return false;
        }
        true
    }
}

/// The count at phase `q` of a period of `n` pulses.
fn count_at(waveform: Waveform, n: u32, q: u32) -> u32
    requires { (q < n) × (n ≤ 65536) }
    ensures { result ≡ count_at waveform n q }
{
    match waveform {
        Waveform::Rate => n - q,
        Waveform::Square => {
            if n % 2 == 0 {
                n - 2 * (q % (n / 2))
            } else if q < (n + 1) / 2 {
                if q == 0 { n } else { n + 1 - 2 * q }
            } else if q == (n + 1) / 2 {
                n
            } else {
                n - 1 - 2 * (q - (n + 1) / 2)
            }
        }
    }
}
