//! A count that is counted once.

ghost use Rattle.std.specs.Prelude.{◌≡◌, ℕ, ◌+◌, ◌-◌, ◌*◌, ◌%◌, ◌<◌, ◌≤◌, MatchBool};

/// Mode 0. Past its end the count goes on through all 16 bits, and OUT stays high.
#[derive(Clone, Copy)]
pub struct Once {
    pub count: u32,
    /// The pulses counted, less whole turns of 65,536 past the end.
    pub pulses: u32,
    ghost count_fits: { (0 < count) × (count ≤ 65536) },
    ghost pulses_fit: { pulses ≤ count + 65536 },
}

impl Once {
    ghost use Rattle.pit8253.specs.Inner.Progress.{pulses, Rises};
    ghost use Rattle.pit8253.specs.Progress.{is_high, count};
    ghost use Rattle.pit8253.specs.Alike.{Alike};
    ghost use Rattle.pit8253.specs.Element.{once_view};

    /// The count, below 65,536.
    pub fn count_now(&self) -> u32
        ensures { result ≡ count (once_view self.now) }
    {
        if self.pulses == 0 {
            return 0;
        }
        (self.count + 65536 - (self.pulses - 1)) % 65536
    }

    /// OUT.
    pub fn is_high(&self) -> bool
        ensures { result ≡ is_high (once_view self.now) }
    {
        self.pulses > self.count
    }

    /// Counts `k` pulses. Tells whether OUT rose.
    pub fn segment(&mut self, k: u16) -> bool
        ensures moved { Alike (once_view self.new) (pulses k (once_view self.old)) }
        ensures rose { MatchBool result (Rises k (once_view self.old)) (¬ Rises k (once_view self.old)) }
    {
        let rose = self.rises(u32::from(k));
        let pulses = self.pulses + u32::from(k);
        *self = Once {
            count: self.count,
            pulses: if pulses <= self.count + 65536 {
                pulses
            } else {
                pulses - 65536
            },
        };
        rose
    }

    fn rises(&self, k: u32) -> bool
        requires { k < 65536 }
        ensures { MatchBool result (Rises k (once_view self.now)) (¬ Rises k (once_view self.now)) }
    {
        if self.pulses > self.count {
            return false;
        }
        if self.pulses + k <= self.count {
            return false;
        }
        true
    }
}
