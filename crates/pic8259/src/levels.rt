//! Sets of levels.

ghost use Rattle.std.specs.Prelude.{◌≡◌, ◌<◌, IfSome};
ghost use Rattle.pic8259.specs.Levels.{has, with_level, without_level, highest};

use word86::is_set;

/// A set of the eight levels: a byte in which bit k stands for level k.
#[derive(Clone, Copy)]
pub struct Levels {
    bits: u8,
}

impl Levels {
    /// The set of a byte.
    pub fn from_bits(bits: u8) -> Self
        ensures { result.bits ≡ bits }
    {
        Levels { bits }
    }

    /// Its byte.
    pub fn bits(self) -> u8
        ensures { result ≡ self.bits }
    {
        self.bits
    }

    /// Whether a level is in the set.
    pub fn contains(self, level: u8) -> bool
        requires { level < 8 }
        ensures { result ≡ has self.bits level }
    {
        is_set(self.bits, level)
    }

    /// The set with a level more.
    pub fn with(self, level: u8) -> Self
        requires { level < 8 }
        ensures { result.bits ≡ with_level level self.bits }
    {
        Levels {
            bits: self.bits | (1 << level),
        }
    }

    /// The set with a level less.
    pub fn without(self, level: u8) -> Self
        requires { level < 8 }
        ensures { result.bits ≡ without_level level self.bits }
    {
        Levels {
            bits: self.bits & !(1 << level),
        }
    }

    /// The highest level in the set, in the order of priority that ends with `lowest`.
    #[tactic(auto, unfolding(crate::specs::Levels::highest))]
    pub fn highest(self, lowest: u8) -> Option<u8>
        requires { lowest < 8 }
        ensures value { result ≡ highest lowest (has self.bits) }
        ensures level { IfSome result (λ k. k < 8) }
    {
        (0..8u8)
            .map(|place| (lowest + 1 + place) % 8)
            .find(|level| self.contains(*level))
    }
}
