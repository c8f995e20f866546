//! When each conditional jump is taken, and which one is taken where it is not.

ghost use Rattle.std.specs.Prelude.{◌≡◌};
ghost use Rattle.i86_table.specs.Condition.{holds};
ghost use Rattle.i86_table.specs.Inverse.{inverse, InverseHolds};

use crate::instruction::Condition;
use crate::late_flags::LateFlags;

impl LateFlags {
    /// Whether a conditional jump is taken.
    #[inline(always)]
    pub(crate) fn holds(&self, condition: Condition) -> bool
        ensures { result ≡ holds condition self.now }
    {
        match condition {
            Condition::Overflow => self.overflow(),
            Condition::NotOverflow => !self.overflow(),
            Condition::Below => self.carry(),
            Condition::NotBelow => !self.carry(),
            Condition::Equal => self.zero(),
            Condition::NotEqual => !self.zero(),
            Condition::BelowOrEqual => self.carry() || self.zero(),
            Condition::Above => !(self.carry() || self.zero()),
            Condition::Sign => self.sign(),
            Condition::NotSign => !self.sign(),
            Condition::ParityEven => self.parity(),
            Condition::ParityOdd => !self.parity(),
            Condition::Less => self.sign() != self.overflow(),
            Condition::NotLess => self.sign() == self.overflow(),
            Condition::LessOrEqual => self.zero() || self.sign() != self.overflow(),
            Condition::Greater => !(self.zero() || self.sign() != self.overflow()),
        }
    }
}

impl Condition {
    /// The condition that holds exactly where this one does not.
    pub fn inverse(self) -> Condition
        ensures { result ≡ inverse self }
    {
        match self {
            Condition::Overflow => Condition::NotOverflow,
            Condition::NotOverflow => Condition::Overflow,
            Condition::Below => Condition::NotBelow,
            Condition::NotBelow => Condition::Below,
            Condition::Equal => Condition::NotEqual,
            Condition::NotEqual => Condition::Equal,
            Condition::BelowOrEqual => Condition::Above,
            Condition::Above => Condition::BelowOrEqual,
            Condition::Sign => Condition::NotSign,
            Condition::NotSign => Condition::Sign,
            Condition::ParityEven => Condition::ParityOdd,
            Condition::ParityOdd => Condition::ParityEven,
            Condition::Less => Condition::NotLess,
            Condition::NotLess => Condition::Less,
            Condition::LessOrEqual => Condition::Greater,
            Condition::Greater => Condition::LessOrEqual,
        }
    }
}

/// The law that of a condition and its inverse exactly one holds, whatever the flags.
pub fn inverse_law()
    ensures { InverseHolds }
{}
