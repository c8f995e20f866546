//! The flags, as one word of bits.

ghost use Rattle.std.specs.Prelude.{⊤, ◌≡◌, ◌==◌, [], ◌∷◌, codes, Bool};
ghost use Rattle.std.specs.Int.RustNames.{bit_and};
ghost use Rattle.i86_table.specs.Arithmetic.{with_flag, with_result, flags_of};
ghost use Rattle.i86_table.specs.FlagLaws.{SetFlagHolds, OtherFlagsStay, SetFlagIsAlone};

use crate::width::sign;
use bitflags::{Flag, Flags as _, bitflag_items};
use word86::Width;

/// The flag bits of the 8086.
#[derive(Clone, Copy)]
pub struct Flags(u16);

bitflag_items! {
    impl Flags: u16 {
        const CARRY = 0x001;
        const PARITY = 0x004;
        const AUXILIARY = 0x010;
        const ZERO = 0x040;
        const SIGN = 0x080;
        const TRAP = 0x100;
        const INTERRUPT = 0x200;
        const DIRECTION = 0x400;
        const OVERFLOW = 0x800;
    }
}

impl bitflags::Flags for Flags {
    type Bits = u16;

    ghost exact = { ⊤ };

    ghost table = { (codes "CARRY", 0x001) ∷ (codes "PARITY", 0x004) ∷ (codes "AUXILIARY", 0x010) ∷ (codes "ZERO", 0x040)
        ∷ (codes "SIGN", 0x080) ∷ (codes "TRAP", 0x100) ∷ (codes "INTERRUPT", 0x200) ∷ (codes "DIRECTION", 0x400) ∷ (codes "OVERFLOW", 0x800) ∷ [] };

    ghost set_of = { λ f. f.0 };

    fn flags<'a>() -> &'a [Flag<Flags>] {
        Flags::FLAGS
    }

    fn bits(&self) -> u16 {
        self.0
    }

    fn from_bits_retain(bits: u16) -> Flags {
        Flags(bits)
    }
}

impl Flags {
    /// The flags with this one set or cleared.
    #[tactic(auto, unfolding(crate::specs::Arithmetic::with_flag))]
    pub fn with(self, flag: Flags, value: bool) -> Flags
        ensures { result ≡ with_flag flag value self }
    {
        let mut flags = self;
        flags.set(flag, value);
        flags
    }

    /// The flags that a word from the stack gives: the bits that have no name are dropped.
    pub fn of_word(word: u16) -> Flags
        ensures { result ≡ flags_of word }
    {
        Flags(word & 0xFD5)
    }

    /// Sets the flags of zero, sign and parity for a result.
    #[tactic(auto, unfolding(crate::specs::Arithmetic::with_result))]
    pub(crate) fn with_result(self, width: Width, value: u16) -> Flags
        ensures { result ≡ with_result width value self }
    {
        let parity = (value % 256).count_ones() % 2 == 0;
        self.with(Flags::ZERO, value == 0)
            .with(Flags::SIGN, sign(width, value))
            .with(Flags::PARITY, parity)
    }
}

/// The laws of a flag that is set or cleared: it is so then, the others are as they were, and no bit comes up that is no flag's.
pub fn flag_laws()
    ensures same { SetFlagHolds }
    ensures others { OtherFlagsStay }
    ensures alone { SetFlagIsAlone }
{}
