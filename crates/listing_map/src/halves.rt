//! The two halves of a ROM, for the pair of EPROMs of an 8086: its bytes at even addresses and those at odd ones.

ghost use Rattle.std.specs.Prelude.{◌≡◌, ◌+◌, ◌/◌, length, IfOk};
ghost use Rattle.listing_map.specs.Halves.{interleaved};

use std::alloc::{AllocError, Global};

/// The bytes of a ROM at even addresses, and those at odd ones.
#[derive(Drop)]
pub struct RomHalves {
    pub even: Vec<u8>,
    pub odd: Vec<u8>,
}

/// The halves of a ROM, which begins at an even address. Want of memory is its one error.
pub fn rom_halves(alloc: Global, rom: &[u8]) -> Result<RomHalves, AllocError>
    ensures joined { IfOk result (λ h. interleaved h.even.items h.odd.items ≡ rom.now) }
    ensures even { IfOk result (λ h. length h.even.items ≡ (length rom.now + 1) / 2) }
    ensures odd { IfOk result (λ h. length h.odd.items ≡ length rom.now / 2) }
{
    let mut even = Vec::new(alloc);
    let mut odd = Vec::new(alloc);
    let mut rest = rom;
    while let [first, second, after @ ..] = rest {
        even.push(*first)?;
        odd.push(*second)?;
        rest = after;
    }
    even.extend_from_slice(rest)?;
    Ok(RomHalves { even, odd })
}
