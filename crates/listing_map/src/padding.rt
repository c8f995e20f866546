//! A ROM whose free bytes hold what an EPROM holds that was erased.

ghost use Rattle.std.specs.Prelude.{◌≡◌, IfOk};
ghost use Rattle.listing_map.specs.Padding.{padded};

use layout_link::RESET;
use std::alloc::{AllocError, Global};

/// A ROM with this byte behind its first `taken` bytes, up to the far jump of the reset. Want of memory is its one error.
pub fn padded_rom(alloc: Global, rom: &[u8], taken: usize, byte: u8) -> Result<Vec<u8>, AllocError>
    ensures { IfOk result (λ r. r.items ≡ padded byte taken rom.now) }
{
    let end = rom.len().saturating_sub(RESET);
    let begin = taken.min(end);
    let mut padded = Vec::from_slice(alloc, &rom[..begin])?;
    padded.resize(end, byte)?;
    padded.extend_from_slice(&rom[end..])?;
    Ok(padded)
}
