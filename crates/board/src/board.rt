//! The board: a processor with memory and chips.

ghost use Rattle.std.specs.Prelude.{◌≡◌};

use crate::attached::Attached;
use cpu8086::{Cpu, DecodeCache, RomCode};

/// The board: an 8086, memory, and the chips on its ports (IBM PC Technical Reference, "Memory Map" and "I/O Address Map").
///
/// RAM is 00000H to 1FFFFH, the monochrome page of the screen 0B0000H to 0B0F9FH, its colour page 0B8000H to 0B8F9FH, and the ROM
/// ends at 0FFFFFH. Other memory reads 0FFH; stores there and into the ROM are lost. What a call does is stated for every state
/// of the definition that the board shows.
#[derive(Drop)]
pub struct Board {
    pub(crate) cpu: Cpu,
    pub(crate) attached: Attached,
    /// The instructions that were met before, so that they are not decoded again: no turn is another one for it.
    pub(crate) cache: DecodeCache,
    /// The instructions of the ROM that were met before, by their places: no turn is another one for it either.
    pub(crate) code: RomCode,
    /// The first turn of the last run in which the processor waited with interrupts off.
    pub(crate) died: Option<u32>,
    ghost same_rom: { code.rom.items ≡ attached.rom.items },
}
