//! What the processor of the board is attached to: its memory and its ports.

ghost use Rattle.std.specs.Prelude.{◌≡◌, ◌+◌, ◌≤◌, vec_len};
ghost use Rattle.word86.specs.MemoryMap.{ram_size, code_start};
ghost use Rattle.word86.specs.Page.{page_size};

use ppi_kbd::Ports;

/// Memory, and the chips on the ports.
#[derive(Drop)]
pub(crate) struct Attached {
    /// Up to address 0FFFFFH. It stands before RAM, since what stands first is at the address of the whole, which turns hand on: it would be
    /// found by one more machine instruction.
    pub(crate) rom: Vec<u8>,
    /// The address of the ROM's first byte.
    pub(crate) rom_start: u32,
    /// From address 0 on.
    pub(crate) ram: Vec<u8>,
    /// The monochrome page, from address 0B0000H on.
    pub(crate) monochrome: Vec<u8>,
    /// The colour page, from address 0B8000H on.
    pub(crate) colour: Vec<u8>,
    /// The chips, by their ports.
    pub(crate) ports: Ports,
    ghost ram_is_whole: { vec_len ram ≡ ram_size },
    ghost monochrome_is_whole: { vec_len monochrome ≡ page_size },
    ghost colour_is_whole: { vec_len colour ≡ page_size },
    ghost rom_is_high: { code_start ≤ rom_start },
    ghost rom_ends: { rom_start + vec_len rom ≡ 1048576 },
}
