//! ROMs, and what is known of them.

ghost use Rattle.std.specs.Prelude.{◌≡◌};
ghost use Rattle.layout_link.specs.Image.{bytes_in};

use frames::Stack;
use plm_decl::Placement;

/// How large a ROM is.
#[derive(Clone, Copy)]
pub enum RomSize {
    /// 8 KiB.
    Kib8,
    /// 16 KiB.
    Kib16,
    /// 32 KiB.
    Kib32,
    /// 64 KiB, a whole segment.
    Kib64,
}

impl RomSize {
    /// Its bytes.
    pub fn bytes(self) -> usize
        ensures { result ≡ bytes_in self }
    {
        match self {
            RomSize::Kib8 => 0x2000,
            RomSize::Kib16 => 0x4000,
            RomSize::Kib32 => 0x8000,
            RomSize::Kib64 => 0x1_0000,
        }
    }
}

/// A ROM, and what is known of it.
#[derive(Drop)]
pub struct Image {
    /// Its bytes, which end at address 0FFFFFH.
    pub rom: Vec<u8>,
    /// Where the program's objects lie.
    pub placement: Placement,
    /// The most bytes that are on the stack.
    pub stack: Stack,
    /// The turns from the processor's reset to main's first instruction.
    pub start_turns: u32,
}
