//! The pages of the screen.

ghost use Rattle.std.specs.Prelude.{◌≡◌};
ghost use Rattle.word86.specs.Page.{page_begins, page_at};

use crate::memory_map::SCREEN_SEGMENT;

/// The bytes of a page: 80 by 25 places of a character and its attribute (IBM PC Technical Reference, Monochrome Display and
/// Color/Graphics Adapter).
pub const PAGE_SIZE: usize = 4000;

/// A page of the screen.
#[derive(Debug, Clone, Copy, PartialEq, Eq)]
pub enum Page {
    /// From address 0B0000H on.
    Monochrome,
    /// From address 0B8000H on.
    Colour,
}

impl Page {
    /// The offset of its first byte in the screen's segment.
    pub fn begins(self) -> u16
        ensures { result ≡ page_begins self }
    {
        match self {
            Page::Monochrome => 0,
            Page::Colour => 0x8000,
        }
    }

    /// The address of its first byte.
    pub fn address(self) -> u32
        ensures { result ≡ page_at self }
    {
        16 * (SCREEN_SEGMENT as u32) + u32::from(self.begins())
    }
}
