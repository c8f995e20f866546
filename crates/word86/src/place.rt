//! Where the bytes of an access lie.

use crate::page::Page;

/// The first byte of an access.
#[derive(Debug, Clone, Copy, PartialEq, Eq)]
pub enum Place {
    /// In the RAM object of this number, at this offset.
    Ram(usize, u16),
    /// In a page of the screen, at this offset from its first byte.
    Screen(Page, u16),
}
