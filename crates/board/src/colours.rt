//! The colours of places on the screen.

use crate::showing::COLUMNS;
use word86::Page;

/// The colours of a place, by their numbers on the colour adapter: of its character, and of what lies behind it.
#[derive(Clone, Copy, PartialEq, Eq)]
pub(crate) struct Colours {
    pub front: u8,
    pub back: u8,
}

/// Of a place on the monochrome page, which is dark, reversed, or plain or bright (IBM Technical Reference, "Monochrome Display").
fn monochrome(attribute: u8) -> Colours {
    let front = if attribute / 8 % 2 == 1 { 15 } else { 7 };
    match (attribute / 16 % 8, attribute % 8) {
        (0, 0) => Colours { front: 0, back: 0 },
        (7, 0) => Colours { front: 0, back: 7 },
        _ => Colours { front, back: 0 },
    }
}

impl Colours {
    /// Of a place with this attribute; what blinks stands still.
    pub fn of(page: Page, attribute: u8) -> Colours {
        match page {
            Page::Colour => Colours {
                front: attribute % 16,
                back: attribute / 16 % 8,
            },
            Page::Monochrome => monochrome(attribute),
        }
    }
}

/// The character and the attribute of a place of a page, by its row and its column, both from 0 on.
pub(crate) fn place_at(page: &[u8], row: usize, column: usize) -> (u8, u8) {
    let at = row
        .wrapping_mul(COLUMNS)
        .wrapping_add(column)
        .wrapping_mul(2);
    match (page.get(at), page.get(at.wrapping_add(1))) {
        (Some(character), Some(attribute)) => (*character, *attribute),
        (Some(_), None) | (None, Some(_)) | (None, None) => (0, 0),
    }
}
