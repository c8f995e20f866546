//! The text on both pages of the screen with its colours, as terminals show them (ECMA-48, "Select graphic rendition").
//!
//! Texts have no contract: `tests/watched` shows them.

use crate::board::Board;
use crate::colours::{Colours, place_at};
use crate::showing::{COLUMNS, ROWS, shown};
use std::alloc::{AllocError, Global};
use word86::Page;

/// What ends the colours, and the line.
const PLAIN: &[u8] = b"\x1B[0m\n";

/// The numbers that a terminal gives to the first eight colours of the adapter: red and blue change places.
const NUMBERS: [u8; 8] = [0, 4, 2, 6, 1, 5, 3, 7];

fn number(colour: u8) -> u8 {
    NUMBERS[usize::from(colour % 8)]
}

/// Adds what makes a terminal show these colours.
fn put_colours(alloc: Global, text: &mut Vec<u8>, colours: Colours) -> Result<(), AllocError> {
    let first = if colours.front < 8 { 30 } else { 90 };
    let front = u16::from(number(colours.front)).wrapping_add(first);
    let back = u16::from(number(colours.back)).wrapping_add(40);
    let words = format!(in alloc; "\x1B[{front};{back}m")?;
    text.extend_from_slice(words.as_str().as_bytes())
}

/// Adds a row of a page.
fn put_row(
    alloc: Global,
    text: &mut Vec<u8>,
    page: Page,
    bytes: &[u8],
    row: usize,
) -> Result<(), AllocError> {
    let mut before: Option<Colours> = None;
    for column in 0..COLUMNS {
        let (character, attribute) = place_at(bytes, row, column);
        let colours = Colours::of(page, attribute);
        if before != Some(colours) {
            put_colours(alloc, text, colours)?;
        }
        before = Some(colours);
        text.push(shown(character))?;
    }
    text.extend_from_slice(PLAIN)
}

/// Adds the rows of a page behind its name.
fn put_page(
    alloc: Global,
    text: &mut Vec<u8>,
    name: &[u8],
    page: Page,
    bytes: &[u8],
) -> Result<(), AllocError> {
    text.extend_from_slice(name)?;
    for row in 0..ROWS {
        put_row(alloc, text, page, bytes, row)?;
    }
    Ok(())
}

/// Adds the text on both pages of the screen with its colours: their names, and their 25 rows of 80 places. Want of memory is its one error.
pub fn put_coloured_screen(
    alloc: Global,
    text: &mut Vec<u8>,
    board: &Board,
) -> Result<(), AllocError> {
    let colour = board.page(Page::Colour);
    put_page(alloc, text, b"SCREEN\n", Page::Colour, colour)?;
    let monochrome = board.page(Page::Monochrome);
    put_page(alloc, text, b"MONO\n", Page::Monochrome, monochrome)
}
