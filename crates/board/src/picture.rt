//! A picture of the screen's pages, dot by dot.

ghost use Rattle.std.specs.Prelude.{◌≡◌, ◌+◌, ◌*◌, IfOk, OnOk, length, vec_len};

use crate::board::Board;
use crate::character_set::dots;
use crate::colours::{Colours, place_at};
use crate::showing::{COLUMNS, ROWS};
use std::alloc::{AllocError, Global};
use word86::Page;

/// What stands before the dots: the kind of the file, so many dots to the right and down, and the greatest part of a colour.
const HEAD: &[u8] = b"P6\n640 800\n255\n";

/// The 16 colours of the colour adapter, by their parts of red, green and blue.
const PALETTE: [[u8; 3]; 16] = [
    [0x00, 0x00, 0x00],
    [0x00, 0x00, 0xAA],
    [0x00, 0xAA, 0x00],
    [0x00, 0xAA, 0xAA],
    [0xAA, 0x00, 0x00],
    [0xAA, 0x00, 0xAA],
    [0xAA, 0x55, 0x00],
    [0xAA, 0xAA, 0xAA],
    [0x55, 0x55, 0x55],
    [0x55, 0x55, 0xFF],
    [0x55, 0xFF, 0x55],
    [0x55, 0xFF, 0xFF],
    [0xFF, 0x55, 0x55],
    [0xFF, 0x55, 0xFF],
    [0xFF, 0xFF, 0x55],
    [0xFF, 0xFF, 0xFF],
];

/// Adds a dot of a colour.
fn put_dot(picture: &mut Vec<u8>, colour: u8) -> Result<(), AllocError>
    ensures { OnOk result (vec_len picture.new ≡ vec_len picture.old + 3) }
{
    let parts = PALETTE[usize::from(colour % 16)];
    picture.extend_from_slice(&parts)
}

/// Adds a line of a character, its left dot highest.
fn put_dots(picture: &mut Vec<u8>, dots: u8, colours: Colours) -> Result<(), AllocError>
    ensures { OnOk result (vec_len picture.new ≡ vec_len picture.old + 24) }
{
    let mut rest = dots;
    for _dot in 0..8usize {
        let colour = if rest >= 0x80 {
            colours.front
        } else {
            colours.back
        };
        put_dot(picture, colour)?;
        rest = rest.wrapping_mul(2);
    }
    Ok(())
}

/// A page of the screen, and its bytes.
#[derive(Clone, Copy)]
struct ScreenPage<'b> {
    page: Page,
    bytes: &'b [u8],
}

/// Adds a line of dots of a row.
fn put_line(
    picture: &mut Vec<u8>,
    screen: ScreenPage<'_>,
    row: usize,
    line: usize,
) -> Result<(), AllocError>
    ensures { OnOk result (vec_len picture.new ≡ vec_len picture.old + 1920) }
{
    for column in 0..COLUMNS {
        let (character, attribute) = place_at(screen.bytes, row, column);
        put_dots(
            picture,
            dots(character, line),
            Colours::of(screen.page, attribute),
        )?;
    }
    Ok(())
}

/// Adds a row of characters.
fn put_row(picture: &mut Vec<u8>, screen: ScreenPage<'_>, row: usize) -> Result<(), AllocError>
    ensures { OnOk result (vec_len picture.new ≡ vec_len picture.old + 30720) }
{
    for line in 0..16 {
        put_line(picture, screen, row, line)?;
    }
    Ok(())
}

/// Adds a page.
fn put_page(picture: &mut Vec<u8>, screen: ScreenPage<'_>) -> Result<(), AllocError>
    ensures { OnOk result (vec_len picture.new ≡ vec_len picture.old + 768000) }
{
    for row in 0..ROWS {
        put_row(picture, screen, row)?;
    }
    Ok(())
}

fn screen_page(board: &Board, page: Page) -> ScreenPage<'_> {
    ScreenPage {
        page,
        bytes: board.page(page),
    }
}

/// A picture of both pages of the screen, the colour page above the monochrome one: a portable pixmap of 640 by 800 dots. Want of memory is its
/// one error.
pub fn picture_of(alloc: Global, board: &Board) -> Result<Vec<u8>, AllocError>
    ensures { IfOk result (λ p. length p.items ≡ 15 + 3 * 640 * 800) }
{
    let mut picture = Vec::from_slice(alloc, HEAD)?;
    put_page(&mut picture, screen_page(board, Page::Colour))?;
    put_page(&mut picture, screen_page(board, Page::Monochrome))?;
    Ok(picture)
}
