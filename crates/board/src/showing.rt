//! What is shown of a board after its run: the text on both pages of the screen, the registers, and memory.
//!
//! Texts have no contract: `tests/turns` shows them. The bytes have those of `Board::page` and `Board::byte`.

use crate::board::Board;
use crate::words::hex_value;
use bitflags::Flags as _;
use i86_table::{Register16, Segment};
use std::alloc::{AllocError, Global};
use word86::{PAGE_SIZE, Page};

/// The rows of a page.
pub(crate) const ROWS: usize = 25;

/// The places of a row, each a character and the attribute behind it.
pub(crate) const COLUMNS: usize = PAGE_SIZE / (2 * ROWS);

/// A character of the screen as it is shown: those of ASCII, and none that is not printed.
pub(crate) fn shown(byte: u8) -> u8 {
    match byte {
        b' '..=b'~' => byte,
        0 | 0xFF => b' ',
        _ => b'?',
    }
}

/// A row without the blanks at its end.
fn without_blanks(row: &[u8]) -> &[u8] {
    let mut length: usize = 0;
    for (place, byte) in row.iter().enumerate() {
        if *byte != b' ' {
            length = place.saturating_add(1);
        }
    }
    &row[..length.min(row.len())]
}

/// The characters of a row's places, each of which has an attribute behind it.
fn characters(alloc: Global, places: &[u8]) -> Result<Vec<u8>, AllocError> {
    let mut row = Vec::new(alloc);
    for (place, byte) in places.iter().enumerate() {
        if place % 2 == 0 {
            row.push(shown(*byte))?;
        }
    }
    Ok(row)
}

/// Adds the rows of a page behind its name.
fn put_page(alloc: Global, text: &mut Vec<u8>, name: &[u8], page: &[u8]) -> Result<(), AllocError> {
    text.extend_from_slice(name)?;
    let mut rest = page;
    for _row in 0..ROWS {
        let (places, after) = rest.split_at(rest.len().min(2 * COLUMNS));
        let row = characters(alloc, places)?;
        text.extend_from_slice(without_blanks(&row))?;
        text.push(b'\n')?;
        rest = after;
    }
    Ok(())
}

/// Adds the text on both pages of the screen: their names, and their 25 rows. Want of memory is its one error.
pub fn put_screen(alloc: Global, text: &mut Vec<u8>, board: &Board) -> Result<(), AllocError> {
    put_page(alloc, text, b"SCREEN\n", board.page(Page::Colour))?;
    put_page(alloc, text, b"MONO\n", board.page(Page::Monochrome))
}

/// Adds the registers, by their names and in hexadecimal. Want of memory is its one error.
pub fn put_registers(alloc: Global, text: &mut Vec<u8>, board: &Board) -> Result<(), AllocError> {
    let registers = board.registers();
    let (ax, bx) = (
        registers.word(Register16::Ax),
        registers.word(Register16::Bx),
    );
    let (cx, dx) = (
        registers.word(Register16::Cx),
        registers.word(Register16::Dx),
    );
    let (sp, bp) = (
        registers.word(Register16::Sp),
        registers.word(Register16::Bp),
    );
    let (si, di) = (
        registers.word(Register16::Si),
        registers.word(Register16::Di),
    );
    let (cs, ss) = (
        registers.segment(Segment::Cs),
        registers.segment(Segment::Ss),
    );
    let (ds, es) = (
        registers.segment(Segment::Ds),
        registers.segment(Segment::Es),
    );
    let (ip, flags) = (registers.ip(), registers.flags().bits());
    let words = format!(in alloc;
        "AX={ax:04X} BX={bx:04X} CX={cx:04X} DX={dx:04X} SP={sp:04X} BP={bp:04X} SI={si:04X} DI={di:04X}\n"
    )?;
    let others = format!(in alloc;
        "CS={cs:04X} IP={ip:04X} SS={ss:04X} DS={ds:04X} ES={es:04X} FLAGS={flags:04X}\n"
    )?;
    text.extend_from_slice(words.as_str().as_bytes())?;
    text.extend_from_slice(others.as_str().as_bytes())
}

/// The addresses from one through another.
#[derive(Clone, Copy)]
pub struct Addresses {
    from: u32,
    to: u32,
}

/// The physical address that one to five hexadecimal digits spell; none of another text.
pub fn address_of(text: &[u8]) -> Option<u32> {
    if text.is_empty() || text.len() > 5 {
        return None;
    }
    let mut address: u32 = 0;
    for byte in text {
        let digit = hex_value(*byte)?;
        address = address.wrapping_mul(16).wrapping_add(u32::from(digit));
    }
    Some(address)
}

/// The place of the first comma.
fn comma(text: &[u8]) -> Option<usize> {
    for (place, byte) in text.iter().enumerate() {
        if *byte == b',' {
            return Some(place);
        }
    }
    None
}

/// The addresses that a text spells, parted by a comma, the lower one first; none of another text.
pub fn addresses_of(text: &[u8]) -> Option<Addresses> {
    let place = comma(text)?;
    let (first, rest) = text.split_at(place.min(text.len()));
    let from = address_of(first)?;
    let to = address_of(rest.split_first()?.1)?;
    (from <= to).then_some(Addresses { from, to })
}

/// Adds a byte of memory: each 16 begin a line with their address.
fn put_byte(
    alloc: Global,
    text: &mut Vec<u8>,
    is_first: bool,
    address: u32,
    byte: u8,
) -> Result<(), AllocError> {
    if is_first || address % 16 == 0 {
        let begin = format!(in alloc; "{address:05X} ")?;
        text.extend_from_slice(begin.as_str().as_bytes())?;
    }
    let digits = format!(in alloc; " {byte:02X}")?;
    text.extend_from_slice(digits.as_str().as_bytes())?;
    if address % 16 == 15 {
        text.push(b'\n')?;
    }
    Ok(())
}

/// Adds the bytes at these addresses, those of 16 on a line. Want of memory is its one error.
pub fn put_dump(
    alloc: Global,
    text: &mut Vec<u8>,
    board: &Board,
    addresses: Addresses,
) -> Result<(), AllocError> {
    for address in addresses.from..=addresses.to {
        put_byte(
            alloc,
            text,
            address == addresses.from,
            address,
            board.byte(address),
        )?;
    }
    if addresses.to % 16 != 15 {
        text.push(b'\n')?;
    }
    Ok(())
}
