//! The ROM with what its free bytes are to hold: `build --pad`.
//!
//! Which bytes stay has the contract of `padded_rom`, and how many start-up takes that of `start_up_room`; that the ROM runs as without is shown
//! by `tests/forms`.

use crate::built::Built;
use crate::stop::Stop;
use crate::telling::Teller;
use board::address_of;
use layout_link::{StartUpRoom, start_up_room};
use listing_map::padded_rom;
use lower::lower;
use plm_type::Program;
use select::{Part, select};
use std::alloc::Global;
use word86::Fault;

/// The byte that two hexadecimal digits spell.
fn byte_of(text: &[u8]) -> Option<u8> {
    if text.len() != 2 {
        return None;
    }
    u8::try_from(address_of(text)?).ok()
}

/// The byte that free bytes are to hold, where one is given.
pub(crate) fn pad_given(alloc: Global, text: Option<&str>) -> Result<Option<u8>, Stop> {
    let Some(text) = text else {
        return Ok(None);
    };
    match byte_of(text.as_bytes()) {
        Some(byte) => Ok(Some(byte)),
        None => {
            let words = format!(in alloc;
                "error: BYTE is two hexadecimal digits, and not '{text}'\n"
            )?;
            Err(Stop::Words(words))
        }
    }
}

/// The bytes of the ROM that are taken: start-up, the parts, and the initial bytes behind them.
fn taken(parts: &[Part], start_up: StartUpRoom) -> usize {
    let mut taken = start_up.code.saturating_add(start_up.copied);
    for part in parts {
        taken = taken.saturating_add(part.bytes.len());
    }
    taken
}

/// The parts of a program's ROM.
fn parts_of(alloc: Global, program: &Program) -> Result<Vec<Part>, Fault> {
    let code = lower(alloc, program)?;
    let parts = select(alloc, &code);
    drop(code);
    parts
}

/// The ROM with this byte where it is free.
fn padded(alloc: Global, built: &Built, byte: u8) -> Result<Vec<u8>, Fault> {
    let parts = parts_of(alloc, &built.program)?;
    let start_up = start_up_room(alloc, &parts, built.program.names())?;
    Ok(padded_rom(alloc, &built.image.rom, taken(&parts, start_up), byte)?)
}

/// The ROM as it is written. Since the program was built, nothing but memory can be wanting; another fault would be told as what it is.
pub(crate) fn written_rom(
    teller: &Teller<'_, '_>,
    built: &Built,
    pad: Option<u8>,
) -> Result<Vec<u8>, Stop> {
    match pad {
        Some(byte) => teller.or_refusal(padded(teller.alloc, built, byte)),
        None => Ok(Vec::from_slice(teller.alloc, &built.image.rom)?),
    }
}
