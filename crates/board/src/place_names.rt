//! Names that stand behind the lines of a run: those of a map, of ports that its user adds, and of the board's own ports.

use crate::showing::address_of;
use itoa::Buffer;
use std::alloc::{AllocError, Global};
use word86::Label;

/// What a name is of.
#[derive(Clone, Copy, PartialEq, Eq)]
enum Sort {
    Colour,
    Monochrome,
    Handler,
    Port,
}

/// A name, what it is of, and the places that it takes there.
#[derive(Clone, Copy)]
pub struct PlaceName<'a> {
    sort: Sort,
    first: u16,
    size: u16,
    name: &'a [u8],
    /// Whether all bytes of the name are shown as they are.
    is_printed: bool,
}

/// The ports of the board's chips.
const PORTS: &[(u16, &[u8])] = &[
    (0x20, b"8259A.0"),
    (0x21, b"8259A.1"),
    (0x40, b"8253.0"),
    (0x41, b"8253.1"),
    (0x42, b"8253.2"),
    (0x43, b"8253.CONTROL"),
    (0x60, b"8255A.A"),
    (0x61, b"8255A.B"),
    (0x62, b"8255A.C"),
    (0x63, b"8255A.CONTROL"),
];

/// The number below 65,536 that hexadecimal digits spell.
fn number(text: &[u8]) -> Option<u16> {
    u16::try_from(address_of(text)?).ok()
}

/// A byte of a name as it is shown: a character of ASCII that is printed, or a question mark.
fn printed(byte: u8) -> u8 {
    match byte {
        b' '..=b'~' => byte,
        _ => b'?',
    }
}

/// The words of a line, parted by blanks.
fn words<'a>(alloc: Global, line: &'a [u8]) -> Result<Vec<&'a [u8]>, AllocError> {
    let mut words: Vec<&'a [u8]> = Vec::new(alloc);
    for word in line.split(|byte| *byte == b' ' || *byte == b'\r') {
        if !word.is_empty() {
            words.push(word)?;
        }
    }
    Ok(words)
}

fn placed<'a>(sort: Sort, first: &[u8], size: u16, name: &'a [u8]) -> Option<PlaceName<'a>> {
    Some(PlaceName {
        sort,
        first: number(first)?,
        size,
        name,
        is_printed: name.iter().all(|byte| printed(*byte) == *byte),
    })
}

/// The name that a line of a map gives, if it gives one that a run can show.
fn name_in<'a>(words: &[&'a [u8]]) -> Option<PlaceName<'a>> {
    match words {
        [b"SCREEN", first, size, name] => placed(Sort::Colour, first, number(size)?, name),
        [b"MONO", first, size, name] => placed(Sort::Monochrome, first, number(size)?, name),
        [b"HANDLER", vector, name] => placed(Sort::Handler, vector, 1, name),
        [b"PORT", port, name] => placed(Sort::Port, port, 1, name),
        _ => None,
    }
}

/// The names of a map that a run can show: those on the screen and those of interrupt procedures; and ports, by lines `PORT pppp name` that
/// its user puts into it. Other lines say nothing here. Want of memory is its one error.
pub fn read_names<'a>(alloc: Global, map: &'a [u8]) -> Result<Vec<PlaceName<'a>>, AllocError> {
    let mut names = Vec::new(alloc);
    for line in map.split(|byte| *byte == b'\n') {
        if let Some(name) = name_in(&words(alloc, line)?) {
            names.push(name)?;
        }
    }
    Ok(names)
}

/// What a label is of, and where.
fn place_of(label: &Label) -> Option<(Sort, u16)> {
    match label {
        Label::In(port, _) | Label::InW(port, _) | Label::Out(port, _) | Label::OutW(port, _) => {
            Some((Sort::Port, *port))
        }
        Label::Scr(offset, _) | Label::ScrW(offset, _) => Some((Sort::Colour, *offset)),
        Label::Mono(offset, _) | Label::MonoW(offset, _) => Some((Sort::Monochrome, *offset)),
        Label::Ack(vector) => Some((Sort::Handler, u16::from(*vector))),
        Label::Tick(_) | Label::Key(_) => None,
    }
}

/// The first name of a place, and how far behind the name's first byte it is.
fn name_at<'n, 'a>(
    names: &'n [PlaceName<'a>],
    sort: Sort,
    place: u16,
) -> Option<(&'n PlaceName<'a>, u16)> {
    for name in names {
        let distance = place.wrapping_sub(name.first);
        if name.sort == sort && place >= name.first && distance < name.size {
            return Some((name, distance));
        }
    }
    None
}

/// The name of a port of the board.
fn own_port(port: u16) -> Option<&'static [u8]> {
    for (own, name) in PORTS {
        if *own == port {
            return Some(*name);
        }
    }
    None
}

/// Adds a name as it is shown.
fn put_printed(text: &mut Vec<u8>, name: &[u8]) -> Result<(), AllocError> {
    for byte in name {
        text.push(printed(*byte))?;
    }
    Ok(())
}

/// Adds a name behind a blank.
fn put_name(text: &mut Vec<u8>, name: &PlaceName<'_>) -> Result<(), AllocError> {
    text.push(b' ')?;
    if name.is_printed {
        return text.extend_from_slice(name.name);
    }
    put_printed(text, name.name)
}

/// Adds the name of a port of the board behind a blank, if it is one.
fn put_own_port(text: &mut Vec<u8>, port: u16) -> Result<(), AllocError> {
    let Some(name) = own_port(port) else {
        return Ok(());
    };
    text.push(b' ')?;
    text.extend_from_slice(name)
}

/// Adds how far behind a name's first byte a place is, where it is another one.
fn put_distance(text: &mut Vec<u8>, distance: u16) -> Result<(), AllocError> {
    if distance == 0 {
        return Ok(());
    }
    let mut buffer = Buffer::new();
    text.push(b'+')?;
    text.extend_from_slice(buffer.format(distance).as_bytes())
}

/// Adds the name of what a label is of, behind a blank, if it has one. Bytes of a name that are not printed show as `?`.
pub(crate) fn put_place_name(
    text: &mut Vec<u8>,
    names: &[PlaceName<'_>],
    label: &Label,
) -> Result<(), AllocError> {
    let Some((sort, place)) = place_of(label) else {
        return Ok(());
    };
    if let Some((name, distance)) = name_at(names, sort, place) {
        put_name(text, name)?;
        return put_distance(text, distance);
    }
    match sort {
        Sort::Port => put_own_port(text, place),
        Sort::Colour | Sort::Monochrome | Sort::Handler => Ok(()),
    }
}
