//! What no clause says: that calls succeed, and values from the language manual's own examples.

use crate::expect::each;
use std::alloc::{AllocError, Global};
use std::process::Abort;
use word86::{
    BinaryOperation, CutSink, Event, Fault, Label, Number, PAGE_SIZE, PowerOn, RAM_SIZE, SinkFault,
    Width, WriterSink, add8, add16, div16, idiv16, mul16, put_all, put_word, rol, ror, shl, shr,
    signed16, sub16, unsigned16, word_at,
};

// Operators of words with sign: -7 is 0FFF9H, -3 is 0FFFDH, -2 is 0FFFEH, -1 is 0FFFFH, -32,768 is 8000H.
const SIGNED: &[(BinaryOperation, u16, u16, Option<u16>)] = &[
    (BinaryOperation::DivideSigned, 0xFFF9, 2, Some(0xFFFD)),
    (BinaryOperation::DivideSigned, 7, 0xFFFE, Some(0xFFFD)),
    (BinaryOperation::DivideSigned, 0xFFF9, 0xFFFE, Some(3)),
    (BinaryOperation::DivideSigned, 0x8000, 1, Some(0x8000)),
    (BinaryOperation::DivideSigned, 0x8000, 0xFFFE, Some(0x4000)),
    (BinaryOperation::DivideSigned, 0x7FFF, 0xFFFF, Some(0x8001)),
    (BinaryOperation::DivideSigned, 0x8000, 0xFFFF, None),
    (BinaryOperation::DivideSigned, 5, 0, None),
    (BinaryOperation::ModuloSigned, 0xFFF9, 2, Some(0xFFFF)),
    (BinaryOperation::ModuloSigned, 7, 0xFFFE, Some(1)),
    (BinaryOperation::ModuloSigned, 0xFFF9, 0xFFFE, Some(0xFFFF)),
    (BinaryOperation::ModuloSigned, 0x8000, 0x8000, Some(0)),
    (BinaryOperation::ModuloSigned, 0x8000, 0xFFFF, None),
    (BinaryOperation::ModuloSigned, 0x8000, 0, None),
    (BinaryOperation::LessSigned, 0xFFFF, 1, Some(0xFF)),
    (BinaryOperation::LessSigned, 0x7FFF, 0x8000, Some(0)),
    (BinaryOperation::LessSigned, 0xFFFE, 0xFFFE, Some(0)),
    (BinaryOperation::LessEqualSigned, 0x8000, 0x7FFF, Some(0xFF)),
    (BinaryOperation::LessEqualSigned, 0xFFFB, 0xFFFB, Some(0xFF)),
    (BinaryOperation::LessEqualSigned, 0, 0xFFFF, Some(0)),
    (BinaryOperation::GreaterSigned, 0, 0xFFFF, Some(0xFF)),
    (BinaryOperation::GreaterSigned, 0xFFFF, 0, Some(0)),
    (BinaryOperation::GreaterSigned, 5, 5, Some(0)),
    (BinaryOperation::GreaterEqualSigned, 5, 5, Some(0xFF)),
    (
        BinaryOperation::GreaterEqualSigned,
        0x7FFF,
        0x8000,
        Some(0xFF),
    ),
    (BinaryOperation::GreaterEqualSigned, 0x8000, 0x7FFF, Some(0)),
];

#[test]
fn computes_with_sign(rt: HostRuntime) {
    each(&rt, SIGNED, |(operation, left, right, value)| {
        operation.value(Width::Word, *left, *right) == *value
    });
}

/// Words, and the numbers with sign that they are.
const NUMBERS: &[(u16, i16)] = &[
    (0, 0),
    (0x7FFF, 32767),
    (0x8000, -32768),
    (0xFFF9, -7),
    (0xFFFF, -1),
];

#[test]
fn reads_words_with_sign(rt: HostRuntime) {
    each(&rt, NUMBERS, |(word, number)| {
        signed16(*word) == *number && unsigned16(*number) == *word
    });
    // The remainder has the sign of the dividend.
    assert!(rt; idiv16(-7, 2) == (-3, -1) && idiv16(7, -2) == (-3, 1) && idiv16(-7, -2) == (3, -1));
    assert!(rt;
        idiv16(-32768, 1) == (-32768, 0)
            && idiv16(-32768, -2) == (16384, 0)
            && idiv16(32767, -1) == (-32767, 0)
    );
}

/// A value, and by how many places it is moved, and what comes of it.
type Moved = (Width, u16, u8, u16);

// PL/M-86 User's Guide, shift and rotate functions
const LEFT: &[Moved] = &[
    (Width::Byte, 1, 9, 0),
    (Width::Word, 1, 9, 0x200),
    (Width::Word, 0xFFFF, 255, 0),
];

const RIGHT: &[Moved] = &[
    (Width::Byte, 0x1F0, 4, 0xF),
    (Width::Word, 0x8000, 15, 1),
    (Width::Word, 0x8000, 16, 0),
];

const TURNED_LEFT: &[Moved] = &[(Width::Byte, 0x81, 1, 3), (Width::Word, 0x8001, 17, 3)];

const TURNED_RIGHT: &[Moved] = &[
    (Width::Byte, 0x81, 1, 0xC0),
    (Width::Word, 0x8001, 0, 0x8001),
    (Width::Byte, 0x12, 4, 0x21),
];

#[test]
fn shifts_and_turns(rt: HostRuntime) {
    each(
        &rt,
        LEFT,
        |(width, word, places, moved)| shl(*width, *word, *places) == *moved,
    );
    each(
        &rt,
        RIGHT,
        |(width, word, places, moved)| shr(*width, *word, *places) == *moved,
    );
    each(
        &rt,
        TURNED_LEFT,
        |(width, word, places, moved)| rol(*width, *word, *places) == *moved,
    );
    each(
        &rt,
        TURNED_RIGHT,
        |(width, word, places, moved)| ror(*width, *word, *places) == *moved,
    );
}

#[test]
fn wraps_to_the_width(rt: HostRuntime) {
    assert!(rt;
        [
            u16::from(add8(255, 1)),
            add16(0xFFFF, 2),
            sub16(0, 1),
            mul16(0x1234, 0x100)
        ] == [0, 1, 0xFFFF, 0x3400]
    );
    assert!(rt; div16(1000, 300) == (3, 100));
}

#[test]
fn puts_the_low_byte_first(rt: HostRuntime) {
    let mut bytes = [9, 9, 9, 9];
    put_word(&mut bytes, 1, 0x1234);
    assert!(rt; bytes == [9, 0x34, 0x12, 9] && word_at(&bytes, 1) == 0x1234);
}

/// Whether there are so many bytes, each 0A5H.
fn are_filled(part: &[u8], size: usize) -> bool {
    part.len() == size && part.iter().all(|byte| *byte == 0xA5)
}

fn is_filled(alloc: Global) -> Result<bool, Fault> {
    let memory = PowerOn::filled(alloc, 0xA5)?;
    let is_so = are_filled(memory.ram(), RAM_SIZE)
        && are_filled(memory.colour(), PAGE_SIZE)
        && are_filled(memory.monochrome(), PAGE_SIZE);
    let (ram, colour, monochrome) = memory.into_parts();
    let again = PowerOn::new(ram, colour, monochrome);
    Ok(is_so && are_filled(again.ram(), RAM_SIZE))
}

#[test]
fn fills_memory(rt: HostRuntime) {
    assert!(rt; is_filled(rt.alloc()) == Ok(true));
}

fn are_told(alloc: Global) -> Result<bool, AllocError> {
    let fault = Fault::At(1, 12, Number::E201);
    let memory = Fault::Memory;
    let told = format!(in alloc; "{fault}; {memory}")?;
    Ok(told.as_str() == "module 1, line 12: E201 syntax; out of memory")
}

#[test]
fn names_faults(rt: HostRuntime) {
    assert!(rt; are_told(rt.alloc()) == Ok(true));
    assert!(rt;
        Number::E308.text() == "E308 no main module or more than one"
            && Number::W1.text() == "W1 procedure shared with an interrupt procedure"
            && Number::E308.code() == 308
    );
}

fn takes_five_bytes(alloc: Global) -> Result<bool, AllocError> {
    let mut sink = CutSink::new(alloc, 5, 1)?;
    let put = (put_all(&mut sink, b"abc"), put_all(&mut sink, b"def"));
    Ok(
        put == (Ok(()), Err(SinkFault))
            && sink.bytes() == b"abcde".as_slice()
            && sink.failures() == 1,
    )
}

#[test]
fn takes_a_text_byte_by_byte(rt: HostRuntime) {
    assert!(rt; takes_five_bytes(rt.alloc()) == Ok(true));
}

#[test]
fn writes_through(rt: HostRuntime) {
    let mut sink = WriterSink::new(Vec::new(rt.alloc()));
    assert_eq!(rt; put_all(&mut sink, b"END 5\n"), Ok(()));
}

#[test]
fn shows_events(rt: HostRuntime) {
    assert!(rt; Event::Tick(65535).label() == Label::Tick(65535));
    assert!(rt; Event::Key(0x1E).label() == Label::Key(0x1E));
}
