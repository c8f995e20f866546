//! The vectors, both ways.

mod text;
mod vectors;

use self::text::has_text;
use self::vectors::{READ, REFUSED, WRITTEN};
use arrayvec::ArrayVec;
use i86_code::{Form, decode, encode, instruction_fits, one_form, round_trip};
use i86_table::Instr;
use std::process::Abort;

/// The value of a hexadecimal digit.
fn digit(byte: u8) -> Option<u8> {
    match byte {
        b'0'..=b'9' => Some(byte - b'0'),
        b'A'..=b'F' => Some(byte - b'A' + 10),
        b'a'..=b'f' => Some(byte - b'a' + 10),
        _ => None,
    }
}

/// The bytes that pairs of hexadecimal digits write.
fn bytes_of(codes: &str) -> ArrayVec<u8, 8> {
    let mut bytes = ArrayVec::new();
    let mut high = None;
    for byte in codes.bytes() {
        let Some(digit) = digit(byte) else {
            continue;
        };
        match high {
            None => high = Some(digit),
            Some(value) => {
                let value: u8 = value;
                let _ = bytes.try_push(value.wrapping_mul(16).wrapping_add(digit));
                high = None;
            }
        }
    }
    bytes
}

/// Whether the bytes are read, whole, as an instruction of this text, and whether they are what is written for it.
fn is_read(bytes: &[u8], text: &str, is_written: bool) -> bool {
    let Some((instruction, length)) = decode(bytes) else {
        return false;
    };
    round_trip(instruction, bytes);
    length == bytes.len()
        && has_text(instruction, text)
        && (encode(&instruction).as_slice() == bytes) == is_written
}

/// The same for a line, of bytes and a text.
fn is_line(line: &str, is_written: bool) -> bool {
    match line.split_once(" | ") {
        Some((codes, text)) => is_read(bytes_of(codes).as_slice(), text, is_written),
        None => false,
    }
}

/// Each line has to hold.
fn each_line<F: Fn(&str) -> bool>(rt: &impl Abort, lines: &str, holds: F)
    requires { F.IsAlwaysCallable holds }
{
    for line in lines.lines() {
        assert!(rt; holds(line), "{line}");
    }
}

/// Each text's bytes are read so and written for it.
#[test]
fn written(rt: HostRuntime) {
    each_line(&rt, WRITTEN, |line| is_line(line, true));
    assert!(rt; WRITTEN.lines().count() > 200);
}

/// Longer and other spellings are read as the text too.
#[test]
fn read(rt: HostRuntime) {
    each_line(&rt, READ, |line| is_line(line, false));
}

#[test]
fn refused(rt: HostRuntime) {
    assert!(rt; decode(&[]).is_none());
    each_line(
        &rt,
        REFUSED,
        |line| decode(bytes_of(line).as_slice()).is_none(),
    );
}

/// Each other public call once.
#[test]
fn forms(rt: HostRuntime) {
    one_form();
    instruction_fits(Instr::Nop);
    let form = Form::of(Instr::Return);
    assert!(rt; matches!(form.instruction(), Some(Instr::Return)) && form.opcode.byte() == 0xC3);
}
