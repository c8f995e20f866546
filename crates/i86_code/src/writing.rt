//! The bytes of a form.

ghost use Rattle.std.specs.Prelude.{◌≡◌, ◌+◌, ◌<◌, ◌≤◌, ◌++◌};
ghost use Rattle.arrayvec.specs.ArrayVec.{array_vec_len};
ghost use Rattle.i86_code.specs.Forms.{base_code, prefix_code, word_bytes, place_bytes, field_bytes, prefix_bytes, form_bytes, IsPlace, FieldsFit};

use crate::form::{Fields, Form, Prefixes, RegisterOrMemory};
use arrayvec::ArrayVec;
use i86_table::{Base, Segment};

/// The number of base registers in an r/m field (8086 Family User's Manual, table 4-10).
fn base_number(base: Base) -> u8
    ensures value { result ≡ base_code base }
    ensures fits { result < 8 }
{
    base as u8
}

/// The prefix byte of a segment.
fn prefix_byte(segment: Segment) -> u8
    ensures { result ≡ prefix_code segment }
{
    match segment {
        Segment::Es => 0x26,
        Segment::Cs => 0x2E,
        Segment::Ss => 0x36,
        Segment::Ds => 0x3E,
    }
}

type Bytes = ArrayVec<u8, 8>;

/// The low byte first.
fn push_word(out: &mut Bytes, number: u16)
    requires { array_vec_len out.old ≤ 6 }
    ensures items { out.new.items ≡ out.old.items ++ word_bytes number }
    ensures room { array_vec_len out.new ≡ array_vec_len out.old + 2 }
{
    out.push((number % 256) as u8);
    out.push((number / 256) as u8);
}

/// Appends an address byte with this register field, and its displacement.
fn push_place(out: &mut Bytes, register: u8, place: RegisterOrMemory)
    requires register { register < 8 }
    requires place { IsPlace place }
    requires room { array_vec_len out.old ≤ 5 }
    ensures items { out.new.items ≡ out.old.items ++ place_bytes register place }
    ensures room { array_vec_len out.new ≤ array_vec_len out.old + 3 }
{
    match place {
        RegisterOrMemory::Register(number) => out.push(192 + 8 * register + number),
        RegisterOrMemory::Indirect(base) => out.push(8 * register + base_number(base)),
        RegisterOrMemory::Direct(offset) => {
            out.push(8 * register + 6);
            push_word(out, offset);
        }
        RegisterOrMemory::Near(base, displacement) => {
            out.push(64 + 8 * register + base_number(base));
            out.push(displacement);
        }
        RegisterOrMemory::Far(base, displacement) => {
            out.push(128 + 8 * register + base_number(base));
            push_word(out, displacement);
        }
    }
}

/// Appends the fields that follow an opcode.
fn push_fields(out: &mut Bytes, fields: Fields)
    requires fits { FieldsFit fields }
    requires room { array_vec_len out.old ≤ 3 }
    ensures { out.new.items ≡ out.old.items ++ field_bytes fields }
{
    match fields {
        Fields::Nothing => {}
        Fields::Byte(number) => out.push(number),
        Fields::Word(number) => push_word(out, number),
        Fields::TwoWords(first, second) => {
            push_word(out, first);
            push_word(out, second);
        }
        Fields::Address(register, place) | Fields::Unary(_, register, place) => {
            push_place(out, register, place);
        }
        Fields::AddressByte(register, place, number) => {
            push_place(out, register, place);
            out.push(number);
        }
        Fields::AddressWord(register, place, number) => {
            push_place(out, register, place);
            push_word(out, number);
        }
        Fields::TestByte(place, number) => {
            push_place(out, 0, place);
            out.push(number);
        }
        Fields::TestWord(place, number) => {
            push_place(out, 0, place);
            push_word(out, number);
        }
    }
}

/// Appends the prefixes, in their order.
fn push_prefixes(out: &mut Bytes, prefixes: Prefixes)
    requires { array_vec_len out.old ≡ 0 }
    ensures items { out.new.items ≡ out.old.items ++ prefix_bytes prefixes }
    ensures room { array_vec_len out.new ≤ 2 }
{
    match prefixes {
        Prefixes::Nothing => {}
        Prefixes::Override(segment) => out.push(prefix_byte(segment)),
        Prefixes::Repeat => out.push(0xF3),
        Prefixes::OverrideRepeat(segment) => {
            out.push(prefix_byte(segment));
            out.push(0xF3);
        }
        Prefixes::RepeatOverride(segment) => {
            out.push(0xF3);
            out.push(prefix_byte(segment));
        }
    }
}

impl Form {
    /// The bytes of a form.
    pub fn bytes(&self) -> ArrayVec<u8, 8>
        requires { FieldsFit self.now.fields }
        ensures { result.items ≡ form_bytes self.now }
    {
        let mut out = ArrayVec::new();
        push_prefixes(&mut out, self.prefixes);
        out.push(self.opcode.byte());
        push_fields(&mut out, self.fields);
        out
    }
}
