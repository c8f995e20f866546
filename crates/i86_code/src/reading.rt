//! Reading a form from the front of bytes.

ghost use Rattle.std.specs.Prelude.{◌≡◌, ◌<◌, option_map, true, List, ℕ};
ghost use Rattle.i86_code.specs.Reading.{base_at, byte_at, word_at, place_at, test_then, fields_at, segment_at, prefixes_at, form_at};
ghost use Rattle.i86_code.specs.Inner.Reading.{is_addressed};

use crate::form::{FieldKind, Fields, Form, Opcode, Prefixes, RegisterOrMemory};
use byteorder::{ByteOrder, LittleEndian};
use i86_table::{Base, Segment};
use word86::Width;

/// The base registers of the r/m field 0 to 7 (8086 Family User's Manual, table 4-10).
fn base(code: u8) -> Base
    ensures { result ≡ base_at code }
{
    match code {
        0 => Base::BxSi,
        1 => Base::BxDi,
        2 => Base::BpSi,
        3 => Base::BpDi,
        4 => Base::Si,
        5 => Base::Di,
        6 => Base::Bp,
        _ => Base::Bx,
    }
}

/// The segment that a prefix byte names: 26H ES, 2EH CS, 36H SS, 3EH DS.
fn segment(prefix: u8) -> Option<Segment>
    ensures { result ≡ segment_at prefix }
{
    match prefix {
        0x26 => Some(Segment::Es),
        0x2E => Some(Segment::Cs),
        0x36 => Some(Segment::Ss),
        0x3E => Some(Segment::Ds),
        _ => None,
    }
}

/// The prefixes at the front of the bytes, at most one segment and one F3H in either order, and what follows them.
#[tactic(auto, unfolding(crate::specs::Reading::prefixes_at))]
fn prefixes(bytes: &[u8]) -> (Prefixes, &[u8])
    ensures { (result.0, result.1.now) ≡ prefixes_at bytes.now }
{
    let [first, rest @ ..] = bytes else {
        return (Prefixes::Nothing, bytes);
    };
    if *first == 0xF3 {
        let [second, after @ ..] = rest else {
            return (Prefixes::Repeat, rest);
        };
        return match segment(*second) {
            Some(segment) => (Prefixes::RepeatOverride(segment), after),
            None => (Prefixes::Repeat, rest),
        };
    }
    let Some(segment) = segment(*first) else {
        return (Prefixes::Nothing, bytes);
    };
    match rest {
        [0xF3, after @ ..] => (Prefixes::OverrideRepeat(segment), after),
        _ => (Prefixes::Override(segment), rest),
    }
}

/// A word, its low byte first, and what follows it.
fn word(bytes: &[u8]) -> Option<(u16, &[u8])>
    ensures { option_map (λ x. (x.0, x.1.now)) result ≡ word_at bytes.now }
{
    match bytes {
        [_, _, rest @ ..] => Some((LittleEndian::read_u16(bytes), rest)),
        _ => None,
    }
}

/// An address byte with its displacement: the register field, the register or memory place, and what follows (8086 Family User's
/// Manual, tables 4-8 and 4-10).
#[tactic(auto, unfolding(crate::specs::Reading::place_at))]
fn place(bytes: &[u8]) -> Option<(u8, RegisterOrMemory, &[u8])>
    ensures { option_map (λ x. (x.0, x.1, x.2.now)) result ≡ place_at bytes.now }
{
    let [first, rest @ ..] = bytes else {
        return None;
    };
    let register = first / 8 % 8;
    let code = first % 8;
    match first / 64 {
        0 if code == 6 => {
            let (offset, rest) = word(rest)?;
            Some((register, RegisterOrMemory::Direct(offset), rest))
        }
        0 => Some((register, RegisterOrMemory::Indirect(base(code)), rest)),
        1 => {
            let (displacement, rest) = byte(rest)?;
            Some((
                register,
                RegisterOrMemory::Near(base(code), displacement),
                rest,
            ))
        }
        2 => {
            let (displacement, rest) = word(rest)?;
            Some((
                register,
                RegisterOrMemory::Far(base(code), displacement),
                rest,
            ))
        }
        _ => Some((register, RegisterOrMemory::Register(code), rest)),
    }
}

/// A byte, and what follows it.
fn byte(bytes: &[u8]) -> Option<(u8, &[u8])>
    ensures { option_map (λ x. (x.0, x.1.now)) result ≡ byte_at bytes.now }
{
    match bytes {
        [number, rest @ ..] => Some((*number, rest)),
        _ => None,
    }
}

/// The place of TEST and its number.
fn test(width: Width, place: RegisterOrMemory, bytes: &[u8]) -> Option<(Fields, &[u8])>
    ensures { option_map (λ x. (x.0, x.1.now)) result ≡ test_then width place bytes.now }
{
    match width {
        Width::Byte => {
            let (number, rest) = byte(bytes)?;
            Some((Fields::TestByte(place, number), rest))
        }
        Width::Word => {
            let (number, rest) = word(bytes)?;
            Some((Fields::TestWord(place, number), rest))
        }
    }
}

/// The fields that begin with an address byte.
#[tactic(auto, unfolding(crate::specs::Reading::fields_at))]
fn addressed_fields(kind: FieldKind, bytes: &[u8]) -> Option<(Fields, &[u8])>
    requires { is_addressed kind ≡ true }
    ensures { option_map (λ x. (x.0, x.1.now)) result ≡ fields_at kind bytes.now }
{
    let (register, place, rest) = place(bytes)?;
    match kind {
        FieldKind::AddressByte => {
            let (number, rest) = byte(rest)?;
            Some((Fields::AddressByte(register, place, number), rest))
        }
        FieldKind::AddressWord => {
            let (number, rest) = word(rest)?;
            Some((Fields::AddressWord(register, place, number), rest))
        }
        FieldKind::Group(width) if register == 0 => test(width, place, rest),
        FieldKind::Group(width) => Some((Fields::Unary(width, register, place), rest)),
        _ => Some((Fields::Address(register, place), rest)),
    }
}

/// The fields of a kind at the front of the bytes, and what follows them.
#[tactic(auto, unfolding(crate::specs::Reading::fields_at))]
fn fields(kind: FieldKind, bytes: &[u8]) -> Option<(Fields, &[u8])>
    ensures { option_map (λ x. (x.0, x.1.now)) result ≡ fields_at kind bytes.now }
{
    match kind {
        FieldKind::Nothing => Some((Fields::Nothing, bytes)),
        FieldKind::Byte => {
            let (number, rest) = byte(bytes)?;
            Some((Fields::Byte(number), rest))
        }
        FieldKind::Word => {
            let (number, rest) = word(bytes)?;
            Some((Fields::Word(number), rest))
        }
        FieldKind::TwoWords => {
            let (first, rest) = word(bytes)?;
            let (second, rest) = word(rest)?;
            Some((Fields::TwoWords(first, second), rest))
        }
        _ => addressed_fields(kind, bytes),
    }
}

impl Form {
    /// The form at the front of the bytes, and what follows it.
    #[tactic(auto, unfolding(crate::specs::Reading::form_at))]
    pub fn read(bytes: &[u8]) -> Option<(Form, &[u8])>
        ensures { option_map (λ x. (x.0, x.1.now)) result ≡ form_at bytes.now }
    {
        let (prefixes, rest) = prefixes(bytes);
        let [first, rest @ ..] = rest else {
            return None;
        };
        let opcode = Opcode::at(*first)?;
        let (fields, rest) = fields(opcode.field_kind(), rest)?;
        Some((
            Form {
                prefixes,
                opcode,
                fields,
            },
            rest,
        ))
    }
}
