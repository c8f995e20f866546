//! The parts of a program's sections, and what instructions change; the bytes of code are rows of tests/bytes.txt.

use crate::sources::{code_of, seen, then};
use icode::{Code, Instruction, Registers, is_direct};
use select::{Part, select, select_section};
use std::alloc::Global;
use std::process::Abort;
use word86::{BinaryOperation, Fault, Width};

const CALLS: &[u8] =
    b"A: DO; DECLARE X BYTE EXTERNAL; P: PROCEDURE EXTERNAL; END P; CALL P; OUTPUT(300H) = X; END A;";

const PUTS_NINE: &[u8] = b"B: DO; DECLARE X BYTE PUBLIC; P: PROCEDURE PUBLIC; X = 9; END P; END B;";

const PUTS_EIGHT: &[u8] =
    b"B: DO; DECLARE X BYTE PUBLIC; P: PROCEDURE PUBLIC; X = 8; END P; END B;";

/// The parts of a section; none past the last.
fn section_of(alloc: Global, code: &Code, section: usize) -> Result<Vec<Part>, Fault> {
    if section < code.sections {
        select_section(alloc, code, section)
    } else {
        Ok(Vec::new(alloc))
    }
}

/// The parts of a section of the program with these modules.
fn parts_of(alloc: Global, texts: &[&[u8]], section: usize) -> Result<Vec<Part>, Fault> {
    then(code_of(alloc, texts), |code| {
        section_of(alloc, code, section)
    })
}

fn is_same(one: &Part, other: &Part) -> bool {
    one.entry == other.entry
        && one.bytes.as_slice() == other.bytes.as_slice()
        && one.fixups.as_slice() == other.fixups.as_slice()
}

fn are_same(some: &[Part], others: &[Part]) -> bool {
    some.len() == others.len()
        && some
            .iter()
            .zip(others)
            .all(|(one, other)| is_same(one, other))
}

/// How many parts a section has, and whether they are the same where the second module's body is another.
fn kept(alloc: Global, section: usize) -> Result<(usize, bool), Fault> {
    then(parts_of(alloc, &[CALLS, PUTS_NINE], section), |nine| {
        seen(parts_of(alloc, &[CALLS, PUTS_EIGHT], section), |eight| {
            (nine.len(), are_same(nine, eight))
        })
    })
}

/// The parts of a module stay as they are where a body in another one is changed. The EXTERNAL procedure has a part in the module that
/// names it.
#[test]
fn sections_stand_alone(rt: HostRuntime) {
    let alloc = rt.alloc();
    assert!(rt; kept(alloc, 0) == Ok((2, true)) && kept(alloc, 1) == Ok((1, false)));
}

/// The parts of the program from one number up to another.
fn some_of(parts: &[Part], from: usize, to: usize) -> &[Part] {
    parts.get(from..to).unwrap_or(&[])
}

/// Whether the program's parts are those of the first section, two, then that of the second, and one more.
fn are_in_order(alloc: Global, code: &Code) -> Result<bool, Fault> {
    then(select(alloc, code), |all| {
        let first = seen(section_of(alloc, code, 0), |parts| {
            are_same(parts, some_of(all, 0, 2))
        })?;
        let second = seen(section_of(alloc, code, 1), |parts| {
            are_same(parts, some_of(all, 2, 3))
        })?;
        Ok(first && second && all.len() == 4)
    })
}

/// The parts of the sections are those of the program, in its order; the part for vectors without a procedure is last.
#[test]
fn sections_are_in_order(rt: HostRuntime) {
    let alloc = rt.alloc();
    let texts: [&[u8]; 2] = [
        b"A: DO; H: PROCEDURE INTERRUPT 8; OUTPUT(0E0H) = 5; END H; K: PROCEDURE INTERRUPT 9; END K; END A;",
        b"B: DO; ; END B;",
    ];
    let ordered = then(code_of(alloc, &texts), |code| are_in_order(alloc, code));
    assert!(rt; ordered == Ok(true));
}

/// An interrupt procedure saves DX where it divides with sign, as CWD writes it, and CX where a relation is a value, as its sign bit is
/// turned.
#[test]
fn signed_operators_change_registers(rt: HostRuntime) {
    const DIVISION: Registers = Registers {
        accumulator: true,
        right: true,
        high: true,
        address: false,
        frame: false,
    };
    const RELATION: Registers = Registers {
        accumulator: true,
        right: true,
        high: false,
        address: false,
        frame: false,
    };
    let divide = BinaryOperation::DivideSigned;
    let modulo = BinaryOperation::ModuloSigned;
    assert!(rt;
        Instruction::BinaryConstant(divide, Width::Word, 3).changes() == DIVISION
            && Instruction::BinaryConstant(modulo, Width::Word, 3).changes() == DIVISION
    );
    assert!(rt;
        Instruction::Binary(BinaryOperation::LessSigned, Width::Word).changes() == RELATION
            && !is_direct(divide)
            && !is_direct(modulo)
    );
}
