//! Scalars that are compared where they lie, and constants that are stored at an index: the instructions of statements, whose bytes are
//! rows of tests/bytes.txt.

use crate::expect::each;
use crate::low_bytes::is_lowered;
use icode::{High, Instruction, LowByte, Relation, Right, Test};
use std::alloc::Global;
use std::process::Abort;
use word86::{BinaryOperation, Fault, Page, Place, Width};

const A: Place = Place::Ram(0, 0);

const B: Place = Place::Ram(1, 0);

const W: Place = Place::Ram(2, 0);

const I: Place = Place::Ram(3, 0);

const T: Place = Place::Ram(4, 0);

const U: Place = Place::Ram(5, 0);

const P: Place = Place::Ram(6, 0);

const S: Place = Place::Screen(Page::Colour, 2);

/// A module of one statement.
fn text_of(alloc: Global, statement: &[u8]) -> Result<Vec<u8>, Fault> {
    let mut text =
        b"M: DO; DECLARE (A, B) BYTE, W WORD, I INTEGER, T(4) BYTE, U(4) WORD, P WORD, X BASED P (4) BYTE, S BYTE AT (0B8002H); ".to_vec(
            alloc,
        )?;
    text.extend_from_slice(statement)?;
    text.extend_from_slice(b" END M;")?;
    Ok(text)
}

const GETS_ONE: Instruction = Instruction::Low(LowByte::Constant(1), High::Kept);

const GETS_FIVE: Instruction = Instruction::Low(LowByte::Constant(5), High::Kept);

const STORES: Instruction = Instruction::Store(Width::Byte, A);

const INDEX: Instruction = Instruction::Load(Width::Byte, B);

/// Statements and their instructions. A scalar is compared where it lies with a constant at its right: a byte with one below 256, a word
/// with any.
const STATEMENTS: &[(&[u8], &[Instruction])] = &[
    (
        b"IF B = 3 THEN A = 1;",
        &[
            Instruction::AheadUnless(Test::Named(Relation::Equal, Width::Byte, B, 3), 2),
            GETS_ONE,
            STORES,
        ],
    ),
    // No byte is above 300, but it is compared as a word.
    (
        b"IF B > 300 THEN A = 1;",
        &[
            INDEX,
            Instruction::AheadUnless(Test::Constant(Relation::Greater, 300), 2),
            GETS_ONE,
            STORES,
        ],
    ),
    (
        b"IF W <= 400 - 100 THEN A = 1;",
        &[
            Instruction::AheadUnless(Test::Named(Relation::LessEqual, Width::Word, W, 300), 2),
            GETS_ONE,
            STORES,
        ],
    ),
    (
        b"IF I < -2 THEN A = 1;",
        &[
            Instruction::AheadUnless(Test::Named(Relation::LessSigned, Width::Word, I, 65534), 2),
            GETS_ONE,
            STORES,
        ],
    ),
    (
        b"IF S = 3 THEN A = 1;",
        &[
            Instruction::AheadUnless(Test::Named(Relation::Equal, Width::Byte, S, 3), 2),
            GETS_ONE,
            STORES,
        ],
    ),
    (
        b"IF 3 = B THEN A = 1;",
        &[
            Instruction::Low(LowByte::Constant(3), High::Kept),
            Instruction::AheadUnless(Test::Low(Relation::Equal, Right::Plain(B)), 2),
            GETS_ONE,
            STORES,
        ],
    ),
    (
        b"IF B THEN A = 1;",
        &[
            Instruction::AheadUnless(Test::OddNamed(B), 2),
            GETS_ONE,
            STORES,
        ],
    ),
    (
        b"IF W THEN A = 1;",
        &[
            Instruction::Load(Width::Word, W),
            Instruction::AheadUnless(Test::Odd, 2),
            GETS_ONE,
            STORES,
        ],
    ),
    (
        b"DO B = 1 TO 3; END;",
        &[
            GETS_ONE,
            Instruction::Store(Width::Byte, B),
            Instruction::AheadUnless(Test::Named(Relation::LessEqual, Width::Byte, B, 3), 2),
            Instruction::Low(LowByte::Load(B), High::Kept),
            Instruction::Next(Width::Byte, B, 1, 3),
        ],
    ),
    (
        b"DO I = 1 TO 3; END;",
        &[
            Instruction::Constant(1),
            Instruction::Store(Width::Word, I),
            Instruction::AheadUnless(Test::Named(Relation::LessEqualSigned, Width::Word, I, 3), 4),
            Instruction::Load(Width::Word, I),
            Instruction::BinaryConstant(BinaryOperation::Add, Width::Word, 1),
            Instruction::Store(Width::Word, I),
            Instruction::BackUnless(Test::Constant(Relation::LessSigned, 32769), 5),
        ],
    ),
    (
        b"T(B) = 5;",
        &[INDEX, Instruction::StoreConstantAt(Width::Byte, T, 5)],
    ),
    (
        b"U(B) = 2 + 3;",
        &[
            INDEX,
            Instruction::BinaryConstant(BinaryOperation::Multiply, Width::Word, 2),
            Instruction::StoreConstantAt(Width::Word, U, 5),
        ],
    ),
    // The place is known.
    (
        b"T(2) = 5;",
        &[GETS_FIVE, Instruction::Store(Width::Byte, Place::Ram(4, 2))],
    ),
    // Behind a base, and with another target, the value is pushed.
    (
        b"X(B) = 5;",
        &[
            GETS_FIVE,
            Instruction::Push,
            INDEX,
            Instruction::BinaryPlain(BinaryOperation::Add, Width::Word, Width::Word, P),
            Instruction::StoreThere(Width::Byte),
        ],
    ),
    (
        b"A, T(B) = 5;",
        &[
            GETS_FIVE,
            STORES,
            Instruction::Push,
            INDEX,
            Instruction::StoreAt(Width::Byte, T),
        ],
    ),
];

/// Whether a statement has these instructions.
fn is_done_so(alloc: Global, statement: &[u8], wanted: &[Instruction]) -> bool {
    match text_of(alloc, statement) {
        Ok(text) => is_lowered(alloc, &text, wanted),
        Err(_) => false,
    }
}

#[test]
fn statements_are_done_in_place(rt: HostRuntime) {
    let alloc = rt.alloc();
    each(&rt, STATEMENTS, |(statement, wanted)| {
        is_done_so(alloc, statement, wanted)
    });
}
