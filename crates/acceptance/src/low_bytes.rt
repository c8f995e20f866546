//! What is lowered to instructions on low bytes; their bytes are rows of tests/bytes.txt.

use crate::expect::each;
use crate::sources::{code_of, seen};
use icode::{Code, Direct, High, Instruction, LowByte, Right, Routine};
use std::alloc::Global;
use std::process::Abort;
use word86::{BinaryOperation, Place, Width};

const A: Place = Place::Ram(0, 0);

const B: Place = Place::Ram(1, 0);

const C: Place = Place::Ram(2, 0);

const W: Place = Place::Ram(3, 0);

const STORES: Instruction = Instruction::Store(Width::Byte, A);

const READS_B: Instruction = Instruction::Low(LowByte::Load(B), High::Kept);

const READS_C: Instruction = Instruction::Low(LowByte::Load(C), High::Kept);

/// Main's code but for its last two instructions, which halt again and again.
fn body_is(code: &Code, wanted: &[Instruction]) -> bool {
    let main = code.instructions(Routine::Main);
    let end = [Instruction::Halt, Instruction::Back(2)];
    main.len() == wanted.len() + 2 && main.starts_with(wanted) && main.ends_with(&end)
}

/// Whether a text has these instructions.
pub(crate) fn is_lowered(alloc: Global, text: &[u8], wanted: &[Instruction]) -> bool {
    seen(code_of(alloc, &[text]), |code| body_is(code, wanted)) == Ok(true)
}

/// Statements with the BYTEs A, B, C and the WORD W. A target of a byte gets the low byte, and the high one is as it was. INC has one
/// byte, also where AX is a word. A word target beside it wants the whole value.
const ROWS: &[(&[u8], &[Instruction])] = &[
    (
        b"M: DO; DECLARE (A, B, C) BYTE, W WORD; A = 5; END M;",
        &[Instruction::Low(LowByte::Constant(5), High::Kept), STORES],
    ),
    (
        b"M: DO; DECLARE (A, B, C) BYTE, W WORD; A = B; END M;",
        &[READS_B, STORES],
    ),
    (
        b"M: DO; DECLARE (A, B, C) BYTE, W WORD; A = W; END M;",
        &[Instruction::Load(Width::Word, W), STORES],
    ),
    (
        b"M: DO; DECLARE (A, B, C) BYTE, W WORD; A = B + 1; END M;",
        &[
            READS_B,
            Instruction::BinaryConstant(BinaryOperation::Add, Width::Word, 1),
            STORES,
        ],
    ),
    (
        b"M: DO; DECLARE (A, B, C) BYTE, W WORD; A = B + 2; END M;",
        &[
            READS_B,
            Instruction::Low(
                LowByte::Operate(Direct::Add, Right::Constant(2)),
                High::Kept,
            ),
            STORES,
        ],
    ),
    (
        b"M: DO; DECLARE (A, B, C) BYTE, W WORD; A = B - C; END M;",
        &[
            READS_B,
            Instruction::Low(
                LowByte::Operate(Direct::Subtract, Right::Plain(C)),
                High::Kept,
            ),
            STORES,
        ],
    ),
    (
        b"M: DO; DECLARE (A, B, C) BYTE, W WORD; A = B AND W; END M;",
        &[
            READS_B,
            Instruction::BinaryPlain(BinaryOperation::And, Width::Word, Width::Word, W),
            STORES,
        ],
    ),
    (
        b"M: DO; DECLARE (A, B, C) BYTE, W WORD; A = B OR (C XOR 3); END M;",
        &[
            READS_B,
            Instruction::Push,
            READS_C,
            Instruction::Low(
                LowByte::Operate(Direct::ExclusiveOr, Right::Constant(3)),
                High::Kept,
            ),
            Instruction::Binary(BinaryOperation::Or, Width::Word),
            STORES,
        ],
    ),
    (
        b"M: DO; DECLARE (A, B, C) BYTE, W WORD; A, W = B; END M;",
        &[
            Instruction::Load(Width::Byte, B),
            STORES,
            Instruction::Store(Width::Word, W),
        ],
    ),
];

#[test]
fn targets_of_bytes(rt: HostRuntime) {
    let alloc = rt.alloc();
    each(&rt, ROWS, |(text, wanted)| is_lowered(alloc, text, wanted));
}
