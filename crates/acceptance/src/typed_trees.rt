//! Small texts: what they are typed as.

use crate::expect::each;
use crate::sources::{program_of, seen};
use plm_type::{
    Anchor, Counting, Expression, Operation, Place, Program, Reference, Statement, Subscript,
    Target,
};
use std::alloc::Global;
use std::process::Abort;
use word86::{BinaryOperation, Width};

/// Main's only statement.
fn only(program: &Program) -> Option<&Statement> {
    match program.main() {
        [statement] => Some(statement.as_ref()),
        _ => None,
    }
}

/// What an assignment stores to, its other targets, and its value.
fn assignment(statement: &Statement) -> Option<(&Target, &[Target], &Expression)> {
    match statement {
        Statement::Assign(target, others, value) => Some((target, others, value)),
        _ => None,
    }
}

/// A chain's first operand, and its operators.
fn chain(expression: &Expression) -> Option<(&Expression, &[Operation])> {
    match expression {
        Expression::Chain(first, operations) => Some((first.as_ref(), operations)),
        _ => None,
    }
}

fn is_constant(expression: &Expression, value: u16) -> bool {
    match expression {
        Expression::Constant(constant) => *constant == value,
        _ => false,
    }
}

fn is_plain(expression: &Expression, width: Width, place: Place) -> bool {
    match expression {
        Expression::Plain(found, at) => *found == width && *at == place,
        _ => false,
    }
}

fn is_byte_port(target: &Target, port: u16) -> bool {
    match target {
        Target::Port(Width::Byte, number) => is_constant(number, port),
        _ => false,
    }
}

/// The chain that main's only statement puts out at BYTE port 1, and at no other place.
fn sent_chain(program: &Program) -> Option<(&Expression, &[Operation])> {
    let (target, others, value) = assignment(only(program)?)?;
    if is_byte_port(target, 1) && others.is_empty() {
        chain(value)
    } else {
        None
    }
}

/// Whether the operators are three, an addition, one whose value is a WORD, and a comparison.
fn are_of_sum(operations: &[Operation]) -> bool {
    let [add, subtract, equal] = operations else {
        return false;
    };
    (add.operation, add.width) == (BinaryOperation::Add, Width::Word)
        && subtract.width == Width::Word
        && (equal.operation, equal.width) == (BinaryOperation::Equal, Width::Byte)
}

/// Whether main's only statement sends a chain that begins with the first object, and has these operators.
fn sends_sum(program: &Program) -> bool {
    let Some((first, operations)) = sent_chain(program) else {
        return false;
    };
    is_plain(first, Width::Byte, Place::Ram(0, 0)) && are_of_sum(operations)
}

/// The width of the first operator in the chain that main's only statement stores.
fn width_of_first(program: &Program) -> Option<Width> {
    let (_, _, value) = assignment(only(program)?)?;
    let (_, operations) = chain(value)?;
    Some(operations.first()?.width)
}

#[test]
fn trees_show_widths(rt: HostRuntime) {
    let alloc = rt.alloc();
    const ROWS: &[(&[u8], Option<Width>)] = &[
        (
            b"M: DO; DECLARE (A, B) BYTE; A = A + B; END M;",
            Some(Width::Byte),
        ),
        (
            b"M: DO; DECLARE (A, B) BYTE; A = A * B; END M;",
            Some(Width::Word),
        ),
        (
            b"M: DO; DECLARE (A, B) BYTE; A = A / B; END M;",
            Some(Width::Byte),
        ),
        (
            b"M: DO; DECLARE (A, B) BYTE; A = A MOD 256; END M;",
            Some(Width::Word),
        ),
        (
            b"M: DO; DECLARE (A, B) WORD; A = A < B; END M;",
            Some(Width::Byte),
        ),
        (
            b"M: DO; DECLARE (A, B) BYTE; A = SHL(A, 256); END M;",
            Some(Width::Byte),
        ),
        (
            b"M: DO; DECLARE (A, B) WORD; A = ROR(A, 1); END M;",
            Some(Width::Word),
        ),
        (
            b"M: DO; DECLARE A (256) BYTE, W WORD; W = LENGTH(A) + 1; END M;",
            Some(Width::Word),
        ),
        (
            b"M: DO; DECLARE A (256) BYTE, W WORD; W = LAST(A) + 1; END M;",
            Some(Width::Byte),
        ),
    ];
    each(&rt, ROWS, |(text, wanted)| {
        seen(program_of(alloc, &[*text]), width_of_first) == Ok(*wanted)
    });
}

/// The operators of the chain that main's only statement stores, as far as there are two.
fn first_two(program: &Program) -> Option<[(BinaryOperation, Width); 2]> {
    let (_, _, value) = assignment(only(program)?)?;
    match chain(value)? {
        (_, [first, second, ..]) => Some([
            (first.operation, first.width),
            (second.operation, second.width),
        ]),
        _ => None,
    }
}

// a number expression is INTEGER throughout where one is wanted: its divisions and relations are those of words with sign
#[test]
fn trees_are_turned_integer(rt: HostRuntime) {
    let alloc = rt.alloc();
    const ROWS: &[(&[u8], [(BinaryOperation, Width); 2])] = &[
        (
            b"M: DO; DECLARE I INTEGER; I = 7 / 2 * 3; END M;",
            [
                (BinaryOperation::DivideSigned, Width::Word),
                (BinaryOperation::Multiply, Width::Word),
            ],
        ),
        (
            b"M: DO; DECLARE W WORD; W = 7 / 2 * 3; END M;",
            [
                (BinaryOperation::Divide, Width::Byte),
                (BinaryOperation::Multiply, Width::Word),
            ],
        ),
        (
            b"M: DO; DECLARE I INTEGER; I = 250 + 10 + I; END M;",
            [
                (BinaryOperation::Add, Width::Word),
                (BinaryOperation::Add, Width::Word),
            ],
        ),
        (
            b"M: DO; DECLARE I INTEGER, B BYTE; B = I MOD 7 <= 3; END M;",
            [
                (BinaryOperation::ModuloSigned, Width::Word),
                (BinaryOperation::LessEqualSigned, Width::Byte),
            ],
        ),
        (
            b"M: DO; DECLARE I INTEGER, B BYTE; B = 1 - 2 > I; END M;",
            [
                (BinaryOperation::Subtract, Width::Word),
                (BinaryOperation::GreaterSigned, Width::Byte),
            ],
        ),
    ];
    each(&rt, ROWS, |(text, wanted)| {
        seen(program_of(alloc, &[*text]), first_two) == Ok(Some(*wanted))
    });
}

/// How main's only statement, a DO with an index, counts, and its step.
fn counting(program: &Program) -> Option<(Counting, bool)> {
    match only(program)? {
        Statement::Iterate(_, rounds) => {
            Some((rounds.counting, is_constant(&rounds.step, 0xFFFF)))
        }
        _ => None,
    }
}

// by a step of -1, which is 65,535 as a word
#[test]
fn trees_show_how_loops_count(rt: HostRuntime) {
    let alloc = rt.alloc();
    const ROWS: &[(&[u8], (Counting, bool))] = &[
        (
            b"M: DO; DECLARE I INTEGER; DO I = 3 TO 1 BY -1; END; END M;",
            (Counting::SignedDown, true),
        ),
        (
            b"M: DO; DECLARE I INTEGER; DO I = 1 TO 3 BY +1; END; END M;",
            (Counting::SignedUp, false),
        ),
        (
            b"M: DO; DECLARE I INTEGER; DO I = 1 TO 3; END; END M;",
            (Counting::SignedUp, false),
        ),
        (
            b"M: DO; DECLARE I INTEGER; DO I = 1 TO 3 BY -0; END; END M;",
            (Counting::SignedUp, false),
        ),
        (
            b"M: DO; DECLARE W WORD; DO W = 1 TO 3 BY 65535; END; END M;",
            (Counting::Up, true),
        ),
    ];
    each(&rt, ROWS, |(text, wanted)| {
        seen(program_of(alloc, &[*text]), counting) == Ok(Some(*wanted))
    });
}

/// What main's only statement copies: the BYTE variable that it stores, and the WORD variable that it reads.
fn copied(program: &Program) -> Option<(&Reference, &Reference)> {
    match assignment(only(program)?)? {
        (Target::Variable(Width::Byte, stored), _, Expression::Variable(Width::Word, read)) => {
            Some((stored, read))
        }
        _ => None,
    }
}

/// Whether the subscripts are of structures of five bytes and of words: a variable in the first object, and 1.
fn are_of_member(subscripts: &[Subscript]) -> bool {
    let [outer, inner] = subscripts else {
        return false;
    };
    (outer.stride, inner.stride) == (5, 2)
        && is_plain(&outer.index, Width::Word, Place::Ram(0, 0))
        && is_constant(&inner.index, 1)
}

/// Whether a member of a structure is copied to a based variable, whose name is on the third line.
fn copies_member(program: &Program) -> bool {
    let Some((stored, read)) = copied(program) else {
        return false;
    };
    stored.anchor == Anchor::Behind(Place::Ram(2, 0))
        && stored.line.line == 3
        && read.anchor == Anchor::InObject(1, 0, 15)
        && read.offset == 1
        && are_of_member(&read.subscripts)
}

/// Whether the procedures for vectors 7, 8 and 255 have none, two and one statement, and there are two procedures, and names of them.
fn has_two_handlers(program: &Program) -> bool {
    [
        program.handler(7).len(),
        program.handler(8).len(),
        program.handler(255).len(),
        program.procedures().len(),
        program.names().procedures.len(),
    ] == [0, 2, 1, 2, 2]
}

/// Whether the procedures 2 and 3 serve the vectors 0 and 8, and no other one serves 0, 8 or 255.
fn two_serve(program: &Program) -> bool {
    let procedures = &program.names().procedures;
    [
        program.handler_number(0),
        program.handler_number(8),
        program.handler_number(255),
    ] == [Some(2), Some(3), None]
        && procedures[0].vector() == None
        && procedures[1].vector() == None
        && procedures[2].vector() == Some(0)
        && procedures[3].vector() == Some(8)
}

/// Whether the procedures are in this order.
fn is_ordered(program: &Program) -> bool {
    program.order() == [1, 3, 2, 0].as_slice()
}

/// Whether this is so of the program with these modules.
fn holds_of<F: FnOnce(&Program) -> bool>(alloc: Global, texts: &[&[u8]], look: F) -> bool
    requires { F.IsAlwaysCallable look }
{
    seen(program_of(alloc, texts), look) == Ok(true)
}

const SUM: &[u8] = b"M: DO; DECLARE B BYTE, W WORD; OUTPUT(1) = B + B * 2 - W = 3; END M;";

const MEMBER: &[u8] =
    b"M: DO; DECLARE X WORD, S(3) STRUCTURE (A BYTE, B(2) WORD), P WORD, V BASED P BYTE;\n\nV = S(X).B(1); END M;";

const HANDLERS: &[u8] =
    b"M: DO; H: PROCEDURE INTERRUPT 8; DISABLE; ; END H; K: PROCEDURE INTERRUPT 255; RETURN; END K; ; END M;";

// an EXTERNAL procedure serves no vector: its PUBLIC one does
const SERVES_EXTERNALLY: &[u8] =
    b"M: DO; P: PROCEDURE; END P; H: PROCEDURE INTERRUPT 8 EXTERNAL; END H; K: PROCEDURE INTERRUPT 0; END K; ; END M;";

const SERVES: &[u8] = b"N: DO; H: PROCEDURE INTERRUPT 8 PUBLIC; END H; END N;";

// A, B, C, D in order of declaration: A calls C, C calls B and D, D calls B.
const FOUR_CALLS: &[u8] =
    b"M: DO; A: PROCEDURE; B: PROCEDURE; END B; C: PROCEDURE; D: PROCEDURE; CALL B; END D; CALL B; CALL D; END C; CALL C; END A; ; END M;";

#[test]
fn trees_of_programs(rt: HostRuntime) {
    let alloc = rt.alloc();
    assert!(rt; holds_of(alloc, &[SUM], sends_sum));
    assert!(rt; holds_of(alloc, &[MEMBER], copies_member));
    assert!(rt; holds_of(alloc, &[HANDLERS], has_two_handlers));
    assert!(rt; holds_of(alloc, &[SERVES_EXTERNALLY, SERVES], two_serve));
    assert!(rt; holds_of(alloc, &[FOUR_CALLS], is_ordered));
}
