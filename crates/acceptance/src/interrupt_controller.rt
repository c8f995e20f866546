//! Rows from the 8259A's data sheet, worked by hand; those of rotation are from its table of OCW2.

use crate::expect::each;
use pic8259::{Call, Reply, replay};
use std::alloc::{AllocError, Global};
use std::process::Abort;

/// What a hexadecimal digit stands for.
fn digit(character: u8) -> u8 {
    match character {
        b'0'..=b'9' => character.wrapping_sub(b'0'),
        b'A'..=b'F' => character.wrapping_sub(b'A').wrapping_add(10),
        _ => 0,
    }
}

/// A byte in two hexadecimal digits.
fn byte(high: u8, low: u8) -> u8 {
    digit(high).wrapping_mul(16).wrapping_add(digit(low))
}

/// A call by its word: `p3` or `p03` a rise of line 3, `w0:A0` a write of 0A0H at A0 = 0, `r0` a read there, `l` a look at INT, and `a`
/// an acknowledgement, which answers nothing while INT is down.
fn call_of(word: &[u8]) -> Option<Call> {
    match word {
        [b'a'] => Some(Call::Acknowledge),
        [b'l'] => Some(Call::Line),
        [b'p', level] => Some(Call::Pulse(digit(*level))),
        [b'p', high, low] => Some(Call::Pulse(byte(*high, *low))),
        [b'r', a0] => Some(Call::Read(digit(*a0))),
        [b'w', a0, b':', high, low] => Some(Call::Write(digit(*a0), byte(*high, *low))),
        _ => None,
    }
}

fn calls_of(alloc: Global, words: &str) -> Result<Vec<Call>, AllocError> {
    let mut calls = Vec::new(alloc);
    for word in words.as_bytes().split(|character| *character == b' ') {
        if let Some(call) = call_of(word) {
            calls.push(call)?;
        }
    }
    Ok(calls)
}

/// What the calls answer, in words: a byte or a vector by two digits, INT by `up` or `no`.
fn answers_of(alloc: Global, calls: &[Call]) -> Result<String, AllocError> {
    let mut replies = vec![in alloc; Reply::Nothing; calls.len()]?;
    replay(calls, &mut replies);
    let mut answers = String::new(alloc);
    for reply in replies.iter() {
        match reply {
            Reply::Nothing => {}
            Reply::Byte(byte) => answers.push_str(&format!(in alloc; "{byte:02X} ")?)?,
            Reply::Signal(true) => answers.push_str("up ")?,
            Reply::Signal(false) => answers.push_str("no ")?,
        }
    }
    Ok(answers)
}

/// Calls of a chip at reset, their answers, and why.
const ROWS: &[(&str, &str, &str)] = &[
    (
        "w0:13 w1:08 w1:01 p1 p0 a l w0:61 l w0:20 a w0:0B r0",
        "08 no no 09 02 ",
        "Two levels, one after the other: specific end, end of the highest, and the register in service.",
    ),
    (
        "w0:13 w1:08 w1:01 p4 a p6 l p2 a w0:0B r0 w0:20 r0 l w0:20 a",
        "0C no 0A 14 10 no 0E ",
        "Fully nested: a higher level interrupts a lower one in service, a lower one waits, and each end takes the highest.",
    ),
    (
        "w0:13 w1:08 w1:01 p5 a p3 a w0:65 w0:0B r0",
        "0D 0B 08 ",
        "A specific end takes its level alone, also one that is not the highest.",
    ),
    (
        "w0:13 w1:08 w1:01 p1 a p4 w0:0A w0:8B r0 w0:08 r0 w0:0B r0",
        "09 10 10 02 ",
        "OCW3 chooses the register only where bit 1 is 1 and bit 7 is 0: 8BH leaves the choice of 0AH, the requests.",
    ),
    (
        "w0:13 w1:08 w1:01 p0 a w0:0B w0:40 r0 p1 l w0:80 r0 p1 l w0:00 r0 p1 l w0:20 r0 a",
        "08 01 no 01 no 01 no 00 09 ",
        "Of OCW2's commands 010 does nothing; 100 and 000 set and clear a rotation that a plain end does not see.",
    ),
    (
        "w0:13 w1:08 w1:01 p8 r0 l p9 r0 l pFF r0 l",
        "00 no 00 no 00 no ",
        "There are eight request lines: a greater number does nothing.",
    ),
    (
        "w0:13 w1:08 w1:01 p1 a w1:01 p0 r1 r0 l w1:00 a",
        "09 01 01 no 08 ",
        "A mask holds a request back without dropping it, and reads back.",
    ),
    (
        "w0:13 w1:08 w1:03 p0 p7 w1:80 w0:0B w0:13 l r0 p3 r0 w1:40 w1:01 r1 a w0:0B r0",
        "no 00 08 00 43 08 ",
        "ICW1 clears requests, service and mask, and leaves 8086 mode; the vector's bits stay.",
    ),
    (
        "w0:11 w1:27 w1:FF w1:01 w1:0F p4 a r1 w0:12 w1:08 w1:00 p4 l",
        "24 0F no ",
        "With SNGL = 0 ICW3 is awaited and ignored; without ICW4 the chip stays out of 8086 mode.",
    ),
    (
        "w0:13 w1:08 w1:03 p0 p1 a a l",
        "08 09 no ",
        "Automatic end: nothing is in service, so a lower level follows at once.",
    ),
    (
        "w0:13 w1:08 w1:01 p9 a p1 l a r1",
        "up 09 00 ",
        "An acknowledgement while INT is down does nothing.",
    ),
    // levels rotate
    (
        "w0:13 w1:08 w1:01 p0 p1 p2 a w0:A0 p0 a l w0:20 a w0:20 a",
        "08 09 no 0A 08 ",
        "Level 0 is ended and lowest: the order is 1, 2, .. 0.",
    ),
    (
        "w0:13 w1:08 w1:01 p0 p1 a w0:A0 l a",
        "08 up 09 ",
        "Level 0 ended and lowest: 1 is next.",
    ),
    (
        "w0:13 w1:08 w1:01 p3 w0:A0 p2 a",
        "0A ",
        "101 with none in service: order stays 0..7.",
    ),
    (
        "w0:13 w1:08 w1:01 p0 p1 p7 w0:C0 a l w0:20 a w0:20 a",
        "09 no 0F 08 ",
        "110 with level 0: order 1..7, 0.",
    ),
    (
        "w0:13 w1:08 w1:01 p0 p7 w0:C6 a w0:20 a",
        "0F 08 ",
        "Lowest 6: 7, 0, 1..6.",
    ),
    (
        "w0:13 w1:08 w1:01 p0 p7 w0:C7 a",
        "08 ",
        "Lowest 7 as at reset.",
    ),
    (
        "w0:13 w1:08 w1:01 p4 a w0:C3 p3 l p5 l",
        "0C no no ",
        "Lowest 3: order 4, 5, .. 3; 4 in service bars both.",
    ),
    (
        "w0:13 w1:08 w1:01 p4 a w0:C4 p3 l p5 a",
        "0C up 0D ",
        "Lowest 4 while 4 is in service: order 5, 6, 7, 0, .. 4: both are above it, 5 first.",
    ),
    (
        "w0:13 w1:08 w1:01 p4 a w0:C4 p3 a p5 a l",
        "0C 0B 0D no ",
        "3 is above 4; then 5 above 3.",
    ),
    (
        "w0:13 w1:08 w1:01 p4 a w0:C4 p3 a p5 a w0:20 r0 w0:0B r0",
        "0C 0B 0D 00 18 ",
        "001 ends 5, the highest of 3, 4, 5 by the new order.",
    ),
    (
        "w0:13 w1:08 w1:01 p4 a w0:C4 p3 a p5 a w0:20 w0:20 w0:0B r0",
        "0C 0B 0D 10 ",
        "001 twice ends 5, then 3.",
    ),
    (
        "w0:13 w1:08 w1:01 p0 p1 w0:E1 a",
        "08 ",
        "111 names level 1, not in service: it is lowest: order 2..7, 0, 1; 0 before 1.",
    ),
    (
        "w0:13 w1:08 w1:01 p0 a w0:E0 p0 p1 a",
        "08 09 ",
        "111 with 0 takes it out and makes it lowest.",
    ),
    (
        "w0:13 w1:08 w1:01 p2 a w0:E5 w0:0B r0 p3 l p1 l",
        "0A 04 no up ",
        "111 with 5, not in service: 2 stays; order 6, 7, 0, .. 5: 3 is below 2, 1 above.",
    ),
    (
        "w0:13 w1:08 w1:01 p2 a w0:62 w0:0B r0 p0 p7 a",
        "0A 00 08 ",
        "011 ends without rotation.",
    ),
    (
        "w0:13 w1:08 w1:01 p2 a w0:42 w0:0B r0 p0 p7 a",
        "0A 04 08 ",
        "010 does nothing.",
    ),
    (
        "w0:13 w1:08 w1:03 w0:80 p0 p1 a p0 a a",
        "08 09 08 ",
        "Automatic end with rotation: after 0 order 1.., after 1 order 2.., 0, 1.",
    ),
    (
        "w0:13 w1:08 w1:03 p0 p1 a p0 a",
        "08 08 ",
        "Without 100 nothing rotates.",
    ),
    (
        "w0:13 w1:08 w1:03 w0:80 w0:00 p0 p1 a p0 a",
        "08 08 ",
        "000 clears rotation.",
    ),
    (
        "w0:13 w1:08 w1:03 w0:80 p5 a w0:00 p5 p6 a",
        "0D 0E ",
        "000 leaves the order as it was: lowest 5.",
    ),
    (
        "w0:13 w1:08 w1:01 w0:80 p0 p1 a p0 w0:20 a",
        "08 08 ",
        "Rotation at the automatic end does nothing in normal mode.",
    ),
    (
        "w0:13 w1:08 w1:03 w0:80 p0 a w0:13 w1:08 w1:03 p0 p1 a p0 a",
        "08 08 08 ",
        "ICW1 makes 7 lowest and clears rotation.",
    ),
    (
        "w0:13 w1:08 w1:01 w0:C3 w0:13 w1:08 w1:01 p4 p0 a",
        "08 ",
        "ICW1 makes 7 lowest.",
    ),
    (
        "w0:13 w0:80 w1:08 w1:03 p0 p1 a p0 a",
        "08 09 ",
        "OCW2 is obeyed while ICW2 is awaited.",
    ),
    (
        "w0:13 w1:08 w1:03 w0:C0 p0 p1 a a",
        "09 08 ",
        "110 with level 0, and automatic ends.",
    ),
    (
        "w0:13 w1:08 w1:03 w0:80 p3 a w0:0A r0 w0:0B r0 p2 p4 a a",
        "0B 00 00 0C 0A ",
        "Nothing in service with automatic end.",
    ),
    (
        "w0:13 w1:08 w1:01 w0:C2 w1:08 p3 p4 a",
        "0C ",
        "OCW1 masks level 3, the highest in the order 3, 4, .. 2.",
    ),
    (
        "w0:13 w1:08 w1:01 p1 p0 w0:C0 a w0:A0 a l",
        "09 08 no ",
        "Order 1..0: 1, ended with rotation: order 2..7, 0, 1; then 0 alone.",
    ),
    (
        "w0:13 w1:08 w1:01 p6 a w0:A3 w0:0B r0 p6 p0 a",
        "0E 00 08 ",
        "Bits 2 to 0 of 101 say nothing: 6 ended and lowest, order 7, 0, ..",
    ),
    (
        "w0:13 w1:08 w1:01 p0 p3 a w0:C0 l a w0:0B r0",
        "08 up 0B 09 ",
        "0 in service becomes lowest: 3 may interrupt at once.",
    ),
    (
        "w0:13 w1:08 w1:01 p0 p3 a w0:C0 a w0:60 w0:0B r0",
        "08 0B 08 ",
        "011 with 0 ends 0, 3 stays.",
    ),
    (
        "w0:12 w1:08 w0:C0 p1 l",
        "no ",
        "Without ICW4 not in 8086 mode: INT stays down.",
    ),
    (
        "w0:13 w1:08 w1:01 w0:E8 p0 p1 a",
        "08 ",
        "0E8H is OCW3, bit 3 set.",
    ),
    (
        "w0:13 w1:08 w1:01 w0:C5 r1 r0",
        "00 00 ",
        "Rotation shows in no register.",
    ),
    (
        "w0:13 w1:08 w1:01 p0 a p1 w0:A0 a p2 w0:A0 a p0 w0:A0 a l",
        "08 09 0A 08 no ",
        "Each end rotates: equal turns.",
    ),
];

/// Whether the calls have these answers.
fn is_answered(alloc: Global, words: &str, answers: &str) -> Result<bool, AllocError> {
    let calls = calls_of(alloc, words)?;
    let found = answers_of(alloc, calls.as_slice())?;
    Ok(found.as_str() == answers)
}

#[test]
fn levels_in_order(rt: HostRuntime) {
    let alloc = rt.alloc();
    each(&rt, ROWS, |(words, answers, _)| {
        matches!(is_answered(alloc, words, answers), Ok(true))
    });
}
