//! Words that are no part of the language here, and what takes their place.

use plm_token::same_name;

/// A word, and what takes its place.
#[derive(Clone, Copy)]
struct Way {
    word: &'static [u8],
    way: &'static str,
}

/// What Intel's language has and the profile leaves out.
const LEFT_OUT: &[Way] = &[
    Way {
        word: b"REAL",
        way: "is left out, and nothing takes its place: count in WORDs or INTEGERs",
    },
    Way {
        word: b"DWORD",
        way: "is left out: two WORDs and a comparison for the carry take its place",
    },
    Way {
        word: b"SELECTOR",
        way: "is left out: there is one data segment",
    },
    Way {
        word: b"GOTO",
        way: "is left out: RETURN from a procedure, or a BYTE in the loop's condition",
    },
    Way {
        word: b"GO",
        way: "is left out: RETURN from a procedure, or a BYTE in the loop's condition",
    },
    Way {
        word: b"LABEL",
        way: "is left out: labels are not declared, and nothing goes to them",
    },
    Way {
        word: b"REENTRANT",
        way: "is left out: an array and an index take the place of the stack",
    },
    Way {
        word: b"PLUS",
        way: "is left out: two WORDs, and IF XL < YL THEN XH = XH + 1; for the carry",
    },
    Way {
        word: b"MINUS",
        way: "is left out: two WORDs, and IF XL < YL THEN XH = XH - 1; for the borrow",
    },
    Way {
        word: b"MOVB",
        way: "is left out: a loop over an array, or over a based name whose base counts up",
    },
    Way {
        word: b"MOVW",
        way: "is left out: a loop over an array, or over a based name whose base counts up",
    },
    Way {
        word: b"MOVRB",
        way: "is left out: a loop over an array from its end on",
    },
    Way {
        word: b"MOVRW",
        way: "is left out: a loop over an array from its end on",
    },
    Way {
        word: b"MOVE",
        way: "is left out: a loop over an array, or over a based name whose base counts up",
    },
    Way {
        word: b"CMPB",
        way: "is left out: a loop that compares and counts",
    },
    Way {
        word: b"CMPW",
        way: "is left out: a loop that compares and counts",
    },
    Way {
        word: b"FINDB",
        way: "is left out: a loop that compares and counts",
    },
    Way {
        word: b"FINDW",
        way: "is left out: a loop that compares and counts",
    },
    Way {
        word: b"FINDRB",
        way: "is left out: a loop that compares and counts",
    },
    Way {
        word: b"FINDRW",
        way: "is left out: a loop that compares and counts",
    },
    Way {
        word: b"SKIPB",
        way: "is left out: a loop that compares and counts",
    },
    Way {
        word: b"SKIPW",
        way: "is left out: a loop that compares and counts",
    },
    Way {
        word: b"SETB",
        way: "is left out: a loop that stores",
    },
    Way {
        word: b"SETW",
        way: "is left out: a loop that stores",
    },
    Way {
        word: b"XLAT",
        way: "is left out: an array of DATA with a subscript",
    },
    Way {
        word: b"TIME",
        way: "is left out: a loop that counts, or the timer",
    },
    Way {
        word: b"MEMORY",
        way: "is left out: declare an array of the size that is wanted",
    },
    Way {
        word: b"STACKPTR",
        way: "is left out: the map says how much stack is used",
    },
    Way {
        word: b"STACKBASE",
        way: "is left out: the map says how much stack is used",
    },
    Way {
        word: b"LOCKSET",
        way: "is left out: a read and a store between DISABLE and ENABLE",
    },
    Way {
        word: b"SETINTERRUPT",
        way: "is left out: PROCEDURE INTERRUPT n sets its vector at start-up",
    },
    Way {
        word: b"CAUSEINTERRUPT",
        way: "is left out: DO CASE with a CALL in each case",
    },
    Way {
        word: b"SAR",
        way: "is left out: NOT SHR(NOT W, n) where W is 8000H or more, else SHR(W, n)",
    },
    Way {
        word: b"SAL",
        way: "is left out: SHL of a BYTE or a WORD, and I * 4 of an INTEGER",
    },
    Way {
        word: b"SCL",
        way: "is left out: XH = SHL(XH, 1) OR SHR(XL, 15); XL = SHL(XL, 1);",
    },
    Way {
        word: b"SCR",
        way: "is left out: XL = SHR(XL, 1) OR SHL(XH, 15); XH = SHR(XH, 1);",
    },
    Way {
        word: b"DEC",
        way: "is left out: IF (N AND 0FH) > 9 THEN N = N + 6; IF N > 99H THEN N = N + 60H;",
    },
    Way {
        word: b"CARRY",
        way: "is left out: after S = A + B the carry is S < A",
    },
    Way {
        word: b"SIGN",
        way: "is left out: W >= 8000H",
    },
    Way {
        word: b"ZERO",
        way: "is left out: W = 0",
    },
    Way {
        word: b"PARITY",
        way: "is left out: B = B XOR SHR(B, 4); B = B XOR SHR(B, 2); B = B XOR SHR(B, 1); and the lowest bit",
    },
    Way {
        word: b"INT",
        way: "is left out: SIGNED makes a BYTE or a WORD an INTEGER, UNSIGN an INTEGER a WORD",
    },
    Way {
        word: b"FIX",
        way: "is left out: SIGNED makes a BYTE or a WORD an INTEGER, UNSIGN an INTEGER a WORD",
    },
    Way {
        word: b"FLOAT",
        way: "is left out, as REAL is: count in WORDs or INTEGERs",
    },
    Way {
        word: b"ABS",
        way: "is left out: IF I < 0 THEN I = -I;",
    },
    Way {
        word: b"IABS",
        way: "is left out: IF I < 0 THEN I = -I;",
    },
    Way {
        word: b"BUILDPTR",
        way: "is left out: a WORD as the base, W = .A + 2",
    },
    Way {
        word: b"SELECTOROF",
        way: "is left out: there is one data segment",
    },
    Way {
        word: b"OFFSETOF",
        way: "is left out: .A is the offset of A",
    },
];

/// What other languages have.
const FOREIGN: &[Way] = &[
    Way {
        word: b"FOR",
        way: "is no word of PL/M: DO I = 0 TO 9; .. END;",
    },
    Way {
        word: b"BEGIN",
        way: "is no word of PL/M: DO; .. END;",
    },
    Way {
        word: b"ENDIF",
        way: "is no word of PL/M: an arm of IF is one statement, or DO; .. END;",
    },
    Way {
        word: b"ENDDO",
        way: "is no word of PL/M: END; closes a DO",
    },
    Way {
        word: b"ELSEIF",
        way: "is no word of PL/M: ELSE IF",
    },
    Way {
        word: b"ELSIF",
        way: "is no word of PL/M: ELSE IF",
    },
    Way {
        word: b"ELIF",
        way: "is no word of PL/M: ELSE IF",
    },
    Way {
        word: b"LOOP",
        way: "is no word of PL/M: DO WHILE 1; .. END;",
    },
    Way {
        word: b"REPEAT",
        way: "is no word of PL/M: DO WHILE ..; .. END;",
    },
    Way {
        word: b"UNTIL",
        way: "is no word of PL/M: DO WHILE NOT (..); .. END;",
    },
    Way {
        word: b"SWITCH",
        way: "is no word of PL/M: DO CASE N; with a statement for each number from 0 on; END;",
    },
    Way {
        word: b"SELECT",
        way: "is no word of PL/M: DO CASE N; with a statement for each number from 0 on; END;",
    },
    Way {
        word: b"BREAK",
        way: "is no word of PL/M: RETURN from a procedure, or a BYTE in the loop's condition",
    },
    Way {
        word: b"EXIT",
        way: "is no word of PL/M: RETURN from a procedure, or a BYTE in the loop's condition",
    },
    Way {
        word: b"CONTINUE",
        way: "is no word of PL/M: IF .. THEN DO; .. END; around the rest",
    },
    Way {
        word: b"VAR",
        way: "is no word of PL/M: DECLARE X BYTE;",
    },
    Way {
        word: b"LET",
        way: "is no word of PL/M: X = 1;",
    },
    Way {
        word: b"CHAR",
        way: "is no word of PL/M: DECLARE X BYTE;",
    },
    Way {
        word: b"UNSIGNED",
        way: "is no word of PL/M: BYTE and WORD have no sign",
    },
    Way {
        word: b"BOOLEAN",
        way: "is no word of PL/M: a BYTE, of which the lowest bit counts",
    },
    Way {
        word: b"VOID",
        way: "is no word of PL/M: P: PROCEDURE; .. END P;",
    },
    Way {
        word: b"FUNCTION",
        way: "is no word of PL/M: F: PROCEDURE (X) BYTE; .. END F;",
    },
    Way {
        word: b"PROC",
        way: "is no word of PL/M: P: PROCEDURE; .. END P;",
    },
    Way {
        word: b"PROGRAM",
        way: "is no word of PL/M: M: DO; .. END M;",
    },
    Way {
        word: b"CONST",
        way: "is no word of PL/M: DECLARE LIMIT LITERALLY '10';",
    },
    Way {
        word: b"CONSTANT",
        way: "is left out: DATA",
    },
    Way {
        word: b"PRINT",
        way: "is no word of PL/M: OUTPUT(port) = value; or a store to the screen",
    },
    Way {
        word: b"STRING",
        way: "is no word of PL/M: DECLARE S (*) BYTE DATA ('text');",
    },
    Way {
        word: b"ARRAY",
        way: "is no word of PL/M: DECLARE A (10) BYTE;",
    },
];

fn way_in(ways: &[Way], name: &[u8]) -> Option<&'static str> {
    for way in ways {
        if same_name(way.word, name) {
            return Some(way.way);
        }
    }
    None
}

/// What takes the place of a word of Intel's language that the profile leaves out.
pub(crate) fn way_round(name: &[u8]) -> Option<&'static str> {
    way_in(LEFT_OUT, name)
}

/// What takes the place of a word of another language.
pub(crate) fn foreign_way(name: &[u8]) -> Option<&'static str> {
    way_in(FOREIGN, name)
}
