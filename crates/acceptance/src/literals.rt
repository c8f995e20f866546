//! Small sources with literals, and what comes out, token by token; what is refused is told by rows of tests/answers.txt.

use crate::expect::each;
use crate::sources::then;
use plm_syntax::expand;
use plm_token::{Token, scan};
use std::alloc::Global;
use std::process::Abort;
use word86::{Fault, Number};

/// Whether tokens have the kinds and texts of others.
fn are_alike(tokens: &[Token<'_>], others: &[Token<'_>]) -> bool {
    if tokens.len() != others.len() {
        return false;
    }
    for (token, other) in tokens.iter().zip(others) {
        if token.kind != other.kind || token.text != other.text {
            return false;
        }
    }
    true
}

/// Whether a source with its literals replaced has the tokens of another, and stops so.
fn gives(
    alloc: Global,
    source: &[u8],
    wanted: &[u8],
    stop: Option<(Number, u32)>,
) -> Result<bool, Fault> {
    let tokens = scan(alloc, wanted)?;
    then(
        scan(alloc, source).and_then(|tokens| expand(alloc, tokens)),
        |expansion| { Ok(are_alike(&expansion.tokens, &tokens) && expansion.stop == stop) },
    )
}

/// Eight literals, each of which names the one before it sixteen times, and the first of which is empty: read whole, the last one has
/// 268 million names.
const SIXTEEN_TIMES: &[u8] =
    b"DECLARE A LITERALLY '', B LITERALLY 'A A A A A A A A A A A A A A A A', C LITERALLY 'B B B B B B B B B B B B B B B B', D LITERALLY 'C C C C C C C C C C C C C C C C', E LITERALLY 'D D D D D D D D D D D D D D D D', F LITERALLY 'E E E E E E E E E E E E E E E E', G LITERALLY 'F F F F F F F F F F F F F F F F', H LITERALLY 'G G G G G G G G G G G G G G G G';\n";

/// The same with two names in turn.
const TWO_IN_TURN: &[u8] =
    b"DECLARE A LITERALLY '', B LITERALLY 'A A A A A A A A A A A A A A A A', C LITERALLY 'A B A B A B A B A B A B A B A B', D LITERALLY 'B C B C B C B C B C B C B C B C', E LITERALLY 'C D C D C D C D C D C D C D C D', F LITERALLY 'D E D E D E D E D E D E D E D E', G LITERALLY 'E F E F E F E F E F E F E F E F', H LITERALLY 'F G F G F G F G F G F G F G F G';\n";

/// Nine literals, each of which but the first names the one before it.
const NINE_DEEP: &[u8] =
    b"DECLARE L0 LITERALLY '7', L1 LITERALLY 'L0', L2 LITERALLY 'L1', L3 LITERALLY 'L2', L4 LITERALLY 'L3', L5 LITERALLY 'L4', L6 LITERALLY 'L5', L7 LITERALLY 'L6', L8 LITERALLY 'L7';\n";

const EMPTY_AMONG_OTHERS: &[u8] =
    b"DECLARE Q LITERALLY '', T LITERALLY 'Q Q 1 Q 2 Q Q', U LITERALLY 'Q T T Q 3';\n";

const NAMES_TWICE: &[u8] = b"DO; DECLARE T LITERALLY 'N 1 N';\n";

/// Declarations, which put themselves out, what follows them, what comes out of that, and where it stops.
const ROWS: &[(&[u8], &[u8], &[u8], Option<(Number, u32)>)] = &[
    (
        b"",
        b"M: DO; DECLARE FOREVER LITERALLY 'WHILE 1'; DO forever; END; END M;",
        b"M: DO; DECLARE FOREVER LITERALLY 'WHILE 1'; DO WHILE 1; END; END M;",
        None,
    ),
    (
        b"",
        b"DECLARE X LITERALLY 'X'; A X = 1;",
        b"DECLARE X LITERALLY 'X'; A",
        Some((Number::E202, 1)),
    ),
    // Until the semicolon of the block's END.
    (
        b"",
        b"DO; P: PROCEDURE; DECLARE X LITERALLY 'Y'; X END X; X END; X",
        b"DO; P: PROCEDURE; DECLARE X LITERALLY 'Y'; Y END Y; X END; X",
        None,
    ),
    // Later elements of the same DECLARE, labels and names to be declared are replaced too.
    (
        b"",
        b"DECLARE X LITERALLY 'Y', X BYTE; X: ;",
        b"DECLARE X LITERALLY 'Y', Y BYTE; Y: ;",
        None,
    ),
    // An empty statement ends no block.
    (
        b"",
        b"DO; DECLARE X LITERALLY 'Y'; DO; END; ; X",
        b"DO; DECLARE X LITERALLY 'Y'; DO; END; ; Y",
        None,
    ),
    (
        b"",
        b"DECLARE L LITERALLY 'LITERALLY'; DECLARE X L 'Y'; X",
        b"DECLARE L LITERALLY 'LITERALLY'; DECLARE X LITERALLY 'Y'; Y",
        None,
    ),
    // Eight replacements one inside the other, and nine.
    (NINE_DEEP, b"L7", b"7", None),
    (NINE_DEEP, b"L8", b"", Some((Number::E202, 2))),
    // Texts with faults.
    (
        b"",
        b"DECLARE X\nLITERALLY 'a''#''' ;",
        b"DECLARE X LITERALLY 'a''#'''",
        Some((Number::E101, 2)),
    ),
    (
        b"",
        b"DECLARE X LITERALLY '2B';",
        b"DECLARE X LITERALLY '2B'",
        Some((Number::E104, 1)),
    ),
    (b"", b"X = '2B''';", b"X = '2B''';", None),
    // Empty texts.
    (SIXTEEN_TIMES, b"H H 1", b"1", None),
    (TWO_IN_TURN, b"H G H 1", b"1", None),
    // An empty text that stands too deep is refused, though it was seen to be empty.
    (
        SIXTEEN_TIMES,
        b"DECLARE I LITERALLY 'H'; H\n1 I 2",
        b"DECLARE I LITERALLY 'H'; 1",
        Some((Number::E202, 3)),
    ),
    // It is empty no longer where the literals that it names are gone.
    (
        b"",
        b"DO; DECLARE X LITERALLY 'Y'; DO; DECLARE Y LITERALLY ''; X X END; X",
        b"DO; DECLARE X LITERALLY 'Y'; DO; DECLARE Y LITERALLY ''; END; Y",
        None,
    ),
    // Empty names among others.
    (EMPTY_AMONG_OTHERS, b"T U T", b"1 2 1 2 1 2 3 1 2", None),
    // A text that ends the block of a literal that it names names no literal from there on.
    (
        b"",
        b"DO; DECLARE X LITERALLY 'Y 1 Y'; DO; DECLARE Y LITERALLY '', Z LITERALLY 'Y X END; Y 2'; X Z X",
        b"DO; DECLARE X LITERALLY 'Y 1 Y'; DO; DECLARE Y LITERALLY '', Z LITERALLY 'Y X END; Y 2'; 1 1 END; Y 2 Y 1 Y",
        None,
    ),
    // Names that are declared anew.
    (
        b"",
        b"DO; DECLARE X LITERALLY 'Y Y 1 Y Z Y'; DO; DECLARE Y LITERALLY ''; X X END; DO; DECLARE Y LITERALLY '', Z LITERALLY 'Y'; X END; DO; DECLARE Z LITERALLY ''; X END; X",
        b"DO; DECLARE X LITERALLY 'Y Y 1 Y Z Y'; DO; DECLARE Y LITERALLY ''; 1 Z 1 Z END; DO; DECLARE Y LITERALLY '', Z LITERALLY 'Y'; 1 END; DO; DECLARE Z LITERALLY ''; Y Y 1 Y Y END; Y Y 1 Y Z Y",
        None,
    ),
    // The first literal of one block has the place that the first of another had.
    (
        b"",
        b"DO; DECLARE P LITERALLY '1'; P END; DECLARE Q LITERALLY '2'; P Q DO; DECLARE P LITERALLY '3'; Q P END; P",
        b"DO; DECLARE P LITERALLY '1'; 1 END; DECLARE Q LITERALLY '2'; P 2 DO; DECLARE P LITERALLY '3'; 2 3 END; P",
        None,
    ),
    // Spelled otherwise.
    (
        b"",
        b"DECLARE A$B LITERALLY 'c$d'; DECLARE CD LITERALLY 'e'; ab a$$b CD c$d",
        b"DECLARE A$B LITERALLY 'c$d'; DECLARE CD LITERALLY 'e'; e e e e",
        None,
    ),
    // Names that are declared as before.
    (
        NAMES_TWICE,
        b"DO; DECLARE N LITERALLY ''; T END; DO; DECLARE N LITERALLY ''; T END; DO; DECLARE N LITERALLY '2'; T END; DO; DECLARE N LITERALLY ''; T END; T",
        b"DO; DECLARE N LITERALLY ''; 1 END; DO; DECLARE N LITERALLY ''; 1 END; DO; DECLARE N LITERALLY '2'; 2 1 2 END; DO; DECLARE N LITERALLY ''; 1 END; N 1 N",
        None,
    ),
    // The literals below it are others, or another literal stands at its place.
    (
        NAMES_TWICE,
        b"DO; DECLARE E LITERALLY '', N LITERALLY 'E'; T END; DO; DECLARE E LITERALLY '4', N LITERALLY 'E'; T END; DO; DECLARE E LITERALLY '', P LITERALLY 'E'; T END;",
        b"DO; DECLARE E LITERALLY '', N LITERALLY 'E'; 1 END; DO; DECLARE E LITERALLY '4', N LITERALLY 'E'; 4 1 4 END; DO; DECLARE E LITERALLY '', P LITERALLY 'E'; N 1 N END;",
        None,
    ),
];

/// Whether declarations put themselves out, and what follows them comes out so, and stops so.
fn gives_behind(
    alloc: Global,
    declared: &[u8],
    source: &[u8],
    wanted: &[u8],
    stop: Option<(Number, u32)>,
) -> Result<bool, Fault> {
    let mut text = Vec::from_slice(alloc, declared)?;
    text.extend_from_slice(source)?;
    let mut out = Vec::from_slice(alloc, declared)?;
    out.extend_from_slice(wanted)?;
    gives(alloc, &text, &out, stop)
}

#[test]
fn replacements(rt: HostRuntime) {
    let alloc = rt.alloc();
    each(&rt, ROWS, |(declared, source, wanted, stop)| {
        gives_behind(alloc, declared, source, wanted, *stop) == Ok(true)
    });
}

/// A text that says 1,100 times the same, with something before and behind it.
fn many(alloc: Global, before: &[u8], part: &[u8], behind: &[u8]) -> Result<Vec<u8>, Fault> {
    let mut text = Vec::from_slice(alloc, before)?;
    for _ in 0..1_100 {
        text.extend_from_slice(part)?;
    }
    text.extend_from_slice(behind)?;
    Ok(text)
}

// With N alone, with both, with other texts of theirs, and without them.
fn gives_long_texts(alloc: Global) -> Result<bool, Fault> {
    let declared = many(
        alloc,
        b"DECLARE A LITERALLY 'N', B LITERALLY 'O', T LITERALLY '",
        b"A ",
        b"1 A B', U LITERALLY 'T T B';",
    )?;
    let source: &[u8] =
        b"DO; DECLARE N LITERALLY ''; T U DO; DECLARE O LITERALLY ''; T U END; T END; DO; DECLARE O LITERALLY 'N', N LITERALLY ''; U END; T";
    let wanted = many(
        alloc,
        b"DO; DECLARE N LITERALLY ''; 1 O 1 O 1 O O DO; DECLARE O LITERALLY ''; 1 1 1 END; 1 O END; DO; DECLARE O LITERALLY 'N', N LITERALLY ''; 1 1 END; ",
        b"N ",
        b"1 N O",
    )?;
    gives_behind(alloc, &declared, source, &wanted, None)
}

#[test]
fn long_texts_declared_anew(rt: HostRuntime) {
    assert!(rt; gives_long_texts(rt.alloc()) == Ok(true));
}
