//! What is told of the faults of a text: E101 to E107.

use crate::explaining::pieces::{END_MARK, Piece, pieces};
use crate::explaining::sentence::Part;
use crate::explaining::told::{Mark, Told, tell};
use plm_token::scan;
use std::alloc::Global;
use word86::Fault;

/// A fault of a text.
#[derive(Clone, Copy)]
pub(crate) enum TextFault {
    Character,
    OpenString,
    OpenComment,
    Number,
    Name,
    Control,
}

/// Whether a piece is a dollar sign that begins no control line, or an end mark before the text's end. Alone they are no faults.
fn is_stray(piece: &Piece<'_>) -> bool {
    match piece.text {
        [b'$', ..] => piece.column > 0,
        [END_MARK, ..] => true,
        _ => false,
    }
}

/// Whether a piece is faulty by itself, or where it stands.
fn is_faulty(alloc: Global, piece: &Piece<'_>) -> Result<bool, Fault> {
    if is_stray(piece) {
        return Ok(true);
    }
    match scan(alloc, piece.text) {
        Ok(_) => Ok(false),
        Err(Fault::At(_, _, _)) => Ok(true),
        Err(Fault::Memory) => Err(Fault::Memory),
    }
}

/// The first piece on this line that is faulty.
fn faulty_piece<'a>(alloc: Global, text: &'a [u8], line: u32) -> Result<Option<Piece<'a>>, Fault> {
    for piece in pieces(alloc, text)? {
        if piece.line == line && is_faulty(alloc, &piece)? {
            return Ok(Some(piece));
        }
    }
    Ok(None)
}

/// What to write in place of a character that begins no token.
fn in_place_of(byte: u8) -> &'static str {
    match byte {
        b'"' => "a string stands between apostrophes",
        b'!' => "unequal is <>",
        b'&' => "AND",
        b'|' => "OR",
        b'~' => "NOT",
        b'^' => "XOR",
        b'%' => "MOD",
        b'[' | b']' => "subscripts stand in parentheses",
        b'{' | b'}' => "DO; and END; are what opens and closes a block",
        b'#' => "a hexadecimal number ends in H",
        b'$' =>
            "a dollar sign stands in the first column of a control line, or inside a name or a number",
        b'_' => "a name begins with a letter",
        b'\\' => "a string has no escapes: a number stands beside it, as in ('text', 13, 10)",
        b'?' => "IF a THEN x = b; ELSE x = c;",
        _ =>
            "letters, digits and = . / ( ) + - * , < > : ; @ and strings are what tokens are made of",
    }
}

/// How a character is named in a sentence.
fn character<'a>(bytes: &'a [u8]) -> Part<'a> {
    match bytes {
        [b'"', ..] => Part::Words("a quotation mark"),
        [b' '..=b'~', ..] => Part::Spelled(bytes),
        [b'\t', ..] => Part::Words("a tab"),
        [byte, ..] => Part::Number(u64::from(*byte)),
        [] => Part::Words("the end of the text"),
    }
}

/// A string that holds a character which none may: the mark stands under it.
fn in_string(alloc: Global, piece: &Piece<'_>, line: &[u8]) -> Told {
    let column = piece.column.saturating_add(piece.text.len());
    let parts = [
        Part::Words("found "),
        match line.get(column) {
            Some(b'\t') => Part::Words("a tab"),
            Some(byte) => Part::Number(u64::from(*byte)),
            None => Part::Words("the line's end"),
        },
        Part::Words(
            " in a string, which holds the characters 20H to 7EH alone: a number stands beside it, as in ('text', 9)",
        ),
    ];
    let mut answer = tell(alloc, None, &parts);
    answer.mark = Some(Mark { column, width: 1 });
    answer
}

fn character_fault(alloc: Global, piece: &Piece<'_>, line: &[u8]) -> Told {
    if matches!(piece.text, [b'\'', ..]) {
        return in_string(alloc, piece, line);
    }
    let first = piece.text.first().copied().unwrap_or(0);
    let parts = [
        Part::Words("found "),
        character(piece.text),
        Part::Words(", which begins no token: "),
        Part::Words(in_place_of(first)),
    ];
    tell(alloc, Some(*piece), &parts)
}

fn is_hexadecimal_digit(byte: u8) -> bool {
    matches!(byte, b'0'..=b'9' | b'A'..=b'F' | b'a'..=b'f' | b'$')
}

/// Whether a piece is the hexadecimal digits of a number that lacks its H.
fn lacks_suffix(text: &[u8]) -> bool {
    for byte in text {
        if !is_hexadecimal_digit(*byte) {
            return false;
        }
    }
    true
}

/// How many digits a number has, zeros in front not counted.
fn digit_count(text: &[u8]) -> u64 {
    let mut count: u64 = 0;
    for byte in text {
        let is_counted = match *byte {
            b'$' => false,
            b'0' => count > 0,
            _ => true,
        };
        if is_counted {
            count = count.saturating_add(1);
        }
    }
    count
}

/// Whether digits are a number that lacks its H alone: with it, a number has five digits at most.
pub(crate) fn wants_suffix(text: &[u8]) -> bool {
    lacks_suffix(text) && digit_count(text) <= 5
}

fn number_fault(alloc: Global, piece: &Piece<'_>) -> Told {
    let text = piece.text;
    let parts = match text {
        [b'0', b'x' | b'X', digits @ ..] if wants_suffix(digits) => [
            Part::Spelled(text),
            Part::Words(" is no number here: a hexadecimal one ends in H, as 0"),
            Part::Spelled(digits),
            Part::Words("H"),
        ],
        _ if wants_suffix(text) => [
            Part::Spelled(text),
            Part::Words(" is no decimal number up to 1048575: the hexadecimal one is "),
            Part::Spelled(text),
            Part::Words("H"),
        ],
        _ if lacks_suffix(text) => [
            Part::Spelled(text),
            Part::Words(" is above 1048575, the greatest number"),
            Part::Words(""),
            Part::Words(""),
        ],
        _ => [
            Part::Spelled(text),
            Part::Words(
                " is no number up to 0FFFFFH: decimal digits, or digits that end in B, O, Q, D or H; a name begins with a letter",
            ),
            Part::Words(""),
            Part::Words(""),
        ],
    };
    tell(alloc, Some(*piece), &parts)
}

/// How many characters of a name count.
fn counted(name: &[u8]) -> u64 {
    let mut count: u64 = 0;
    for byte in name {
        if *byte != b'$' {
            count = count.saturating_add(1);
        }
    }
    count
}

fn name_fault(alloc: Global, piece: &Piece<'_>) -> Told {
    let parts = [
        Part::Spelled(piece.text),
        Part::Words(" has "),
        Part::Number(counted(piece.text)),
        Part::Words(" characters: a name has at most 31, dollar signs not counted"),
    ];
    tell(alloc, Some(*piece), &parts)
}

fn words_at(alloc: Global, piece: &Piece<'_>, words: &'static str) -> Told {
    tell(alloc, Some(*piece), &[Part::Words(words)])
}

/// What is told of a fault of a text at a line, of which this is the text; nothing where it stands in a literal's text.
pub(crate) fn text_fault(
    alloc: Global,
    text: &[u8],
    quoted: &[u8],
    line: u32,
    fault: TextFault,
) -> Result<Option<Told>, Fault> {
    let Some(piece) = faulty_piece(alloc, text, line)? else {
        return Ok(None);
    };
    let answer = match fault {
        TextFault::Character => character_fault(alloc, &piece, quoted),
        TextFault::OpenString => words_at(
            alloc,
            &piece,
            "this string is open at the end of its line: its apostrophe is missing, or one inside it is not doubled",
        ),
        TextFault::OpenComment => words_at(
            alloc,
            &piece,
            "this comment is open at the end of the text: its */ is missing",
        ),
        TextFault::Number => number_fault(alloc, &piece),
        TextFault::Name => name_fault(alloc, &piece),
        TextFault::Control => words_at(
            alloc,
            &piece,
            "no file is included: name each module on the command line, with PUBLIC there and EXTERNAL here",
        ),
    };
    Ok(Some(answer))
}
