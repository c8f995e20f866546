//! The pieces of a text that are no blanks, where they stand.

ghost use Rattle.std.specs.Prelude.{◌≤◌, ◌<◌, length};

use std::alloc::{AllocError, Global};

/// A token, a comment, a control line or a fault: its text, the line on which it begins, from 1, and how many bytes stand before it there.
#[derive(Clone, Copy)]
pub(crate) struct Piece<'a> {
    pub text: &'a [u8],
    pub line: u32,
    pub column: usize,
}

impl Piece<'_> {
    /// Whether the grammar does not see it: a comment or a control line.
    pub fn is_skipped(&self) -> bool {
        match self.text {
            [b'/', b'*', ..] => true,
            [b'$', ..] => self.column == 0,
            _ => false,
        }
    }
}

/// A byte that ends a text, and is no part of it.
pub(crate) const END_MARK: u8 = 0x1A;

fn is_blank(byte: u8) -> bool {
    matches!(byte, b' ' | b'\t' | b'\n' | 12 | b'\r')
}

fn is_name_character(byte: u8) -> bool {
    matches!(byte, b'A'..=b'Z' | b'a'..=b'z' | b'0'..=b'9' | b'_' | b'$')
}

/// How many bytes at the front a name or a number goes on with.
fn name_length(text: &[u8]) -> usize
    ensures { result ≤ length text.now }
{
    for (i, byte) in text.iter().enumerate() {
        if !is_name_character(*byte) {
            return i;
        }
    }
    text.len()
}

/// How many bytes stand before the line feed.
fn line_length(text: &[u8]) -> usize
    ensures { result ≤ length text.now }
{
    for (i, byte) in text.iter().enumerate() {
        if *byte == b'\n' {
            return i;
        }
    }
    text.len()
}

/// How many bytes a string has after its opening apostrophe, up to the closing one or up to what no string holds.
fn string_length(text: &[u8]) -> usize
    ensures { result ≤ length text.now }
{
    let mut is_pending = false;
    for (i, byte) in text.iter().enumerate() {
        if *byte == b'\'' {
            is_pending = !is_pending;
        } else if is_pending || !matches!(*byte, b' '..=b'~') {
            return i;
        }
    }
    text.len()
}

/// How many bytes a comment has after its slash: up to its end, or to the text's.
fn comment_length(text: &[u8]) -> usize
    ensures { result ≤ length text.now }
{
    let mut is_starred = false;
    for (i, byte) in text.iter().enumerate() {
        if is_starred && *byte == b'/' && 1 < i {
            return i + 1;
        }
        is_starred = *byte == b'*';
    }
    text.len()
}

/// Whether two characters are one special token.
fn is_pair(first: u8, next: u8) -> bool {
    match next {
        b'=' => matches!(first, b':' | b'<' | b'>'),
        b'>' => first == b'<',
        _ => false,
    }
}

/// How many bytes the second half of a special token has.
fn half_length(first: u8, rest: &[u8]) -> usize
    ensures { result ≤ length rest.now }
{
    let Some((next, _)) = rest.split_first() else {
        return 0;
    };
    if is_pair(first, *next) { 1 } else { 0 }
}

/// How many bytes the piece at the front has after its first.
fn length_after(first: u8, rest: &[u8], column: usize) -> usize
    ensures { result ≤ length rest.now }
{
    match first {
        b'A'..=b'Z' | b'a'..=b'z' | b'0'..=b'9' => name_length(rest),
        b'\'' => string_length(rest),
        b'/' if matches!(rest, [b'*', ..]) => comment_length(rest),
        b'$' if column == 0 => line_length(rest),
        _ => half_length(first, rest),
    }
}

/// Where the text after a piece stands.
#[derive(Clone, Copy)]
struct Spot {
    line: u32,
    column: usize,
}

impl Spot {
    fn after(self, text: &[u8]) -> Spot {
        let mut spot = self;
        for byte in text {
            spot = spot.after_byte(*byte);
        }
        spot
    }

    fn after_byte(self, byte: u8) -> Spot {
        if byte == b'\n' {
            Spot {
                line: self.line.saturating_add(1),
                column: 0,
            }
        } else {
            Spot {
                line: self.line,
                column: self.column.saturating_add(1),
            }
        }
    }
}

/// A text without the end marks at its end.
fn without_end(text: &[u8]) -> &[u8] {
    let mut kept: usize = 0;
    for (at, byte) in text.iter().enumerate() {
        if *byte != END_MARK {
            kept = at.saturating_add(1);
        }
    }
    &text[..kept.min(text.len())]
}

/// The pieces of a text, in order, blanks left out.
pub(crate) fn pieces<'a>(alloc: Global, text: &'a [u8]) -> Result<Vec<Piece<'a>>, AllocError> {
    let mut pieces = Vec::new(alloc);
    let mut rest = without_end(text);
    let mut spot = Spot { line: 1, column: 0 };
    while let Some((first, behind)) = rest.split_first() {
        let length = 1 + length_after(*first, behind, spot.column);
        let (text, after) = rest.split_at(length);
        if !is_blank(*first) {
            pieces.push(Piece {
                text,
                line: spot.line,
                column: spot.column,
            })?;
        }
        spot = spot.after(text);
        rest = after;
    }
    Ok(pieces)
}

/// The pieces of a text that the grammar sees: where the text has no fault, its tokens.
pub(crate) fn seen_pieces<'a>(alloc: Global, text: &'a [u8]) -> Result<Vec<Piece<'a>>, AllocError> {
    let mut seen = Vec::new(alloc);
    for piece in pieces(alloc, text)? {
        if !piece.is_skipped() {
            seen.push(piece)?;
        }
    }
    Ok(seen)
}
