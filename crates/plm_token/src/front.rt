//! The piece at the front of a text.

ghost use Rattle.std.specs.Prelude.{◌≡◌, ◌<◌, ◌≤◌, ◌+◌, ◌∷◌, length, count_by, cond, not};
ghost use Rattle.plm_token.specs.Characters.{is_dollar};
ghost use Rattle.plm_token.specs.Names.{normal};
ghost use Rattle.plm_token.specs.Pieces.{front_of, holds_include, name_piece, number_piece, at_line_end};
ghost use Rattle.plm_token.specs.Numbers.{numeral_of};
ghost use Rattle.plm_token.specs.Inner.Front.{read_front, starts_with, special_front, string_front, slash_front, fault_front, single, double};
ghost use Rattle.plm_token.specs.declared.piece.Piece.TheVariants.{Skipped, Fault};
ghost use Rattle.word86.specs.declared.number.Number.TheVariants.{E106};

use crate::keywords::keyword;
use crate::lengths::{comment_length, line_length, name_length, string_length};
use crate::letters::spells;
use crate::numbers::numeral;
use crate::piece::{Front, Piece, ScanState};
use crate::token::{Kind, Mark};
use word86::Number;

/// The most characters that a name may have, dollar signs not counted.
const NAME_LIMIT: usize = 31;

/// The longest piece at the front of a text that is not empty.
#[tactic(auto, using(crate::proofs::Fronts::read_is_front))]
pub fn front(state: ScanState, text: &[u8]) -> Front
    requires { 0 < length text.now }
    ensures value { result ≡ front_of state text.now }
    ensures inside { result.length ≤ length text.now }
    ensures some { 0 < result.length }
{
    match text.split_first() {
        Some((first, rest)) => read(state, *first, rest, text),
        None => unreachable!(),
    }
}

/// The same, by its first byte.
#[tactic(auto, using(std::proofs::lemmas::Bool::Decides::nat_tests), unfolding(crate::specs::Inner::Front::read_front))]
fn read(state: ScanState, first: u8, rest: &[u8], text: &[u8]) -> Front
    requires { text.now ≡ first ∷ rest.now }
    ensures value { result ≡ read_front state first rest.now }
    ensures inside { result.length ≤ length text.now }
    ensures some { 0 < result.length }
{
    match first {
        b' ' | b'\t' | b'\n' | 12 | b'\r' => Front {
            piece: Piece::Skipped,
            length: 1,
        },
        b'A'..=b'Z' | b'a'..=b'z' => {
            let length = 1 + name_length(rest);
            Front {
                piece: name_piece(&text[..length]),
                length,
            }
        }
        b'0'..=b'9' => {
            let run = 1 + name_length(rest);
            Front {
                piece: number_piece(&text[..run]),
                length: run,
            }
        }
        b'/' => slash(text, rest),
        b'\'' if state == ScanState::Literal => fault(Number::E204),
        b'\'' => string(text, rest),
        b'$' if state == ScanState::FirstColumn => {
            let length = 1 + line_length(rest);
            Front {
                piece: control_line(&text[..length]),
                length,
            }
        }
        _ => special(first, rest),
    }
}

/// A byte that is a fault of its own.
fn fault(number: Number) -> Front
    ensures { result ≡ fault_front number }
{
    Front {
        piece: Piece::Fault(number),
        length: 1,
    }
}

/// Whether a byte stands first.
fn starts_with(bytes: &[u8], wanted: u8) -> bool
    ensures { result ≡ starts_with wanted bytes.now }
{
    match bytes {
        [first, ..] => *first == wanted,
        [] => false,
    }
}

/// A reserved word or an identifier; E105 where the name is too long.
#[tactic(auto, using(crate::proofs::NormalForm::normal_length))]
fn name_piece(name: &[u8]) -> Piece
    ensures { result ≡ name_piece (normal name.now) }
{
    let letters = letter_count(name);
    if letters > NAME_LIMIT {
        return Piece::Fault(Number::E105);
    }
    match keyword(name, letters) {
        Some(word) => Piece::Token(Kind::Reserved(word)),
        None => Piece::Token(Kind::Identifier),
    }
}

/// The characters of a name that count.
fn letter_count(name: &[u8]) -> usize
    ensures { result ≡ count_by (λ b. not (is_dollar b)) name.now }
{
    name.iter().filter(|b| **b != b'$').count()
}

/// A number, or E104.
fn number_piece(number: &[u8]) -> Piece
    ensures { result ≡ number_piece (numeral_of (normal number.now)) }
{
    match numeral(number) {
        Some(value) => Piece::Token(Kind::Numeral(value)),
        None => Piece::Fault(Number::E104),
    }
}

/// A comment, a slash, or E103 where the comment is not closed.
fn slash(text: &[u8], rest: &[u8]) -> Front
    requires { length rest.now < length text.now }
    ensures value { result ≡ slash_front text.now rest.now }
    ensures inside { result.length ≤ length text.now }
    ensures some { 0 < result.length }
{
    match rest.split_first() {
        Some((b'*', behind)) => match comment_length(behind) {
            Some(length) => Front {
                piece: Piece::Skipped,
                length: length + 2,
            },
            None => Front {
                piece: Piece::Fault(Number::E103),
                length: text.len(),
            },
        },
        _ => single(Mark::Slash),
    }
}

/// A string; E102 where its line ends before it is closed, E101 where it holds a character that none may.
fn string(text: &[u8], rest: &[u8]) -> Front
    requires { text.now ≡ 39 ∷ rest.now }
    ensures value { result ≡ string_front text.now rest.now }
    ensures inside { result.length ≤ length text.now }
    ensures some { 0 < result.length }
{
    let (length, closed) = string_length(rest);
    let piece = if closed {
        Piece::Token(Kind::String)
    } else if at_line_end(&rest[length..]) {
        Piece::Fault(Number::E102)
    } else {
        Piece::Fault(Number::E101)
    };
    Front {
        piece,
        length: length + 1,
    }
}

/// Whether a line, or the text, ends here.
fn at_line_end(bytes: &[u8]) -> bool
    ensures { result ≡ at_line_end bytes.now }
{
    matches!(bytes, [] | [b'\n', ..] | [b'\r', b'\n', ..])
}

/// A control line is skipped, or E106 where it holds the word INCLUDE.
fn control_line(line: &[u8]) -> Piece
    ensures { result ≡ cond (holds_include line.now) (Fault E106) Skipped }
{
    if holds_include(line) {
        Piece::Fault(Number::E106)
    } else {
        Piece::Skipped
    }
}

/// Whether one of a line's runs of name characters is the word INCLUDE.
fn holds_include(line: &[u8]) -> bool
    ensures { result ≡ holds_include line.now }
{
    let mut rest = line;
    loop {
        let (run, behind) = rest.split_at(name_length(rest));
        if spells(run, b"INCLUDE") {
            return true;
        }
        match behind.split_first() {
            Some((_, next)) => rest = next,
            None => return false,
        }
    }
}

/// The special token at the front, the longer where there are two, or E101.
fn special(first: u8, rest: &[u8]) -> Front
    ensures value { result ≡ special_front first rest.now }
    ensures inside { result.length ≤ 1 + length rest.now }
    ensures some { 0 < result.length }
{
    match first {
        b'=' => single(Mark::Equal),
        b'.' => single(Mark::Period),
        b'(' => single(Mark::LeftParenthesis),
        b')' => single(Mark::RightParenthesis),
        b'+' => single(Mark::Plus),
        b'-' => single(Mark::Minus),
        b'*' => single(Mark::Star),
        b',' => single(Mark::Comma),
        b';' => single(Mark::Semicolon),
        b'@' => single(Mark::AtSign),
        b':' if starts_with(rest, b'=') => double(Mark::Assign),
        b':' => single(Mark::Colon),
        b'>' if starts_with(rest, b'=') => double(Mark::GreaterEqual),
        b'>' => single(Mark::Greater),
        b'<' if starts_with(rest, b'>') => double(Mark::NotEqual),
        b'<' if starts_with(rest, b'=') => double(Mark::LessEqual),
        b'<' => single(Mark::Less),
        _ => fault(Number::E101),
    }
}

/// A special token of one character.
fn single(mark: Mark) -> Front
    ensures { result ≡ single mark }
{
    Front {
        piece: Piece::Token(Kind::Special(mark)),
        length: 1,
    }
}

/// A special token of two characters.
fn double(mark: Mark) -> Front
    ensures { result ≡ double mark }
{
    Front {
        piece: Piece::Token(Kind::Special(mark)),
        length: 2,
    }
}
