//! The reserved words, by their length and first letter.

ghost use Rattle.std.specs.Prelude.{◌≡◌, ◌∷◌, ℕ, List, length};
ghost use Rattle.plm_token.specs.Names.{normal, keyword_of};
ghost use Rattle.plm_token.specs.Inner.Keywords.{keyword_in};

use crate::letters::{Letters, spells};
use crate::token::Keyword;

/// A reserved word: its letters in normal form, and what it is.
#[derive(Clone, Copy)]
struct Word(&'static [u8], Keyword);

/// The reserved word that a name of so many letters is, if it is one; dollar signs are no letters.
pub fn keyword(name: &[u8], letters: usize) -> Option<Keyword>
    requires { letters ≡ length (normal name.now) }
    ensures { result ≡ keyword_of (normal name.now) }
{
    match Letters::new(name).next() {
        Some(first) => keyword_among(name, words_of(letters, first)),
        None => None,
    }
}

/// The first of some reserved words that a name is, if it is one.
fn keyword_among(name: &[u8], words: &[Word]) -> Option<Keyword>
    ensures { result ≡ keyword_in (normal name.now) words.now }
{
    for word in words {
        if spells(name, word.0) {
            return Some(word.1);
        }
    }
    None
}

/// The reserved words of so many letters of which this is the first.
fn words_of(letters: usize, first: u8) -> &'static [Word]
    ensures { (rest : List ℕ) → letters ≡ length (first ∷ rest) → keyword_of (first ∷ rest) ≡ keyword_in (first ∷ rest) result.now }
{
    match letters {
        2 => of_two(first),
        3 => of_three(first),
        4 => of_four(first),
        5 => of_five(first),
        6 => of_six(first),
        7 => of_seven(first),
        8 => of_eight(first),
        9 => of_nine(first),
        _ => &[],
    }
}

/// Those of two letters.
fn of_two(first: u8) -> &'static [Word]
    ensures { (rest : List ℕ) → 2 ≡ length (first ∷ rest) → keyword_of (first ∷ rest) ≡ keyword_in (first ∷ rest) result.now }
{
    match first {
        b'A' => &[Word(b"AT", Keyword::At)],
        b'B' => &[Word(b"BY", Keyword::By)],
        b'D' => &[Word(b"DO", Keyword::Do)],
        b'G' => &[Word(b"GO", Keyword::Go)],
        b'I' => &[Word(b"IF", Keyword::If)],
        b'O' => &[Word(b"OR", Keyword::Or)],
        b'T' => &[Word(b"TO", Keyword::To)],
        _ => &[],
    }
}

/// Those of three letters.
fn of_three(first: u8) -> &'static [Word]
    ensures { (rest : List ℕ) → 3 ≡ length (first ∷ rest) → keyword_of (first ∷ rest) ≡ keyword_in (first ∷ rest) result.now }
{
    match first {
        b'A' => &[Word(b"AND", Keyword::And)],
        b'E' => &[Word(b"END", Keyword::End)],
        b'M' => &[Word(b"MOD", Keyword::Mod)],
        b'N' => &[Word(b"NOT", Keyword::Not)],
        b'X' => &[Word(b"XOR", Keyword::Xor)],
        _ => &[],
    }
}

/// Those of four letters.
fn of_four(first: u8) -> &'static [Word]
    ensures { (rest : List ℕ) → 4 ≡ length (first ∷ rest) → keyword_of (first ∷ rest) ≡ keyword_in (first ∷ rest) result.now }
{
    match first {
        b'B' => &[Word(b"BYTE", Keyword::Byte)],
        b'C' => &[Word(b"CALL", Keyword::Call), Word(b"CASE", Keyword::Case)],
        b'D' => &[Word(b"DATA", Keyword::Data)],
        b'E' => &[Word(b"ELSE", Keyword::Else)],
        b'G' => &[Word(b"GOTO", Keyword::Goto)],
        b'H' => &[Word(b"HALT", Keyword::Halt)],
        b'P' => &[Word(b"PLUS", Keyword::Plus)],
        b'R' => &[Word(b"REAL", Keyword::Real)],
        b'T' => &[Word(b"THEN", Keyword::Then)],
        b'W' => &[Word(b"WORD", Keyword::Word)],
        _ => &[],
    }
}

/// Those of five letters.
fn of_five(first: u8) -> &'static [Word]
    ensures { (rest : List ℕ) → 5 ≡ length (first ∷ rest) → keyword_of (first ∷ rest) ≡ keyword_in (first ∷ rest) result.now }
{
    match first {
        b'B' => &[Word(b"BASED", Keyword::Based)],
        b'D' => &[Word(b"DWORD", Keyword::Dword)],
        b'L' => &[Word(b"LABEL", Keyword::Label)],
        b'M' => &[Word(b"MINUS", Keyword::Minus)],
        b'W' => &[Word(b"WHILE", Keyword::While)],
        _ => &[],
    }
}

/// Those of six letters.
fn of_six(first: u8) -> &'static [Word]
    ensures { (rest : List ℕ) → 6 ≡ length (first ∷ rest) → keyword_of (first ∷ rest) ≡ keyword_in (first ∷ rest) result.now }
{
    match first {
        b'E' => &[Word(b"ENABLE", Keyword::Enable)],
        b'P' => &[Word(b"PUBLIC", Keyword::Public)],
        b'R' => &[Word(b"RETURN", Keyword::Return)],
        _ => &[],
    }
}

/// Those of seven letters.
fn of_seven(first: u8) -> &'static [Word]
    ensures { (rest : List ℕ) → 7 ≡ length (first ∷ rest) → keyword_of (first ∷ rest) ≡ keyword_in (first ∷ rest) result.now }
{
    match first {
        b'A' => &[Word(b"ADDRESS", Keyword::Address)],
        b'D' => &[
            Word(b"DECLARE", Keyword::Declare),
            Word(b"DISABLE", Keyword::Disable),
        ],
        b'I' => &[
            Word(b"INITIAL", Keyword::Initial),
            Word(b"INTEGER", Keyword::Integer),
        ],
        b'P' => &[Word(b"POINTER", Keyword::Pointer)],
        _ => &[],
    }
}

/// Those of eight letters.
fn of_eight(first: u8) -> &'static [Word]
    ensures { (rest : List ℕ) → 8 ≡ length (first ∷ rest) → keyword_of (first ∷ rest) ≡ keyword_in (first ∷ rest) result.now }
{
    match first {
        b'E' => &[Word(b"EXTERNAL", Keyword::External)],
        b'S' => &[Word(b"SELECTOR", Keyword::Selector)],
        _ => &[],
    }
}

/// Those of nine letters.
fn of_nine(first: u8) -> &'static [Word]
    ensures { (rest : List ℕ) → 9 ≡ length (first ∷ rest) → keyword_of (first ∷ rest) ≡ keyword_in (first ∷ rest) result.now }
{
    match first {
        b'I' => &[Word(b"INTERRUPT", Keyword::Interrupt)],
        b'L' => &[Word(b"LITERALLY", Keyword::Literally)],
        b'P' => &[Word(b"PROCEDURE", Keyword::Procedure)],
        b'R' => &[Word(b"REENTRANT", Keyword::Reentrant)],
        b'S' => &[Word(b"STRUCTURE", Keyword::Structure)],
        _ => &[],
    }
}
