//! The tokens that are tried where one of each sort is wanted: each mark and each reserved word is named here, so that none is forgotten.

use crate::explaining::uses::{Use, use_of};
use plm_token::{Keyword, Kind, Mark};
use std::alloc::{AllocError, Global};

/// A token that is tried, as it is written.
#[derive(Clone, Copy)]
pub(crate) struct Candidate {
    pub kind: Kind,
    pub text: &'static str,
}

const NAME: Candidate = Candidate {
    kind: Kind::Identifier,
    text: "A_NAME_THAT_STANDS_FOR_ALL",
};

const NUMBER: Candidate = Candidate {
    kind: Kind::Numeral(1),
    text: "1",
};

const STRING: Candidate = Candidate {
    kind: Kind::String,
    text: "'A'",
};

/// How a mark is written, and the mark that is named after it.
fn mark_row(mark: Mark) -> (&'static str, Option<Mark>) {
    match mark {
        Mark::Equal => ("=", Some(Mark::Assign)),
        Mark::Assign => (":=", Some(Mark::LeftParenthesis)),
        Mark::LeftParenthesis => ("(", Some(Mark::RightParenthesis)),
        Mark::RightParenthesis => (")", Some(Mark::Period)),
        Mark::Period => (".", Some(Mark::Comma)),
        Mark::Comma => (",", Some(Mark::Colon)),
        Mark::Colon => (":", Some(Mark::Semicolon)),
        Mark::Semicolon => (";", Some(Mark::AtSign)),
        Mark::AtSign => ("@", Some(Mark::Plus)),
        Mark::Plus => ("+", Some(Mark::Minus)),
        Mark::Minus => ("-", Some(Mark::Star)),
        Mark::Star => ("*", Some(Mark::Slash)),
        Mark::Slash => ("/", Some(Mark::Less)),
        Mark::Less => ("<", Some(Mark::LessEqual)),
        Mark::LessEqual => ("<=", Some(Mark::Greater)),
        Mark::Greater => (">", Some(Mark::GreaterEqual)),
        Mark::GreaterEqual => (">=", Some(Mark::NotEqual)),
        Mark::NotEqual => ("<>", None),
    }
}

/// How a reserved word is written, and the word that is named after it.
fn word_row(word: Keyword) -> (&'static str, Option<Keyword>) {
    match word {
        Keyword::Address => ("ADDRESS", Some(Keyword::And)),
        Keyword::And => ("AND", Some(Keyword::At)),
        Keyword::At => ("AT", Some(Keyword::Based)),
        Keyword::Based => ("BASED", Some(Keyword::By)),
        Keyword::By => ("BY", Some(Keyword::Byte)),
        Keyword::Byte => ("BYTE", Some(Keyword::Call)),
        Keyword::Call => ("CALL", Some(Keyword::Case)),
        Keyword::Case => ("CASE", Some(Keyword::Data)),
        Keyword::Data => ("DATA", Some(Keyword::Declare)),
        Keyword::Declare => ("DECLARE", Some(Keyword::Disable)),
        Keyword::Disable => ("DISABLE", Some(Keyword::Do)),
        Keyword::Do => ("DO", Some(Keyword::Dword)),
        Keyword::Dword => ("DWORD", Some(Keyword::Else)),
        Keyword::Else => ("ELSE", Some(Keyword::Enable)),
        Keyword::Enable => ("ENABLE", Some(Keyword::End)),
        Keyword::End => ("END", Some(Keyword::External)),
        Keyword::External => ("EXTERNAL", Some(Keyword::Go)),
        Keyword::Go => ("GO", Some(Keyword::Goto)),
        Keyword::Goto => ("GOTO", Some(Keyword::Halt)),
        Keyword::Halt => ("HALT", Some(Keyword::If)),
        Keyword::If => ("IF", Some(Keyword::Initial)),
        Keyword::Initial => ("INITIAL", Some(Keyword::Integer)),
        Keyword::Integer | Keyword::Interrupt | Keyword::Label => later_row(word),
        Keyword::Literally | Keyword::Minus | Keyword::Mod | Keyword::Not => later_row(word),
        Keyword::Or | Keyword::Plus | Keyword::Pointer | Keyword::Procedure => later_row(word),
        Keyword::Public | Keyword::Real | Keyword::Reentrant | Keyword::Return => later_row(word),
        Keyword::Selector | Keyword::Structure | Keyword::Then | Keyword::To => later_row(word),
        Keyword::While | Keyword::Word | Keyword::Xor => later_row(word),
    }
}

/// The same from INTEGER on; of the words before it nothing.
fn later_row(word: Keyword) -> (&'static str, Option<Keyword>) {
    match word {
        Keyword::Integer => ("INTEGER", Some(Keyword::Interrupt)),
        Keyword::Interrupt => ("INTERRUPT", Some(Keyword::Label)),
        Keyword::Label => ("LABEL", Some(Keyword::Literally)),
        Keyword::Literally => ("LITERALLY", Some(Keyword::Minus)),
        Keyword::Minus => ("MINUS", Some(Keyword::Mod)),
        Keyword::Mod => ("MOD", Some(Keyword::Not)),
        Keyword::Not => ("NOT", Some(Keyword::Or)),
        Keyword::Or => ("OR", Some(Keyword::Plus)),
        Keyword::Plus => ("PLUS", Some(Keyword::Pointer)),
        Keyword::Pointer => ("POINTER", Some(Keyword::Procedure)),
        Keyword::Procedure => ("PROCEDURE", Some(Keyword::Public)),
        Keyword::Public => ("PUBLIC", Some(Keyword::Real)),
        Keyword::Real => ("REAL", Some(Keyword::Reentrant)),
        Keyword::Reentrant => ("REENTRANT", Some(Keyword::Return)),
        Keyword::Return => ("RETURN", Some(Keyword::Selector)),
        Keyword::Selector => ("SELECTOR", Some(Keyword::Structure)),
        Keyword::Structure => ("STRUCTURE", Some(Keyword::Then)),
        Keyword::Then => ("THEN", Some(Keyword::To)),
        Keyword::To => ("TO", Some(Keyword::While)),
        Keyword::While => ("WHILE", Some(Keyword::Word)),
        Keyword::Word => ("WORD", Some(Keyword::Xor)),
        Keyword::Xor => ("XOR", None),
        Keyword::Address | Keyword::And | Keyword::At | Keyword::Based => ("", None),
        Keyword::By | Keyword::Byte | Keyword::Call | Keyword::Case => ("", None),
        Keyword::Data | Keyword::Declare | Keyword::Disable | Keyword::Do => ("", None),
        Keyword::Dword | Keyword::Else | Keyword::Enable | Keyword::End => ("", None),
        Keyword::External | Keyword::Go | Keyword::Goto | Keyword::Halt => ("", None),
        Keyword::If | Keyword::Initial => ("", None),
    }
}

/// Adds the marks.
fn push_marks(all: &mut Vec<Candidate>) -> Result<(), AllocError> {
    let mut next = Some(Mark::Equal);
    for _step in 0..u8::MAX {
        let Some(mark) = next else {
            return Ok(());
        };
        let (text, after) = mark_row(mark);
        let kind = Kind::Special(mark);
        all.push(Candidate { kind, text })?;
        next = after;
    }
    Ok(())
}

/// Adds the reserved words but those that the profile leaves out, which stand nowhere.
fn push_words(all: &mut Vec<Candidate>) -> Result<(), AllocError> {
    let mut next = Some(Keyword::Address);
    for _step in 0..u8::MAX {
        let Some(word) = next else {
            return Ok(());
        };
        let (text, after) = word_row(word);
        let kind = Kind::Reserved(word);
        if use_of(kind) != Use::LeftOut {
            all.push(Candidate { kind, text })?;
        }
        next = after;
    }
    Ok(())
}

/// The tokens that are tried, one of each sort.
pub(crate) fn candidates(alloc: Global) -> Result<Vec<Candidate>, AllocError> {
    let mut all = Vec::new(alloc);
    all.push(NAME)?;
    all.push(NUMBER)?;
    all.push(STRING)?;
    push_marks(&mut all)?;
    push_words(&mut all)?;
    Ok(all)
}
