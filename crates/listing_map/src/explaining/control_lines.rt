//! Control lines, which have no effect.

use crate::explaining::pieces::{Piece, pieces};
use crate::explaining::sentence::{Part, sentence};
use plm_token::{normal, same_name};
use std::alloc::{AllocError, Global};

/// A control: its word with the dollar sign, and the line on which it stands first.
#[derive(Clone, Copy)]
pub struct Control<'a> {
    pub word: &'a [u8],
    pub line: u32,
}

impl Control<'_> {
    /// What is said of it. Want of memory is the one error.
    pub fn words(&self, alloc: Global) -> Result<Vec<u8>, AllocError> {
        let parts = [Part::Spelled(self.word), Part::Words(" has no effect here")];
        sentence(alloc, &parts).whole()
    }
}

/// Whether a line of a text may begin with a dollar sign: most texts have none, and need not be gone through for controls.
fn has_dollar_line(text: &[u8]) -> bool {
    let mut before = b'\n';
    for byte in text {
        if *byte == b'$' && before == b'\n' {
            return true;
        }
        before = *byte;
    }
    false
}

/// The dollar sign and the letters and digits after it.
fn word_of<'a>(text: &'a [u8]) -> &'a [u8] {
    for (at, byte) in text.iter().enumerate() {
        if at > 0 && !byte.is_ascii_alphanumeric() {
            return &text[..at];
        }
    }
    text
}

/// The word of a control line.
fn control_in<'a>(piece: &Piece<'a>) -> Option<Control<'a>> {
    match piece.text {
        [b'$', ..] if piece.column == 0 => Some(Control {
            word: word_of(piece.text),
            line: piece.line,
        }),
        _ => None,
    }
}

/// The controls of a text, one after another.
fn all_controls<'a>(alloc: Global, text: &'a [u8]) -> Result<Vec<Control<'a>>, AllocError> {
    let mut all: Vec<Control<'a>> = Vec::new(alloc);
    for piece in pieces(alloc, text)? {
        if let Some(found) = control_in(&piece) {
            // A line that includes a file is refused, and has no note.
            if !same_name(found.word, b"INCLUDE") {
                all.push(found)?;
            }
        }
    }
    Ok(all)
}

/// The words of controls in normal form, in the order of their letters, each with the numbers of its controls in order.
fn by_words(alloc: Global, all: &[Control<'_>]) -> Result<Vec<(Vec<u8>, usize)>, AllocError> {
    let mut words: Vec<(Vec<u8>, usize)> = Vec::new(alloc);
    for (number, control) in all.iter().enumerate() {
        words.push((normal(alloc, control.word)?, number))?;
    }
    words.sort()?;
    Ok(words)
}

/// The numbers of the controls that are the first of their word, in order.
fn firsts(alloc: Global, words: &[(Vec<u8>, usize)]) -> Result<Vec<usize>, AllocError> {
    let mut firsts: Vec<usize> = Vec::new(alloc);
    let mut before: Option<&Vec<u8>> = None;
    for (word, number) in words {
        if before != Some(word) {
            firsts.push(*number)?;
        }
        before = Some(word);
    }
    firsts.sort()?;
    Ok(firsts)
}

/// The controls of a text, each once, where it stands first. Want of memory is its one error.
pub fn controls<'a>(alloc: Global, text: &'a [u8]) -> Result<Vec<Control<'a>>, AllocError> {
    if !has_dollar_line(text) {
        return Ok(Vec::new(alloc));
    }
    let all = all_controls(alloc, text)?;
    let words = by_words(alloc, &all)?;
    let mut once: Vec<Control<'a>> = Vec::new(alloc);
    for number in firsts(alloc, &words)? {
        if let Some(control) = all.get(number) {
            once.push(*control)?;
        }
    }
    Ok(once)
}
