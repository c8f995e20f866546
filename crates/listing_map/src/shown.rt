//! How texts of files are shown to people: what a terminal could obey is a question mark.

ghost use Rattle.std.specs.Prelude.{◌≡◌, ◌++◌, ◌<◌, IfOk, OnOk, true, length, map};
ghost use Rattle.listing_map.specs.Messages.{blank, is_ascii, is_letter, shown, shown_character, shown_text};

use std::alloc::{AllocError, Global};
use std::str::from_utf8;
use unicode_width::{UnicodeWidthChar, UnicodeWidthStr};

/// A character of ASCII as it is shown: a control character except a tab is a question mark.
fn shown(byte: u8) -> u8
    ensures { result ≡ shown byte }
{
    if byte == b'\t' || (31 < byte && byte < 127) {
        byte
    } else {
        b'?'
    }
}

/// Whether a character is a letter or a digit of some script. Marks that change how the text around them is shown are neither.
fn is_letter(character: char) -> bool
    ensures { result ≡ is_letter character }
{
    character.is_alphanumeric()
}

/// Adds a character as it is shown.
fn put_character(text: &mut Vec<u8>, character: char) -> Result<(), AllocError>
    ensures { OnOk result (text.new.items ≡ text.old.items ++ shown_character character) }
{
    let code = character as u32;
    if code < 128 {
        return Ok(text.push(shown(code as u8))?);
    }
    if !is_letter(character) {
        return Ok(text.push(b'?')?);
    }
    let mut bytes = [0u8; 4];
    text.extend_from_slice(character.encode_utf8(&mut bytes).as_bytes())
}

/// A text as it is shown: of what is not UTF-8 each part is a question mark.
pub(crate) fn shown_text(alloc: Global, text: &[u8]) -> Result<Vec<u8>, AllocError>
    ensures { IfOk result (λ v. v.items ≡ shown_text text.now) }
{
    let characters = String::from_utf8_lossy(alloc, text)?;
    let mut shown = Vec::new(alloc);
    for character in characters.as_str().chars() {
        put_character(&mut shown, character)?;
    }
    Ok(shown)
}

/// Whether a text is ASCII throughout.
fn is_ascii(text: &[u8]) -> bool
    ensures { result ≡ is_ascii text.now }
{
    for byte in text {
        if *byte >= 128 {
            return false;
        }
    }
    true
}

/// What is as wide as a byte of ASCII and shows nothing: a tab stays.
fn blank(byte: u8) -> u8
    ensures { result ≡ blank byte }
{
    if byte == b'\t' { b'\t' } else { b' ' }
}

/// Blanks that are as wide as a text of ASCII.
fn blanks_of_bytes(alloc: Global, text: &[u8]) -> Result<Vec<u8>, AllocError>
    ensures { IfOk result (λ v. v.items ≡ map blank text.now) }
{
    let mut blanks = Vec::new(alloc);
    for byte in text {
        blanks.push(blank(*byte))?;
    }
    Ok(blanks)
}

/// Adds blanks that are as wide as a character.
fn put_blanks(blanks: &mut Vec<u8>, character: char) -> Result<(), AllocError> {
    if character == '\t' {
        return Ok(blanks.push(b'\t')?);
    }
    for _column in 0..character.width().unwrap_or(1) {
        blanks.push(b' ')?;
    }
    Ok(())
}

/// Blanks that are as wide as a text of whatever characters.
fn blanks_of_characters(alloc: Global, text: &[u8]) -> Result<Vec<u8>, AllocError> {
    let Ok(characters) = from_utf8(text) else {
        return blanks_of_bytes(alloc, text);
    };
    let mut blanks = Vec::new(alloc);
    for character in characters.chars() {
        put_blanks(&mut blanks, character)?;
    }
    Ok(blanks)
}

/// Blanks that are as wide as a text; its tabs stay.
pub(crate) fn blanks(alloc: Global, text: &[u8]) -> Result<Vec<u8>, AllocError>
    ensures { is_ascii text.now ≡ true → IfOk result (λ v. v.items ≡ map blank text.now) }
{
    if is_ascii(text) {
        blanks_of_bytes(alloc, text)
    } else {
        blanks_of_characters(alloc, text)
    }
}

/// How many columns a text takes, one at least.
pub(crate) fn columns(text: &[u8]) -> usize
    ensures least { 0 < result }
    ensures bytes { is_ascii text.now ≡ true → 0 < length text.now → result ≡ length text.now }
{
    if is_ascii(text) {
        return text.len().max(1);
    }
    match from_utf8(text) {
        Ok(characters) => characters.width().max(1),
        Err(_) => text.len().max(1),
    }
}
