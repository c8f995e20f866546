//! Sentences, put together of words, names and numbers.

use crate::noted::Noted;
use crate::window::beginning;
use itoa::Buffer;
use std::alloc::Global;

/// A part of a sentence.
#[derive(Clone, Copy)]
pub(crate) enum Part<'a> {
    Words(&'a str),
    /// A name, a token or a line, as a source spells it; of a long one its beginning.
    Spelled(&'a [u8]),
    Number(u64),
}

/// Adds a part.
fn put(text: &mut Noted<u8>, part: Part<'_>) {
    match part {
        Part::Words(words) => text.put(words.as_bytes()),
        Part::Spelled(bytes) => {
            let (front, rest) = beginning(bytes);
            text.put(front);
            text.put(rest);
        }
        Part::Number(number) => {
            let mut buffer = Buffer::new();
            text.put(buffer.format(number).as_bytes());
        }
    }
}

/// Adds parts, one after another.
pub(crate) fn put_all_parts(text: &mut Noted<u8>, parts: &[Part<'_>]) {
    for part in parts {
        put(text, *part);
    }
}

/// The parts, one after another.
pub(crate) fn sentence(alloc: Global, parts: &[Part<'_>]) -> Noted<u8> {
    let mut text = Noted::new(alloc);
    put_all_parts(&mut text, parts);
    text
}

/// What stands around a token in a sentence: marks in quotation marks, other tokens in nothing.
pub(crate) fn quotation(token: &[u8]) -> &'static str {
    match token {
        [b'A'..=b'Z' | b'a'..=b'z' | b'0'..=b'9' | b'\'', ..] => "",
        _ => "\"",
    }
}

/// What stands between the items of a list of so many, before the item of this number: nothing, a comma, or `last`.
pub(crate) fn separator(number: usize, count: usize, last: &'static str) -> &'static str {
    if number == 0 {
        ""
    } else if number < count - count.min(1) {
        ", "
    } else {
        last
    }
}
